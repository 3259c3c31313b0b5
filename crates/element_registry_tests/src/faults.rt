//! The first fault of a file, and its line.

use element_registry::{Elements, ElementsFault, add_file};
use std::alloc::{AllocError, Global};
use std::test::*;

// How many elements a file says, and the line of the first unknown type; or the fault and its line.
fn outcome(alloc: Global, text: &str) -> Result<String, AllocError> {
    match add_file(alloc, Elements::built_in(alloc), text.as_bytes()) {
        Ok(added) => {
            let count = added.elements.entries().len();
            let line = added.unknown_type.unwrap_or(0);
            format!(in alloc; "{count}, {line}")
        }
        Err(error) => fault_text(alloc, error.line, error.fault),
    }
}

fn fault_text(alloc: Global, line: u64, fault: ElementsFault) -> Result<String, AllocError> {
    let column = match fault {
        ElementsFault::Column(heading) => heading.name(),
        _ => "",
    };
    format!(in alloc; "line {line}: {} {}{column}", fault.number(), fault.name())
}

#[test]
fn refuses_first_lines(rt: HostRuntime) -> Result<(), Fail> {
    for (text, want) in [
        ("", "line 1: 3 ColumnElementID"),
        ("\n", "line 1: 3 ColumnElementID"),
        ("Name,Abstract Data Type\n", "line 1: 3 ColumnElementID"),
        (
            "ElementID,NAME,Abstract Data Type\n",
            "line 1: 3 ColumnName",
        ),
        (
            "ElementID,Name,Type\n",
            "line 1: 3 ColumnAbstract Data Type",
        ),
        ("ElementID,Name,Abstract Data Type", "0, 0"),
        ("ElementID,Name,Abstract Data Type\r\n", "0, 0"),
    ] {
        assert_eq!(rt; outcome(rt.alloc(), text)?.as_str(), want, "{text}");
    }
    Ok(())
}

// The outcome of a file with these rows.
fn of_rows(alloc: Global, rows: &str) -> Result<String, AllocError> {
    let text = format!(in alloc; "Enterprise,ElementID,Name,Abstract Data Type\n{rows}")?;
    outcome(alloc, text.as_str())
}

#[test]
fn refuses_rows(rt: HostRuntime) -> Result<(), Fail> {
    for (rows, want) in [
        (",82,interfaceName", "line 2: 2 NotCsv"),
        (",82,interfaceName,string,current", "line 2: 2 NotCsv"),
        (",82-83,interfaceName,string", "line 2: 4 Number"),
        (",082,interfaceName,string", "line 2: 4 Number"),
        (",+82,interfaceName,string", "line 2: 4 Number"),
        (",,interfaceName,string", "line 2: 4 Number"),
        (",32768,interfaceName,string", "line 2: 4 Number"),
        ("x,32768,interface Name,string", "line 2: 4 Number"),
        ("x,82,interface Name,string", "line 2: 5 Enterprise"),
        ("4294967296,82,interfaceName,string", "line 2: 5 Enterprise"),
        (",82,interface Name,string", "line 2: 6 Name"),
        (",82,2ndName,string", "line 2: 6 Name"),
        (",82,,string", "line 2: 6 Name"),
        (",82,start,string", "line 2: 6 Name"),
        (",82,end,string", "line 2: 6 Name"),
        ("32473,82,flows,string", "line 2: 6 Name"),
        (",82,a,string\n,82,b,string", "line 3: 7 NumberTwice"),
        (",82,a,string\n,82,a,string", "line 3: 7 NumberTwice"),
        (",82,a,string\n,83,a,string", "line 3: 8 NameTwice"),
        (",82,octetDeltaCount,string", "line 2: 8 NameTwice"),
        (",82,a,string\n32473,82,a,string\n32473,83,A,string", "3, 0"),
    ] {
        assert_eq!(rt; of_rows(rt.alloc(), rows)?.as_str(), want, "{rows}");
    }
    Ok(())
}

#[test]
fn passes_rows_over(rt: HostRuntime) -> Result<(), Fail> {
    for (rows, want) in [
        (
            ",0,Reserved,\n,105-127,Assigned for NetFlow v9 compatibility,",
            "0, 0",
        ),
        (",511-32767,Unassigned,\n,82,interfaceName,string", "1, 0"),
        (",8,2nd Name,no type", "0, 2"),
        (
            ",82,interfaceName,string\n32473,1,aNumber,unsigned256",
            "2, 3",
        ),
    ] {
        assert_eq!(rt; of_rows(rt.alloc(), rows)?.as_str(), want, "{rows}");
    }
    Ok(())
}

#[test]
fn counts_lines(rt: HostRuntime) -> Result<(), Fail> {
    for (rows, want) in [
        ("\n\r\n,x,interfaceName,string", "line 4: 4 Number"),
        (
            ",0,\"Res\nerved\",\n,x,interfaceName,string",
            "line 4: 4 Number",
        ),
        (
            ",0,Reserved,\r\n,0,Reserved,\r\n,x,interfaceName,string",
            "line 4: 4 Number",
        ),
        (
            ",0,Reserved,\n,y,a,string\n,x,b c,string",
            "line 3: 4 Number",
        ),
    ] {
        assert_eq!(rt; of_rows(rt.alloc(), rows)?.as_str(), want, "{rows}");
    }
    Ok(())
}

// A row whose name has this many letters.
fn long_name(alloc: Global, length: u64) -> Result<String, AllocError> {
    let mut row = String::from_str(alloc, ",82,")?;
    for _ in 0..length {
        row.push_str("a")?;
    }
    row.push_str(",string")?;
    Ok(row)
}

// As many rows of elements of the enterprise 32473.
fn many_rows(alloc: Global, count: u16) -> Result<String, AllocError> {
    let mut rows = String::new(alloc);
    for number in 0..count {
        rows.push_str(format!(in alloc; "32473,{number},n{number},string\n")?.as_str())?;
    }
    Ok(rows)
}

#[test]
fn has_limits(rt: HostRuntime) -> Result<(), Fail> {
    let alloc = rt.alloc();
    assert_eq!(rt;
        of_rows(alloc, long_name(alloc, 64)?.as_str())?.as_str(),
        "1, 0"
    );
    assert_eq!(rt;
        of_rows(alloc, long_name(alloc, 65)?.as_str())?.as_str(),
        "line 2: 6 Name"
    );
    let many = many_rows(alloc, 16385)?;
    assert_eq!(rt;
        of_rows(alloc, many.as_str())?.as_str(),
        "line 16386: 9 TooMany"
    );
    Ok(())
}
