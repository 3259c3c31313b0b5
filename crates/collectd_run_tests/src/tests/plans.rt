//! Plans that are read from texts in memory, and the lines of a plan's fault.

ghost use Rattle.std.specs.Prelude.{◌≡◌, ⊤, string_bytes};

use super::sessions::BY_SOURCE;
use collectd::{ReadText, Reason, Verbosity, load_plan, write_plan_fault};
use element_registry::Elements;
use flow_plan::PlanTextError;
use std::alloc::Global;
use std::test::Fail;

// A text in memory, and the only path that has it.
#[derive(Drop)]
struct OneText {
    path: String,
    octets: Vec<u8>,
}

impl ReadText for OneText {
    ghost has = { λ text path octets. (string_bytes text.path ≡ path) × (text.octets.items ≡ octets) };

    ghost refuses = { λ _ _ _. ⊤ };

    fn read_text(&self, alloc: Global, path: &str) -> Result<Vec<u8>, Reason> {
        if self.path.as_str() != path {
            return Err(Reason::NoSuchFile);
        }
        Vec::from_slice(alloc, &self.octets).map_err(|_| Reason::OutOfMemory)
    }
}

// What is told of the plan of octets at the path "plan" that is read at this path, and after it the plan's
// length, if there is one.
fn loaded(alloc: Global, octets: &[u8], path: &str, verbose: bool) -> Result<Vec<u8>, Fail> {
    let text = OneText {
        path: String::from_str(alloc, "plan")?,
        octets: Vec::from_slice(alloc, octets)?,
    };
    let verbosity = Verbosity {
        verbose,
        strict: false,
    };
    let mut err = Vec::new(alloc);
    let elements = Elements::built_in(alloc);
    if let Some(loaded) = load_plan(&text, alloc, elements, path, verbosity, &mut err) {
        let length = format!(in alloc; "{}", loaded.read.plan.length())?;
        err.extend_from_slice(length.as_bytes())?;
    }
    Ok(err)
}

#[test]
fn loads_plans_of_texts(rt: HostRuntime) -> Result<(), Fail> {
    let plan = BY_SOURCE.as_bytes();
    for (path, octets, verbose, want) in [
        ("plan", plan, true, "60000"),
        ("none", plan, false, "collectd: open: none\n"),
        ("none", plan, true, "collectd: open: none: no such file\n"),
        (
            "plan",
            b"\n\xff".as_slice(),
            false,
            "collectd: plan: fault 1 NotToml\ncollectd: plan: line 2: not UTF-8\n",
        ),
    ] {
        let text = loaded(rt.alloc(), octets, path, verbose)?;
        assert_eq!(rt; text.as_slice(), want.as_bytes());
    }
    Ok(())
}

#[test]
fn want_of_memory_has_one_line(rt: HostRuntime) -> Result<(), Fail> {
    let mut out = Vec::new(rt.alloc());
    let elements = Elements::built_in(rt.alloc());
    write_plan_fault(&elements, &PlanTextError::OutOfMemory, &mut out)?;
    assert_eq!(rt;
        out.as_slice(),
        b"collectd: plan: fault 7 OutOfMemory\n".as_slice()
    );
    Ok(())
}
