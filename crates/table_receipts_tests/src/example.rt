//! A receipt, and its text: the digests by `sha256sum`, the text by another writer of JSON.

use std::alloc::{AllocError, Global};
use table_receipts::{
    CounterSum, DomainReceipt, ExporterReceipt, FileReceipt, InputReceipt, MergedInterval,
    MergedInto, Receipt, RecordCounts, TableFormat, TableReceipt,
};

/// The text of the receipt.
pub const TEXT: &str =
    "{\"receipt\":1,\"collectd\":\"1.2.3\",\"plan\":{\"text\":\"keys = [\\\"sourceIPv4Address\\\"]\\ncounters = [\\\"octetDeltaCount\\\"]\\n\",\"sha256\":\"28fce7cafeca2a590dced55c4ae543f79c3b5cc80353f9c2a2ad33adac2eda8b\"},\"elements\":[{\"name\":\"site.csv\",\"octets\":5,\"sha256\":\"ba1759da69db12eb17bd9914d1f27d9674eae0e2c47ea5fadef5bdf07de02d53\"}],\"maps\":[{\"name\":\"plans/customers.csv\",\"octets\":33,\"sha256\":\"3f2714a4b79a100b88a7943bea47872580884a1c397f5aae849dcdf645badf39\"}],\"inputs\":[{\"name\":\"a.ipfix\",\"octets\":68,\"sha256\":\"ca978112ca1bbdcafac231b39a23dc4da786eff8147c4e72b9807785afee48bb\",\"messages\":1,\"records\":1,\"fault\":null,\"domains\":[{\"domain\":1,\"lost\":0,\"backward\":0,\"unaccounted\":0,\"unknown_sets\":0}]},{\"name\":\"b \\\"q\\\" é.ipfix\",\"octets\":0,\"sha256\":\"e3b0c44298fc1c149afbf4c8996fb92427ae41e4649b934ca495991b7852b855\",\"messages\":0,\"records\":0,\"fault\":\"ReadFailed\",\"domains\":[],\"exporter\":null},{\"name\":\"192.0.2.1:40000\",\"octets\":\"18446744073709551615\",\"sha256\":\"2e7d2c03a9507ae265ecf5b5356885a53393a2029d241394997265a1a25aefc6\",\"messages\":9007199254740991,\"records\":\"9007199254740992\",\"fault\":\"Truncated\",\"domains\":[{\"domain\":4294967295,\"lost\":7,\"backward\":1,\"unaccounted\":2,\"unknown_sets\":3},{\"domain\":0,\"lost\":0,\"backward\":0,\"unaccounted\":0,\"unknown_sets\":1}],\"exporter\":\"2001:0db8:0000:0000:0000:0000:0000:0001\"}],\"records\":{\"used\":1,\"options\":2,\"untimed\":3,\"backward\":4,\"unkeyed\":5,\"too_long\":6},\"table\":{\"format\":\"ipfix\",\"time\":1700000000,\"octets\":100,\"sha256\":\"e3b98a4da31a127d4bde6e43033f66ba274cab0eb7eb1c70ec41402bf6273dd8\",\"rows\":1,\"sums\":[{\"name\":\"octetDeltaCount\",\"sum\":1500},{\"name\":\"packetDeltaCount\",\"sum\":\"340282366920938463463374607431768211455\"}],\"flows\":1},\"complete\":false,\"sha256\":\"dba5a8cc1155d900a328877e2a6be07762c2c606a70c381a3a0fd9f8003824fb\"}";

/// The text of the receipt that says of two inputs that they were left out.
pub const TEXT_OF_THE_REST: &str =
    "{\"receipt\":1,\"collectd\":\"1.2.3\",\"plan\":{\"text\":\"keys = [\\\"sourceIPv4Address\\\"]\\ncounters = [\\\"octetDeltaCount\\\"]\\n\",\"sha256\":\"28fce7cafeca2a590dced55c4ae543f79c3b5cc80353f9c2a2ad33adac2eda8b\"},\"elements\":[{\"name\":\"site.csv\",\"octets\":5,\"sha256\":\"ba1759da69db12eb17bd9914d1f27d9674eae0e2c47ea5fadef5bdf07de02d53\"}],\"maps\":[{\"name\":\"plans/customers.csv\",\"octets\":33,\"sha256\":\"3f2714a4b79a100b88a7943bea47872580884a1c397f5aae849dcdf645badf39\"}],\"inputs\":[{\"name\":\"a.ipfix\",\"octets\":68,\"sha256\":\"ca978112ca1bbdcafac231b39a23dc4da786eff8147c4e72b9807785afee48bb\",\"messages\":1,\"records\":1,\"fault\":null,\"domains\":[{\"domain\":1,\"lost\":0,\"backward\":0,\"unaccounted\":0,\"unknown_sets\":0}]},{\"name\":\"b \\\"q\\\" é.ipfix\",\"octets\":0,\"sha256\":\"e3b0c44298fc1c149afbf4c8996fb92427ae41e4649b934ca495991b7852b855\",\"messages\":0,\"records\":0,\"fault\":\"ReadFailed\",\"domains\":[],\"exporter\":null},{\"name\":\"192.0.2.1:40000\",\"octets\":\"18446744073709551615\",\"sha256\":\"2e7d2c03a9507ae265ecf5b5356885a53393a2029d241394997265a1a25aefc6\",\"messages\":9007199254740991,\"records\":\"9007199254740992\",\"fault\":\"Truncated\",\"domains\":[{\"domain\":4294967295,\"lost\":7,\"backward\":1,\"unaccounted\":2,\"unknown_sets\":3},{\"domain\":0,\"lost\":0,\"backward\":0,\"unaccounted\":0,\"unknown_sets\":1}],\"exporter\":\"2001:0db8:0000:0000:0000:0000:0000:0001\"}],\"records\":{\"used\":1,\"options\":2,\"untimed\":3,\"backward\":4,\"unkeyed\":5,\"too_long\":6},\"table\":{\"format\":\"ipfix\",\"time\":1700000000,\"octets\":100,\"sha256\":\"e3b98a4da31a127d4bde6e43033f66ba274cab0eb7eb1c70ec41402bf6273dd8\",\"rows\":1,\"sums\":[{\"name\":\"octetDeltaCount\",\"sum\":1500},{\"name\":\"packetDeltaCount\",\"sum\":\"340282366920938463463374607431768211455\"}],\"flows\":1},\"left_out\":[\"second \\\"one\\\"\",\"first\"],\"complete\":false,\"sha256\":\"c174d844021f717b150f88d735d9fd4661a5db6234bddf2795932da9b9fc01b2\"}";

/// The text of the receipt whose rows were merged into months.
pub const TEXT_OF_MONTHS: &str =
    "{\"receipt\":1,\"collectd\":\"1.2.3\",\"plan\":{\"text\":\"keys = [\\\"sourceIPv4Address\\\"]\\ncounters = [\\\"octetDeltaCount\\\"]\\n\",\"sha256\":\"28fce7cafeca2a590dced55c4ae543f79c3b5cc80353f9c2a2ad33adac2eda8b\"},\"elements\":[{\"name\":\"site.csv\",\"octets\":5,\"sha256\":\"ba1759da69db12eb17bd9914d1f27d9674eae0e2c47ea5fadef5bdf07de02d53\"}],\"maps\":[{\"name\":\"plans/customers.csv\",\"octets\":33,\"sha256\":\"3f2714a4b79a100b88a7943bea47872580884a1c397f5aae849dcdf645badf39\"}],\"inputs\":[{\"name\":\"a.ipfix\",\"octets\":68,\"sha256\":\"ca978112ca1bbdcafac231b39a23dc4da786eff8147c4e72b9807785afee48bb\",\"messages\":1,\"records\":1,\"fault\":null,\"domains\":[{\"domain\":1,\"lost\":0,\"backward\":0,\"unaccounted\":0,\"unknown_sets\":0}]},{\"name\":\"b \\\"q\\\" é.ipfix\",\"octets\":0,\"sha256\":\"e3b0c44298fc1c149afbf4c8996fb92427ae41e4649b934ca495991b7852b855\",\"messages\":0,\"records\":0,\"fault\":\"ReadFailed\",\"domains\":[],\"exporter\":null},{\"name\":\"192.0.2.1:40000\",\"octets\":\"18446744073709551615\",\"sha256\":\"2e7d2c03a9507ae265ecf5b5356885a53393a2029d241394997265a1a25aefc6\",\"messages\":9007199254740991,\"records\":\"9007199254740992\",\"fault\":\"Truncated\",\"domains\":[{\"domain\":4294967295,\"lost\":7,\"backward\":1,\"unaccounted\":2,\"unknown_sets\":3},{\"domain\":0,\"lost\":0,\"backward\":0,\"unaccounted\":0,\"unknown_sets\":1}],\"exporter\":\"2001:0db8:0000:0000:0000:0000:0000:0001\"}],\"records\":{\"used\":1,\"options\":2,\"untimed\":3,\"backward\":4,\"unkeyed\":5,\"too_long\":6},\"table\":{\"format\":\"ipfix\",\"time\":1700000000,\"into\":\"month\",\"zone\":\"Europe/Zurich\",\"octets\":100,\"sha256\":\"e3b98a4da31a127d4bde6e43033f66ba274cab0eb7eb1c70ec41402bf6273dd8\",\"rows\":1,\"sums\":[{\"name\":\"octetDeltaCount\",\"sum\":1500},{\"name\":\"packetDeltaCount\",\"sum\":\"340282366920938463463374607431768211455\"}],\"flows\":1},\"complete\":false,\"sha256\":\"451c2179a88601acff231e9e4c7dc3bc6017c6d72fa3fc83e385626ae1c8720c\"}";

/// The same of weeks, into which no rows are merged, with its own SHA-256.
pub const TEXT_OF_WEEKS: &str =
    "{\"receipt\":1,\"collectd\":\"1.2.3\",\"plan\":{\"text\":\"keys = [\\\"sourceIPv4Address\\\"]\\ncounters = [\\\"octetDeltaCount\\\"]\\n\",\"sha256\":\"28fce7cafeca2a590dced55c4ae543f79c3b5cc80353f9c2a2ad33adac2eda8b\"},\"elements\":[{\"name\":\"site.csv\",\"octets\":5,\"sha256\":\"ba1759da69db12eb17bd9914d1f27d9674eae0e2c47ea5fadef5bdf07de02d53\"}],\"maps\":[{\"name\":\"plans/customers.csv\",\"octets\":33,\"sha256\":\"3f2714a4b79a100b88a7943bea47872580884a1c397f5aae849dcdf645badf39\"}],\"inputs\":[{\"name\":\"a.ipfix\",\"octets\":68,\"sha256\":\"ca978112ca1bbdcafac231b39a23dc4da786eff8147c4e72b9807785afee48bb\",\"messages\":1,\"records\":1,\"fault\":null,\"domains\":[{\"domain\":1,\"lost\":0,\"backward\":0,\"unaccounted\":0,\"unknown_sets\":0}]},{\"name\":\"b \\\"q\\\" é.ipfix\",\"octets\":0,\"sha256\":\"e3b0c44298fc1c149afbf4c8996fb92427ae41e4649b934ca495991b7852b855\",\"messages\":0,\"records\":0,\"fault\":\"ReadFailed\",\"domains\":[],\"exporter\":null},{\"name\":\"192.0.2.1:40000\",\"octets\":\"18446744073709551615\",\"sha256\":\"2e7d2c03a9507ae265ecf5b5356885a53393a2029d241394997265a1a25aefc6\",\"messages\":9007199254740991,\"records\":\"9007199254740992\",\"fault\":\"Truncated\",\"domains\":[{\"domain\":4294967295,\"lost\":7,\"backward\":1,\"unaccounted\":2,\"unknown_sets\":3},{\"domain\":0,\"lost\":0,\"backward\":0,\"unaccounted\":0,\"unknown_sets\":1}],\"exporter\":\"2001:0db8:0000:0000:0000:0000:0000:0001\"}],\"records\":{\"used\":1,\"options\":2,\"untimed\":3,\"backward\":4,\"unkeyed\":5,\"too_long\":6},\"table\":{\"format\":\"ipfix\",\"time\":1700000000,\"into\":\"week\",\"zone\":\"Europe/Zurich\",\"octets\":100,\"sha256\":\"e3b98a4da31a127d4bde6e43033f66ba274cab0eb7eb1c70ec41402bf6273dd8\",\"rows\":1,\"sums\":[{\"name\":\"octetDeltaCount\",\"sum\":1500},{\"name\":\"packetDeltaCount\",\"sum\":\"340282366920938463463374607431768211455\"}],\"flows\":1},\"complete\":false,\"sha256\":\"19a2cdd01161828bd822fb236abc29256e442b8277aa42702102f10907b0a92d\"}";

const PLAN: &str = "keys = [\"sourceIPv4Address\"]\ncounters = [\"octetDeltaCount\"]\n";

const SITE: [u8; 32] = [
    0xba, 0x17, 0x59, 0xda, 0x69, 0xdb, 0x12, 0xeb, 0x17, 0xbd, 0x99, 0x14, 0xd1, 0xf2, 0x7d, 0x96,
    0x74, 0xea, 0xe0, 0xe2, 0xc4, 0x7e, 0xa5, 0xfa, 0xde, 0xf5, 0xbd, 0xf0, 0x7d, 0xe0, 0x2d, 0x53,
];

const CUSTOMERS: [u8; 32] = [
    0x3f, 0x27, 0x14, 0xa4, 0xb7, 0x9a, 0x10, 0x0b, 0x88, 0xa7, 0x94, 0x3b, 0xea, 0x47, 0x87, 0x25,
    0x80, 0x88, 0x4a, 0x1c, 0x39, 0x7f, 0x5a, 0xae, 0x84, 0x9d, 0xcd, 0xf6, 0x45, 0xba, 0xdf, 0x39,
];

const A: [u8; 32] = [
    0xca, 0x97, 0x81, 0x12, 0xca, 0x1b, 0xbd, 0xca, 0xfa, 0xc2, 0x31, 0xb3, 0x9a, 0x23, 0xdc, 0x4d,
    0xa7, 0x86, 0xef, 0xf8, 0x14, 0x7c, 0x4e, 0x72, 0xb9, 0x80, 0x77, 0x85, 0xaf, 0xee, 0x48, 0xbb,
];

const NOTHING: [u8; 32] = [
    0xe3, 0xb0, 0xc4, 0x42, 0x98, 0xfc, 0x1c, 0x14, 0x9a, 0xfb, 0xf4, 0xc8, 0x99, 0x6f, 0xb9, 0x24,
    0x27, 0xae, 0x41, 0xe4, 0x64, 0x9b, 0x93, 0x4c, 0xa4, 0x95, 0x99, 0x1b, 0x78, 0x52, 0xb8, 0x55,
];

const C: [u8; 32] = [
    0x2e, 0x7d, 0x2c, 0x03, 0xa9, 0x50, 0x7a, 0xe2, 0x65, 0xec, 0xf5, 0xb5, 0x35, 0x68, 0x85, 0xa5,
    0x33, 0x93, 0xa2, 0x02, 0x9d, 0x24, 0x13, 0x94, 0x99, 0x72, 0x65, 0xa1, 0xa2, 0x5a, 0xef, 0xc6,
];

const T: [u8; 32] = [
    0xe3, 0xb9, 0x8a, 0x4d, 0xa3, 0x1a, 0x12, 0x7d, 0x4b, 0xde, 0x6e, 0x43, 0x03, 0x3f, 0x66, 0xba,
    0x27, 0x4c, 0xab, 0x0e, 0xb7, 0xeb, 0x1c, 0x70, 0xec, 0x41, 0x40, 0x2b, 0xf6, 0x27, 0x3d, 0xd8,
];

fn file(
    alloc: Global,
    name: &str,
    octets: u64,
    sha256: [u8; 32],
) -> Result<FileReceipt, AllocError> {
    Ok(FileReceipt {
        name: String::from_str(alloc, name)?,
        octets,
        sha256,
    })
}

fn domain(
    domain: u32,
    lost: u64,
    backward: u64,
    unaccounted: u64,
    unknown_sets: u64,
) -> DomainReceipt {
    DomainReceipt {
        domain,
        lost,
        backward,
        unaccounted,
        unknown_sets,
    }
}

fn first(alloc: Global) -> Result<InputReceipt, AllocError> {
    Ok(InputReceipt {
        file: file(alloc, "a.ipfix", 68, A)?,
        messages: 1,
        records: 1,
        fault: None,
        domains: Vec::from_slice(alloc, &[domain(1, 0, 0, 0, 0)])?,
        exporter: ExporterReceipt::NotAsked,
    })
}

fn second(alloc: Global) -> Result<InputReceipt, AllocError> {
    Ok(InputReceipt {
        file: file(alloc, "b \"q\" é.ipfix", 0, NOTHING)?,
        messages: 0,
        records: 0,
        fault: Some(String::from_str(alloc, "ReadFailed")?),
        domains: Vec::new(alloc),
        exporter: ExporterReceipt::Unknown,
    })
}

fn third(alloc: Global) -> Result<InputReceipt, AllocError> {
    Ok(InputReceipt {
        file: file(alloc, "192.0.2.1:40000", u64::MAX, C)?,
        messages: 9007199254740991,
        records: 9007199254740992,
        fault: Some(String::from_str(alloc, "Truncated")?),
        domains: Vec::from_slice(
            alloc,
            &[domain(u32::MAX, 7, 1, 2, 3), domain(0, 0, 0, 0, 1)],
        )?,
        exporter: ExporterReceipt::Address(String::from_str(
            alloc,
            "2001:0db8:0000:0000:0000:0000:0000:0001",
        )?),
    })
}

fn sum(alloc: Global, name: &str, sum: u128) -> Result<CounterSum, AllocError> {
    Ok(CounterSum {
        name: String::from_str(alloc, name)?,
        sum,
    })
}

fn table(alloc: Global) -> Result<TableReceipt, AllocError> {
    let mut sums = Vec::new(alloc);
    sums.push(sum(alloc, "octetDeltaCount", 1500)?)?;
    sums.push(sum(alloc, "packetDeltaCount", u128::MAX)?)?;
    Ok(TableReceipt {
        format: TableFormat::Ipfix,
        time: 1700000000,
        into: None,
        octets: 100,
        sha256: T,
        rows: 1,
        sums,
        flows: 1,
    })
}

/// The receipt.
pub fn receipt(alloc: Global) -> Result<Receipt, AllocError> {
    let mut elements = Vec::new(alloc);
    elements.push(file(alloc, "site.csv", 5, SITE)?)?;
    let mut maps = Vec::new(alloc);
    maps.push(file(alloc, "plans/customers.csv", 33, CUSTOMERS)?)?;
    let mut inputs = Vec::new(alloc);
    inputs.push(first(alloc)?)?;
    inputs.push(second(alloc)?)?;
    inputs.push(third(alloc)?)?;
    Ok(Receipt {
        collectd: String::from_str(alloc, "1.2.3")?,
        plan: String::from_str(alloc, PLAN)?,
        elements,
        maps,
        inputs,
        records: RecordCounts {
            used: 1,
            options: 2,
            untimed: 3,
            backward: 4,
            unkeyed: 5,
            too_long: 6,
        },
        table: table(alloc)?,
        left_out: Vec::new(alloc),
        complete: false,
    })
}

/// The receipt that says of two inputs that they were left out.
pub fn receipt_of_the_rest(alloc: Global) -> Result<Receipt, AllocError> {
    let mut receipt = receipt(alloc)?;
    for name in ["second \"one\"", "first"] {
        receipt.left_out.push(String::from_str(alloc, name)?)?;
    }
    Ok(receipt)
}

/// The receipt whose rows were merged into months.
pub fn receipt_of_months(alloc: Global) -> Result<Receipt, AllocError> {
    let mut receipt = receipt(alloc)?;
    receipt.table.into = Some(MergedInto {
        interval: MergedInterval::Month,
        zone: String::from_str(alloc, "Europe/Zurich")?,
    });
    Ok(receipt)
}
