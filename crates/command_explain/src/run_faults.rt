//! The faults that end a run.

ghost use Rattle.std.specs.Prelude.{◌≡◌};
ghost use Rattle.command_explain.specs.RunFaults.{name_of, namesakes as namesakes_of};

use command_collect::ReceiptFault;
use element_registry::{ElementsFault, Heading};
use flow_collect::CollectFault;
use flow_export::ExportFault;
use flow_merge::{MergeFault, RowFault};
use flow_plan::PlanTextFault;
use flow_table::PlanFault;
use ipfix_dump::DumpFault;
use ipfix_session::SessionFault;
use receipt_merging::PartFault;

/// A fault of a plan, of a file of elements, of collecting, of merging, of a receipt or of writing, none of which is
/// a session's.
#[derive(Clone, Copy, Debug)]
pub enum RunFault {
    /// A text is no plan.
    PlanText(PlanTextFault),
    /// The values of such a text make no plan.
    Plan(PlanFault),
    /// The conditions of such a text make no filter.
    Filter,
    /// What such a text says of maps makes none.
    Map,
    /// What a plan says of sampling makes no plan.
    Sampling,
    /// A file says no elements.
    Elements(ElementsFault),
    /// Nothing was collected.
    Collect(CollectFault),
    /// A file was not merged.
    Merge(MergeFault),
    /// A record of such a file is no row.
    Row(RowFault),
    /// A part was not merged by its receipt.
    Part(PartFault),
    /// A table was not written.
    Export(ExportFault),
    /// A dump or an explanation was not written.
    Dump(DumpFault),
    /// There is no receipt of a run.
    Receipt(ReceiptFault),
    /// What a table was to be compared with is no receipt.
    NotAReceipt,
}

// The faults that are explained with another family's, whose name they have.
const OF_PREFIX: [RunFault; 1] = [RunFault::Row(RowFault::Prefix)];

const OF_SUM_TOO_LARGE: [RunFault; 1] = [RunFault::Merge(MergeFault::SumTooLarge)];

const OF_INPUT_TWICE: [RunFault; 1] = [RunFault::Receipt(ReceiptFault::InputTwice(0, 1))];

const OF_WRITE_FAILED: [RunFault; 2] = [
    RunFault::Dump(DumpFault::WriteFailed),
    RunFault::Receipt(ReceiptFault::WriteFailed),
];

impl RunFault {
    /// Its name, which faults of several families may have.
    pub fn name(&self) -> &'static str
        ensures { result.now ≡ name_of self.now }
    {
        match self {
            RunFault::PlanText(fault) => fault.name(),
            RunFault::Plan(fault) => fault.name(),
            RunFault::Filter => "Filter",
            RunFault::Map => "Map",
            RunFault::Sampling => "Sampling",
            RunFault::Elements(fault) => fault.name(),
            RunFault::Collect(fault) => fault.name(),
            RunFault::Merge(fault) => fault.name(),
            RunFault::Row(fault) => fault.name(),
            RunFault::Part(fault) => fault.name(),
            RunFault::Export(fault) => fault.name(),
            RunFault::Dump(fault) => fault.name(),
            RunFault::Receipt(fault) => fault.name(),
            RunFault::NotAReceipt => "NotAReceipt",
        }
    }

    /// The faults of other families that have its name, and are explained with it.
    pub fn namesakes(&self) -> &'static [RunFault]
        ensures { result.now ≡ namesakes_of self.now }
    {
        match self {
            RunFault::Plan(PlanFault::Prefix) => &OF_PREFIX,
            RunFault::Collect(CollectFault::SumTooLarge) => &OF_SUM_TOO_LARGE,
            RunFault::Part(PartFault::InputTwice) => &OF_INPUT_TWICE,
            RunFault::Export(ExportFault::WriteFailed) => &OF_WRITE_FAILED,
            _ => &[],
        }
    }
}

/// Each of them that is explained, in the order of the lines that have them. A fault within which there are
/// others stands here with the first of them. OutOfMemory is a session's fault, too, and so is not among them.
pub const RUN_FAULTS: [RunFault; 48] = [
    RunFault::PlanText(PlanTextFault::NotToml),
    RunFault::PlanText(PlanTextFault::UnknownField),
    RunFault::PlanText(PlanTextFault::Missing),
    RunFault::PlanText(PlanTextFault::WrongKind),
    RunFault::PlanText(PlanTextFault::UnknownElement),
    RunFault::PlanText(PlanTextFault::Plan(PlanFault::Length)),
    RunFault::Plan(PlanFault::Length),
    RunFault::Plan(PlanFault::Spread),
    RunFault::Plan(PlanFault::KeyCount),
    RunFault::Plan(PlanFault::KeyKind),
    RunFault::Plan(PlanFault::Prefix),
    RunFault::Plan(PlanFault::CounterCount),
    RunFault::Plan(PlanFault::CounterKind),
    RunFault::Plan(PlanFault::Repeated),
    RunFault::Filter,
    RunFault::Map,
    RunFault::Sampling,
    RunFault::Elements(ElementsFault::NotCsv),
    RunFault::Elements(ElementsFault::Column(Heading::Number)),
    RunFault::Elements(ElementsFault::Number),
    RunFault::Elements(ElementsFault::Enterprise),
    RunFault::Elements(ElementsFault::Name),
    RunFault::Elements(ElementsFault::NumberTwice),
    RunFault::Elements(ElementsFault::NameTwice),
    RunFault::Elements(ElementsFault::TooMany),
    RunFault::Collect(CollectFault::Workers),
    RunFault::Collect(CollectFault::Sessions),
    RunFault::Collect(CollectFault::Link),
    RunFault::Collect(CollectFault::NoThread),
    RunFault::Collect(CollectFault::SumTooLarge),
    RunFault::Collect(CollectFault::Sampled),
    RunFault::Merge(MergeFault::Session(SessionFault::Truncated)),
    RunFault::Merge(MergeFault::NotAnExport),
    RunFault::Merge(MergeFault::Lost),
    RunFault::Merge(MergeFault::Row(RowFault::Template)),
    RunFault::Row(RowFault::Template),
    RunFault::Row(RowFault::Fields),
    RunFault::Row(RowFault::Interval),
    RunFault::Row(RowFault::Flows),
    RunFault::Part(PartFault::Receipt),
    RunFault::Part(PartFault::NotItsTable),
    RunFault::Part(PartFault::OtherPlan),
    RunFault::Part(PartFault::InputTwice),
    RunFault::Part(PartFault::Incomplete),
    RunFault::Merge(MergeFault::Border(1)),
    RunFault::Export(ExportFault::WriteFailed),
    RunFault::Export(ExportFault::TooManyRows),
    RunFault::NotAReceipt,
];
