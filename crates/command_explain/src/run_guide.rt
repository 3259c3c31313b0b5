//! The explanation of each fault that ends a run.

ghost use Rattle.std.specs.Prelude.{◌≡◌};
ghost use Rattle.command_explain.specs.RunFaults.{guide_of};

use crate::guide::explanation_of_message;
use crate::run_faults::RunFault::{
    self, Collect, Dump, Elements, Export, Filter, Map, Merge, NotAReceipt, Part, Plan, PlanText,
    Receipt, Row, Sampling,
};
use command_collect::ReceiptFault;
use element_registry::ElementsFault;
use flow_collect::CollectFault;
use flow_export::ExportFault;
use flow_merge::{MergeFault, RowFault};
use flow_plan::PlanTextFault;
use flow_table::PlanFault;
use ipfix_dump::DumpFault;
use ipfix_message::MessageFault;
use receipt_merging::PartFault;

impl RunFault {
    /// What was found, without a capital letter and a full stop.
    pub fn found(self) -> &'static str
        ensures { result.now ≡ (guide_of self).found }
    {
        match self {
            PlanText(PlanTextFault::NotToml) => "the file is no TOML document",
            PlanText(PlanTextFault::UnknownField) => "the file has a key that no plan has",
            PlanText(PlanTextFault::Missing) => "a key of the plan is missing",
            PlanText(PlanTextFault::WrongKind) =>
                "the value of a key has another type, or is out of range",
            PlanText(PlanTextFault::UnknownElement) => "no element has this name",
            PlanText(PlanTextFault::Plan(_)) => "the values make no plan",
            Plan(PlanFault::Length) => "the length of an interval is 0",
            Plan(PlanFault::Spread) => "max_spread is not 1 to 4096",
            Plan(PlanFault::KeyCount) => "more than 8 keys",
            Plan(PlanFault::KeyKind) => "a key is no number and no address",
            Plan(PlanFault::Prefix) | Row(RowFault::Prefix) =>
                "a key with a prefix that it can't have, or an address with bits after its prefix",
            Plan(PlanFault::CounterCount) => "no counter, or more than 4",
            Plan(PlanFault::CounterKind) => "an element that can't be a counter",
            Plan(PlanFault::Repeated) => "an element twice among keys and counters",
            Filter => "a condition of the plan is none",
            Map => "a map of the plan is none",
            Sampling => "sampling is none of its words, or counters of the plan can't be scaled",
            Elements(ElementsFault::NotCsv) => "a row has more or fewer fields than the first line",
            Elements(ElementsFault::Column(_)) => "the first line lacks a column",
            Elements(ElementsFault::Number) => "the number is not decimal, or above 32767",
            Elements(ElementsFault::Enterprise) =>
                "the enterprise is not decimal, or above 4294967295",
            Elements(ElementsFault::Name) =>
                "the name is not a letter and then letters, digits, _ and -, at most 64 in all",
            Elements(ElementsFault::NumberTwice) => "an earlier row has the element",
            Elements(ElementsFault::NameTwice) => "another element has the name",
            Elements(ElementsFault::TooMany) => "there are more elements than 16384",
            Collect(CollectFault::Workers) => "--workers is not 1 to 16",
            Collect(CollectFault::Sessions) => "more than 64 sessions",
            Collect(CollectFault::Link) => "--ring is not 1 to 65536",
            Collect(CollectFault::NoThread) => "a thread could not be started",
            Collect(CollectFault::SumTooLarge) | Merge(MergeFault::SumTooLarge) =>
                "a sum or a count would be 2^64 or more",
            Collect(CollectFault::Sampled) => "a flow was sampled, and the plan refuses that",
            Merge(MergeFault::Session(_)) => "a file is damaged or cut",
            Merge(MergeFault::NotAnExport) => "a file is no table of this program",
            Merge(MergeFault::Lost) => "rows of a file are missing, or come twice",
            Merge(MergeFault::Row(_)) => "a record of a file is no row under the plan",
            Row(RowFault::Template) => "a record has another template than the rows of tables",
            Row(RowFault::Fields) => "a row has other keys or counters than the plan",
            Row(RowFault::Interval) => "a row has another interval than the plan",
            Row(RowFault::Flows) => "a row has no flow",
            Part(PartFault::Receipt) => "a receipt is missing, damaged, or none",
            Part(PartFault::NotItsTable) => "a table is not the one of its receipt",
            Part(PartFault::OtherPlan) =>
                "a receipt has another plan than the merge, or other files of elements or maps",
            Part(PartFault::InputTwice) | Receipt(ReceiptFault::InputTwice(_, _)) =>
                "an input that has data records comes twice, and would be counted twice",
            Part(PartFault::Incomplete) =>
                "a table is not complete: something was lost or passed over when it was made",
            Merge(MergeFault::Border(_)) | Row(RowFault::Border) =>
                "a row's interval crosses the border of a day or month",
            Export(ExportFault::WriteFailed)
            | Dump(DumpFault::WriteFailed)
            | Receipt(ReceiptFault::WriteFailed) =>
                "standard output, or a receipt, could not be written",
            Export(ExportFault::TooManyRows) => "2^32 rows or more, too many for IPFIX",
            NotAReceipt => "the file is no receipt, or an octet of it was changed",
            PlanText(PlanTextFault::OutOfMemory)
            | Plan(PlanFault::OutOfMemory)
            | Elements(ElementsFault::OutOfMemory)
            | Collect(CollectFault::OutOfMemory)
            | Merge(MergeFault::OutOfMemory)
            | Row(RowFault::OutOfMemory)
            | Export(ExportFault::OutOfMemory)
            | Dump(DumpFault::OutOfMemory)
            | Receipt(ReceiptFault::OutOfMemory) => explanation_of_message(
                MessageFault::OutOfMemory,
            ).found,
        }
    }

    /// What an operator does about it, in sentences. A line has at most 90 octets.
    pub fn advice(self) -> &'static str
        ensures { result.now ≡ (guide_of self).advice }
    {
        match self {
            PlanText(PlanTextFault::NotToml) =>
                "The next line on standard error says in which line of the file, counted from 1.",
            PlanText(PlanTextFault::UnknownField) =>
                "The keys are interval_ms, method, max_spread, keys, counters, times and totals. Remove any\n\
                other.",
            PlanText(PlanTextFault::Missing) =>
                "interval_ms, method, keys and counters are required; max_spread, times and totals are not.",
            PlanText(PlanTextFault::WrongKind) =>
                "Numbers have no quotation marks, method, times and totals are texts, keys and counters are\n\
                arrays of texts.",
            PlanText(PlanTextFault::UnknownElement) =>
                "`collectd elements` lists the names. Their case matters, and only keys have prefixes.",
            PlanText(PlanTextFault::Plan(_)) =>
                "The same line names a second fault. Look for that one.",
            Plan(PlanFault::Length) => "Let interval_ms be 1 or more, as 60000 for a minute.",
            Plan(PlanFault::Spread) => "Take a number of that range, or leave max_spread out.",
            Plan(PlanFault::KeyCount) => "Leave some of them out.",
            Plan(PlanFault::KeyKind) =>
                "`collectd elements` marks the elements that can be keys; with --elements also those of\n\
                files. Times, octets and elements without a type can't. Leave it out.",
            Plan(PlanFault::Prefix) | Row(RowFault::Prefix) =>
                "A prefix is 0 to 32 bits of an IPv4 address, or 0 to 128 of an IPv6 address. Merge tables that\n\
                have the same prefixes.",
            Plan(PlanFault::CounterCount) => "Name 1 to 4 counters. Make a second table for more.",
            Plan(PlanFault::CounterKind) =>
                "Counters are octetDeltaCount, packetDeltaCount, deltaFlowCount, postOctetDeltaCount,\n\
                postPacketDeltaCount, droppedOctetDeltaCount and droppedPacketDeltaCount; with --elements\n\
                also the delta counters of files. Totals are no counters: flows would be counted again\n\
                and again. Where each record says all of a flow, totals = \"as-deltas\" lets octetTotalCount\n\
                (e0.85) and packetTotalCount (e0.86) be counters.",
            Plan(PlanFault::Repeated) =>
                "Leave one of them out. A key with a prefix also counts as sourceIPv4Prefix,\n\
                destinationIPv4Prefix, sourceIPv6Prefix or destinationIPv6Prefix.",
            Filter =>
                "A [[where]] has an element, and in, not_in or both: 1 to 64 texts as \"80\", \"1024-65535\",\n\
                \"192.0.2.1\", \"192.0.2.0/24\" or \"2001:db8::/32\". The next line says which one has none.",
            Sampling =>
                "Write \"ignore\", \"refuse\" or \"scale\". The next line says why counters can't be scaled.",
            Map =>
                "A [[map]] has a name of letters, digits, _ and -, and a file. The next line says which one has\n\
                none, or that keys of maps have the numbers of elements of a file.",
            Elements(ElementsFault::NotCsv) =>
                "The same line says in which line of the file the row begins.",
            Elements(ElementsFault::Column(_)) =>
                "The first line has ElementID, Name and Abstract Data Type, as that of IANA's file.",
            Elements(ElementsFault::Number) =>
                "Write the element's number without its enterprise bit.",
            Elements(ElementsFault::Enterprise) =>
                "Write the enterprise's number, or nothing for an element of IANA.",
            Elements(ElementsFault::Name) =>
                "Give the element another name; start, end and flows are taken, too.",
            Elements(ElementsFault::NumberTwice) =>
                "Leave one of the two rows out, also if they are in two files.",
            Elements(ElementsFault::NameTwice) =>
                "Give one of the two another name; those that are built in are taken, too.",
            Elements(ElementsFault::TooMany) => "Leave out those that no exporter sends.",
            Collect(CollectFault::Workers) => "Take no more than there are sessions or processors.",
            Collect(CollectFault::Sessions) =>
                "Give files to a run with --direct, or up to 64 to a run, and merge the tables of several runs.",
            Collect(CollectFault::Link) => "Leave it out, or take 1024.",
            Collect(CollectFault::NoThread) =>
                "Allow the process more threads or memory, or take fewer sessions and workers.",
            Collect(CollectFault::SumTooLarge) | Merge(MergeFault::SumTooLarge) =>
                "`collectd files -v` names such a row, and a session with a counter above 2^63. Leave that\n\
                session out (docs/RECIPES.md, A sum that is too large), or take shorter intervals.",
            Collect(CollectFault::Sampled) =>
                "Let the exporter count all packets; or write sampling = \"scale\" or \"ignore\" into the plan.",
            Merge(MergeFault::Session(_)) =>
                "The same line names the fault of its session. Copy the file again, or make it again.",
            Merge(MergeFault::NotAnExport) => "Merge files that were written with --format ipfix.",
            Merge(MergeFault::Lost) =>
                "The file was damaged on its way. Copy it again, or make it again.",
            Merge(MergeFault::Row(_)) => "The same line names a second fault. Look for that one.",
            Row(RowFault::Template) => "Merge files that were written with --format ipfix.",
            Row(RowFault::Fields) => "Give all runs, and the merge, the same plan.",
            Row(RowFault::Interval) => "Give all runs, and the merge, the same plan.",
            Row(RowFault::Flows) =>
                "Merge files that were written with --format ipfix, and not changed since.",
            Part(PartFault::Receipt) =>
                "A receipt is FILE.receipt, or the one of --receipt-of. Copy it again, or make the table again\n\
                with --receipt.",
            Part(PartFault::NotItsTable) =>
                "One of the two was changed or cut since, or is of another run. Copy both again, or make them\n\
                again.",
            Part(PartFault::OtherPlan) =>
                "Give the merge the plan and the files that the table was made with; or make it again with\n\
                those of the merge.",
            Part(PartFault::InputTwice) | Receipt(ReceiptFault::InputTwice(_, _)) =>
                "The same line says which ones. Leave one of the two out.",
            Part(PartFault::Incomplete) =>
                "Its receipt says what. Make it again of whole inputs, or merge it with --incomplete.",
            Merge(MergeFault::Border(_)) | Row(RowFault::Border) =>
                "Take intervals of which days are made in the zone, as minutes, or another --zone.",
            Export(ExportFault::WriteFailed)
            | Dump(DumpFault::WriteFailed)
            | Receipt(ReceiptFault::WriteFailed) =>
                "Look for a full disk, or for a pipe whose reader has ended. What was written is not whole.\n\
                If it is a receipt, its table is whole, and has none.",
            Export(ExportFault::TooManyRows) =>
                "Write the table as CSV or JSON, or take longer intervals or fewer keys.",
            NotAReceipt =>
                "Give verify the FILE of --receipt, as it was written: another program's JSON is another text.",
            PlanText(PlanTextFault::OutOfMemory)
            | Plan(PlanFault::OutOfMemory)
            | Elements(ElementsFault::OutOfMemory)
            | Collect(CollectFault::OutOfMemory)
            | Merge(MergeFault::OutOfMemory)
            | Row(RowFault::OutOfMemory)
            | Export(ExportFault::OutOfMemory)
            | Dump(DumpFault::OutOfMemory)
            | Receipt(ReceiptFault::OutOfMemory) => explanation_of_message(
                MessageFault::OutOfMemory,
            ).advice,
        }
    }
}
