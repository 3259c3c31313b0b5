//! What the words of each command say.

ghost use Rattle.std.specs.Prelude.{◌≡◌, IfSome, IsSome, codes};
ghost use Rattle.cli_inputs.specs.Given.{IsCollect, IsDump, IsFiles, IsFinish, IsGiven, IsMerge, IsOutput, IsRecord, IsTable, IsTableOf, IsTables, IsTcp, IsDurationGiven, IsVerbosity, IsVerify};
ghost use Rattle.cli_words.specs.Arguments.{OneNumber, reading_of};
ghost use Rattle.cli_words.specs.Given.{IsNumberGiven};

use crate::formats::{dump_form, merge_interval, table_format};
use cli_words::{
    AGAIN, Argument, BUFFER, Chosen, DAYS, DIRECT, DUMP_FORMAT, ELEMENTS, EVERY, EXPORTER, FAULT,
    FILES_FROM, FLOW_FILES, FOLDER, FOLLOW, FROM, GRACE, IDLE, INCOMPLETE, INTO, KEEP_RECORDINGS,
    LISTEN, MERGE_INTO, PEERS, PERIODS_FROM, PLAN, PLANS, PROGRESS, RECEIPT, RECEIPT_FILE,
    RECEIPT_OF, RECEIPTS, RECORD_IDLE, RECORD_LISTEN, RECORD_SESSIONS, RECORD_VERBOSE,
    RECORDED_EVERY, REORDER, RING, ROWS_OF_A_SESSION, SESSION_TEMPLATES, SESSIONS, STRICT,
    Subcommand, TABLE, TABLE_FILES, TABLE_FORMAT, TABLES_INTO, TEMPLATES, TIME, UDP, VERBOSE, WORD,
    WORKERS, ZONE,
};
use flow_collect::Pool;
use ipfix_dump::Form;
use local_days::LocalInterval;
use output_tables::Output;
use report_writing::Verbosity;
use std::num::{NonZeroU64, NonZeroUsize};
use std::time::Duration;

/// A command, and what it is told.
#[derive(Clone, Copy)]
pub enum Arguments<'m, 'w> {
    Dump(DumpArguments<'m, 'w>),
    Files(FilesArguments<'m, 'w>),
    Tcp(TcpArguments<'m, 'w>),
    Record(RecordArguments<'m, 'w>),
    Finish(FinishArguments<'w>),
    Tables(TablesArguments<'m, 'w>),
    Merge(MergeArguments<'m, 'w>),
    Verify(VerifyArguments<'m, 'w>),
    Elements(ElementsArguments<'m, 'w>),
    Explain(ExplainArguments<'w>),
}

/// What `dump` is told.
#[derive(Clone, Copy)]
pub struct DumpArguments<'m, 'w> {
    pub form: Form,
    /// The paths of files of elements, in the order in which they are read.
    pub element_files: &'m [&'w str],
    /// What the templates of the session may count, if that was given.
    pub templates: Option<u64>,
    pub verbosity: Verbosity,
}

/// What all commands that write a table are told.
#[derive(Clone, Copy)]
pub struct TableArguments<'m, 'w> {
    /// The paths of files of elements, in the order in which they are read.
    pub element_files: &'m [&'w str],
    /// The path of the plan.
    pub plan: &'w str,
    pub output: Output,
    pub verbosity: Verbosity,
}

/// What `files` and `tcp` are both told.
#[derive(Clone, Copy)]
pub struct CollectArguments<'m, 'w> {
    pub table: TableArguments<'m, 'w>,
    pub pool: Pool,
    /// What the templates of a session may count, if that was given.
    pub templates: Option<u64>,
    /// The path of the receipt, if there is to be one.
    pub receipt: Option<&'w str>,
    pub progress: ShowProgress,
}

/// Where progress is shown.
#[derive(Clone, Copy, Debug, PartialEq, Eq)]
pub enum ShowProgress {
    Nowhere,
    /// On the terminal that the program was started from, if there is one.
    OnTerminal,
    /// On standard error, whatever that is.
    OnStandardError,
}

/// What `files` is told.
#[derive(Clone, Copy)]
pub struct FilesArguments<'m, 'w> {
    pub collect: CollectArguments<'m, 'w>,
    /// Whether there are lots of files and no links.
    pub direct: bool,
    /// The paths that were given as words, and that of the list of further ones, if there is one.
    pub paths: &'m [&'w str],
    pub list: Option<&'w str>,
    /// The words FILE=ADDRESS that tell whose files these are, as they were given.
    pub exporters: &'m [&'w str],
}

/// What `tcp` is told.
#[derive(Clone, Copy)]
pub struct TcpArguments<'m, 'w> {
    pub collect: CollectArguments<'m, 'w>,
    pub addr: &'w str,
    pub sessions: usize,
    /// How long a connection may send nothing, if there is a limit.
    pub idle: Option<Duration>,
}

/// What `record` is told.
#[derive(Clone, Copy)]
pub struct RecordArguments<'m, 'w> {
    /// The folder.
    pub into: &'w str,
    /// The address for connections, and the one for datagrams.
    pub listen: Option<&'w str>,
    pub udp: Option<&'w str>,
    /// How many seconds a period has.
    pub every: NonZeroU64,
    pub sessions: usize,
    pub peers: NonZeroUsize,
    /// How many seconds a datagram waits for those before it if it is ahead of the due sequence number. With 0 none
    /// waits, and none is held for doubled.
    pub reorder: u64,
    /// What the templates of each session may count.
    pub templates: u64,
    /// How many octets of datagrams that nobody took yet the system is asked to keep.
    pub buffer: u32,
    /// The prefixes that peers may have, as they were given.
    pub prefixes: &'m [&'w str],
    /// How long a peer may send nothing, if that was given.
    pub idle: Option<Duration>,
    /// Whether the beginning and the end of each connection are told, too.
    pub verbosity: Verbosity,
}

/// What `finish` is told.
#[derive(Clone, Copy)]
pub struct FinishArguments<'w> {
    /// The folder.
    pub folder: &'w str,
}

/// What `tables` is told.
#[derive(Clone, Copy)]
pub struct TablesArguments<'m, 'w> {
    /// The folder of the recordings, and that of the tables.
    pub from: &'w str,
    pub into: &'w str,
    /// The paths of the plans, in the order in which their tables are made.
    pub plans: &'m [&'w str],
    /// The paths of files of elements, in the order in which they are read.
    pub element_files: &'m [&'w str],
    pub output: Output,
    pub verbosity: Verbosity,
    pub workers: usize,
    /// How many seconds a period has, and for how many after its end it is left alone.
    pub every: u64,
    pub grace: u64,
    /// The name of the time zone whose days and months have tables, too, if there is one.
    pub days: Option<&'w str>,
    /// How many rows a session may have by itself.
    pub rows_of_a_session: u64,
    /// For how many days from its begin on the recordings of a period are kept, if not for ever.
    pub keep_days: Option<u32>,
    /// Whether it goes on for ever.
    pub follow: bool,
}

impl<'m, 'w> TablesArguments<'m, 'w> {
    /// What is told of the tables of the plan of this path.
    pub fn table(&self, plan: &'w str) -> TableArguments<'m, 'w>
        ensures { IsTableOf self.now plan.entry result }
    {
        TableArguments {
            element_files: self.element_files,
            plan,
            output: self.output,
            verbosity: self.verbosity,
        }
    }
}

/// What `merge` is told.
#[derive(Clone, Copy)]
pub struct MergeArguments<'m, 'w> {
    pub table: TableArguments<'m, 'w>,
    pub paths: &'m [&'w str],
    /// The local intervals that rows are put in, if that was given, and the name of their time zone.
    pub into: Option<LocalInterval>,
    pub zone: Option<&'w str>,
    /// Whether the files are merged by their receipts; words of those receipts that have other names than FILE.receipt;
    /// the path of the receipt of the merged table, if there is to be one; and whether files are merged whose receipts
    /// aren't complete, too.
    pub receipts: bool,
    pub receipts_of: &'m [&'w str],
    pub receipt: Option<&'w str>,
    pub incomplete: bool,
}

/// What `verify` is told.
#[derive(Clone, Copy)]
pub struct VerifyArguments<'m, 'w> {
    /// The path of the receipt, and that of the table, if it was given.
    pub receipt: &'w str,
    pub table: Option<&'w str>,
    /// The paths of the files that the table is made again of.
    pub again: &'m [&'w str],
    /// The words FILE=ADDRESS that tell whose files these are, as they were given.
    pub exporters: &'m [&'w str],
    /// The paths of files of elements, in the order in which they are read.
    pub element_files: &'m [&'w str],
    pub verbosity: Verbosity,
}

/// What `elements` is told.
#[derive(Clone, Copy)]
pub struct ElementsArguments<'m, 'w> {
    /// The paths of files of elements, in the order in which they are read.
    pub element_files: &'m [&'w str],
    pub word: Option<&'w str>,
}

/// What `explain` is told.
#[derive(Clone, Copy)]
pub struct ExplainArguments<'w> {
    pub fault: Option<&'w str>,
}

/// The command that was chosen, and what it is told. The parser lets no words through for which there is `None`.
pub fn read_arguments<'m, 'w>(chosen: Chosen<'m, 'w>) -> Option<Arguments<'m, 'w>>
    ensures told { IfSome result (IsGiven chosen.entry) }
    // There is one if what was given can be told at all.
    ensures each { (told : Arguments) → IsGiven chosen.entry told → IsSome result }
{
    match chosen.command {
        Subcommand::Dump => Some(Arguments::Dump(read_dump(chosen)?)),
        Subcommand::Files => Some(Arguments::Files(read_files(chosen)?)),
        Subcommand::Tcp => Some(Arguments::Tcp(read_tcp(chosen)?)),
        Subcommand::Record => Some(Arguments::Record(read_record(chosen)?)),
        Subcommand::Finish => Some(Arguments::Finish(read_finish(chosen)?)),
        Subcommand::Tables => Some(Arguments::Tables(read_tables(chosen)?)),
        Subcommand::Merge => Some(Arguments::Merge(read_merge(chosen)?)),
        Subcommand::Verify => Some(Arguments::Verify(read_verify(chosen)?)),
        Subcommand::Elements => Some(Arguments::Elements(ElementsArguments {
            element_files: chosen.texts(ELEMENTS),
            word: chosen.text(WORD),
        })),
        Subcommand::Explain => Some(Arguments::Explain(ExplainArguments {
            fault: chosen.text(FAULT),
        })),
    }
}

fn read_dump<'m, 'w>(chosen: Chosen<'m, 'w>) -> Option<DumpArguments<'m, 'w>>
    ensures told { IfSome result (IsDump chosen.entry) }
    ensures each { (told : DumpArguments) → IsDump chosen.entry told → IsSome result }
{
    Some(DumpArguments {
        form: dump_form(chosen.text(DUMP_FORMAT)?)?,
        element_files: chosen.texts(ELEMENTS),
        templates: read_templates(chosen),
        verbosity: read_verbosity(chosen),
    })
}

// What the templates of a session may count, if that was given.
fn read_templates(chosen: Chosen) -> Option<u64>
    ensures { IsNumberGiven chosen.entry (codes "templates") result }
{
    let fields = chosen.number(SESSION_TEMPLATES)?;
    Some(u64::from(fields))
}

fn read_verbosity(chosen: Chosen) -> Verbosity
    ensures { IsVerbosity chosen.entry result }
{
    Verbosity {
        verbose: chosen.is_given(VERBOSE),
        strict: chosen.is_given(STRICT),
    }
}

fn read_table<'m, 'w>(chosen: Chosen<'m, 'w>) -> Option<TableArguments<'m, 'w>>
    ensures told { IfSome result (IsTable chosen.entry) }
    ensures each { (told : TableArguments) → IsTable chosen.entry told → IsSome result }
{
    Some(TableArguments {
        element_files: chosen.texts(ELEMENTS),
        plan: chosen.text(PLAN)?,
        output: read_output(chosen)?,
        verbosity: read_verbosity(chosen),
    })
}

fn read_output(chosen: Chosen) -> Option<Output>
    ensures told { IfSome result (IsOutput chosen.entry) }
    ensures each { (told : Output) → IsOutput chosen.entry told → IsSome result }
{
    let format = table_format(chosen.text(TABLE_FORMAT)?)?;
    let time = chosen.number(TIME)?;
    Some(Output { format, time })
}

fn read_collect<'m, 'w>(chosen: Chosen<'m, 'w>) -> Option<CollectArguments<'m, 'w>>
    ensures told { IfSome result (IsCollect chosen.entry) }
    ensures each { (told : CollectArguments) → IsCollect chosen.entry told → IsSome result }
{
    let workers = chosen.number(WORKERS)?;
    let capacity = chosen.number(RING)?;
    Some(CollectArguments {
        table: read_table(chosen)?,
        pool: Pool {
            workers: workers as usize,
            capacity: capacity as usize,
        },
        templates: read_templates(chosen),
        receipt: chosen.text(RECEIPT),
        progress: match chosen.count(PROGRESS) {
            0 => ShowProgress::Nowhere,
            1 => ShowProgress::OnTerminal,
            _ => ShowProgress::OnStandardError,
        },
    })
}

fn read_files<'m, 'w>(chosen: Chosen<'m, 'w>) -> Option<FilesArguments<'m, 'w>>
    ensures told { IfSome result (IsFiles chosen.entry) }
    ensures each { (told : FilesArguments) → IsFiles chosen.entry told → IsSome result }
{
    Some(FilesArguments {
        collect: read_collect(chosen)?,
        direct: chosen.is_given(DIRECT),
        paths: chosen.texts(FLOW_FILES),
        list: chosen.text(FILES_FROM),
        exporters: chosen.texts(EXPORTER),
    })
}

fn read_tcp<'m, 'w>(chosen: Chosen<'m, 'w>) -> Option<TcpArguments<'m, 'w>>
    ensures told { IfSome result (IsTcp chosen.entry) }
    ensures each { (told : TcpArguments) → IsTcp chosen.entry told → IsSome result }
{
    let sessions = chosen.number(SESSIONS)?;
    Some(TcpArguments {
        collect: read_collect(chosen)?,
        addr: chosen.text(LISTEN)?,
        sessions: sessions as usize,
        idle: read_duration(chosen, IDLE),
    })
}

fn read_record<'m, 'w>(chosen: Chosen<'m, 'w>) -> Option<RecordArguments<'m, 'w>>
    ensures told { IfSome result (IsRecord chosen.entry) }
    ensures each { (told : RecordArguments) → IsRecord chosen.entry told → IsSome result }
{
    let every = chosen.number(EVERY)?;
    let sessions = chosen.number(RECORD_SESSIONS)?;
    let peers = chosen.number(PEERS)?;
    let reorder = chosen.number(REORDER)?;
    let templates = chosen.number(TEMPLATES)?;
    Some(RecordArguments {
        into: chosen.text(INTO)?,
        listen: chosen.text(RECORD_LISTEN),
        udp: chosen.text(UDP),
        every: NonZeroU64::new(u64::from(every))?,
        sessions: sessions as usize,
        peers: NonZeroUsize::new(peers as usize)?,
        reorder: u64::from(reorder),
        templates: u64::from(templates),
        buffer: chosen.number(BUFFER)?,
        prefixes: chosen.texts(FROM),
        idle: read_duration(chosen, RECORD_IDLE),
        verbosity: Verbosity {
            verbose: chosen.is_given(RECORD_VERBOSE),
            strict: false,
        },
    })
}

fn read_finish<'m, 'w>(chosen: Chosen<'m, 'w>) -> Option<FinishArguments<'w>>
    ensures told { IfSome result (IsFinish chosen.entry) }
    ensures each { (told : FinishArguments) → IsFinish chosen.entry told → IsSome result }
{
    Some(FinishArguments {
        folder: chosen.text(FOLDER)?,
    })
}

fn read_tables<'m, 'w>(chosen: Chosen<'m, 'w>) -> Option<TablesArguments<'m, 'w>>
    ensures told { IfSome result (IsTables chosen.entry) }
    ensures each { (told : TablesArguments) → IsTables chosen.entry told → IsSome result }
{
    let workers = chosen.number(WORKERS)?;
    let every = chosen.number(RECORDED_EVERY)?;
    let grace = chosen.number(GRACE)?;
    let rows = chosen.number(ROWS_OF_A_SESSION)?;
    Some(TablesArguments {
        from: chosen.text(PERIODS_FROM)?,
        into: chosen.text(TABLES_INTO)?,
        plans: chosen.texts(PLANS),
        element_files: chosen.texts(ELEMENTS),
        output: read_output(chosen)?,
        verbosity: read_verbosity(chosen),
        workers: workers as usize,
        every: u64::from(every),
        grace: u64::from(grace),
        days: chosen.text(DAYS),
        rows_of_a_session: u64::from(rows),
        keep_days: chosen.number(KEEP_RECORDINGS),
        follow: chosen.is_given(FOLLOW),
    })
}

fn read_merge<'m, 'w>(chosen: Chosen<'m, 'w>) -> Option<MergeArguments<'m, 'w>>
    ensures told { IfSome result (IsMerge chosen.entry) }
    ensures each { (told : MergeArguments) → IsMerge chosen.entry told → IsSome result }
{
    let into = match chosen.text(MERGE_INTO) {
        Some(word) => Some(merge_interval(word)?),
        None => None,
    };
    Some(MergeArguments {
        table: read_table(chosen)?,
        paths: chosen.texts(TABLE_FILES),
        into,
        zone: chosen.text(ZONE),
        receipts: chosen.is_given(RECEIPTS),
        receipts_of: chosen.texts(RECEIPT_OF),
        receipt: chosen.text(RECEIPT),
        incomplete: chosen.is_given(INCOMPLETE),
    })
}

fn read_verify<'m, 'w>(chosen: Chosen<'m, 'w>) -> Option<VerifyArguments<'m, 'w>>
    ensures told { IfSome result (IsVerify chosen.entry) }
    ensures each { (told : VerifyArguments) → IsVerify chosen.entry told → IsSome result }
{
    Some(VerifyArguments {
        receipt: chosen.text(RECEIPT_FILE)?,
        table: chosen.text(TABLE),
        again: chosen.texts(AGAIN),
        exporters: chosen.texts(EXPORTER),
        element_files: chosen.texts(ELEMENTS),
        verbosity: Verbosity {
            verbose: chosen.is_given(VERBOSE),
            strict: false,
        },
    })
}

// The seconds of an option, as a duration.
fn read_duration(chosen: Chosen, option: Argument) -> Option<Duration>
    requires { reading_of option.takes ≡ OneNumber }
    ensures { IsDurationGiven chosen.entry option.word.now result }
{
    let seconds = chosen.number(option)?;
    Some(Duration::from_secs(u64::from(seconds)))
}
