//! What a run of the dump is to do.

use ipfix_dump::Form;
use report_writing::{Origin, Verbosity};

/// What a run of the dump is to do.
#[derive(Clone, Copy)]
pub struct DumpJob<'a, 'w> {
    /// What each data record becomes.
    pub form: Form,
    /// The paths of files of elements, in the order in which they are read. By these files, elements are named
    /// and their values are read.
    pub element_files: &'a [&'w str],
    /// What the templates of the session may count, if they have a limit.
    pub templates: Option<u64>,
    /// Whose session it is.
    pub origin: Origin<'w>,
    /// What is told beside the lines that always stand.
    pub verbosity: Verbosity,
}
