//! What is told beside the lines that always stand.

/// What is told beside the lines that always stand.
#[derive(Clone, Copy, Debug, PartialEq, Eq)]
pub struct Verbosity {
    /// What was opened, what wasn't counted, how each session ended, and the reasons of the system.
    pub verbose: bool,
    /// What wasn't counted.
    pub strict: bool,
}

/// Nothing is told beside them.
pub const NOTHING_MORE: Verbosity = Verbosity {
    verbose: false,
    strict: false,
};
