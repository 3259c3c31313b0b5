//! How a command ended.

ghost use Rattle.std.specs.Prelude.{◌≡◌};
ghost use Rattle.report_writing.specs.Statuses.{number_of};

/// How a command ended.
#[derive(Clone, Copy, Debug, PartialEq, Eq)]
pub enum Status {
    /// All was well.
    Well,
    /// Some session ended with a fault. What was collected is written.
    SessionFault,
    /// The plan, a file, the listener or a connection couldn't be had.
    NotOpened,
    /// Nothing was collected, or it couldn't be written.
    Failed,
}

impl Status {
    /// The exit status that tells it.
    pub fn number(self) -> u8
        ensures { result ≡ number_of self }
    {
        match self {
            Status::Well => 0,
            Status::SessionFault => 1,
            Status::NotOpened => 2,
            Status::Failed => 3,
        }
    }
}
