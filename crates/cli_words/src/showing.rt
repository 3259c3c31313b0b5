//! What the parser prints.

use clap::Error;
use clap::error::ErrorKind;
use report_writing::Status;

/// Prints the parser's text: the version, help, or what the words lack. Answers how the program ends.
pub fn show(rt: &HostRuntime, error: &Error) -> Status {
    let printed = error.print(rt);
    match error.kind() {
        ErrorKind::DisplayVersion if printed.is_ok() => Status::Well,
        ErrorKind::DisplayVersion => Status::Failed,
        _ => Status::NotOpened,
    }
}
