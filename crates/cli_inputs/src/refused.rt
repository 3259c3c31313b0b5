//! The line after a run whose output the system refused.

use input_sources::WithReason;
use report_writing::{Verbosity, write_not_had_because};
use std::io::{BufWriter, Stderr, Stdout};

/// For commands in whose lines the system's reason always stands.
pub const WITH_REASONS: Verbosity = Verbosity {
    verbose: true,
    strict: false,
};

/// Why the system did not take octets of standard output: if there is a reason and `verbosity` is verbose, `err`
/// has a line.
pub fn write_refused_output(
    verbosity: Verbosity,
    out: &BufWriter<WithReason<Stdout>>,
    err: &mut Stderr,
) {
    if let (true, Some(reason)) = (verbosity.verbose, out.get_ref().reason()) {
        let _ = write_not_had_because(verbosity, "write", "standard output", reason, err);
    }
}
