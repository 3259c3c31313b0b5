//! `collectd elements` and `collectd explain`, which read no flows.

use cli_inputs::{ElementsArguments, ExplainArguments, WITH_REASONS, buffered_output};
use command_elements::{run_elements, write_out_of_memory};
use command_explain::run_explain;
use report_writing::{CheckedWriter, Status};

/// `collectd elements`: the elements that are known, or those that a word fits, to standard output.
pub fn elements(rt: &HostRuntime, arguments: &ElementsArguments) -> Result<Status, Status> {
    let mut err = CheckedWriter::new(rt.stderr());
    let Some(mut out) = buffered_output(rt) else {
        let _ = write_out_of_memory(&mut err);
        return Err(Status::Failed);
    };
    let status = run_elements(
        rt,
        rt.alloc(),
        arguments.element_files,
        arguments.word,
        WITH_REASONS,
        &mut out,
        &mut err,
    );
    Ok(status)
}

/// `collectd explain`: what is told of a fault, or the list of all, to standard output.
pub fn explain(rt: &HostRuntime, arguments: &ExplainArguments) -> Status {
    run_explain(arguments.fault, &mut rt.stdout(), &mut rt.stderr())
}
