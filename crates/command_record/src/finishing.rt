//! Finishing what a stopped run left.

ghost use Rattle.std.specs.Prelude.{◌≡◌, ◌⊎◌, Ok, Err, IfErr, IfOk};
ghost use Rattle.report_writing.specs.Told.{AreToldTo};
ghost use Rattle.cli_inputs.specs.Folders.{folder_line};
ghost use Rattle.command_record.specs.Finishing.{finish_status};

use cli_inputs::{FinishArguments, tell_folder};
use recording_connections::finish_recordings;
use recording_folder::FolderFault;
use report_writing::{Status, WriteLines};

/// `collectd finish`: the files that a stopped run left in a folder of recordings get their final names.
pub fn finish(rt: &HostRuntime, arguments: &FinishArguments) -> Result<Status, Status>
    ensures ended { IfOk result (λ status. (status ≡ Status.Well) ⊎ (status ≡ Status.SessionFault)) }
    ensures refused { IfErr result (λ status. status ≡ Status.NotOpened) }
{
    let mut err = rt.stderr();
    let stayed = finish_recordings(rt, rt.alloc(), arguments.folder, err);
    end_of(stayed, arguments.folder, &mut err)
}

// How the command ends where so many files stay unfinished, or the folder can't be opened: then `err` has a line.
fn end_of<E: WriteLines>(
    left: Result<u64, FolderFault>,
    folder: &str,
    err: &mut E,
) -> Result<Status, Status>
    ensures ended { IfOk left (λ count. result ≡ Ok (finish_status count)) }
    ensures silent { IfOk left (λ _. err.new ≡ err.old) }
    ensures refused { IfErr left (λ _. result ≡ Err Status.NotOpened) }
    ensures told { IfErr left (λ why.
        AreToldTo E.lines err.old err.new (folder_line folder.now why)) }
{
    match left {
        Ok(stayed) => Ok(status_of(stayed)),
        Err(fault) => {
            tell_folder(folder, &fault, err);
            Err(Status::NotOpened)
        }
    }
}

// How the command ends where so many files stay unfinished.
fn status_of(stayed: u64) -> Status
    ensures { result ≡ finish_status stayed }
{
    if stayed == 0 {
        Status::Well
    } else {
        Status::SessionFault
    }
}
