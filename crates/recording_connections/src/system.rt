//! Recording in a folder of the system.

ghost use Rattle.std.specs.Prelude.{◌≡◌, IfOk};
ghost use Rattle.std.specs.Arc.{arc_value};
ghost use Rattle.std.specs.Duration.{as_nanos};
ghost use Rattle.std.specs.Int.NonZero.{non_zero_u64_get};
ghost use Rattle.recording_connections.specs.LeftFiles.{AreLookedAfter, AreLookedIn};
ghost use Rattle.recording_folder.specs.EndedFiles.{EndsLast};
ghost use Rattle.recording_folder.specs.FiledSessions.{BeginsWith, IsNamed};
ghost use Rattle.recording_names.specs.declared.transport.Transport.TheVariants.{Connection};

use crate::connection::PatientListener;
use crate::patient_reader::SilenceLimits;
use crate::place::{Recording, RecordingFiles, SessionPlace};
use crate::recorder_run::RecorderRun;
use crate::running::{ConnectionRecorder, record_connections};
use recording_files::FileReport;
use recording_folder::{
    EarlierPeers, FileFinisher, FilesEnd, Folder, FolderFault, FolderFinisher, SessionFiles,
    SystemPeriods, SystemPlace, SystemSession, open_folder, read_back, recover, reopen_folder,
};
use recording_lines::WholeLines;
use recording_names::Transport;
use report_writing::Status;
use std::alloc::{AllocError, Global};
use std::fs::{File, Files};
use std::io::{Read, Write};
use std::net::{SocketAddr, TcpListener};
use std::rt::Clock;
use std::sync::Wait;
use std::thread::Threads;
use std::time::Duration;

/// How many seconds it may take until a connection has brought a whole message.
const FIRST_MESSAGE: u64 = 60;

impl<'a, R: Files, K: FileFinisher<R::File>> RecordingFiles for SessionFiles<'a, R, K> {
    ghost finishes = { λ files last end.
        EndsLast K.finishes files.unfinished files.reason last end files.finisher };

    fn finish(self, last: &FileReport) -> FilesEnd {
        self.finish(last)
    }
}

/// The files of a session, each of which is finished at once, and told.
type ConnectionFiles<'a, R, E> = SessionFiles<'a, R, FolderFinisher<'a, R, WholeLines<E>>>;

/// Makes the files of sessions in a folder; each that is finished is told.
#[derive(Drop)]
pub struct ConnectionFolder<'a, R: Files + Clock, E: Write + Copy + Drop> {
    place: SystemPlace<'a, R>,
    err: E,
}

impl<'a, R: Files + Clock, E: Write + Copy + Drop> SessionPlace<
    ConnectionFiles<'a, R, E>,
    SystemPeriods<'a, R>,
> for ConnectionFolder<'a, R, E> {
    // (the name of its files is that of this session, and its clock has the folder's periods)
    ghost makes = { λ folder peer number made. IfOk made (λ recording.
        IsNamed (arc_value recording.files.session) peer Connection number
        × BeginsWith folder.place.every recording.clock) };

    fn session(
        &self,
        alloc: Global,
        peer: SocketAddr,
        number: u64,
    ) -> Result<Recording<ConnectionFiles<'a, R, E>, SystemPeriods<'a, R>>, AllocError> {
        let out = WholeLines::new(self.err);
        match self
            .place
            .session(alloc, peer, Transport::Connection, number, out)
        {
            Ok(SystemSession { files, periods }) => Ok(Recording {
                files,
                clock: periods,
            }),
            Err(error) => Err(error),
        }
    }
}

/// Opens a folder of recordings, and finishes what an earlier run left there, with a line in `err` for each
/// file. It is made where it isn't there, and nobody else has it while the value lives. What files of datagrams left is read back:
/// those that were finished now, and finished ones of periods that begin at `since` (in seconds since 1970) or later.
pub fn open_recordings<E: Write + Drop, H: Files<File = File> + Alloc<A = Global> + Clone + Drop>(
    rt: &H,
    alloc: Global,
    path: &str,
    since: u64,
    err: E,
) -> Result<OpenRecordings, FolderFault> {
    let folder = open_folder(rt, alloc, path)?;
    let mut earlier = EarlierPeers::new(alloc);
    finish_left(rt, &folder, err, &mut earlier)?;
    // (what can't be read back is not known)
    let _ = read_back(rt, &folder, since, &mut earlier);
    Ok(OpenRecordings { folder, earlier })
}

/// A folder of recordings that was opened, and what an earlier run left there of the peers that sent datagrams.
#[derive(Drop)]
pub struct OpenRecordings {
    pub folder: Folder,
    pub earlier: EarlierPeers,
}

/// Finishes what a stopped run left in a folder of recordings, with a line in `err` for each file, and answers how
/// many files stay. Nothing is made but the file of the lock: a folder that isn't there is an `Err`.
pub fn finish_recordings<E: Write + Drop, H: Files<File = File> + Alloc<A = Global> + Clone + Drop>(
    rt: &H,
    alloc: Global,
    path: &str,
    err: E,
) -> Result<u64, FolderFault>
    ensures { IfOk result (AreLookedAfter ⟦<File as Read>⟧.remaining E.contents path.now err) }
{
    let folder = reopen_folder(rt, alloc, path)?;
    let stayed = finish_left(rt, &folder, err, &mut EarlierPeers::new(alloc))?;
    Ok(stayed)
}

// Finishes what an earlier run left in a folder, notes what is left of its peers, and answers how many files stay.
fn finish_left<E: Write + Drop, H: Files<File = File> + Alloc<A = Global> + Clone + Drop>(
    rt: &H,
    folder: &Folder,
    err: E,
    earlier: &mut EarlierPeers,
) -> Result<u64, FolderFault>
    ensures { IfOk result (AreLookedIn ⟦<File as Read>⟧.remaining E.contents folder.now err) }
{
    let mut lines = WholeLines::new(err);
    let stayed = recover(rt, folder, &mut lines, earlier)?;
    Ok(stayed)
}

/// Records in the folder of a run what comes over connections, for ever. Sessions are numbered by the shared counts. It
/// ends only if no thread can be started.
pub fn run_record<E: Write + Copy + Send + Sync + Drop, R: Clock + Threads + Wait + Sync>(
    run: RecorderRun<R>,
    listener: TcpListener,
    err: E,
) -> Status
    ensures { result ≡ Status.Failed }
{
    let recorder = recorder_of(run, listener, err);
    record_connections(run.threads, &recorder, err)
}

// What records connections in a run, as its order says.
fn recorder_of<'a, E: Write + Copy + Drop, R>(
    run: RecorderRun<'a, R>,
    listener: TcpListener,
    err: E,
) -> ConnectionRecorder<'a, PatientListener<'a, HostRuntime>, ConnectionFolder<'a, HostRuntime, E>>
    ensures idle { result.listener.silence.idle ≡ run.entry.order.now.idle }
    ensures first_message { as_nanos result.listener.silence.first_message ≡ 60000000000 }
    ensures every { result.place.place.every ≡ non_zero_u64_get run.entry.order.now.every }
    ensures order { result.order.now ≡ run.entry.order.now }
{
    ConnectionRecorder {
        alloc: run.alloc,
        listener: PatientListener {
            listener,
            clock: run.rt,
            silence: SilenceLimits {
                idle: run.order.idle,
                first_message: Duration::from_secs(FIRST_MESSAGE),
            },
        },
        place: ConnectionFolder {
            place: SystemPlace::new(run.rt, run.folder, run.order.every.get()),
            err,
        },
        order: run.order,
        shared: run.shared,
    }
}
