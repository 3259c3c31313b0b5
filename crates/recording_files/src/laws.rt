//! Laws of the definitions. Each is a function that does nothing, and its contract is the theorem: a
//! call brings that to the proof of its caller.

ghost use Rattle.std.specs.Prelude.{◌≡◌, ◌≤◌, ◌++◌, ◌∷◌, ℕ, List, [], Some, None};
ghost use Rattle.ipfix_message.specs.Domains.{Message};
ghost use Rattle.ipfix_message.specs.TemplateLimits.{fields_in};
ghost use Rattle.ipfix_session.specs.declared.stop.Stop.TheVariants.{Clean};
ghost use Rattle.ipfix_session.specs.Faults as sessions;
ghost use Rattle.ipfix_session.specs.Given.{IsPrefix, known_after, records_in, stop_of};
ghost use Rattle.recording_files.specs.declared.recorded_session.RecordedSession.{RecordedSession};
ghost use Rattle.recording_files.specs.Files.{AreSeen, Contents, FilesView, all_of};
ghost use Rattle.recording_files.specs.Sessions.{Progress, Holds, HoldsSome, HoldsAll, HoldsCut, IsTold, Seen, SeenToTheEnd, parts};
ghost use Rattle.recording_files.specs.Recordings.{Part, Recorded};
ghost use Rattle.recording_files.specs.Heads.{told_first};
ghost use Rattle.recording_files.specs.Faithful.{AreToldAgain, FilesOf, IsFaithful, GiveRecordsOf, GiveFirstRecordsOf, all_given, flows_read, flows_sent};
ghost use Rattle.recording_files.specs.FileReports.{AddUp, file_reports};
ghost use Rattle.recording_files.specs.Faults.{number_of, name_of};
ghost use Rattle.recording_files.specs.SharedFaults.{SharedFault};
ghost use Rattle.recording_files.specs.declared.record_fault.RecordFault.{RecordFault};
ghost use Rattle.recording_files.specs.declared.record_fault.RecordFault.TheVariants.{NotWritten};

use crate::file_series::FileSeries;
use crate::period_clock::PeriodClock;
use ipfix_session::Source;

/// The files of a recording say what the session said: each is read by itself, with no fault, and has
/// the options records that it tells again, and then the records of the messages that stand in it; what their ledgers say
/// adds up to what the session's says; and one after another they are one text of the same records.
pub fn recordings_are_faithful()
    ensures { (ps : List Part) → Recorded [] ps → IsFaithful ps }
{}

/// What a file tells again at its head came before it in the session, but for the export time: each is an options record.
pub fn options_are_told_again()
    ensures { (before here : List Message)
        → AreToldAgain (records_in before) (told_first before here) }
{}

/// Files that give the records of a text, but for what they tell again, give its flow records: those that are no options records.
pub fn flow_records_are_those_of_the_text()
    ensures all { (f : FilesOf GiveRecordsOf) → flows_read f ≡ flows_sent f }
    ensures first { (f : FilesOf GiveFirstRecordsOf) → IsPrefix (flows_read f) (flows_sent f) }
{}

/// What stands in the files of a recorded session, where all messages of a text do: each file is read by
/// itself, with no fault, and one after another they give the records of the text up to its end or
/// first fault, but for the options records that they tell again.
pub fn files_give_the_records()
    ensures { (s : Seen HoldsAll)
        → GiveRecordsOf s.progress.limit (all_of s.now) s.progress.text }
{}

/// What stands there where a call of the files failed: the files, of which the last may end within a
/// message, have no fault else, and they give the first records of the text, each once and in order, but for the options
/// records that they tell again.
pub fn files_keep_whole_messages()
    ensures { (s : Seen HoldsCut)
        → GiveFirstRecordsOf s.progress.limit (all_of s.now) s.progress.text }
{}

/// The reports of the files, with that of the file that isn't finished, add up to the session's, each sum
/// that has not stopped at `u64::MAX`.
pub fn file_reports_add_up()
    ensures told { (finished : List Part) (last : Part) (r : RecordedSession)
        → IsTold r (all_given finished) last.given
        → AddUp (file_reports [] finished ++ r.last ∷ []) r.report }
    ensures files { (p : Progress) (after : FilesView) (start now : Contents) (r : RecordedSession)
        → HoldsSome (IsTold r) p after → AreSeen p.first after start now → start.reports ≡ []
        → AddUp (now.reports ++ r.last ∷ []) r.report }
{}

/// A fault that sessions have too keeps its number and its name; only `NotWritten` has number 19.
pub fn fault_numbers()
    ensures number { (f : SharedFault) → number_of f.fault ≡ sessions.number_of f.session }
    ensures name { (f : SharedFault) → name_of f.fault ≡ sessions.name_of f.session }
    ensures only { (fault : RecordFault) → number_of fault ≡ 19 → fault ≡ NotWritten }
{}

/// A recording that ended without a fault: the source's text is whole messages, each file is read by
/// itself, with no fault, and one after another they give all records of the text, but for the options records that they
/// tell again.
pub fn recorded_to_the_end<S: Source, F: FileSeries, C: PeriodClock>()
    ensures clean { (r : SeenToTheEnd S.seen F.seen C.asked) → stop_of r.text ≡ Clean }
    ensures all { (r : SeenToTheEnd S.seen F.seen C.asked)
        → GiveRecordsOf None (all_of r.now) r.text }
{}

/// After the messages of a recorded session that stand in its files, its templates count no more than its limit, whatever was
/// sent.
pub fn recorded_templates_are_within()
    ensures { (limit : ℕ) (text cut_off : List ℕ) (first after : FilesView)
        → (h : Holds (Some limit) text first after cut_off)
        → fields_in (known_after [] (all_given (parts h.finished h.last))) ≤ limit }
{}
