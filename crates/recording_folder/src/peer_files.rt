//! Which file of a peer's datagrams a later run goes on after.

ghost use Rattle.std.specs.Prelude.{◌≡◌};
ghost use Rattle.recording_folder.specs.PeerFiles as specs;
ghost use Rattle.recording_folder.specs.PeerFiles.{is_of_datagrams};

use recording_names::{Period, SessionName, Transport};

/// A file of a session, as its names say.
#[derive(Clone, Copy, Debug)]
pub struct NamedFile<'a> {
    /// Its period.
    pub period: Period,
    /// The session that wrote it.
    pub session: SessionName<'a>,
    /// `None` if it isn't finished; otherwise 1, or the number in its name.
    pub copy: Option<u64>,
}

impl NamedFile<'_> {
    /// How late it is: one that isn't finished comes last. Otherwise later is what is of a later period; of one period, of a
    /// greater session's number; and of one session, what has a greater number in its name.
    pub(crate) fn rank(&self) -> [u64; 4]
        ensures { result ≡ specs.rank self.now }
    {
        [
            u64::from(self.copy.is_none()),
            self.period.begins,
            self.session.number,
            self.copy.unwrap_or(0),
        ]
    }
}

/// Whether it is that of datagrams.
pub(crate) fn is_of_datagrams(transport: Transport) -> bool
    ensures { result ≡ is_of_datagrams transport }
{
    match transport {
        Transport::Connection => false,
        Transport::Datagrams => true,
    }
}
