//! Datagrams that the system dropped.

ghost use Rattle.std.specs.Prelude.{◌≡◌};
ghost use Rattle.report_writing.specs.Writing.{Tells};
ghost use Rattle.recording_datagrams.specs.Drops.{drop_lines};

use recording_lines::write_system_drops;
use report_writing::WriteLines;
use std::io;
use std::net::SocketAddr;

/// A socket whose buffer may be full, and how many of its datagrams the system dropped for that reason.
#[derive(Clone, Copy, Debug, PartialEq, Eq)]
pub struct SocketDrops {
    /// The address of the socket.
    pub address: SocketAddr,
    /// The number by which the system names it.
    pub inode: u64,
    /// How many were dropped in all when that was told last.
    pub dropped: u64,
}

impl SocketDrops {
    /// Tells how many were dropped since that was told last, if any were, where these are dropped in all. They are counted as
    /// told though the line can't be written.
    pub fn tell<W: WriteLines>(&mut self, dropped: u64, out: &mut W) -> io::Result<()>
        ensures told { Tells W.lines out.old out.new result
            (drop_lines self.old dropped) }
        ensures counted { self.new ≡ record self.old { dropped = dropped } }
    {
        let more = dropped.saturating_sub(self.dropped);
        self.dropped = dropped;
        if more == 0 {
            return Ok(());
        }
        write_system_drops(self.address, more, out)
    }
}
