//! Whose session a line tells of.

ghost use Rattle.std.specs.Prelude.{◌≡◌};
ghost use Rattle.std.specs.Net.Text.{socket_text};
ghost use Rattle.report_writing.specs.Origins.{number_text, octets_from, origin_text, peer_text, session_start, whole_name};
ghost use Rattle.report_writing.specs.Writing.{Tells};

use crate::quoting::write_octets;
use crate::write_lines::WriteLines;
use std::io;
use std::net::SocketAddr;

/// Whose session it is.
#[derive(Clone, Copy, Debug, PartialEq, Eq)]
pub enum Origin<'a> {
    /// A file's, by its name, and with its size in octets if that is known.
    File { name: &'a str, size: Option<u64> },
    /// That of the peer of a connection.
    Peer(SocketAddr),
    /// It is not known whose, as on standard input.
    Unknown,
}

impl Origin<'_> {
    /// How many octets there are from this one on, counted from 0, if the size is known.
    pub fn octets_from(&self, octet: u64) -> Option<u64>
        ensures { result ≡ octets_from self.now octet }
    {
        match self {
            Origin::File {
                size: Some(size),
                ..
            } => Some(size.saturating_sub(octet)),
            _ => None,
        }
    }
}

/// Writes whose session it is, as it follows the number of a session or of a file: a space, and a
/// name in quotation marks or an address. Nothing is written if it isn't known.
pub fn write_origin<W: WriteLines>(origin: &Origin, out: &mut W) -> io::Result<()>
    ensures { Tells W.lines out.old out.new result (origin_text origin.now) }
{
    match origin {
        Origin::File { name, .. } => write_whole_name(name, out),
        Origin::Peer(address) => write_peer(*address, out),
        Origin::Unknown => Ok(()),
    }
}

// A name is not cut off, since a longer one is another file.
fn write_whole_name<W: WriteLines>(name: &str, out: &mut W) -> io::Result<()>
    ensures { Tells W.lines out.old out.new result (whole_name name.now) }
{
    write!(out, " \"")?;
    write_octets(name.as_bytes(), out)?;
    write!(out, "\"")
}

#[tactic(auto, unfolding(crate::specs::Origins::peer_text))]
fn write_peer<W: WriteLines>(address: SocketAddr, out: &mut W) -> io::Result<()>
    ensures { Tells W.lines out.old out.new result (peer_text (socket_text address)) }
{
    write!(out, " {address}")
}

/// Writes how an added line of a session begins.
pub fn write_session_start<W: WriteLines>(
    session: usize,
    origin: &Origin,
    out: &mut W,
) -> io::Result<()>
    ensures { Tells W.lines out.old out.new result (session_start session origin.now) }
{
    write_number(session, out)?;
    write_origin(origin, out)
}

#[tactic(auto, unfolding(crate::specs::Origins::number_text))]
fn write_number<W: WriteLines>(session: usize, out: &mut W) -> io::Result<()>
    ensures { Tells W.lines out.old out.new result (number_text session) }
{
    write!(out, "collectd: session {session}")
}
