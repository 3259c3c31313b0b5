//! The line of a run that begins.

ghost use Rattle.std.specs.Prelude.{◌++◌, codes};
ghost use Rattle.report_writing.specs.Writing.{Tells};
ghost use Rattle.command_record.specs.Beginning.{IsIntake, address_part, address_text, addresses_text, beginning_line, datagram_texts, folder_text, intake_texts, most_part, most_text, most_texts, room_texts};

use crate::system::Sockets;
use recording_connections::RecordOrder;
use recording_datagrams::DatagramLimits;
use report_writing::WriteLines;
use std::io;
use std::net::SocketAddr;

/// What a run takes, and where. What isn't in use has no part.
#[derive(Clone, Copy)]
pub(crate) struct Intake {
    /// Where it accepts connections.
    pub listen: Option<SocketAddr>,
    /// Where it receives datagrams.
    pub udp: Option<SocketAddr>,
    /// How many sessions of connections it records at once.
    pub sessions: Option<usize>,
    /// How many peers that send datagrams it keeps.
    pub peers: Option<usize>,
    /// What the templates of each session may count.
    pub templates: u64,
    /// How many octets of datagrams that nobody took yet the system keeps.
    pub buffer: Option<usize>,
}

impl Intake {
    /// What a run takes through these sockets, as it is asked for.
    pub fn of(sockets: &Sockets, order: &RecordOrder, limits: &DatagramLimits) -> Self
        ensures { IsIntake sockets.now order.now limits.now result }
    {
        Intake {
            listen: match &sockets.listener {
                Some(listener) => listener.local_addr().ok(),
                None => None,
            },
            udp: match &sockets.socket {
                Some(socket) => socket.local_addr().ok(),
                None => None,
            },
            sessions: sockets.listener.as_ref().map(|_| order.sessions),
            peers: sockets.socket.as_ref().map(|_| limits.most.get()),
            templates: order.templates,
            buffer: sockets.socket.as_ref().map(|socket| socket.buffer as usize),
        }
    }
}

/// Writes where a run records, and what it takes.
pub(crate) fn write_beginning<W: WriteLines>(
    folder: &str,
    intake: Intake,
    out: &mut W,
) -> io::Result<()>
    ensures { Tells W.lines out.old out.new result (beginning_line folder.now intake) }
{
    write_folder(folder, out)?;
    write_intake(intake, out)
}

#[tactic(auto, unfolding(crate::specs::Beginning::folder_text))]
fn write_folder<W: WriteLines>(folder: &str, out: &mut W) -> io::Result<()>
    ensures { Tells W.lines out.old out.new result (folder_text folder.now) }
{
    write!(out, "collectd: recording: {folder}")
}

fn write_intake<W: WriteLines>(intake: Intake, out: &mut W) -> io::Result<()>
    ensures { Tells W.lines out.old out.new result (intake_texts intake) }
{
    write_addresses(intake.listen, intake.udp, out)?;
    write_most(intake, out)
}

fn write_addresses<W: WriteLines>(
    listen: Option<SocketAddr>,
    udp: Option<SocketAddr>,
    out: &mut W,
) -> io::Result<()>
    ensures { Tells W.lines out.old out.new result (addresses_text listen udp) }
{
    write_address("listen", listen, out)?;
    write_address("udp", udp, out)
}

fn write_address<W: WriteLines>(
    word: &str,
    address: Option<SocketAddr>,
    out: &mut W,
) -> io::Result<()>
    ensures { Tells W.lines out.old out.new result (address_part word.now address) }
{
    match address {
        None => Ok(()),
        Some(address) => write_address_text(word, address, out),
    }
}

#[tactic(auto, unfolding(crate::specs::Beginning::address_text))]
fn write_address_text<W: WriteLines>(word: &str, address: SocketAddr, out: &mut W) -> io::Result<()>
    ensures { Tells W.lines out.old out.new result (address_text word.now address) }
{
    write!(out, " {word} {address}")
}

fn write_most<W: WriteLines>(intake: Intake, out: &mut W) -> io::Result<()>
    ensures { Tells W.lines out.old out.new result (most_texts intake) }
{
    write_most_part("sessions", intake.sessions, out)?;
    write_datagrams(intake, out)
}

fn write_datagrams<W: WriteLines>(intake: Intake, out: &mut W) -> io::Result<()>
    ensures { Tells W.lines out.old out.new result (datagram_texts intake) }
{
    write_most_part("peers", intake.peers, out)?;
    write_rooms(intake, out)
}

fn write_rooms<W: WriteLines>(intake: Intake, out: &mut W) -> io::Result<()>
    ensures { Tells W.lines out.old out.new result (room_texts intake) }
{
    write_most_text("templates", intake.templates as usize, out)?;
    write_last(intake.buffer, out)
}

fn write_last<W: WriteLines>(buffer: Option<usize>, out: &mut W) -> io::Result<()>
    ensures { Tells W.lines out.old out.new result
        (most_part (codes "buffer") buffer ++ codes "\n") }
{
    write_most_part("buffer", buffer, out)?;
    out.write_all(b"\n")
}

fn write_most_part<W: WriteLines>(word: &str, most: Option<usize>, out: &mut W) -> io::Result<()>
    ensures { Tells W.lines out.old out.new result (most_part word.now most) }
{
    match most {
        None => Ok(()),
        Some(most) => write_most_text(word, most, out),
    }
}

#[tactic(auto, unfolding(crate::specs::Beginning::most_text))]
fn write_most_text<W: WriteLines>(word: &str, most: usize, out: &mut W) -> io::Result<()>
    ensures { Tells W.lines out.old out.new result (most_text word.now most) }
{
    write!(out, " {word} {most}")
}
