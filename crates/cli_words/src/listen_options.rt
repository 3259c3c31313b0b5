//! The options of the commands that peers send to.

use crate::arguments::{Argument, Due, LARGEST, Takes};
use crate::options::VERBOSE_WORD;

// The word of two options.
const LISTEN_WORD: &str = "listen";

/// Where `tcp` accepts connections.
pub const LISTEN: Argument = Argument {
    word: LISTEN_WORD,
    takes: Takes::Text("ADDR"),
    due: Due::Always,
    help: "The TCP address and port to listen on",
};

/// How many `tcp` accepts.
pub const SESSIONS: Argument = Argument {
    word: "sessions",
    takes: Takes::Number("K", 1, 64),
    due: Due::Always,
    help: "How many connections to accept, each a session",
};

/// For how long a connection of `tcp` may be silent.
pub const IDLE: Argument = Argument {
    word: "idle",
    takes: Takes::Number("SECONDS", 1, LARGEST),
    due: Due::Never,
    help: "How many seconds a connection may send nothing, from 1; then its session ends with fault 15",
};

/// Where `record` records.
pub const INTO: Argument = Argument {
    word: "into",
    takes: Takes::Text("FOLDER"),
    due: Due::Always,
    help: "The folder of the recordings, created if it does not exist",
};

/// Where `record` accepts connections. It needs this or [`UDP`], which it sees to itself.
pub const RECORD_LISTEN: Argument = Argument {
    word: LISTEN_WORD,
    takes: Takes::Text("ADDR"),
    due: Due::Never,
    help: "The TCP address and port to listen on",
};

/// Where `record` takes datagrams.
pub const UDP: Argument = Argument {
    word: "udp",
    takes: Takes::Text("ADDR"),
    due: Due::Never,
    help: "The UDP address and port to receive datagrams on, with --listen or without it",
};

pub const EVERY: Argument = Argument {
    word: "every",
    takes: Takes::Number("SECONDS", 1, LARGEST),
    due: Due::Default("300"),
    help: "The length of a period in seconds, from 1",
};

/// How many connections `record` has at once.
pub const RECORD_SESSIONS: Argument = Argument {
    word: "sessions",
    takes: Takes::Number("N", 1, 1024),
    due: Due::Default("256"),
    help: "How many connections are recorded at once, 1 to 1024; one more is closed at once",
};

pub const PEERS: Argument = Argument {
    word: "peers",
    takes: Takes::Number("N", 1, 65536),
    due: Due::Default("1024"),
    help: "How many peers that send datagrams are kept at once, 1 to 65536; when one more begins, one is dropped, first one without a template",
};

/// For how long a datagram may wait for those before it.
pub const REORDER: Argument = Argument {
    word: "reorder",
    takes: Takes::Number("SECONDS", 0, 60),
    due: Due::Default("1"),
    help: "How many seconds a datagram waits for those before it if it is ahead of the due sequence number, 0 to 60; 0 turns order and doubles off",
};

/// What the templates of a session that is recorded may count.
pub const TEMPLATES: Argument = Argument {
    word: "templates",
    takes: Takes::Number("FIELDS", 1, LARGEST),
    due: Due::Default("16384"),
    help: "What the templates of a session may count, from 1: each counts 8 and its fields, a domain 16; a message that leaves more ends its connection, and a datagram that does is refused",
};

/// How many octets of datagrams that nobody took yet the system is asked to keep.
pub const BUFFER: Argument = Argument {
    word: "buffer",
    takes: Takes::Number("OCTETS", 1, 1_073_741_823),
    due: Due::Default("8388608"),
    help: "How many octets the system is asked to keep of datagrams that were not taken yet, 1 to 1073741823",
};

pub const FROM: Argument = Argument {
    word: "from",
    takes: Takes::Texts("PREFIX"),
    due: Due::Never,
    help: "Which peers may send: an address or a prefix, as 192.0.2.0/24; may be repeated; by default all",
};

/// Whether `record` says more.
pub const RECORD_VERBOSE: Argument = Argument {
    word: VERBOSE_WORD,
    takes: Takes::Nothing(Some('v')),
    due: Due::Never,
    help: "Print more on standard error: each connection that begins, and each that ends",
};

/// For how long a peer of `record` may be silent.
pub const RECORD_IDLE: Argument = Argument {
    word: "idle",
    takes: Takes::Number("SECONDS", 1, LARGEST),
    due: Due::Never,
    help: "How many seconds a peer may send nothing, from 1; by default 1800 over UDP, and no limit over a connection",
};
