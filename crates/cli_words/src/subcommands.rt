//! The commands, and the words that name them.

ghost use Rattle.std.specs.Prelude.{◌≡◌, Some, IfSome};
ghost use Rattle.cli_words.specs.Words.{word_of};

/// A command of the program.
#[derive(Clone, Copy, Debug, PartialEq, Eq)]
pub enum Subcommand {
    Dump,
    Files,
    Tcp,
    Record,
    Finish,
    Tables,
    Merge,
    Verify,
    Elements,
    Explain,
}

impl Subcommand {
    /// All of them, in the order of the help.
    pub const ALL: [Subcommand; 10] = [
        Subcommand::Dump,
        Subcommand::Files,
        Subcommand::Tcp,
        Subcommand::Record,
        Subcommand::Finish,
        Subcommand::Tables,
        Subcommand::Merge,
        Subcommand::Verify,
        Subcommand::Elements,
        Subcommand::Explain,
    ];

    /// The word that names it.
    pub fn word<'a>(self) -> &'a str
        ensures { result.now ≡ word_of self }
    {
        match self {
            Subcommand::Dump => "dump",
            Subcommand::Files => "files",
            Subcommand::Tcp => "tcp",
            Subcommand::Record => "record",
            Subcommand::Finish => "finish",
            Subcommand::Tables => "tables",
            Subcommand::Merge => "merge",
            Subcommand::Verify => "verify",
            Subcommand::Elements => "elements",
            Subcommand::Explain => "explain",
        }
    }

    /// The one that a word names.
    pub fn named(word: &str) -> Option<Subcommand>
        ensures names { IfSome result (λ command. word.now ≡ word_of command) }
        ensures each { (command : Subcommand) → word.now ≡ word_of command → result ≡ Some command }
    {
        match word {
            "dump" => Some(Subcommand::Dump),
            "files" => Some(Subcommand::Files),
            "tcp" => Some(Subcommand::Tcp),
            "record" => Some(Subcommand::Record),
            "finish" => Some(Subcommand::Finish),
            "tables" => Some(Subcommand::Tables),
            "merge" => Some(Subcommand::Merge),
            "verify" => Some(Subcommand::Verify),
            "elements" => Some(Subcommand::Elements),
            "explain" => Some(Subcommand::Explain),
            _ => None,
        }
    }
}
