//! What the words of a command line say.

ghost use Rattle.std.specs.Prelude.{◌≡◌, Some, IfSome, IsSomeAnd, map, option_map};
ghost use Rattle.clap.specs.Words.{subcommand_name_of, subcommand_rows_of};
ghost use Rattle.cli_words.specs.Arguments.{AllTexts, Count, IsGiven, OneNumber, OneText, reading_of};
ghost use Rattle.cli_words.specs.Words.{word_of};

use crate::arguments::Argument;
use crate::subcommands::Subcommand;
use clap::ArgMatches;

/// A command that was given, and what was given for its arguments.
#[derive(Clone, Copy)]
pub struct Chosen<'m, 'w> {
    pub command: Subcommand,
    matches: &'m ArgMatches<'w>,
}

impl<'m, 'w> Chosen<'m, 'w> {
    ghost use Rattle.cli_words.specs.Given.{IsFlagGiven, IsNumberGiven, count_given, rows_given, text_given, texts_given};

    /// What matches say, if they name a command.
    pub fn of(matches: &'m ArgMatches<'w>) -> Option<Self>
        ensures named { IfSome result (λ chosen. subcommand_rows_of matches.now ≡ Some (word_of chosen.command, rows_given chosen)) }
        ensures each { (command : Subcommand) → subcommand_name_of matches.now ≡ Some (word_of command)
            → IsSomeAnd result (λ chosen. chosen.command ≡ command) }
    {
        let (word, matches) = matches.subcommand()?;
        let command = Subcommand::named(word)?;
        Some(Chosen { command, matches })
    }

    /// Whether an argument that takes nothing is given.
    pub fn is_given(&self, argument: Argument) -> bool
        requires { reading_of argument.takes ≡ IsGiven }
        ensures { IsFlagGiven self.now argument.word.now result }
    {
        self.matches.get_flag(argument.word)
    }

    /// How often an argument that takes nothing is given.
    pub fn count(&self, argument: Argument) -> u8
        requires { reading_of argument.takes ≡ Count }
        ensures { result ≡ count_given self.now argument.word.now }
    {
        self.matches.get_count(argument.word)
    }

    /// The text of an argument that takes one.
    pub fn text(&self, argument: Argument) -> Option<&'w str>
        requires { reading_of argument.takes ≡ OneText }
        ensures { option_map (λ s. s.now) result ≡ text_given self.now argument.word.now }
    {
        self.matches.get_str(argument.word)
    }

    /// The texts of an argument that takes several, in their order. There are none if it is not given.
    pub fn texts(&self, argument: Argument) -> &'m [&'w str]
        requires { reading_of argument.takes ≡ AllTexts }
        ensures { map (λ s. s.now) result.now ≡ texts_given self.now argument.word.now }
    {
        self.matches.get_strs(argument.word).unwrap_or_default()
    }

    /// The number of an argument that takes one.
    pub fn number(&self, argument: Argument) -> Option<u32>
        requires { reading_of argument.takes ≡ OneNumber }
        ensures { IsNumberGiven self.now argument.word.now result }
    {
        self.matches.get_one::<u32>(argument.word)
    }
}
