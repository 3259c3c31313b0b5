//! What the parser is told of arguments.

ghost use Rattle.std.specs.Prelude.{◌≡◌, [], false, None, IfOk};
ghost use Rattle.clap.specs.Words.{rule_of};
ghost use Rattle.cli_words.specs.Steps.{SameButDue, SameButValues};
ghost use Rattle.cli_words.specs.Told.{IsTold, action_of, defaults_of, is_always, long_word};

use clap::builder::ValueParser;
use clap::{Arg, ArgAction};
use std::alloc::{AllocError, Global};

/// The largest whole number that an argument takes, if nothing else limits it.
pub const LARGEST: i64 = 4_294_967_295;

/// An argument of a command.
#[derive(Clone, Copy)]
pub struct Argument {
    /// Its word, after two hyphens unless it stands bare.
    pub word: &'static str,
    pub takes: Takes,
    pub due: Due,
    pub help: &'static str,
}

/// What an argument takes. The first text stands for it in the help.
#[derive(Clone, Copy)]
pub enum Takes {
    /// Nothing. It may have a letter for its word, too.
    Nothing(Option<char>),
    /// Nothing, and how often it is given counts.
    Nothings,
    /// A text.
    Text(&'static str),
    /// A text, each time that it is given.
    Texts(&'static str),
    /// Texts, one or more of them after it, each time that it is given.
    Listed(&'static str),
    /// One of these words.
    Word(&'static str, &'static [&'static str]),
    /// A whole number, from the first to the last.
    Number(&'static str, i64, i64),
    /// A text that stands bare.
    Bare(&'static str),
    /// Texts that stand bare, at least one.
    Bares(&'static str),
}

/// Whether an argument has to be given.
#[derive(Clone, Copy)]
pub enum Due {
    Never,
    Always,
    /// Unless another is given, by its word.
    Without(&'static str),
    /// If it is not given, it is this text.
    Default(&'static str),
}

impl Argument {
    /// What the parser is told of it.
    pub fn told<'a>(self, alloc: Global) -> Result<Arg<'a>, AllocError>
        ensures { IfOk result (λ arg. IsTold self (rule_of arg)) }
    {
        let arg = Arg::new(alloc, self.word).help(self.help);
        with_due(with_values(arg, self.word, self.takes), self.due)
    }
}

// The same, with what an argument takes. It has a word unless it stands bare.
fn with_values<'a>(arg: Arg<'a>, word: &'static str, takes: Takes) -> Arg<'a>
    ensures kept { SameButValues (rule_of arg.entry) (rule_of result) }
    ensures long { (rule_of arg.entry).long ≡ None → (rule_of result).long ≡ long_word takes word.now }
    ensures action { (rule_of arg.entry).action ≡ None → (rule_of result).action ≡ action_of takes }
{
    match takes {
        Takes::Bare(value) => arg.value_name(value),
        Takes::Bares(value) => arg.value_name(value).num_args(1..),
        takes => after_word(arg.long(word), takes),
    }
}

// What an argument takes after its word.
fn after_word<'a>(arg: Arg<'a>, takes: Takes) -> Arg<'a>
    ensures kept { SameButValues (rule_of arg.entry) (rule_of result) }
    ensures long { (rule_of result).long ≡ (rule_of arg.entry).long }
    ensures action { (rule_of arg.entry).action ≡ None → (rule_of result).action ≡ action_of takes }
{
    match takes {
        Takes::Nothing(None) => arg.action(ArgAction::SetTrue),
        Takes::Nothing(Some(letter)) => arg.action(ArgAction::SetTrue).short(letter),
        Takes::Nothings => arg.action(ArgAction::Count),
        Takes::Text(value) | Takes::Bare(value) | Takes::Bares(value) => arg.value_name(value),
        Takes::Texts(value) => arg.value_name(value).action(ArgAction::Append),
        Takes::Listed(value) => arg
            .value_name(value)
            .action(ArgAction::Append)
            .num_args(1..),
        Takes::Word(value, words) => arg.value_name(value).value_parser(words),
        Takes::Number(value, least, most) => arg
            .value_name(value)
            .value_parser(ValueParser::Signed(least, most)),
    }
}

// The same, with whether it has to be given.
fn with_due<'a>(arg: Arg<'a>, due: Due) -> Result<Arg<'a>, AllocError>
    ensures kept { IfOk result (λ told. SameButDue (rule_of arg.entry) (rule_of told)) }
    ensures required { (rule_of arg.entry).required ≡ false
        → IfOk result (λ told. (rule_of told).required ≡ is_always due) }
    ensures defaults { (rule_of arg.entry).defaults ≡ []
        → IfOk result (λ told. (rule_of told).defaults ≡ defaults_of due) }
{
    match due {
        Due::Never => Ok(arg),
        Due::Always => Ok(arg.required(true)),
        Due::Without(other) => arg.required_unless_present(other),
        Due::Default(text) => Ok(arg.default_value(text)),
    }
}
