//! What the words of `--format` and of `--into` of `merge` name.

ghost use Rattle.std.specs.Prelude.{◌≡◌, All, Some, IfSome, IsSome};
ghost use Rattle.cli_inputs.specs.Formats.{form_word, format_word, interval_word};
ghost use Rattle.cli_words.specs.declared.format_words.TheConstants.{DUMP_FORMATS, MERGE_INTERVALS, TABLE_FORMATS};

use flow_export::Format;
use ipfix_dump::Form;
use local_days::LocalInterval;

/// The form of a dump that a word names.
pub fn dump_form(word: &str) -> Option<Form>
    ensures names { IfSome result (λ form. word.now ≡ form_word form) }
    ensures each { (form : Form) → word.now ≡ form_word form → result ≡ Some form }
    // The parser lets through no word that names none.
    ensures known { All (λ w. word.now ≡ w.now → IsSome result) DUMP_FORMATS }
{
    match word {
        "text" => Some(Form::Text),
        "json" => Some(Form::Json),
        _ => None,
    }
}

/// The format of a table that a word names.
pub fn table_format(word: &str) -> Option<Format>
    ensures names { IfSome result (λ format. word.now ≡ format_word format) }
    ensures each { (format : Format) → word.now ≡ format_word format → result ≡ Some format }
    // The parser lets through no word that names none.
    ensures known { All (λ w. word.now ≡ w.now → IsSome result) TABLE_FORMATS }
{
    match word {
        "csv" => Some(Format::Csv),
        "ipfix" => Some(Format::Ipfix),
        "json" => Some(Format::Json),
        _ => None,
    }
}

/// The local intervals that a word names.
pub fn merge_interval(word: &str) -> Option<LocalInterval>
    ensures names { IfSome result (λ interval. word.now ≡ interval_word interval) }
    ensures each { (into : LocalInterval)
        → word.now ≡ interval_word into → result ≡ Some into }
    // The parser lets through no word that names none.
    ensures known { All (λ w. word.now ≡ w.now → IsSome result) MERGE_INTERVALS }
{
    match word {
        "day" => Some(LocalInterval::Day),
        "month" => Some(LocalInterval::Month),
        _ => None,
    }
}
