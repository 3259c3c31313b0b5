//! The laws of a dump's lines, whatever elements files name. Each is a function that does nothing, and its contract is
//! the theorem. The names that files give are plain
//! ([`file_names_are_plain`](flow_export::laws::file_names_are_plain)).

ghost use Rattle.std.specs.Prelude.{◌≡◌, []};
ghost use Rattle.ipfix_message.specs.DataRecords.{HasOctets};
ghost use Rattle.ipfix_message.specs.declared.record.DataRecord.{DataRecord};
ghost use Rattle.ipfix_dump.specs.JsonLines.{json_line};
ghost use Rattle.laws_json.specs.Lines.{AreApart, IsReadAs};
ghost use Rattle.flow_export.specs.PlainNames.{PlainElements};
ghost use Rattle.laws_json.specs.Objects.{FitsTypes, ForRecords, object_of, RecordsAreReadAs};
ghost use Rattle.laws_json.specs.Texts.{IsExact, IsExactNatural, line_of, NumbersAre};
ghost use Rattle.laws_json.specs.Told.{TellsRecord};

/// The line of a record is the text of one object with the members domain, template, export_time,
/// scope and fields, in this order, with no space, and a newline; read as JSON (RFC 8259), it is this
/// object and nothing else. A string is what its octets are, however it is escaped.
pub fn lines_are_objects()
    ensures text { ForRecords (λ known r. json_line known r ≡ line_of (object_of known r)) }
    ensures value { RecordsAreReadAs (λ known r value. value ≡ object_of known r) }
{}

/// What is looked up in a line by the names of its members is the record's: its domain, template,
/// export time and scope, and for each field, in order, the name of its element and its value by the
/// element's kind.
pub fn lines_tell_records()
    ensures { RecordsAreReadAs TellsRecord }
{}

/// Each number of a line is below 2^53, whatever its sign, so that a reader that holds numbers as
/// floats has it exactly (RFC 7493, section 2.2). A field's number from there on is a text. Without
/// files no number has a sign.
pub fn lines_have_exact_numbers()
    ensures exact { RecordsAreReadAs (λ known r value. NumbersAre IsExact value) }
    ensures natural { (r : DataRecord) → HasOctets r → FitsTypes r
        → IsReadAs (json_line [] r) (NumbersAre IsExactNatural) }
{}

/// A line ends with a newline, and no other one stands within it: a dump that is cut after each
/// newline is the lines of its records.
pub fn lines_are_apart()
    ensures { (files : PlainElements) → AreApart HasOctets (json_line files.known) }
{}
