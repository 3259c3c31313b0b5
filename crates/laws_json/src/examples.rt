//! The lines of one flow, computed from their definitions.

ghost use Rattle.std.specs.Prelude.{◌≡◌, ◌∷◌, ◌++◌, [], Some, None};
ghost use Rattle.json.specs.Json.{document};
ghost use Rattle.flow_export.specs.Examples.{by_address};
ghost use Rattle.flow_export.specs.JsonText.{row_object};
ghost use Rattle.ipfix_dump.specs.JsonLines.{json_line};
ghost use Rattle.laws_json.specs.Examples.{brace_left_out, comma_left_out, half_of_a_pair, newline_in_a_string, one_record, one_row, one_string, record_json, record_text, row_json, row_text, site, string_json, string_text};
ghost use Rattle.laws_json.specs.Lines.{newline};
ghost use Rattle.laws_json.specs.Objects.{object_of};
ghost use Rattle.laws_json.specs.RowObjects.{object_of_row};

/// A record's line, and what is read of it: a number below 2^53, one from there on, an address, and octets
/// that are no value.
pub fn one_record_as_json()
    ensures line { json_line [] one_record ≡ record_text ++ newline ∷ [] }
    ensures value { object_of [] one_record ≡ record_json }
    ensures read { document record_text ≡ Some record_json }
{}

/// A row's line, and what is read of it.
pub fn one_row_as_json()
    ensures line { row_object [] by_address one_row ≡ row_text ++ newline ∷ [] }
    ensures value { object_of_row [] by_address one_row ≡ row_json }
    ensures read { document row_text ≡ Some row_json }
{}

/// The line of a record with a string, under a file that says its element, and what is read of it: the
/// string's octets.
pub fn one_string_as_json()
    ensures line { json_line (site ∷ []) one_string ≡ string_text ++ newline ∷ [] }
    ensures value { object_of (site ∷ []) one_string ≡ string_json }
    ensures read { document string_text ≡ Some string_json }
{}

/// What the reader of these laws refuses: a control character that is not escaped, a comma or a brace
/// that is left out, and half of a pair of units of UTF-16.
pub fn wrong_texts_are_refused()
    ensures newline { document newline_in_a_string ≡ None }
    ensures comma { document comma_left_out ≡ None }
    ensures half { document half_of_a_pair ≡ None }
    ensures brace { document brace_left_out ≡ None }
{}
