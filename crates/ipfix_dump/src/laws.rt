//! Laws of lines. Each is a function that does nothing, and its contract is the law.

ghost use Rattle.ipfix_dump.specs.DumpLines.{IsSameIfBuiltIn, field_text};
ghost use Rattle.ipfix_dump.specs.JsonLines.{json_field};

/// Files change nothing of the fields of built-in elements.
pub fn built_in_fields()
    ensures text { IsSameIfBuiltIn field_text }
    ensures json { IsSameIfBuiltIn json_field }
{}
