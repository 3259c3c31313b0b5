//! The law of the format's numbers: a function that does nothing, whose contract is the law.

ghost use Rattle.std.specs.Prelude.{◌≡◌, ◌∷◌, [], ◌==◌, if◌then◌else◌, ℕ, length};
ghost use Rattle.ipfix_wire.specs.FieldSpecifier.{spec_octets};
ghost use Rattle.ipfix_wire.specs.MessageHeader.{header_octets};
ghost use Rattle.ipfix_wire.specs.SetHeader.{set_octets};
ghost use Rattle.ipfix_wire.specs.VariableLength.{length_octets};
ghost use Rattle.ipfix_wire.specs.declared.header.Header.{Header};
ghost use Rattle.ipfix_wire.specs.declared.header.TheConstants.{VERSION, HEADER_LENGTH};
ghost use Rattle.ipfix_wire.specs.declared.set.TheConstants.{SET_HEADER_LENGTH, TEMPLATE_SET_ID, OPTIONS_TEMPLATE_SET_ID, FIRST_TEMPLATE_ID};
ghost use Rattle.ipfix_wire.specs.declared.specifier.Spec.{Spec};
ghost use Rattle.ipfix_wire.specs.declared.specifier.TheConstants.{ENTERPRISE_BIT, VARIABLE_WIDTH};

/// The numbers of the format are those that RFC 7011 gives.
pub fn format_numbers()
    // A message begins with version 10, in a header of 16 octets (section 3.1).
    ensures version { VERSION ≡ 10 }
    ensures header { HEADER_LENGTH ≡ 16 }
    ensures header_octets { (h : Header) → length (header_octets h) ≡ 16 }
    // A field specifier has 4 octets, and 8 with an enterprise number, which the highest of its first
    // 16 bits announces (section 3.2).
    ensures specifier { (s : Spec)
        → length (spec_octets s) ≡ (if s.element.pen == 0 then 4 else 8) }
    ensures enterprise_bit { ENTERPRISE_BIT ≡ 32768 }
    // A set has a header of 4 octets; 2 is the id of template sets, 3 of options template sets, and
    // those of data sets begin at 256 (sections 3.3.2 and 3.4.1).
    ensures set_header { SET_HEADER_LENGTH ≡ 4 }
    ensures set_octets { (id body : ℕ) → length (set_octets id body) ≡ 4 }
    ensures template_set { TEMPLATE_SET_ID ≡ 2 }
    ensures options_template_set { OPTIONS_TEMPLATE_SET_ID ≡ 3 }
    ensures first_template { FIRST_TEMPLATE_ID ≡ 256 }
    // The width 65,535 is that of a field of variable length, whose length has one octet up to 254,
    // and from 255 on the octet 255 and two more (section 7).
    ensures variable_width { VARIABLE_WIDTH ≡ 65535 }
    ensures short_length { length_octets 254 ≡ 254 ∷ [] }
    ensures long_length { length_octets 255 ≡ 255 ∷ 0 ∷ 255 ∷ [] }
{}
