//! Laws of what is known beside a record.

ghost use Rattle.std.specs.Prelude.{◌≡◌, ◌++◌, List, None};
ghost use Rattle.ipfix_message.specs.Fields.{Field, octets_of};
ghost use Rattle.exporter_options.specs.Beside.{fields_beside};
ghost use Rattle.exporter_options.specs.RateFields.{FitsField, rate_of};
ghost use Rattle.exporter_options.specs.declared.beside.Beside.{Beside};
ghost use Rattle.exporter_options.specs.declared.beside.TheConstants.{SAMPLING_RATE};

/// After fields of which none says a rate, as no exporter can, the fields of what is known say the rate that is known.
pub fn rates_are_read_back()
    ensures { (fields : List Field) (b : Beside) → octets_of SAMPLING_RATE fields ≡ None
        → FitsField b.rate → rate_of (fields ++ fields_beside b) ≡ b.rate }
{}
