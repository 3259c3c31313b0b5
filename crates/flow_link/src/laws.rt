//! Laws of sessions over a link.

ghost use Rattle.std.specs.Prelude.{◌≡◌, ◌∷◌, ◌++◌, [], List, true};
ghost use Rattle.ipfix_message.specs.declared.record.DataRecord.{DataRecord};
ghost use Rattle.flow_link.specs.declared.parcel.Parcel.{Parcel};
ghost use Rattle.flow_link.specs.declared.parcel.Parcel.TheVariants.{Last};
ghost use Rattle.flow_link.specs.Parcels.{has_last, items, records_in, LastEnds};
ghost use Rattle.flow_link.specs.declared.making.TheConstants.{MAX_CAPACITY};

/// A session that was sent whole is its records as items, and then Last.
pub fn whole_sessions()
    // The records among these parcels are the session's, and Last is only at the end.
    ensures records { (records : List DataRecord)
        → records_in (items records ++ Last ∷ []) ≡ records }
    ensures last { (records : List DataRecord) → has_last (items records ++ Last ∷ []) ≡ true }
    ensures ends { (records : List DataRecord) → LastEnds (items records ++ Last ∷ []) }
    // Any list that has Last, and only at its end, is such a session.
    ensures only { (parcels : List Parcel) → LastEnds parcels → has_last parcels ≡ true
        → parcels ≡ items (records_in parcels) ++ Last ∷ [] }
{}

/// A link has room for at most 65,536 parcels.
pub fn limits()
    ensures { MAX_CAPACITY ≡ 65536 }
{}
