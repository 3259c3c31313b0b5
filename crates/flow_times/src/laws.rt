//! Laws of what is told of the times of flows.

ghost use Rattle.std.specs.Prelude.{◌≡◌, List, Some};
ghost use Rattle.ipfix_message.specs.declared.record.DataRecord.{DataRecord};
ghost use Rattle.flow_times.specs.Noted.{noted_of};
ghost use Rattle.flow_times.specs.Untimed.{AreLeftOut, ForBasic, first_other, times_of, untimed_time};
ghost use Rattle.flow_times.specs.declared.element.TimeElement.{TimeElement};
ghost use Rattle.flow_times.specs.declared.notes.TimeNoting.{TimeNoting};

/// What is noted of records one after another is what is told of all of them.
pub fn noted_are_told()
    ensures { (noting : TimeNoting) (rs : List DataRecord)
        → noted_of noting rs ≡ times_of noting rs }
{}

/// An element is told only if all flows are untimed under each plan that reads milliseconds and seconds alone; and if
/// they are, that of the first which has one is.
pub fn untimed_are_told()
    ensures only { ForBasic (λ p rs. (e : TimeElement)
        → untimed_time rs ≡ Some e → AreLeftOut p rs) }
    ensures all { ForBasic (λ p rs. AreLeftOut p rs → untimed_time rs ≡ first_other rs) }
{}
