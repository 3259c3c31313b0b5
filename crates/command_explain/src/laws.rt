//! The law of the list.

ghost use Rattle.std.specs.Prelude.{◌≡◌, ◌∷◌, [], map};
ghost use Rattle.command_explain.specs.EndingFaults.{number_of};
ghost use Rattle.command_explain.specs.declared.faults.TheConstants.{FAULTS};

/// The faults of the list are in the order of their numbers, and none is there twice.
pub fn faults_are_in_order()
    ensures { map number_of FAULTS ≡ 1 ∷ 2 ∷ 3 ∷ 4 ∷ 5 ∷ 6 ∷ 7 ∷ 8 ∷ 9 ∷ 10 ∷ 11 ∷ 12 ∷ 13 ∷ 14
        ∷ 15 ∷ 17 ∷ 18 ∷ 19 ∷ 21 ∷ [] }
{}
