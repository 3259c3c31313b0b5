//! A law of the constants: a function that does nothing, and whose contract is the theorem.

ghost use Rattle.std.specs.Prelude.{◌≡◌, false};
ghost use Rattle.report_writing.specs.declared.verbosity.TheConstants.{NOTHING_MORE};

/// Nothing more is what neither option asks for.
pub fn nothing_more_is_told()
    ensures { NOTHING_MORE ≡ record { verbose = false; strict = false } }
{}
