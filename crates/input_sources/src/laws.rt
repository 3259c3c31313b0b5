//! A law of the lines of progress: a function that does nothing, and whose contract is the theorem.

ghost use Rattle.std.specs.Prelude.{◌≤◌, length};
ghost use Rattle.input_sources.specs.Progressing.{line_of, IsOf64Bits, ProgressView};
ghost use Rattle.input_sources.specs.declared.progress.TheConstants.{LINE};

/// Each line has room, so that it goes out in one piece.
pub fn each_line_has_room()
    ensures { (progress : ProgressView) → IsOf64Bits progress → length (line_of progress) ≤ LINE }
{}
