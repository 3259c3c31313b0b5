//! Reading the text of a file.

ghost use Rattle.std.specs.Prelude.{◌≡◌, ⊤};
ghost use Rattle.std.specs.Option.{ForSome};

use report_writing::Reason;
use std::alloc::Global;
use std::fs;
use std::io::Read;
use std::rt::Files;

/// Reads texts by their paths.
pub trait ReadText {
    ghost use Rattle.std.specs.Prelude.{ℕ, List, IfErr, IfOk};
    ghost use Rattle.report_writing.specs.declared.reason.Reason.{Reason};

    /// Whether a path has the text of these octets.
    ghost has: { Self → List ℕ → List ℕ → Type 0 };

    /// Whether no text of a path can be had, for this reason.
    ghost refuses: { Self → List ℕ → Reason → Type 0 };

    /// The whole text of a path; or why it can't be opened or read.
    fn read_text(&self, alloc: Global, path: &str) -> Result<Vec<u8>, Reason>
        ensures text { IfOk result (λ octets. has self.now path.now octets.items) }
        ensures refused { IfErr result (refuses self.now path.now) };
}

/// The files of the system. A text is what a file held when it was read, if it tells its octets.
impl<F: Read + Drop, R: Files<File = F>> ReadText for R {
    ghost has = { λ _ _ octets. (file : F) × ForSome (F.remaining file) (λ held. octets ≡ held) };

    ghost refuses = { λ _ _ _. ⊤ };

    fn read_text(&self, alloc: Global, path: &str) -> Result<Vec<u8>, Reason> {
        let mut octets = Vec::new(alloc);
        let mut file = match fs::open(self, path) {
            Ok(file) => file,
            Err(error) => return Err(Reason::of(&error)),
        };
        match file.read_to_end(&mut octets) {
            Ok(_) => Ok(octets),
            Err(error) => Err(Reason::of(&error)),
        }
    }
}
