//! The place of the receipt of a merged table, which is no file of a part.

ghost use Rattle.std.specs.Prelude.{⊤, All};
ghost use Rattle.std.specs.Bool.{OnFalse, OnTrue};
ghost use Rattle.std.specs.List.{Any};
ghost use Rattle.cli_inputs.specs.ReceiptPlaces.{HasFileOf, HasNoFileOf};

use std::fs::{self, Files};
use std::os::unix::fs::MetadataExt;
use table_parts::PartFiles;

/// Compares the files of paths.
pub trait CompareFiles {
    ghost use Rattle.std.specs.Prelude.{◌≡◌, ℕ, List, IsTrue};
    ghost use Rattle.std.specs.Bool.{OnFalse, OnTrue};

    /// Whether two paths are of one file.
    ghost same: { Self → List ℕ → List ℕ → Type 0 };

    /// Whether they are not: a path may have no file.
    ghost differ: { Self → List ℕ → List ℕ → Type 0 };

    /// Whether two paths are of one file. Each is of its own.
    fn are_same(&self, path: &str, other: &str) -> bool
        ensures one { OnTrue result (same self.now path.now other.now) }
        ensures two { OnFalse result (differ self.now path.now other.now) }
        ensures own { path.now ≡ other.now → IsTrue result };
}

/// The files of the system, by whatever paths.
impl<R: Files> CompareFiles for R {
    ghost same = { λ _ _ _. ⊤ };

    ghost differ = { λ _ _ _. ⊤ };

    fn are_same(&self, path: &str, other: &str) -> bool {
        path == other || have_one_file(self, path, other)
    }
}

fn have_one_file<R: Files>(rt: &R, path: &str, other: &str) -> bool {
    let Ok(file) = fs::metadata(rt, path) else {
        return false;
    };
    match fs::metadata(rt, other) {
        Ok(metadata) => metadata.dev() == file.dev() && metadata.ino() == file.ino(),
        Err(_) => false,
    }
}

/// Whether the file of a path is the table of one of these parts, or the receipt of one.
pub fn is_of_part<F: CompareFiles>(files: &F, path: &str, parts: &[PartFiles]) -> bool
    ensures some { OnTrue result (Any (HasFileOf (F.same files.now path.now)) parts.now) }
    ensures none { OnFalse result (All (HasNoFileOf (F.differ files.now path.now)) parts.now) }
{
    for part in parts {
        if is_file_of(files, path, part) {
            return true;
        }
    }
    false
}

fn is_file_of<F: CompareFiles>(files: &F, path: &str, part: &PartFiles) -> bool
    ensures one { OnTrue result (HasFileOf (F.same files.now path.now) part.now) }
    ensures none { OnFalse result (HasNoFileOf (F.differ files.now path.now) part.now) }
{
    files.are_same(path, part.table) || files.are_same(path, part.receipt)
}
