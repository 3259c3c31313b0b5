//! When the table of a finished period is due.

ghost use Rattle.std.specs.Prelude.{◌≡◌, ◌≢◌, ◌++◌, ℕ, List, All, Any, IfNone, IfSome, MatchBool, codes};
ghost use Rattle.std.specs.Bool.{OnFalse, OnTrue};
ghost use Rattle.std.specs.Option.{option_map};
ghost use Rattle.recording_periods.specs.TableStates.{IsFirstGone, IsGone, IsLate, IsListed, IsNamed, IsPathTo, IsTableState};
ghost use Rattle.recording_periods.specs.Whether.{Whether};

/// Whether a table is to be made.
#[derive(Clone, Copy, Debug)]
pub enum TableState<'p> {
    /// There is no receipt, or the period has another file than those that its receipt names.
    Due,
    /// It is of exactly the files that there are, or there is none.
    UpToDate,
    /// The file of this path is gone, the first such path of the receipt: the table stays as it is.
    Gone(&'p str),
}

/// Whether the table of a finished period with these files is due, by the paths of the files that its receipt names, if it
/// has a receipt.
pub fn table_state<'p>(files: &[String], receipt: Option<&'p [String]>) -> TableState<'p>
    ensures { IsTableState files.now (option_map (λ paths. paths.now) receipt.entry) result }
{
    let Some(paths) = receipt else {
        return if files.is_empty() {
            TableState::UpToDate
        } else {
            TableState::Due
        };
    };
    if let Some(path) = first_gone(files, paths) {
        return TableState::Gone(path);
    }
    if all_named(files, paths) {
        TableState::UpToDate
    } else {
        TableState::Due
    }
}

// The first path whose file is gone.
fn first_gone<'p>(files: &[String], paths: &'p [String]) -> Option<&'p str>
    ensures none { IfNone result (All (IsListed files.now) paths.now) }
    ensures first { IfSome result (λ path. IsFirstGone files.now paths.now path.now) }
{
    let mut left = paths;
    while let Some((path, rest)) = left.split_first() {
        if !is_listed(files, path) {
            return Some(path.as_str());
        }
        left = rest;
    }
    None
}

fn is_listed(files: &[String], path: &String) -> bool
    ensures { MatchBool result (IsListed files.now path.now) (IsGone files.now path.now) }
{
    let mut left = files;
    while let Some((name, rest)) = left.split_first() {
        if is_path_to(name.as_str(), path.as_str()) {
            return true;
        }
        left = rest;
    }
    false
}

fn all_named(files: &[String], paths: &[String]) -> bool
    ensures { MatchBool result (All (IsNamed paths.now) files.now)
        (Any (IsLate paths.now) files.now) }
{
    let mut left = files;
    while let Some((name, rest)) = left.split_first() {
        if !is_named(paths, name) {
            return false;
        }
        left = rest;
    }
    true
}

fn is_named(paths: &[String], name: &String) -> bool
    ensures { MatchBool result (IsNamed paths.now name.now) (IsLate paths.now name.now) }
{
    let mut left = paths;
    while let Some((path, rest)) = left.split_first() {
        if is_path_to(name.as_str(), path.as_str()) {
            return true;
        }
        left = rest;
    }
    false
}

fn is_path_to(name: &str, path: &str) -> bool
    ensures { Whether result (IsPathTo name.now path.now) }
{
    match path.as_bytes().strip_suffix(name.as_bytes()) {
        Some(folder) => ends_with_slash(folder),
        None => false,
    }
}

fn ends_with_slash(folder: &[u8]) -> bool
    ensures yes { OnTrue result ((front : List ℕ) × (folder.now ≡ front ++ codes "/")) }
    ensures no { OnFalse result ((front : List ℕ) → folder.now ≢ front ++ codes "/") }
{
    match folder {
        [.., last] => *last == b'/',
        [] => false,
    }
}
