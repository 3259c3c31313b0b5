//! Sources that are had one after another, before the first is read.

ghost use Rattle.std.specs.Prelude.{◌≡◌, ◌++◌, ◌∷◌, [], OnOk, All};
ghost use Rattle.input_sources.specs.Had.{IsUnread};

use ipfix_session::Source;
use std::alloc::{AllocError, Global};
use std::marker::Model;

/// Sources of which none was read yet. Contracts see their list.
#[derive(Drop)]
pub struct UnreadSources<S: Source + Drop> {
    sources: Vec<S>,
}

impl<S: Source + Drop> Model for UnreadSources<S> {
    ghost use Rattle.std.specs.Prelude.{List, All};
    ghost use Rattle.input_sources.specs.Had.{IsUnread};

    ghost Value = { List S };

    ghost view = { λ u. u.sources.items };

    ghost invariant = { λ u. All (IsUnread S.seen) u.sources.items };
}

impl<S: Source + Drop> UnreadSources<S> {
    /// No sources.
    pub fn new(alloc: Global) -> Self
        ensures { result ≡ [] }
    {
        UnreadSources {
            sources: Vec::new(alloc),
        }
    }

    /// Appends a source.
    pub fn push(&mut self, source: S) -> Result<(), AllocError>
        requires { IsUnread S.seen source }
        ensures { OnOk result (self.new ≡ self.old ++ source ∷ []) }
    {
        self.sources.push(source)?;
        Ok(())
    }

    /// The sources.
    pub fn into_sources(self) -> Vec<S>
        ensures list { result.items ≡ self }
        ensures unread { All (IsUnread S.seen) self }
    {
        let UnreadSources { sources } = self;
        sources
    }
}
