//! A domain that went on after an earlier run.

/// A domain that went on after an earlier run.
#[derive(Clone, Copy, Debug, PartialEq, Eq)]
pub struct Resumption {
    /// The observation domain.
    pub domain: u32,
    /// How many templates the earlier run left in it, at least one, which are known again.
    pub templates: usize,
}
