//! Flows under a plan.

use crate::span::Span;

/// The time of a flow, and the intervals that it contributes to: the first, and how many there are, one
/// after another.
#[derive(Clone, Copy)]
pub struct Flow {
    pub span: Span,
    pub first: u64,
    pub count: u64,
}
