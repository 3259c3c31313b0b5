//! How packets are sampled, as an exporter told of each observation domain and selector.

ghost use Rattle.std.specs.Prelude.{◌≡◌, ◌<◌};
ghost use Rattle.std.specs.VecDeque.{deque_capacity, deque_len};
ghost use Rattle.exporter_options.specs.Known.{is_asked as is_asked_of, keep_told, sampling_kept};

use crate::exporter_options::MOST_KEPT;
use crate::sampling::Sampling;
use std::collections::VecDeque;

/// How packets of a domain are sampled.
#[derive(Clone, Copy, Debug)]
pub struct DomainSampling {
    /// The observation domain.
    pub domain: u32,
    /// By which selector, if one was named.
    pub selector: Option<u64>,
    /// At which rate.
    pub sampling: Sampling,
}

/// Keeps a rate as the newest.
pub fn keep(kept: &mut VecDeque<DomainSampling>, told: DomainSampling)
    requires { deque_len kept.old < deque_capacity kept.old }
    ensures { kept.new.items ≡ keep_told told kept.old.items }
{
    kept.retain(|other| !(other.domain == told.domain && other.selector == told.selector));
    kept.truncate(MOST_KEPT - 1);
    kept.push_front_reserved(told);
}

// Whether what was told of a selector is what is asked for: of one, or of whichever.
fn is_asked(asked: Option<u64>, told: Option<u64>) -> bool
    ensures { result ≡ is_asked_of asked told }
{
    asked.is_none() || told == asked
}

/// What was told last of a domain itself: of a selector if one is asked for, else of whichever.
pub fn find_told(
    kept: &VecDeque<DomainSampling>,
    domain: u32,
    selector: Option<u64>,
) -> Option<Sampling>
    ensures { result ≡ sampling_kept kept.now.items domain selector }
{
    let told = kept.iter().find(|told| told.domain == domain && is_asked(selector, told.selector))?;
    Some(told.sampling)
}
