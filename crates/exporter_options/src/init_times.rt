//! When the exporter was started, as it told of each observation domain.

ghost use Rattle.std.specs.Prelude.{◌≡◌, ◌==◌, ◌<◌, find, Some};
ghost use Rattle.std.specs.Option.{option_map};
ghost use Rattle.std.specs.VecDeque.{deque_capacity, deque_len};
ghost use Rattle.exporter_options.specs.Known.{keep_init_time};

use crate::exporter_options::MOST_KEPT;
use std::collections::VecDeque;

/// When the exporter of a domain's records was started.
#[derive(Clone, Copy, Debug)]
pub struct InitTime {
    /// The observation domain.
    pub domain: u32,
    /// In milliseconds since 1970-01-01 UTC.
    pub millis: u64,
}

/// Keeps a time as the newest.
pub fn keep(kept: &mut VecDeque<InitTime>, told: InitTime)
    requires { deque_len kept.old < deque_capacity kept.old }
    ensures { kept.new.items ≡ keep_init_time told.domain (Some told.millis) kept.old.items }
{
    kept.retain(|other| other.domain != told.domain);
    kept.truncate(MOST_KEPT - 1);
    kept.push_front_reserved(told);
}

/// What was told last of a domain itself.
pub fn find_told(kept: &VecDeque<InitTime>, domain: u32) -> Option<u64>
    ensures { result ≡ option_map (λ k. k.millis) (find (λ k. k.domain == domain) kept.now.items) }
{
    Some(kept.iter().find(|told| told.domain == domain)?.millis)
}
