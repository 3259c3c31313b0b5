//! Laws of estimates.

ghost use Rattle.std.specs.Prelude.{◌≡◌, ℕ, None, Some};
ghost use Rattle.exporter_options.specs.declared.sampling.Rate.{Rate};
ghost use Rattle.flow_estimates.specs.Estimates.{estimate};

/// Where each packet is selected, and where nothing is known of a rate, an estimate is the counter.
pub fn rate_1_is_ignored()
    ensures none { (n : ℕ) → estimate None n ≡ n }
    ensures all { (n : ℕ) (rate : Rate) → rate.population ≡ rate.selected
        → estimate (Some rate) n ≡ n }
{}
