//! Decimal numbers in names.

ghost use Rattle.std.specs.Prelude.{◌≡◌, ◌≢◌, ◌<◌, ◌^◌, ℕ, decimal, IfNone, IfSome};

use itoa::Buffer;

/// A decimal number of 64 bits, without a sign or leading zeros.
pub(crate) fn decimal_number(text: &str) -> Option<u64>
    ensures some { IfSome result (λ number. text.now ≡ decimal number) }
    ensures none { IfNone result ((number : ℕ) → number < 2 ^ 64 → text.now ≢ decimal number) }
{
    let number = text.parse::<u64>().ok()?;
    if Buffer::new().format(number) == text {
        Some(number)
    } else {
        None
    }
}
