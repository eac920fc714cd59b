//! Numbers in words.
ghost use Rattle.std.specs.Prelude.{ℕ, IfSome, IfNone};
ghost use Rattle.rc_house.specs.Words.{IsNumber};

use rc_form::natural;

/// The number from `least` to `most` that one to five digits spell, if the text is one.
pub(crate) fn number_of(text: &str, least: u64, most: u64) -> Option<u64>
    ensures some { IfSome result (IsNumber least most text.now) }
    ensures none { IfNone result ((n : ℕ) → IsNumber least most text.now n → ⊥) }
{
    if text.len() > 5 {
        return None;
    }
    match natural(text.as_bytes()) {
        Some(number) if number >= least && number <= most => Some(number),
        _ => None,
    }
}
