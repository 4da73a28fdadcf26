//! The front of a text, read.
ghost use Rattle.std.specs.Prelude.{◌≡◌, ℕ, Bool, ◌+◌, ◌^◌, ◌<◌, ◌≤◌, ◌++◌, List, length, IfSome, IsSomeAnd};
ghost use Rattle.part_texts.specs.Texts.{flag_text, number_text, sized};

/// The number in front, and what stands behind it.
#[tactic(auto, unfolding(crate::specs::Texts::number_text))]
pub(crate) fn number(text: &[u8]) -> Option<(u64, &[u8])>
    ensures written { (n : ℕ) (more : List ℕ) → n < 2 ^ 64 → text.now ≡ number_text n ++ more
        → IsSomeAnd result (λ p. (p.0 ≡ n) × (p.1.now ≡ more)) }
    ensures front { IfSome result (λ p. text.now ≡ number_text p.0 ++ p.1.now) }
    ensures small { IfSome result (λ p. p.0 < 2 ^ 64) }
    ensures shorter { IfSome result (λ p. length p.1.now + 8 ≡ length text.now) }
{
    let (bytes, rest) = text.split_first_chunk::<8>()?;
    Some((u64::from_be_bytes(*bytes), rest))
}

/// Whether the number in front is 1, and what stands behind it; `None` if it is above 1.
pub(crate) fn flag(text: &[u8]) -> Option<(bool, &[u8])>
    ensures written { (b : Bool) (more : List ℕ) → text.now ≡ flag_text b ++ more
        → IsSomeAnd result (λ p. (p.0 ≡ b) × (p.1.now ≡ more)) }
    ensures front { IfSome result (λ p. text.now ≡ flag_text p.0 ++ p.1.now) }
{
    let (number, rest) = number(text)?;
    match number {
        0 => Some((false, rest)),
        1 => Some((true, rest)),
        _ => None,
    }
}

/// The bytes in front that stand behind their number, and what stands behind them.
pub(crate) fn sized(text: &[u8]) -> Option<(&[u8], &[u8])>
    ensures written { (bytes more : List ℕ) → length bytes < 2 ^ 64 → text.now ≡ sized bytes ++ more
        → IsSomeAnd result (λ p. (p.0.now ≡ bytes) × (p.1.now ≡ more)) }
    ensures front { IfSome result (λ p. text.now ≡ sized p.0.now ++ p.1.now) }
    ensures small { IfSome result (λ p. length p.0.now < 2 ^ 64) }
    ensures shorter { IfSome result (λ p. length p.1.now + 8 ≤ length text.now) }
{
    let (count, rest) = number(text)?;
    if rest.len() as u64 >= count {
        Some(rest.split_at(count as usize))
    } else {
        None
    }
}
