//! Words that are numbers.
ghost use Rattle.std.specs.Prelude.{◌≡◌, ◌≢◌, ℕ, ◌<◌, ◌^◌, decimal, IfSome, IfNone};
ghost use Rattle.rl_text.specs.Number.{number_of, IsNumberOf, IsValueOf};

fn digits_value(word: &[u8]) -> Option<u64>
    ensures { IsValueOf word.now result }
{
    let mut value: u64 = 0;
    for byte in word {
        if !byte.is_ascii_digit() {
            return None;
        }
        value = value.checked_mul(10)?.checked_add(u64::from(*byte - b'0'))?;
    }
    Some(value)
}

fn spelled(word: &[u8]) -> Option<u64>
    ensures { IsNumberOf word.now result }
{
    if word.is_empty() {
        return None;
    }
    if word[0] == b'0' && word.len() > 1 {
        return None;
    }
    digits_value(word)
}

/// The number that a word spells: decimal digits with no sign, no leading zero but that of `0` itself, and a value of at
/// most 18446744073709551615. `None` exactly where the word spells no such number.
pub fn number(word: &[u8]) -> Option<u64>
    ensures value { result ≡ number_of word.now }
    ensures spelled { IfSome result (λ n. (n < 2 ^ 64) × (word.now ≡ decimal n)) }
    ensures none { IfNone result ((n : ℕ) → n < 2 ^ 64 → word.now ≢ decimal n) }
{
    spelled(word)
}
