//! Short numbers at the front of a text, read by cases.
ghost use Rattle.std.specs.Prelude.{◌≡◌, ◌<◌, [], ◌∷◌, ◌++◌, decimal, IfSome};
ghost use Rattle.rl_text.specs.Short.{pair_text};

use crate::front::digit;

/// The number that a byte spells.
#[inline(always)]
#[tactic(auto, using(crate::proofs::ShortLaws::digit_text))]
fn one_digit(byte: u8) -> Option<u32>
    ensures { IfSome result (λ n. (n < 100) × (decimal n ≡ byte ∷ [])) }
{
    digit(byte)
}

/// The number that two bytes spell.
#[inline(always)]
fn two_digits(first: u8, second: u8) -> Option<u32>
    ensures { IfSome result (λ n. (n < 100) × (decimal n ≡ first ∷ second ∷ [])) }
{
    let tens = digit(first)?;
    if tens == 0 {
        return None;
    }
    Some(tens * 10 + digit(second)?)
}

/// Two short numbers with a space between them and a newline behind them, and what follows it. `None` says nothing of the
/// bytes.
#[inline(always)]
pub fn short_line(bytes: &[u8]) -> Option<(u32, u32, &[u8])>
    ensures { IfSome result (λ p. (p.0 < 100) × (p.1 < 100) × (bytes.now ≡ pair_text p.0 p.1 ++ 10 ∷ p.2.now)) }
{
    match bytes {
        [a, b' ', c, b'\n', rest @ ..] => Some((one_digit(*a)?, one_digit(*c)?, rest)),
        [a, b, b' ', c, b'\n', rest @ ..] => Some((two_digits(*a, *b)?, one_digit(*c)?, rest)),
        [a, b' ', c, d, b'\n', rest @ ..] => Some((one_digit(*a)?, two_digits(*c, *d)?, rest)),
        [a, b, b' ', c, d, b'\n', rest @ ..] => {
            Some((two_digits(*a, *b)?, two_digits(*c, *d)?, rest))
        }
        _ => None,
    }
}
