//! What a text begins with. Each reader gives what follows what it read, and `None` says nothing of the text: that is for
//! readers of the lines that most files have, beside readers that go word by word and say what is wrong.
ghost use Rattle.std.specs.Prelude.{◌≡◌, ◌+◌, ◌<◌, ◌^◌, ◌∷◌, ◌++◌, decimal, IfSome};

// Numbers below this may have a further digit.
const MAY_GO_ON: u64 = 1_000_000_000_000_000_000;

/// What follows the first byte, where this is it.
#[inline(always)]
pub fn after_byte(bytes: &[u8], byte: u8) -> Option<&[u8]>
    ensures { IfSome result (λ rest. bytes.now ≡ byte ∷ rest.now) }
{
    match bytes {
        [first, rest @ ..] if *first == byte => Some(rest),
        _ => None,
    }
}

/// The value of a digit.
#[inline(always)]
pub fn digit(byte: u8) -> Option<u32>
    ensures { IfSome result (λ value. (value < 10) × (byte ≡ 48 + value)) }
{
    if byte.is_ascii_digit() {
        Some(u32::from(byte - b'0'))
    } else {
        None
    }
}

/// The number that the digits spell with which the text begins, and what follows them.
#[inline(always)]
pub fn front_number(bytes: &[u8]) -> Option<(u64, &[u8])>
    ensures { IfSome result (λ p. (p.0 < 2 ^ 64) × (bytes.now ≡ decimal p.0 ++ p.1.now)) }
{
    let [first, more @ ..] = bytes else {
        return None;
    };
    let mut value = u64::from(digit(*first)?);
    let mut rest = more;
    while value > 0 && value < MAY_GO_ON {
        let [next, more @ ..] = rest else {
            break;
        };
        let Some(last) = digit(*next) else {
            break;
        };
        value = value * 10 + u64::from(last);
        rest = more;
    }
    Some((value, rest))
}

/// The number that follows a space with which the text begins, and what follows it.
#[inline(always)]
pub fn front_spaced(bytes: &[u8]) -> Option<(u64, &[u8])>
    ensures { IfSome result (λ p. (p.0 < 2 ^ 64) × (bytes.now ≡ 32 ∷ decimal p.0 ++ p.1.now)) }
{
    front_number(after_byte(bytes, b' ')?)
}
