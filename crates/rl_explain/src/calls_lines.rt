//! The lines of a calls file, one after the other.

use crate::kinds::{Known, LineKind, Standing};
use crate::table::{number_in, small_in};
use rl_text::Line;

/// Behind a line of a call alone, or of one that begins a batch.
fn after_call<'a>(here: Standing<'a>, line: Line<'_>) -> Standing<'a> {
    if !here.known.second || line.word(2) != Some(b"batch") {
        return here;
    }
    let known = Known {
        rank: small_in(line, 1),
        left: small_in(line, 3),
        shard: None,
        ..here.known
    };
    let kind = LineKind::Part;
    Standing { kind, known }
}

/// The shard of a key, of so many shards.
fn shard_of(key: u64, shards: u32) -> u32 {
    if shards == 0 {
        return 0;
    }
    (key % u64::from(shards)) as u32
}

/// Behind a line of a call in a batch.
fn after_part<'a>(here: Standing<'a>, line: Line<'_>) -> Standing<'a> {
    let left = here.known.left.saturating_sub(1);
    let shard = Some(shard_of(number_in(line, 3), here.known.shards));
    let known = Known {
        left,
        shard,
        ..here.known
    };
    let kind = if left == 0 {
        LineKind::Call
    } else {
        LineKind::Part
    };
    Standing { kind, known }
}

/// Behind a line of a calls file that is right.
pub fn after_calls_line<'a>(here: Standing<'a>, line: Line<'_>) -> Standing<'a> {
    match here.kind {
        LineKind::CallsHead => {
            let known = Known {
                second: number_in(line, 2) == 2,
                ..here.known
            };
            let kind = LineKind::Call;
            Standing { kind, known }
        }
        LineKind::Call => after_call(here, line),
        LineKind::Part => after_part(here, line),
        _ => here,
    }
}
