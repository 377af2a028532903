//! The words of ranks in the queues of a lock.

ghost use Rattle.std.specs.Prelude.{◌≡◌, ◌+◌, ◌*◌, ◌^◌, ◌<◌, IfOk};
ghost use Rattle.rl_queue.specs.RankWords.{every_second};

use std::alloc::{AllocError as OutOfMemory, Global};

/// The next word of each of so many ranks, or the status word of each: every second word from one on, so that the two words of a
/// rank stand side by side.
pub fn rank_words(alloc: Global, from: u32, ranks: u32) -> Result<Vec<u32>, OutOfMemory>
    requires { from + 2 * ranks < 2 ^ 32 }
    ensures { IfOk result (λ words. words.items ≡ every_second from ranks) }
{
    let mut words = Vec::new(alloc);
    for rank in 0..ranks {
        words.push(from + 2 * rank)?;
    }
    Ok(words)
}
