//! Where a rank stands in its call.

ghost use Rattle.std.specs.Prelude.{◌≡◌, ◌<◌, ◌+◌, ◌==◌, if◌then◌else◌};
ghost use Rattle.rl_combine.specs.declared.stage.CombineStage.TheVariants as stage;
ghost use Rattle.rl_combine.specs.Combine as model;

use crate::posts::{ANSWER_WORDS, CALL_WORDS};
use rl_site::ENTRY_WORDS;
use rl_word::Mode;
use rl_work::Follow;

/// Where a rank stands in its call. Each but the first says which atom is next.
///
/// `owner` is the rank whose post is looked at: a rank that has the lock sweeps over the posts of all ranks, its own among them.
#[derive(Clone, Copy, PartialEq, Eq, Debug)]
pub enum CombineStage {
    /// No call is open.
    Rest,
    /// So many words of the call are posted: the store of the next one.
    Post { made: u32 },
    /// All words of the call are posted: the store of 1 to the own flag.
    Raise,
    /// The lock was asked for, and then: the load of the own flag.
    Look,
    /// The own call isn't done: the load of the count.
    Count,
    /// The load of this rank's flag.
    Sweep { owner: u32 },
    /// It found the flag 1, and copied so many words of the post: the load of the next one.
    Copy { owner: u32, made: u32 },
    /// The load of this word of the volume, for the posted call.
    Read { owner: u32, word: u32 },
    /// The posted update is decided, and so many words of its entry are written: the store of the next one.
    Journal { owner: u32, made: u32 },
    /// Its entry is written, and so many of its writes are made: the next write, or the store of the count behind the last one.
    Volume { owner: u32, made: u32 },
    /// The posted call is done, and so many words of its answer are stored: the store of the next one.
    Answer { owner: u32, made: u32 },
    /// Its answer is stored: the store of 2 to its flag.
    Mark { owner: u32 },
    /// The own call is done, and so many words of its answer are copied: the load of the next one.
    Collect { made: u32 },
    /// The own answer is copied: the store of 0 to the own flag.
    Lower,
}

impl CombineStage {
    /// Whether a call is open.
    pub(crate) fn is_open(self) -> bool
        ensures { result ≡ model.combine_is_open self }
    {
        !matches!(self, CombineStage::Rest)
    }

    /// Whether its atom touches what the lock guards, and if so whether it writes there.
    pub(crate) fn touch(self) -> Option<bool>
        ensures { result ≡ model.combine_touch_at self }
    {
        match self {
            CombineStage::Count | CombineStage::Read { .. } => Some(false),
            CombineStage::Journal { .. } | CombineStage::Volume { .. } => Some(true),
            _ => None,
        }
    }

    /// What follows its atom.
    #[inline(always)]
    pub(crate) fn follow(self) -> Follow
        ensures { result ≡ model.follow_of self }
    {
        match self {
            CombineStage::Raise => Follow::Ask(Mode::Write),
            CombineStage::Lower => Follow::Over,
            _ => Follow::On,
        }
    }

    /// After a word of the call is posted.
    #[inline(always)]
    pub(crate) fn after_post(made: u32) -> CombineStage
        requires { made < 5 }
        ensures { result ≡ (if made + 1 == 5 then stage.Raise else stage.Post (made + 1)) }
    {
        if made + 1 == CALL_WORDS {
            CombineStage::Raise
        } else {
            CombineStage::Post { made: made + 1 }
        }
    }

    /// After a word of an entry is written to the journal.
    #[inline(always)]
    pub(crate) fn after_journal(owner: u32, made: u32) -> CombineStage
        requires { made < 6 }
        ensures { result ≡ (if made + 1 == 6 then stage.Volume owner 0 else stage.Journal owner (made + 1)) }
    {
        if made + 1 == ENTRY_WORDS {
            CombineStage::Volume { owner, made: 0 }
        } else {
            CombineStage::Journal {
                owner,
                made: made + 1,
            }
        }
    }

    /// After a word of an answer is stored.
    #[inline(always)]
    pub(crate) fn after_answer(owner: u32, made: u32) -> CombineStage
        requires { made < 3 }
        ensures { result ≡ (if made + 1 == 3 then stage.Mark owner else stage.Answer owner (made + 1)) }
    {
        if made + 1 == ANSWER_WORDS {
            CombineStage::Mark { owner }
        } else {
            CombineStage::Answer {
                owner,
                made: made + 1,
            }
        }
    }
}
