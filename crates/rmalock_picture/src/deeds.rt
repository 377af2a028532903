//! What a step does to a word, and what that is called where neither its answer nor an event tells it.
ghost use Rattle.rl_model.specs.Geom.{GeomFits};

use rl_machine::NextAtom;
use rl_names::{WordMap, WordName};
use rl_step::{Standing, Stepped};
use rl_word::Atom;
use std::fmt;

/// What a writer under RMA-RW adds to a counter of arrivals.
const MARK: u64 = 1 << 32;

/// What becomes of a word.
#[derive(Clone, Copy)]
pub enum Act {
    /// It has this value and keeps it.
    Finds(u64),
    /// It gets this value.
    Writes(u64),
}

/// What a step does to a word.
#[derive(Clone, Copy)]
pub struct Deed {
    pub word: WordName,
    pub act: Act,
}

/// What a step is called beyond its atom, its answer and its events.
#[derive(Clone, Copy)]
pub enum Remark {
    /// Under RMA-RW a reader has added itself, and may not come in.
    Refused,
    /// Under RMA-RW the readers that left are taken out of both counters.
    Reset,
    /// Under RMA-RW a writer's mark is put up, which refuses readers.
    Mark,
    /// The mark is taken off.
    MarkOff,
    /// Under `seq` a write begins.
    VersionOdd,
    /// Under `seq` a write has ended.
    VersionEven,
    /// Under `seq` a get finds another version than before, and reads anew.
    LookLost,
    /// Under `seq` a get finds the version that it found first, and is done.
    GetDone,
    /// Under `combine` a rank has posted its call.
    Posts,
    /// Under `combine` this rank's posted call is done.
    DoneFor { rank: u32 },
    /// Under `combine` the rank that did the calls of others has done its own.
    DoneItself,
    /// Under `combine` a rank takes the reply of its call.
    Collects,
    /// The schedule stops the rank.
    Stopped,
}

impl fmt::Display for Remark {
    fn fmt<W: fmt::Write>(&self, f: &mut fmt::Formatter<W>) -> fmt::Result {
        let words = match *self {
            Remark::DoneFor { rank } => return write!(f, "done for rank {rank}"),
            Remark::Refused => "refused",
            Remark::Reset => "reset",
            Remark::Mark => "mark",
            Remark::MarkOff => "mark off",
            Remark::VersionOdd => "version odd",
            Remark::VersionEven => "version even",
            Remark::LookLost => "look lost",
            Remark::GetDone => "get done",
            Remark::Posts => "posts",
            Remark::DoneItself => "its call is done",
            Remark::Collects => "collects",
            Remark::Stopped => "stopped",
        };
        f.write_str(words)
    }
}

/// What a rank is about to do: its next atom, where it is one on a word.
pub fn deed_of(map: &WordMap, next: NextAtom) -> Option<Deed>
    requires { GeomFits map.now.geom }
{
    let (word, act) = match next.atom {
        Atom::Load { word } | Atom::CardLoad { word } => (word, Act::Finds(next.found)),
        Atom::Store { word, value } | Atom::CardStore { word, value } => (word, Act::Writes(value)),
        Atom::LocalCas { word, old, new } if old == next.found => (word, Act::Writes(new)),
        Atom::LocalCas { word, .. } => (word, Act::Finds(next.found)),
        Atom::Take { .. } | Atom::Leave { .. } => return None,
    };
    Some(Deed {
        word: map.name_of(word),
        act,
    })
}

/// What a store to a counter of arrivals is called, where the rank had found another value there.
fn remark_of_arrivals(found: u64, value: u64, standing: Standing) -> Option<Remark> {
    let risen = value.saturating_sub(found);
    if risen >= MARK {
        Some(Remark::Mark)
    } else if found.saturating_sub(value) >= MARK {
        Some(Remark::MarkOff)
    } else if risen == 1 && matches!(standing, Standing::Asking) {
        Some(Remark::Refused)
    } else {
        None
    }
}

/// What a load of the version is called, where it ends a try of a get.
fn remark_of_look(standing: Standing, answer: Stepped) -> Option<Remark> {
    match (answer, standing) {
        (Stepped::Lost { .. }, _) => Some(Remark::LookLost),
        (_, Standing::Out) => Some(Remark::GetDone),
        _ => None,
    }
}

/// What a store to the flag of a post is called, where a rank makes it.
fn remark_of_flag(rank: u32, owner: u32, value: u64) -> Remark {
    match value {
        0 => Remark::Collects,
        1 => Remark::Posts,
        _ if rank == owner => Remark::DoneItself,
        _ => Remark::DoneFor { rank: owner },
    }
}

impl Deed {
    /// What the deed of a rank is called. `found` is what the rank's last load found, `standing` and `answer` are those behind the step.
    pub fn remark(
        self,
        rank: u32,
        found: u64,
        standing: Standing,
        answer: Stepped,
    ) -> Option<Remark> {
        match (self.word, self.act) {
            (WordName::Arrive { .. }, Act::Writes(value)) => {
                remark_of_arrivals(found, value, standing)
            }
            (WordName::Depart { .. }, Act::Writes(0)) if matches!(standing, Standing::Asking) => {
                Some(Remark::Reset)
            }
            (WordName::Version, Act::Writes(value)) if value % 2 == 1 => Some(Remark::VersionOdd),
            (WordName::Version, Act::Writes(_)) => Some(Remark::VersionEven),
            (WordName::Version, Act::Finds(_)) => remark_of_look(standing, answer),
            (
                WordName::Post {
                    rank: owner,
                    word: 0,
                },
                Act::Writes(value),
            ) => { Some(remark_of_flag(rank, owner, value)) }
            _ => None,
        }
    }
}
