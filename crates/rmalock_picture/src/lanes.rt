//! What is seen of a replay: a lane for each rank.

use crate::deeds::{Act, Deed, Remark};
use crate::labels::Word;
use rl_names::WordName;
use rl_step::{Event, Standing, Stepped};
use std::alloc::{AllocError as OutOfMemory, Global};
use std::fmt;

/// One step of a rank, how it went, and what a listing of steps says of it: the atom, the answer and the events. Nothing is
/// told of a step that isn't shown.
#[derive(Drop)]
pub struct Cell {
    pub step: u32,
    pub answer: Stepped,
    /// Whether what was lost is no compare, but a get's look at the version.
    pub lost_look: bool,
    pub told: Vec<u8>,
}

/// What a label tells of.
#[derive(Clone, Copy)]
pub enum Happening {
    Event(Event),
    Remark(Remark),
}

/// Something that happened in a step.
#[derive(Clone, Copy)]
pub struct Mark {
    pub step: u32,
    pub what: Happening,
}

/// What a rank does for some time.
#[derive(Clone, Copy, PartialEq, Eq, Debug)]
pub enum Doing {
    /// It asks for the lock.
    Asking,
    /// It holds the lock, alone.
    Writing,
    /// It holds the lock beside other readers.
    Reading,
    /// It gives the lock back.
    Leaving,
    /// It is in a get that takes no lock.
    Looking,
    /// It is a reader that may not come in.
    Refused,
    /// Another rank has done its call.
    Answered,
    /// It is in the card of this node.
    InCard { node: u32 },
    /// It does the posted call of this rank, or its own.
    Serving { rank: u32, itself: bool },
    /// It makes no step any more.
    Stopped,
}

/// What a rank does on a shard, in the steps from `from` on and before `to`.
#[derive(Clone, Copy)]
pub struct Band {
    pub doing: Doing,
    pub shard: u32,
    pub from: u32,
    pub to: u32,
}

/// What is seen of a rank after one of its steps.
#[derive(Drop)]
pub struct Moment {
    /// The step and how it went.
    pub cell: Cell,
    /// What it did to a word.
    pub deed: Option<Deed>,
    /// The shard of its calls.
    pub shard: u32,
    /// How it stands to that shard's lock.
    pub standing: Standing,
    /// The node of the card that it is in.
    pub card: Option<u32>,
}

impl Cell {
    /// A step with this number and answer, what it did to a word, and what is told of it.
    pub fn new(step: u32, answer: Stepped, deed: Option<Deed>, told: Vec<u8>) -> Cell {
        let lost = matches!(answer, Stepped::Lost { .. });
        let looks = matches!(
            deed,
            Some(Deed {
                word: WordName::Version,
                ..
            })
        );
        Cell {
            step,
            answer,
            lost_look: lost && looks,
            told,
        }
    }
}

impl fmt::Display for Cell {
    fn fmt<W: fmt::Write>(&self, f: &mut fmt::Formatter<W>) -> fmt::Result {
        let step = self.step;
        let told = Word(self.told.as_slice());
        write!(f, "step {step}:{told}")
    }
}

impl fmt::Display for Doing {
    fn fmt<W: fmt::Write>(&self, f: &mut fmt::Formatter<W>) -> fmt::Result {
        match *self {
            Doing::Asking => f.write_str("asks"),
            Doing::Writing => f.write_str("writer"),
            Doing::Reading => f.write_str("reader"),
            Doing::Leaving => f.write_str("leaves"),
            Doing::Looking => f.write_str("reads"),
            Doing::Refused => f.write_str("refused"),
            Doing::Answered => f.write_str("its call is done"),
            Doing::InCard { node } => write!(f, "card {node}"),
            Doing::Serving { itself: true, .. } => f.write_str("its own call"),
            Doing::Serving { rank, .. } => write!(f, "rank {rank}'s call"),
            Doing::Stopped => f.write_str("stopped"),
        }
    }
}

/// Bands one after the other, of which the last may go on. Those that end before the first step that is shown are left out.
#[derive(Drop)]
pub struct Bands {
    first: u32,
    ended: Vec<Band>,
    last: Option<Band>,
}

impl Bands {
    fn new(alloc: Global, first: u32) -> Bands {
        Bands {
            first,
            ended: Vec::new(alloc),
            last: None,
        }
    }

    /// What the rank does after this step. A band has the step that began it and the one that ended it, but where the lock
    /// is had: the step that gives it is the holder's first.
    fn follow(&mut self, step: u32, doing: Option<Doing>, shard: u32) -> Result<(), OutOfMemory> {
        let before = self.doing();
        if before == doing {
            return Ok(());
        }
        let turn = match doing {
            Some(Doing::Writing | Doing::Reading) => step,
            _ => step.saturating_add(1),
        };
        let from = if before.is_none() { step } else { turn };
        self.end(turn)?;
        self.last = doing.map(|doing| Band {
            doing,
            shard,
            from,
            to: from,
        });
        Ok(())
    }

    /// Ends the band that goes on before this step.
    fn end(&mut self, to: u32) -> Result<(), OutOfMemory> {
        if let Some(band) = self.last {
            if self.first < to && band.from < to {
                let from = band.from.max(self.first);
                self.ended.push(Band { from, to, ..band })?;
            }
        }
        self.last = None;
        Ok(())
    }

    /// What goes on now.
    fn doing(&self) -> Option<Doing> {
        self.last.map(|band| band.doing)
    }

    fn is_leaving(&self) -> bool {
        self.doing() == Some(Doing::Leaving)
    }

    /// The bands that have ended.
    pub fn as_slice(&self) -> &[Band] {
        self.ended.as_slice()
    }
}

/// What is seen of one rank: its steps, what happened in them, how it stood to the lock, when it was in a card, whose posted calls it did, and
/// since when it is stopped.
#[derive(Drop)]
pub struct Lane {
    rank: u32,
    first: u32,
    /// What the rank's last load found.
    found: u64,
    /// What is seen of a rank that asks, beyond that.
    asks_as: Doing,
    /// Whether it goes through the posted calls.
    sweeps: bool,
    pub cells: Vec<Cell>,
    pub marks: Vec<Mark>,
    pub standing: Bands,
    pub card: Bands,
    pub service: Bands,
    pub stop: Bands,
}

impl Lane {
    /// An empty lane of a rank that shows the steps from this one on.
    pub fn new(alloc: Global, rank: u32, first: u32) -> Lane {
        Lane {
            rank,
            first,
            found: 0,
            asks_as: Doing::Asking,
            sweeps: false,
            cells: Vec::new(alloc),
            marks: Vec::new(alloc),
            standing: Bands::new(alloc, first),
            card: Bands::new(alloc, first),
            service: Bands::new(alloc, first),
            stop: Bands::new(alloc, first),
        }
    }

    /// Whether the step with this number is shown.
    pub fn shows(&self, step: u32) -> bool {
        self.first <= step
    }

    /// Takes down a step, and gives what it is called beyond its events.
    pub fn note(
        &mut self,
        moment: Moment,
        events: &[(u32, Event)],
    ) -> Result<Option<Remark>, OutOfMemory> {
        let remark = self.remark_on(&moment);
        self.see_asking(&moment, remark);
        self.follow(&moment)?;
        let step = moment.cell.step;
        if self.shows(step) {
            self.cells.push(moment.cell)?;
            for (_, event) in events {
                self.mark(step, Happening::Event(*event))?;
            }
            if let Some(remark) = remark {
                self.mark(step, Happening::Remark(remark))?;
            }
        }
        Ok(remark)
    }

    fn mark(&mut self, step: u32, what: Happening) -> Result<(), OutOfMemory> {
        self.marks.push(Mark { step, what })?;
        Ok(())
    }

    /// What the step is called, and what its load found, for the next one.
    fn remark_on(&mut self, moment: &Moment) -> Option<Remark> {
        let deed = moment.deed?;
        let found = self.found;
        if let Act::Finds(value) = deed.act {
            self.found = value;
        }
        deed.remark(self.rank, found, moment.standing, moment.cell.answer)
    }

    /// What is seen of a rank that asks: that it was refused, or reads without the lock. It is so until it doesn't ask any more.
    fn see_asking(&mut self, moment: &Moment, remark: Option<Remark>) {
        if moment.standing != Standing::Asking {
            self.asks_as = Doing::Asking;
        } else if let Some(Remark::Refused) = remark {
            self.asks_as = Doing::Refused;
        } else if let Some(
            Deed {
                word: WordName::Version,
                ..
            },
        ) = moment.deed
        {
            self.asks_as = Doing::Looking;
        }
    }

    /// What the rank does after a step: nothing while it has no call open. It gives the lock back until it has left the card, too.
    fn doing(&self, moment: &Moment) -> Option<Doing> {
        match moment.standing {
            Standing::Out if moment.card.is_some() && self.standing.is_leaving() => {
                Some(Doing::Leaving)
            }
            Standing::Out => None,
            Standing::Asking => Some(self.asks_as),
            Standing::Writer => Some(Doing::Writing),
            Standing::Reader => Some(Doing::Reading),
            Standing::Leaving => Some(Doing::Leaving),
        }
    }

    /// Whose posted call a writer does with this step: it loads the count, and then goes through all flags. One that it finds 1 there begins
    /// a call, which ends with the store to it.
    fn serves(&mut self, moment: &Moment) -> Option<Doing> {
        if moment.standing != Standing::Writer {
            self.sweeps = false;
            return None;
        }
        let before = self.service.doing();
        let Some(deed) = moment.deed else {
            return before;
        };
        match (deed.word, deed.act) {
            (WordName::Count, Act::Finds(_)) => {
                self.sweeps = true;
                before
            }
            (WordName::Post { rank, word: 0 }, Act::Finds(1)) if self.sweeps => {
                let itself = rank == self.rank;
                Some(Doing::Serving { rank, itself })
            }
            (WordName::Post { word: 0, .. }, _) => None,
            _ => before,
        }
    }

    /// Follows what goes on over several steps.
    fn follow(&mut self, moment: &Moment) -> Result<(), OutOfMemory> {
        let step = moment.cell.step;
        let shard = moment.shard;
        let doing = self.doing(moment);
        self.standing.follow(step, doing, shard)?;
        let card = moment.card.map(|node| Doing::InCard { node });
        self.card.follow(step, card, shard)?;
        let service = self.serves(moment);
        self.service.follow(step, service, shard)
    }

    /// Another rank does this one's posted call, with this step.
    pub fn is_answered(&mut self, step: u32, shard: u32) -> Result<(), OutOfMemory> {
        if self.standing.doing() == Some(Doing::Asking) {
            self.asks_as = Doing::Answered;
            self.standing.follow(step, Some(Doing::Answered), shard)?;
        }
        Ok(())
    }

    /// The rank makes no step any more, from this one on.
    pub fn stops(&mut self, step: u32) -> Result<(), OutOfMemory> {
        if self.shows(step) {
            self.mark(step, Happening::Remark(Remark::Stopped))?;
        }
        self.stop.follow(step, Some(Doing::Stopped), 0)
    }

    /// Ends what goes on before this step.
    pub fn end(&mut self, to: u32) -> Result<(), OutOfMemory> {
        self.standing.end(to)?;
        self.card.end(to)?;
        self.service.end(to)?;
        self.stop.end(to)
    }
}
