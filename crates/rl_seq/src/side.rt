//! A rank's side of the work under a sequence lock.
ghost use Rattle.std.specs.Prelude.{◌≡◌, IfOk};
ghost use Rattle.rl_model.specs.Geom.{GeomFits};
ghost use Rattle.rl_work.specs.Ways.{worked_with};
ghost use Rattle.rl_seq.specs.SeqWork as model;

use crate::stage::SeqStage;
use rl_model::{Entry, Geom};
use rl_step::Stepped;
use rl_work::{Follow, LockedSide, WorkStep};
use std::alloc::{AllocError as OutOfMemory, Global};
use std::marker::Model;

/// A rank's side of the work under a sequence lock: that of the work inside the lock, and where it stands between the versions.
///
/// It is made once, with room for all that it keeps, and takes no memory after that.
#[derive(Drop)]
pub struct SeqSide {
    pub(crate) work: LockedSide,
    pub(crate) stage: SeqStage,
}

impl Model for SeqSide {
    ghost use Rattle.rl_seq.specs.SeqWork as model;

    ghost Value = { model.TheSeqWork };

    ghost view = { λ x. record { work = x.work; stage = x.stage } };
}

impl SeqSide {
    /// No block yet, and room for so many entries.
    ///
    /// # Errors
    ///
    /// Want of memory.
    pub(crate) fn new(alloc: Global, geom: Geom, room: u32) -> Result<SeqSide, OutOfMemory>
        requires { GeomFits geom }
        ensures { IfOk result (λ x. x ≡ model.first_seq geom room) }
    {
        Ok(SeqSide {
            work: LockedSide::new(alloc, geom, room)?,
            stage: SeqStage::Locked,
        })
    }

    /// Whether a block is open, as far as the work goes.
    pub(crate) fn is_open(&self) -> bool
        ensures { result ≡ model.seq_is_open self.now }
    {
        match self.stage {
            SeqStage::Locked => self.work.is_open(),
            _ => true,
        }
    }

    /// The entries so far.
    pub(crate) fn transcript(&self) -> &[Entry]
        ensures { result.now ≡ self.now.work.transcript.items }
    {
        self.work.transcript()
    }

    /// The entries.
    pub(crate) fn into_transcript(self) -> Vec<Entry>
        ensures { result.items ≡ self.work.transcript.items }
    {
        self.work.into_transcript()
    }

    /// Whether the next atom touches what the lock guards, and if so whether it writes.
    pub(crate) fn touch(&self) -> Option<bool>
        ensures { result ≡ model.touch self.now }
    {
        match self.stage {
            SeqStage::Locked | SeqStage::Write { .. } => Some(self.work.stores()),
            _ => None,
        }
    }

    /// The block goes on at a stage.
    pub(crate) fn goes_to(&mut self, stage: SeqStage) -> WorkStep
        ensures { worked_with self.new result ≡ model.goes_to self.old.work stage }
    {
        self.stage = stage;
        WorkStep {
            follow: Follow::On,
            stepped: Stepped::Moved,
        }
    }

    /// The block is over.
    pub(crate) fn is_over(&mut self) -> WorkStep
        ensures { worked_with self.new result ≡ model.is_over self.old.work }
    {
        self.stage = SeqStage::Locked;
        WorkStep {
            follow: Follow::Over,
            stepped: Stepped::Moved,
        }
    }

    /// The get has lost: the version is another than the one that it found. It begins anew.
    pub(crate) fn loses(&mut self, version: u64, got: u64) -> WorkStep
        ensures { worked_with self.new result ≡ model.lost self.old.work version got }
    {
        self.work.forget();
        self.stage = SeqStage::Look;
        WorkStep {
            follow: Follow::On,
            stepped: Stepped::Lost {
                guess: version,
                seen: got,
            },
        }
    }

    /// The get waits: the version of this word is odd.
    pub(crate) fn waits(&mut self, word: u32, got: u64) -> WorkStep
        ensures { worked_with self.new result ≡ model.waits self.old.work word got }
    {
        self.stage = SeqStage::Look;
        WorkStep {
            follow: Follow::On,
            stepped: Stepped::Waiting { word, value: got },
        }
    }
}
