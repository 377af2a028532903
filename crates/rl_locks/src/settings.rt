//! What the settings of a placement are for the core of its lock.

ghost use Rattle.rl_word.specs.declared.locks.LockName.TheVariants as named;
ghost use Rattle.rl_locks.specs.Settings.{SuitsPlaces};

use crate::{AlockCore, CombineCore, DmcsCore, McsCore, RwCore, SeqCore, SpinCore};
use rl_core::ShardCore;

/// The settings of a proper placement suit the core of its lock, so that who has read a placement may make its machine, its shards and its
/// run. There is nothing to run.
pub fn settings_suit()
    ensures spin { SuitsPlaces named.Spin ⟦<SpinCore as ShardCore>⟧.suits_knobs }
    ensures dmcs { SuitsPlaces named.Dmcs ⟦<DmcsCore as ShardCore>⟧.suits_knobs }
    ensures alock { SuitsPlaces named.Alock ⟦<AlockCore as ShardCore>⟧.suits_knobs }
    ensures mcs { SuitsPlaces named.Mcs ⟦<McsCore as ShardCore>⟧.suits_knobs }
    ensures rw { SuitsPlaces named.Rw ⟦<RwCore as ShardCore>⟧.suits_knobs }
    ensures seq { SuitsPlaces named.Seq ⟦<SeqCore as ShardCore>⟧.suits_knobs }
    ensures combine { SuitsPlaces named.Combine ⟦<CombineCore as ShardCore>⟧.suits_knobs }
{}
