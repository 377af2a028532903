//! Where a walk stands on a chain.
ghost use Rattle.std.specs.Prelude.{◌≡◌, ◌<◌, ◌≤◌, ◌+◌, IfSome};
ghost use Rattle.rl_model.specs.Geom.{GeomFits};
ghost use Rattle.rl_volume.specs.Stand.{GoesOn};

use crate::seen::Seen;
use crate::words::{cell_key_word, key_word, link_word, named, state_word};
use rl_model::Geom;

/// A place on a chain: the link that leads on from it, and how many cells were passed before.
#[derive(Clone, Copy)]
pub(crate) struct Stand {
    pub(crate) link: u64,
    pub(crate) passed: u32,
}

/// Where the chain of a key begins, if the bucket's words were seen and the key isn't in its own cell.
pub(crate) fn first_stand(geom: Geom, key: u64, seen: &Seen) -> Option<Stand>
    requires { GeomFits geom }
    ensures first { IfSome result (λ s. s.passed ≡ 0) }
    ensures goes_on { IfSome result (λ s. GoesOn geom key s.link s.passed seen.now.pairs) }
{
    let bucket = geom.bucket(key);
    let state = seen.value_at(0, state_word(bucket))?;
    if state == 0 {
        return None;
    }
    let own = seen.value_at(1, key_word(bucket))?;
    if own == key {
        return None;
    }
    Some(Stand {
        link: state - 1,
        passed: 0,
    })
}

/// Goes on from a place on the chain of a key, past the cells whose words were seen.
pub(crate) fn followed(geom: Geom, key: u64, from: Stand, seen: &Seen) -> Stand
    requires fits { GeomFits geom }
    requires there { from.passed ≤ geom.overflow }
    requires goes_on { GoesOn geom key from.link from.passed seen.now.pairs }
    ensures there { result.passed ≤ geom.overflow }
    ensures goes_on { GoesOn geom key result.link result.passed seen.now.pairs }
{
    let mut link = from.link;
    for passed in from.passed..geom.overflow {
        match link_behind(geom, key, Stand { link, passed }, seen) {
            Some(next) => link = next,
            None => return Stand { link, passed },
        }
    }
    Stand {
        link,
        passed: geom.overflow,
    }
}

/// The link behind the next cell, if its words were seen and it doesn't have the key.
fn link_behind(geom: Geom, key: u64, stand: Stand, seen: &Seen) -> Option<u64>
    requires fits { GeomFits geom }
    requires there { stand.passed < geom.overflow }
    requires goes_on { GoesOn geom key stand.link stand.passed seen.now.pairs }
    ensures { IfSome result (λ link. GoesOn geom key link (stand.passed + 1) seen.now.pairs) }
{
    let position = 2 + 2 * stand.passed;
    // Where fewer words were seen, one of the two wasn't: it needn't be looked for.
    if seen.many() < (position + 2) as usize {
        return None;
    }
    let cell = named(geom, stand.link)?;
    let there = seen.value_at(position, cell_key_word(geom, cell))?;
    if there == key {
        return None;
    }
    seen.value_at(position + 1, link_word(geom, cell))
}
