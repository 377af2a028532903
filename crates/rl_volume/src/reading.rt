//! Which word a call reads next.
ghost use Rattle.std.specs.Prelude.{◌≡◌, ◌+◌, ◌*◌, ◌-◌, ◌<◌, ◌≤◌, ◌↔◌, IfSome, None, length};
ghost use Rattle.rl_model.specs.Geom.{GeomFits, bucket_of};
ghost use Rattle.rl_volume.specs.Words as place;
ghost use Rattle.rl_volume.specs.Walk.{free_walk, freed_walk, first_walk, inline_walk, cell_walk, end_walk, chain_walk, bucket_walk, most_reads};
ghost use Rattle.rl_volume.specs.Seen.{value_of, next_in, next_word, IsReadingOver, AreNamed};

use crate::seen::Seen;
use crate::stand::Stand;
use crate::words::{
    FREE_HEAD, cell_key_word, cell_value_word, key_word, link_word, named, state_word, value_word,
};
use rl_model::{Call, Geom};

/// The word of the volume that a call reads next, after those that it has seen, or `None` where it has
/// read all that it needs.
///
/// A call walks from the bucket of its key along the chain to the key. Behind that a put of a new key
/// looks for a free cell, and a delete for what it takes the key's cell out with. A hold reads nothing.
///
/// Whatever the words hold, the walk ends: a state, a link or a free head that names no cell ends it, and
/// so does a chain that comes to a cell twice. Where each word seen was named here when it was read, a
/// put reads 4 + 2 * overflow words at most, a delete 5 + 2 * overflow, and any other call 3 + 2 * overflow;
/// and to name the next one takes about one look at each word seen.
#[inline(always)]
pub fn next_read(geom: Geom, call: Call, seen: &Seen) -> Option<u32>
    requires { GeomFits geom }
    ensures next { result ≡ next_word geom call seen.now.pairs }
    ensures in_volume { IfSome result (λ word. word < place.volume_words geom) }
    ensures unseen { IfSome result (λ word. value_of seen.now.pairs word ≡ None) }
    ensures over { (result ≡ None) ↔ IsReadingOver geom call seen.now.pairs }
    ensures short { AreNamed geom call seen.now.pairs → IfSome result (λ word. length seen.now.pairs < most_reads geom call) }
{
    by_call(geom, call, seen)
}

#[inline(always)]
fn by_call(geom: Geom, call: Call, seen: &Seen) -> Option<u32>
    requires { GeomFits geom }
    ensures { result ≡ next_word geom call seen.now.pairs }
{
    match call {
        Call::Put { key, .. }
        | Call::Get { key }
        | Call::Del { key }
        | Call::Add { key, .. }
        | Call::Cas { key, .. } => next_in_bucket(geom, call, key, seen),
        Call::Hold { .. } => None,
    }
}

// The functions below each go along one part of the walk. A `position` is how many words the walk has
// passed before: a word is looked for there first among those seen.

/// The next word of the walk that begins at a bucket.
#[inline(always)]
fn next_in_bucket(geom: Geom, call: Call, key: u64, seen: &Seen) -> Option<u32>
    requires { GeomFits geom }
    ensures { result ≡ next_in (bucket_walk geom call key (bucket_of geom key)) seen.now.pairs }
{
    let from = match seen.stand(geom, key) {
        Some(stand) => stand,
        None => {
            let bucket = geom.bucket(key);
            let Some(state) = seen.value_at(0, state_word(bucket)) else {
                return Some(state_word(bucket));
            };
            if state == 0 {
                return None;
            }
            let Some(own) = seen.value_at(1, key_word(bucket)) else {
                return Some(key_word(bucket));
            };
            if own == key {
                return next_inline(geom, call, bucket, state, seen);
            }
            Stand {
                link: state - 1,
                passed: 0,
            }
        }
    };
    next_in_chain(geom, call, key, from, seen)
}

/// The next word where the key stands in the bucket's own cell.
#[inline(always)]
fn next_inline(geom: Geom, call: Call, bucket: u32, state: u64, seen: &Seen) -> Option<u32>
    requires fits { GeomFits geom }
    requires there { bucket < geom.buckets }
    ensures { result ≡ next_in (inline_walk geom call bucket state) seen.now.pairs }
{
    if seen.value_at(2, value_word(bucket)).is_none() {
        return Some(value_word(bucket));
    }
    match call {
        Call::Del { .. } => next_in_first(geom, named(geom, state.saturating_sub(1)), seen),
        _ => None,
    }
}

/// The next word of the first cell of a chain, which is to move into the bucket's own.
fn next_in_first(geom: Geom, first: Option<u32>, seen: &Seen) -> Option<u32>
    requires fits { GeomFits geom }
    requires there { IfSome first (λ cell. cell < geom.overflow) }
    ensures { result ≡ next_in (first_walk geom first) seen.now.pairs }
{
    let cell = first?;
    if seen.value_at(3, cell_key_word(geom, cell)).is_none() {
        return Some(cell_key_word(geom, cell));
    }
    if seen.value_at(4, cell_value_word(geom, cell)).is_none() {
        return Some(cell_value_word(geom, cell));
    }
    next_freed(geom, cell, 5, seen)
}

/// The next word along a chain, from where the walk stands on it.
#[inline(always)]
fn next_in_chain(geom: Geom, call: Call, key: u64, from: Stand, seen: &Seen) -> Option<u32>
    requires fits { GeomFits geom }
    requires there { from.passed ≤ geom.overflow }
    ensures { result ≡ next_in (chain_walk geom call key from.link (geom.overflow - from.passed)) seen.now.pairs }
{
    let mut link = from.link;
    for passed in from.passed..geom.overflow {
        let position = 2 + 2 * passed;
        let Some(cell) = named(geom, link) else {
            return next_at_end(geom, call, link, position, seen);
        };
        let Some(there) = seen.value_at(position, cell_key_word(geom, cell)) else {
            return Some(cell_key_word(geom, cell));
        };
        if there == key {
            return next_in_cell(geom, call, cell, position + 1, seen);
        }
        let Some(next) = seen.value_at(position + 1, link_word(geom, cell)) else {
            return Some(link_word(geom, cell));
        };
        link = next;
    }
    next_at_end(geom, call, link, 2 + 2 * geom.overflow, seen)
}

/// The next word where the key stands in an overflow cell.
fn next_in_cell(geom: Geom, call: Call, cell: u32, position: u32, seen: &Seen) -> Option<u32>
    requires fits { GeomFits geom }
    requires there { cell < geom.overflow }
    requires early { position ≤ 2 + 2 * geom.overflow }
    ensures { result ≡ next_in (cell_walk geom call cell) seen.now.pairs }
{
    if seen
        .value_at(position, cell_value_word(geom, cell))
        .is_none()
    {
        return Some(cell_value_word(geom, cell));
    }
    match call {
        Call::Del { .. } => next_freed(geom, cell, position + 1, seen),
        _ => None,
    }
}

/// The next word behind a link that leads to no further cell.
fn next_at_end(geom: Geom, call: Call, link: u64, position: u32, seen: &Seen) -> Option<u32>
    requires fits { GeomFits geom }
    requires early { position ≤ 3 + 2 * geom.overflow }
    ensures { result ≡ next_in (end_walk geom call link) seen.now.pairs }
{
    match call {
        Call::Put { .. } if link == 0 => next_free(geom, position, seen),
        _ => None,
    }
}

/// The next of the free head and the link of the cell that it names.
fn next_free(geom: Geom, position: u32, seen: &Seen) -> Option<u32>
    requires fits { GeomFits geom }
    requires early { position ≤ 3 + 2 * geom.overflow }
    ensures { result ≡ next_in (free_walk geom) seen.now.pairs }
{
    let Some(head) = seen.value_at(position, FREE_HEAD) else {
        return Some(FREE_HEAD);
    };
    let cell = named(geom, head)?;
    match seen.value_at(position + 1, link_word(geom, cell)) {
        Some(_) => None,
        None => Some(link_word(geom, cell)),
    }
}

/// The next of the link of a cell that goes to the free list, and the free head.
fn next_freed(geom: Geom, cell: u32, position: u32, seen: &Seen) -> Option<u32>
    requires fits { GeomFits geom }
    requires there { cell < geom.overflow }
    requires early { position ≤ 3 + 2 * geom.overflow }
    ensures { result ≡ next_in (freed_walk geom cell) seen.now.pairs }
{
    if seen.value_at(position, link_word(geom, cell)).is_none() {
        return Some(link_word(geom, cell));
    }
    match seen.value_at(position + 1, FREE_HEAD) {
        Some(_) => None,
        None => Some(FREE_HEAD),
    }
}
