//! Worked schedules by single seats, all on one thread, against the machine's answers; and two threads, each with a seat, from opening
//! to close.

ghost use Rattle.std.specs.Prelude.{◌≡◌, ◌<◌, ℕ, true, IfOk, IfSome, Some, replicate, slice_get, vec_len};
ghost use Rattle.rl_model.specs.Call.{shard_of};
ghost use Rattle.rl_model.specs.Geom.{GeomFits};
ghost use Rattle.rl_inputs.specs.Fitting.{IsProper, shape_of, knobs_of};
ghost use Rattle.rl_shard.specs.Shards.{IsOf, IsShardOf, AreOf, AreClosed, rank_at};
ghost use Rattle.rmalock.specs.Fresh.{IsFresh};

use crate::schedules::one_shard;
use crate::signs::{answer_sign, answers_alone};
use crate::trials::{look_same, read_both, trial};
use rl_core::{Resting, ShardCore, ShardGuiding};
use rl_locks::{
    AlockCore, CombineCore, CoreTask, DmcsCore, McsCore, Promising, RwCore, SeqCore, SpinCore,
    over_lock, settings_suit,
};
use rl_model::{Call, Entry, Geom, Reply};
use rl_ops::Room;
use rl_place::{Lock, Place};
use rl_shard::{Closed, Seat, Shard};
use rl_step::Stepped;
use rl_text::TextErr;
use std::alloc::{AllocError as OutOfMemory, Global};
use std::process::Abort;
use std::thread::{Threads, for_each_mut};

/// Room for one call of each rank, which may be an update.
fn room_for_one(alloc: Global, ranks: usize) -> Result<Room, OutOfMemory>
    ensures calls { IfOk result (λ room. room.calls.items ≡ replicate ranks 1) }
    ensures updates { IfOk result (λ room. room.updates.items ≡ replicate ranks 1) }
{
    Ok(Room {
        calls: vec![in alloc; 1; ranks]?,
        updates: vec![in alloc; 1; ranks]?,
    })
}

/// Shard 0 of a placement, on node 0, with room for one call of each rank, and the ranks' seats.
fn opened<C: ShardCore>(
    alloc: Global,
    place: &Place,
) -> Result<(Shard<C>, Vec<Seat<C>>), OutOfMemory>
    requires proper { IsProper place.now }
    requires knobs { C.suits_knobs (shape_of place.now) (knobs_of place.now.lock) }
    ensures shard { IfOk result (λ p. IsShardOf C.says (vec_len p.1) p.0) }
    ensures seats { IfOk result (λ p. AreOf C.says p.0 p.1.items) }
    ensures fresh { IfOk result (λ p. (r : ℕ) (s : _) → slice_get p.1.items r ≡ Some s → IsFresh C.says place.now.geom 0 1 p.0 s) }
{
    let shape = place.shape(alloc)?;
    let ranks = place.paths.len();
    let room = room_for_one(alloc, ranks)?;
    let (shard, seats) = Shard::new(alloc, &shape, place.knobs(), 0, place.geom, 0, room)?;
    Ok((shard, seats))
}

/// The rank's first call, if it has one, and that is of shard 0.
fn first_call(geom: Geom, calls: &[Vec<Call>], rank: usize) -> Option<Call>
    requires { GeomFits geom }
    ensures { IfSome result (λ call. shard_of geom call ≡ 0) }
{
    let call = *calls.get(rank)?.as_slice().first()?;
    if call.shard(geom) == 0 {
        Some(call)
    } else {
        None
    }
}

/// Begins the call of a rank that has made none.
fn begin_one<C: ShardCore>(
    shard: &Shard<C>,
    geom: Geom,
    seats: &mut Vec<Seat<C>>,
    rank: usize,
    call: Call,
)
    requires seats { AreOf C.says shard.now seats.old.items }
    requires there { rank < vec_len seats.old }
    requires fresh { (s : _) → slice_get seats.old.items rank ≡ Some s → IsFresh C.says geom 0 1 shard.now s }
    requires here { shard_of geom call ≡ 0 }
    ensures seats { AreOf C.says shard.now seats.new.items }
    ensures long { vec_len seats.new ≡ vec_len seats.old }
    ensures others { (r : ℕ) → rank < r → slice_get seats.new.items r ≡ slice_get seats.old.items r }
{
    let seat = &mut seats[rank];
    seat.begin(shard, call, 0);
}

/// Begins the first call of each rank that has one.
fn begin_all<C: ShardCore>(
    shard: &Shard<C>,
    geom: Geom,
    seats: &mut Vec<Seat<C>>,
    calls: &[Vec<Call>],
)
    requires fits { GeomFits geom }
    requires seats { AreOf C.says shard.now seats.old.items }
    requires fresh { (r : ℕ) (s : _) → slice_get seats.old.items r ≡ Some s → IsFresh C.says geom 0 1 shard.now s }
    ensures seats { AreOf C.says shard.now seats.new.items }
    ensures long { vec_len seats.new ≡ vec_len seats.old }
{
    for rank in 0..seats.len() {
        if let Some(call) = first_call(geom, calls, rank) {
            begin_one(shard, geom, seats, rank, call);
        }
    }
}

/// One step of a rank's seat.
fn step_of<C: ShardCore>(shard: &Shard<C>, seats: &mut Vec<Seat<C>>, rank: usize) -> Stepped
    requires seats { AreOf C.says shard.now seats.old.items }
    requires there { rank < vec_len seats.old }
    ensures seats { AreOf C.says shard.now seats.new.items }
    ensures long { vec_len seats.new ≡ vec_len seats.old }
{
    let seat = &mut seats[rank];
    seat.step(shard)
}

/// How often the seats together settled and passed each queue, of the first ten that were: ` 0:2.1` is queue 0, settled twice and passed once.
fn tallies_told<C: ShardCore>(alloc: Global, seats: &[Seat<C>]) -> Result<String, OutOfMemory> {
    let mut text = String::new(alloc);
    for queue in 0..10usize {
        let mut settled = 0u64;
        let mut passed = 0u64;
        for seat in seats {
            let tally = seat.tally(queue);
            settled = settled.saturating_add(tally.settled);
            passed = passed.saturating_add(tally.passed);
        }
        if settled > 0 || passed > 0 {
            text.push_str(&format!(in alloc; " {queue}:{settled}.{passed}")?)?;
        }
    }
    Ok(text)
}

/// How many of these ranks ask for no update: each has one call at most.
fn ranks_without_update(calls: &[Vec<Call>]) -> u32 {
    let mut ranks = 0u32;
    for own in calls {
        if !own.iter().any(|call| call.is_update()) {
            ranks = ranks.saturating_add(1);
        }
    }
    ranks
}

/// The answer with the number that its word has where so many ranks, which ask for no update, have no room for one: each rank's room is six
/// words before the lock's.
fn without_room(answer: Stepped, ranks: u32) -> Stepped {
    match answer {
        Stepped::Waiting { word, value } => Stepped::Waiting {
            word: word.saturating_sub(ranks.saturating_mul(6)),
            value,
        },
        other => other,
    }
}

/// What the seats answer in these turns, each rank with its first call, and the tallies after them.
fn seats_told<C: ShardCore>(
    alloc: Global,
    place: &Place,
    calls: &[Vec<Call>],
    turns: &[u8],
) -> Result<String, OutOfMemory>
    requires proper { IsProper place.now }
    requires knobs { C.suits_knobs (shape_of place.now) (knobs_of place.now.lock) }
{
    let (shard, mut seats) = opened::<C>(alloc, place)?;
    begin_all(&shard, place.geom, &mut seats, calls);
    let spare = ranks_without_update(calls);
    let mut text = String::new(alloc);
    for digit in turns {
        let rank = usize::from(digit.saturating_sub(b'0'));
        if rank < seats.len() {
            let answer = step_of(&shard, &mut seats, rank);
            text.push_str(&answer_sign(alloc, without_room(answer, spare))?)?;
            text.push_str(" ")?;
        }
    }
    text.push_str(&tallies_told(alloc, seats.as_slice())?)?;
    Ok(text)
}

/// What seats answer, with the core of whichever lock the placement has.
#[derive(Drop)]
struct SeatsTask<'a> {
    alloc: Global,
    calls: &'a [Vec<Call>],
    turns: &'a [u8],
}

impl CoreTask for SeatsTask<'_> {
    type Out = Result<String, OutOfMemory>;

    ghost takes = { λ b place. Unit {0} };

    ghost gives = { λ b place kind urgent told. Unit {0} };

    fn over<C: Resting + Promising + ShardGuiding>(
        self,
        place: &Place,
    ) -> Result<String, OutOfMemory> {
        seats_told::<C>(self.alloc, place, self.calls, self.turns)
    }
}

/// The same of what a trial tells: its answers without the events, and how often the events settle and pass each queue.
fn answers_told(alloc: Global, told: &str) -> Result<String, OutOfMemory> {
    let mut text = answers_alone(alloc, told)?;
    let signs = told.as_bytes();
    for queue in 0..10u8 {
        let digit = b'0'.saturating_add(queue);
        let mut settled = 0u64;
        let mut passed = 0u64;
        for (sign, number) in signs.iter().zip(signs.iter().skip(1)) {
            if *number == digit && *sign == b's' {
                settled = settled.saturating_add(1);
            }
            if *number == digit && *sign == b'p' {
                passed = passed.saturating_add(1);
            }
        }
        if settled > 0 || passed > 0 {
            text.push_str(&format!(in alloc; " {queue}:{settled}.{passed}")?)?;
        }
    }
    Ok(text)
}

/// Whether a rank has more calls than one.
fn has_more_than_one(calls: &[Vec<Call>]) -> bool {
    calls.iter().any(|own| own.len() > 1)
}

/// What seats answer in these turns, where no rank has more calls than one, and their tallies.
fn seats_of(
    alloc: Global,
    place: &str,
    calls: &str,
    turns: &[u8],
) -> Result<Option<String>, TextErr> {
    let (place, ops) = read_both(alloc, place, calls)?;
    let calls = ops.by_rank.as_slice();
    if has_more_than_one(calls) {
        return Ok(None);
    }
    let task = SeatsTask {
        alloc,
        calls,
        turns,
    };
    Ok(Some(over_lock(&place, task)?))
}

/// What the steps of these ranks tell, as the machine and callers make them. Where no rank has more calls than one, it looks that seats, all
/// on this thread, answer the same, and that their tallies are those of the machine's events.
pub(crate) fn trial_and_seats<R: AllocGlobal + Abort>(
    rt: &R,
    place: &str,
    calls: &str,
    ranks: &str,
) -> Result<String, TextErr> {
    let alloc = rt.alloc();
    let told = trial(rt, place, calls, ranks)?.told;
    if let Some(seats) = seats_of(alloc, place, calls, ranks.as_bytes())? {
        look_same(rt, &seats, &answers_told(alloc, &told)?);
    }
    Ok(told)
}

/// Makes so many steps.
fn go<C: ShardCore>(shard: &Shard<C>, seat: &mut Seat<C>, steps: u32)
    requires { IsOf C.says shard.now seat.old }
    ensures { IsOf C.says shard.now seat.new × (rank_at seat.new ≡ rank_at seat.old) }
{
    for _ in 0..steps {
        seat.step(shard);
    }
}

/// Makes so many steps with each seat, each in a thread of its own.
fn go_in_threads<C: ShardCore + Send + Sync, R: Threads + Sync>(
    rt: &R,
    shard: &Shard<C>,
    seats: &mut Vec<Seat<C>>,
    steps: u32,
)
where
    C::View: Send + Sync,
    requires { AreOf C.says shard.now seats.old.items }
    ensures seats { AreOf C.says shard.now seats.new.items }
    ensures long { vec_len seats.new ≡ vec_len seats.old }
{
    let threads = seats.len().max(1);
    for_each_mut(
        rt,
        seats.as_mut_slice(),
        threads,
        &|_rank: usize, seat: &mut Seat<C>|
            requires { IsOf C.says shard.now seat.old }
            ensures { IsOf C.says shard.entry.now seat.new × (rank_at seat.new ≡ rank_at seat.old) }
        { go(shard, seat, steps) },
    );
}

/// Makes one step with each seat, one after the other.
fn go_lap<C: ShardCore>(shard: &Shard<C>, seats: &mut Vec<Seat<C>>)
    requires { AreOf C.says shard.now seats.old.items }
    ensures seats { AreOf C.says shard.now seats.new.items }
    ensures long { vec_len seats.new ≡ vec_len seats.old }
{
    for rank in 0..seats.len() {
        step_of(shard, seats, rank);
    }
}

/// Makes so many steps with each seat, by turns.
fn go_by_turns<C: ShardCore>(shard: &Shard<C>, seats: &mut Vec<Seat<C>>, turns: u32)
    requires { AreOf C.says shard.now seats.old.items }
    ensures seats { AreOf C.says shard.now seats.new.items }
    ensures long { vec_len seats.new ≡ vec_len seats.old }
{
    for _ in 0..turns {
        go_lap(shard, seats);
    }
}

/// Whether no block is open.
fn all_closed<C: ShardCore>(shard: &Shard<C>, seats: &[Seat<C>]) -> bool
    requires { AreOf C.says shard.now seats.now }
    ensures { result ≡ true → AreClosed C.says shard.now seats.now }
{
    for seat in seats {
        if seat.is_open(shard) {
            return false;
        }
    }
    true
}

/// What the seats tell: each one's rank, and the first of its entries.
fn told_by_seats<C: ShardCore>(
    alloc: Global,
    shard: &Shard<C>,
    seats: &Vec<Seat<C>>,
) -> Result<Vec<(u32, Option<Entry>)>, OutOfMemory> {
    let mut told = Vec::new(alloc);
    for seat in seats {
        told.push((seat.rank(), seat.transcript(shard).first().copied()))?;
    }
    Ok(told)
}

/// What is left of a shard, and what its seats told before.
#[derive(Drop)]
struct Left {
    closed: Closed,
    told: Vec<(u32, Option<Entry>)>,
}

/// Opens the shard, begins the first call of each rank, steps the seats in threads, and then by turns as long as a call may still be open;
/// and closes the shard.
fn closed_by_threads<C: ShardCore + Send + Sync, R: Threads + Sync>(
    rt: &R,
    alloc: Global,
    place: &Place,
    calls: &[Vec<Call>],
) -> Result<Option<Left>, OutOfMemory>
where
    C::View: Send + Sync,
    requires proper { IsProper place.now }
    requires knobs { C.suits_knobs (shape_of place.now) (knobs_of place.now.lock) }
{
    let (shard, mut seats) = opened::<C>(alloc, place)?;
    begin_all(&shard, place.geom, &mut seats, calls);
    go_in_threads(rt, &shard, &mut seats, 400);
    go_by_turns(&shard, &mut seats, 400);
    if !all_closed(&shard, seats.as_slice()) {
        return Ok(None);
    }
    let told = told_by_seats(alloc, &shard, &seats)?;
    match shard.close(seats) {
        Ok(closed) => Ok(Some(Left { closed, told })),
        Err(_) => Ok(None),
    }
}

/// What a shard of this placement leaves, after two threads have made these calls.
fn closed_of<R: Threads + Sync + AllocGlobal>(
    rt: &R,
    place: &str,
    calls: &str,
) -> Result<Option<Left>, TextErr> {
    let alloc = rt.alloc();
    let (place, ops) = read_both(alloc, place, calls)?;
    let calls = ops.by_rank.as_slice();
    settings_suit();
    let left = match &place.lock {
        Lock::Spin => closed_by_threads::<SpinCore, R>(rt, alloc, &place, calls)?,
        Lock::Dmcs => closed_by_threads::<DmcsCore, R>(rt, alloc, &place, calls)?,
        Lock::Alock { .. } => closed_by_threads::<AlockCore, R>(rt, alloc, &place, calls)?,
        Lock::Mcs { .. } => closed_by_threads::<McsCore, R>(rt, alloc, &place, calls)?,
        Lock::Rw { .. } => closed_by_threads::<RwCore, R>(rt, alloc, &place, calls)?,
        Lock::Seq { .. } => closed_by_threads::<SeqCore, R>(rt, alloc, &place, calls)?,
        Lock::Combine { .. } => closed_by_threads::<CombineCore, R>(rt, alloc, &place, calls)?,
    };
    Ok(left)
}

/// The value of the put that is the last of so many updates.
fn value_after(journal: &[Entry], updates: u32) -> Option<u64> {
    let last = updates.checked_sub(1)?;
    match journal.get(last as usize)?.call {
        Call::Put { value, .. } => Some(value),
        _ => None,
    }
}

/// Whether a call is answered as it must be after the updates before it, where all calls are puts and gets of one key.
fn is_answered(journal: &[Entry], entry: &Entry) -> bool {
    match (entry.call, entry.reply, value_after(journal, entry.at)) {
        (Call::Put { .. }, Reply::New, None) => true,
        (Call::Put { .. }, Reply::Was(found), Some(value)) => found == value,
        (Call::Get { .. }, Reply::Nothing, None) => true,
        (Call::Get { .. }, Reply::Val(found), Some(value)) => found == value,
        _ => false,
    }
}

/// The first entry of a rank's transcript.
fn first_of(transcripts: &[Vec<Entry>], rank: usize) -> Option<Entry> {
    transcripts.get(rank)?.as_slice().first().copied()
}

/// Looks that each seat told its rank, and the first entry that the shard then left of the rank.
fn look_at_seats<R: Abort>(rt: &R, left: &Left) {
    let transcripts = left.closed.transcripts.as_slice();
    assert!(rt; left.told.len() == transcripts.len());
    for (rank, told) in left.told.as_slice().iter().enumerate() {
        assert!(rt; told.0 as usize == rank);
        assert!(rt; told.1 == first_of(transcripts, rank));
    }
}

/// Looks that the journal has so many updates, each at its place, with the replies that belong to them.
fn look_at_journal<R: Abort>(rt: &R, journal: &[Entry], puts: u32) {
    assert!(rt; journal.len() == puts as usize);
    for (place, entry) in journal.iter().enumerate() {
        assert!(rt; entry.at as usize == place && is_answered(journal, entry));
    }
}

/// Looks that an entry is the first call of its rank, with the reply that belongs to it, and where it is an update the one at its place.
fn look_at_entry<R: Abort>(rt: &R, journal: &[Entry], rank: usize, entry: &Entry) {
    assert!(rt; entry.rank as usize == rank && entry.seq == 0);
    assert!(rt; is_answered(journal, entry));
    let noted = journal.get(entry.at as usize);
    assert!(rt; matches!(entry.call, Call::Get { .. }) || noted == Some(entry));
}

/// Looks that there are two ranks with an entry each.
fn look_at_transcripts<R: Abort>(rt: &R, journal: &[Entry], transcripts: &[Vec<Entry>]) {
    assert!(rt; transcripts.len() == 2);
    for (rank, transcript) in transcripts.iter().enumerate() {
        assert!(rt; transcript.len() == 1);
        for entry in transcript {
            look_at_entry(rt, journal, rank, entry);
        }
    }
}

/// Looks that a closed shard is that of two ranks which made one call each, puts and gets of key 0, in some order.
fn look<R: Abort>(rt: &R, closed: &Closed, puts: u32) {
    let journal = closed.journal.as_slice();
    look_at_journal(rt, journal, puts);
    look_at_transcripts(rt, journal, closed.transcripts.as_slice());
    let pair = closed.pairs.as_slice().first();
    assert!(rt; closed.pairs.len() == 1 && pair.map(|p| p.1) == value_after(journal, puts));
}

/// Makes these calls by two threads, each with a seat, from opening to close.
fn look_at_threads<R: Threads + Sync + AllocGlobal + Abort>(
    rt: &R,
    place: &str,
    calls: &str,
    puts: u32,
) -> Result<(), TextErr> {
    let left = closed_of(rt, place, calls)?;
    assert!(rt; left.is_some());
    if let Some(left) = &left {
        look_at_seats(rt, left);
        look(rt, &left.closed, puts);
    }
    Ok(())
}

/// Two puts, and a put and a get, over a lock, with the ranks on these nodes.
fn look_at_lock<R: Threads + Sync + AllocGlobal + Abort>(
    rt: &R,
    lock: &str,
    nodes: &str,
) -> Result<(), TextErr> {
    let place = one_shard(rt.alloc(), lock, "buckets 1\noverflow 0", nodes)?;
    let puts = "rmalock-calls 1\n0 put 0 5\n1 put 0 7\nend\n";
    look_at_threads(rt, &place, puts, 2)?;
    let put_and_get = "rmalock-calls 1\n0 put 0 5\n1 get 0\nend\n";
    look_at_threads(rt, &place, put_and_get, 1)
}

const LOCKS: &str =
    "spin|dmcs|alock;budget 1 1|mcs;budget 1|rw;budget 1;writers 1;readers 2;group 32|seq;budget 1 1|combine;budget 1 1";

/// Two threads, each with a seat, from opening to close, over each lock, with both ranks at home and with one elsewhere.
#[test]
fn two_threads_over_each_lock(rt: HostRuntime) -> Result<(), TextErr> {
    for lock in LOCKS.split('|') {
        look_at_lock(&rt, lock, "00")?;
        look_at_lock(&rt, lock, "01")?;
    }
    Ok(())
}
