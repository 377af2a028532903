//! Runs by threads, with values from their definition, and gates that lead the ranks.

use crate::answers::{answer_beside, three_files};
use crate::check_tests::look_legal;
use crate::schedules::{
    BUDGET_LED, COHORTS_LED, FIRST_LED, LED, READERS_LED, SECOND_LED, calls_of, is_row, one_shard,
    place_of, ranks_of, told_of,
};
use crossbeam_utils::Backoff;
use rl_io::{FixedSink, Gate, OpenGate};
use rl_model::{Entry, Reply};
use rl_place::read_place;
use rl_report::{Report, read_report};
use rl_text::{TEXT_LIMIT, TextErr};
use std::alloc::{AllocError as OutOfMemory, Global};
use std::process::Abort;
use std::sync::Wait;
use std::sync::atomic::{AtomicU64, Ordering};
use std::thread::Threads;

/// So often a gate looks whether it is a rank's turn, before it gives up. Between two looks it lets other threads have the processor,
/// so that on a busy machine a rank that is waited for comes to its turn.
const MOST_LOOKS: u64 = 10_000_000;

/// Lets the ranks on in the order of a list of turns, one step each, and notes the answers.
#[derive(Drop)]
struct Led {
    turns: Vec<u32>,
    answers: Vec<AtomicU64>,
    made: AtomicU64,
    missed: AtomicU64,
}

impl Led {
    /// The turns come as the ranks' digits.
    fn new(alloc: Global, ranks: &str) -> Result<Led, OutOfMemory> {
        let mut turns = Vec::new(alloc);
        let mut answers = Vec::new(alloc);
        for digit in ranks.as_bytes() {
            turns.push(u32::from(digit.saturating_sub(b'0')))?;
            answers.push(AtomicU64::new(0))?;
        }
        Ok(Led {
            turns,
            answers,
            made: AtomicU64::new(0),
            missed: AtomicU64::new(0),
        })
    }

    /// Returns once the next turn is the rank's, or no turn is left, or after so many looks, which it notes.
    fn wait_for(&self, rank: u32) {
        let backoff = Backoff::new();
        for _ in 0..MOST_LOOKS {
            match self.turns.get(self.made.load(Ordering::SeqCst) as usize) {
                Some(next) if *next != rank => backoff.snooze(),
                _ => return,
            }
        }
        self.missed.store(1, Ordering::SeqCst);
    }
}

impl Gate for Led {
    fn before(&self, rank: u32, call: u32) {
        if call == 0 {
            self.wait_for(rank);
        }
    }

    fn after(&self, rank: u32, answer: u32) {
        if answer == 5 {
            return;
        }
        let turn = self.made.load(Ordering::SeqCst);
        if let Some(note) = self.answers.get(turn as usize) {
            note.store(u64::from(answer), Ordering::SeqCst);
            self.made.fetch_add(1, Ordering::SeqCst);
            self.wait_for(rank);
        }
    }
}

/// Lets two ranks on to a call of the same number only together.
#[derive(Drop)]
struct Both {
    asked: [AtomicU64; 2],
    missed: AtomicU64,
}

impl Gate for Both {
    fn before(&self, rank: u32, call: u32) {
        let (mine, other) = match rank {
            0 => (&self.asked[0], &self.asked[1]),
            _ => (&self.asked[1], &self.asked[0]),
        };
        mine.store(u64::from(call) + 1, Ordering::SeqCst);
        let backoff = Backoff::new();
        for _ in 0..MOST_LOOKS {
            if other.load(Ordering::SeqCst) > u64::from(call) {
                return;
            }
            backoff.snooze();
        }
        self.missed.store(1, Ordering::SeqCst);
    }

    fn after(&self, _rank: u32, _answer: u32) {}
}

/// The status and the text of `run p c`, over files and a sink that never fail, with a gate.
fn run_with<G: Gate, R: Threads + Wait + Sync + AllocGlobal>(
    rt: &R,
    place: &str,
    calls: &str,
    gate: &G,
) -> Result<(u8, FixedSink), OutOfMemory> {
    let files = three_files(rt.alloc(), place.as_bytes(), calls.as_bytes(), b"")?;
    answer_beside(rt, "run p c", files, gate)
}

/// A report of this placement, read back from what the program wrote.
fn read_back(alloc: Global, place: &str, text: &[u8]) -> Result<Report, TextErr> {
    if place.len() >= TEXT_LIMIT as usize || text.len() >= TEXT_LIMIT as usize {
        return Err(TextErr::Memory);
    }
    let place = read_place(alloc, place.as_bytes())?;
    read_report(alloc, &place, text)
}

/// The report of a run of these texts, with a gate.
fn report_of<G: Gate, R: Threads + Wait + Sync + AllocGlobal + Abort>(
    rt: &R,
    place: &str,
    calls: &str,
    gate: &G,
) -> Result<Report, TextErr> {
    let (status, out) = run_with(rt, place, calls, gate)?;
    assert!(rt; status == 0);
    read_back(rt.alloc(), place, out.bytes())
}

/// The report of a run of these texts whose ranks go on as they come, once `check` has called what was written legal.
fn checked_report_of<R: Threads + Wait + Sync + AllocGlobal + Abort>(
    rt: &R,
    place: &str,
    calls: &str,
) -> Result<Report, TextErr> {
    let (status, out) = run_with(rt, place, calls, &OpenGate)?;
    assert!(rt; status == 0);
    look_legal(rt, place, calls, out.bytes())?;
    read_back(rt.alloc(), place, out.bytes())
}

/// The reply of a rank's call on shard 0, and the count that it looked at.
fn reply_of(report: &Report, rank: u32, seq: u32) -> Option<(u32, Reply)> {
    for entry in report.shards.as_slice().first()?.entries.as_slice() {
        if entry.rank == rank && entry.seq == seq {
            return Some((entry.at, entry.reply));
        }
    }
    None
}

/// Looks that each of two ranks waited for the other, and reads its own write.
fn look_at_both(rt: &impl Abort, gate: &Both, report: &Report) {
    assert!(rt; gate.missed.load(Ordering::SeqCst) == 0);
    assert!(rt; matches!(reply_of(report, 0, 1), Some((_, Reply::Val(5)))));
    assert!(rt; matches!(reply_of(report, 1, 1), Some((_, Reply::Val(6)))));
}

/// Ten runs of two ranks over a lock that go on to each of their calls only together.
fn wait_for_each_other<R: Threads + Wait + Sync + AllocGlobal + Abort>(
    rt: &R,
    lock: &str,
) -> Result<(), TextErr> {
    let place = one_shard(rt.alloc(), lock, "buckets 2\noverflow 0", "01")?;
    let calls = "rmalock-calls 1\n0 put 0 5\n0 get 0\n1 put 1 6\n1 get 1\nend\n";
    for _ in 0..10 {
        let gate = Both {
            asked: [AtomicU64::new(0), AtomicU64::new(0)],
            missed: AtomicU64::new(0),
        };
        let report = report_of(rt, &place, calls, &gate)?;
        look_at_both(rt, &gate, &report);
    }
    Ok(())
}

const LOCKS: &str =
    "spin|dmcs|alock;budget 4 4|mcs;budget 4|rw;budget 4;writers 4;readers 16;group 2|seq;budget 4 4|combine;budget 4 4";

/// Two ranks that go on to each of their calls only together: they run side by side, or the gate gives up.
#[test]
fn two_ranks_wait_for_each_other(rt: HostRuntime) -> Result<(), TextErr> {
    for lock in LOCKS.split('|') {
        wait_for_each_other(&rt, lock)?;
    }
    Ok(())
}

/// Notes before which calls each of two ranks asks it: a digit a call, which is the call's number and one more.
#[derive(Drop)]
struct Noting {
    noted: [AtomicU64; 2],
}

impl Gate for Noting {
    fn before(&self, rank: u32, call: u32) {
        if let Some(noted) = self.noted.get(rank as usize) {
            let so_far = noted.load(Ordering::SeqCst);
            let digit = u64::from(call) + 1;
            noted.store(
                so_far.wrapping_mul(10).wrapping_add(digit),
                Ordering::SeqCst,
            );
        }
    }

    fn after(&self, _rank: u32, _answer: u32) {}
}

/// What a gate notes of a run of these texts.
fn noted_of<R: Threads + Wait + Sync + AllocGlobal + Abort>(
    rt: &R,
    place: &str,
    calls: &str,
) -> Result<Noting, TextErr> {
    let gate = Noting {
        noted: [AtomicU64::new(0), AtomicU64::new(0)],
    };
    let _report = report_of(rt, place, calls, &gate)?;
    Ok(gate)
}

/// A gate is asked before each block, by the rank and by the number of the block's first call: rank 0 has a call, a batch of two and a call, which
/// are its calls 0, 1 and 3; rank 1 has two calls.
#[test]
fn blocks_have_the_numbers_of_their_calls(rt: HostRuntime) -> Result<(), TextErr> {
    let place = one_shard(rt.alloc(), "spin", "buckets 2\noverflow 0", "00")?;
    let calls =
        "rmalock-calls 2\n0 put 0 1\n0 batch 2\n0 put 0 2\n0 del 0\n0 get 0\n1 get 1\n1 put 1 3\nend\n";
    let gate = noted_of(&rt, &place, calls)?;
    assert!(rt; gate.noted[0].load(Ordering::SeqCst) == 124);
    assert!(rt; gate.noted[1].load(Ordering::SeqCst) == 12);
    Ok(())
}

/// The number of an answer, by its sign in what a row tells.
fn answer_of(sign: &str) -> u64 {
    match sign.as_bytes().first() {
        Some(b'm') => 1,
        Some(b'w') => 2,
        Some(b'l') => 3,
        Some(b'b') => 4,
        _ => 0,
    }
}

/// Looks that the ranks came to each of their turns, and got the answers that a row tells.
fn look_at_led(rt: &impl Abort, gate: &Led, told: &str) {
    assert!(rt; gate.missed.load(Ordering::SeqCst) == 0);
    let mut signs = told.split(' ');
    for note in gate.answers.as_slice() {
        let answer = note.load(Ordering::SeqCst);
        assert!(rt; answer == answer_of(signs.next().unwrap_or("")), "{told}");
    }
    assert!(rt; signs.next().is_none(), "{told}");
}

/// Looks that each rank has done all that it was given.
fn look_all_done(rt: &impl Abort, report: &Report) {
    for done in report.done.as_slice() {
        assert!(rt; done.done == done.given);
    }
}

/// A run that is led by the turns of a row. Looks that the ranks got the answers that the row tells.
fn run_led<R: Threads + Wait + Sync + AllocGlobal + Abort>(
    rt: &R,
    row: &str,
) -> Result<Report, TextErr> {
    let place = place_of(rt.alloc(), row)?;
    let calls = calls_of(rt.alloc(), row)?;
    let gate = Led::new(rt.alloc(), ranks_of(row))?;
    let report = report_of(rt, &place, &calls, &gate)?;
    look_at_led(rt, &gate, told_of(row));
    look_all_done(rt, &report);
    Ok(report)
}

/// The same of each row of a table, five times.
pub(crate) fn run_led_often<R: Threads + Wait + Sync + AllocGlobal + Abort>(
    rt: &R,
    table: &str,
) -> Result<(), TextErr> {
    for _ in 0..5 {
        for line in table.split('\n') {
            if is_row(line) {
                let _report = run_led(rt, line)?;
            }
        }
    }
    Ok(())
}

/// Runs that are led through the worked schedules: of the spin lock and of queues.
#[test]
fn runs_led_by_turns(rt: HostRuntime) -> Result<(), TextErr> {
    run_led_often(&rt, LED)
}

/// The same of two cohorts.
#[test]
fn cohorts_led_by_turns(rt: HostRuntime) -> Result<(), TextErr> {
    run_led_often(&rt, COHORTS_LED)
}

/// The same of readers: between writers, and two beside each other.
#[test]
fn readers_led_by_turns(rt: HostRuntime) -> Result<(), TextErr> {
    run_led_often(&rt, READERS_LED)
}

/// Looks how often the local queue and the remote one were settled and passed.
fn look_at_cohorts(rt: &impl Abort, report: &Report) {
    for shard in report.shards.as_slice() {
        let tallies = shard
            .queues
            .as_slice()
            .iter()
            .map(|t| (t.settled, t.passed));
        assert!(rt; tallies.eq([(2, 1), (1, 0)]));
    }
}

/// Two cohorts, led until the budget of the local one is used up; what the ranks do afterwards is theirs.
#[test]
fn a_budget_is_used_up_by_turns(rt: HostRuntime) -> Result<(), TextErr> {
    for _ in 0..5 {
        look_at_cohorts(&rt, &run_led(&rt, BUDGET_LED)?);
    }
    Ok(())
}

/// The reply follows the order in which the gate lets the ranks go.
#[test]
fn who_goes_first(rt: HostRuntime) -> Result<(), TextErr> {
    for _ in 0..5 {
        let first = run_led(&rt, FIRST_LED)?;
        assert!(rt; matches!(reply_of(&first, 1, 0), Some((1, Reply::Val(1)))));
        let second = run_led(&rt, SECOND_LED)?;
        assert!(rt; matches!(reply_of(&second, 1, 0), Some((0, Reply::Nothing))));
    }
    Ok(())
}

/// A placement with this lock, four nodes in pairs, two ranks on each, and four shards, one at home on each.
fn eight_ranks(alloc: Global, lock: &str) -> Result<String, OutOfMemory> {
    format!(in alloc;
        "rmalock-place 1\nlevels 2\nlock {lock}\nshards 4\nbuckets 64\noverflow 64\nrank 0 at 0.0\nrank 1 at 0.0\nrank 2 at 0.1\nrank 3 at 0.1\nrank 4 at 1.0\nrank 5 at 1.0\nrank 6 at 1.1\nrank 7 at 1.1\nhome 0 0.0\nhome 1 0.1\nhome 2 1.0\nhome 3 1.1\nend\n"
    )
}

/// For each of eight ranks, on keys of its own, 25 puts and gets by turns.
fn own_writes(alloc: Global) -> Result<String, OutOfMemory> {
    let mut calls = format!(in alloc; "rmalock-calls 1\n")?;
    for rank in 0..8u32 {
        for i in 0..25u32 {
            let key = 8 * (i % 12) + rank;
            let value = 2 * i;
            calls.push_str(&format!(in alloc; "{rank} put {key} {value}\n{rank} get {key}\n")?)?;
        }
    }
    calls.push_str("end\n")?;
    Ok(calls)
}

/// Looks that a get finds what its rank put right before, and that each put finds room.
fn look_at_own_write(rt: &impl Abort, entry: &Entry) {
    match entry.reply {
        Reply::Val(value) => assert!(rt; Some(value) == u64::from(entry.seq).checked_sub(1)),
        reply => assert!(rt; matches!(reply, Reply::New | Reply::Was(_))),
    }
}

/// Looks at all entries of a report: 200 of them are gets.
fn look_at_own_writes(rt: &impl Abort, report: &Report) {
    let mut gets = 0u32;
    for shard in report.shards.as_slice() {
        for entry in shard.entries.as_slice() {
            look_at_own_write(rt, entry);
            if matches!(entry.reply, Reply::Val(_)) {
                gets = gets.saturating_add(1);
            }
        }
    }
    assert!(rt; gets == 200);
}

/// Looks that each rank was given so many calls and has done them.
fn look_done(rt: &impl Abort, report: &Report, calls: u32) {
    for done in report.done.as_slice() {
        assert!(rt; done.done == calls && done.given == calls);
    }
}

/// Eight ranks put keys of their own and get each again: a rank reads its own write, and the report is legal. Five runs with this lock.
pub(crate) fn read_own_writes<R: Threads + Wait + Sync + AllocGlobal + Abort>(
    rt: &R,
    lock: &str,
) -> Result<(), TextErr> {
    let calls = own_writes(rt.alloc())?;
    let place = eight_ranks(rt.alloc(), lock)?;
    for _ in 0..5 {
        let report = checked_report_of(rt, &place, &calls)?;
        look_at_own_writes(rt, &report);
        look_done(rt, &report, 50);
    }
    Ok(())
}

#[test]
fn ranks_read_their_own_writes(rt: HostRuntime) -> Result<(), TextErr> {
    read_own_writes(&rt, "rw\nbudget 4 4\nwriters 4\nreaders 16\ngroup 2")?;
    read_own_writes(&rt, "mcs\nbudget 4 4")
}

/// For each of eight ranks twenty batches of two puts on keys of its own.
fn batches_of_two(alloc: Global) -> Result<String, OutOfMemory> {
    let mut calls = format!(in alloc; "rmalock-calls 2\n")?;
    for rank in 0..8u32 {
        let other = rank + 8;
        for i in 0..20u32 {
            calls.push_str(&format!(in alloc;
                "{rank} batch 2\n{rank} put {rank} {i}\n{rank} put {other} {i}\n"
            )?)?;
        }
    }
    calls.push_str("end\n")?;
    Ok(calls)
}

/// Looks that each entry is of a batch of two, and was done.
fn look_at_batches(rt: &impl Abort, report: &Report) {
    for shard in report.shards.as_slice() {
        for entry in shard.entries.as_slice() {
            assert!(rt; matches!(entry.reply, Reply::New | Reply::Was(_)));
            assert!(rt; entry.batch == 2);
        }
    }
}

/// Eight ranks make batches of two puts on keys of their own, which all have room; the report is legal.
#[test]
fn batches_of_eight_ranks(rt: HostRuntime) -> Result<(), TextErr> {
    let calls = batches_of_two(rt.alloc())?;
    let place = eight_ranks(rt.alloc(), "rw\nbudget 4 4\nwriters 4\nreaders 16\ngroup 2")?;
    for _ in 0..5 {
        let report = checked_report_of(&rt, &place, &calls)?;
        look_at_batches(&rt, &report);
        look_done(&rt, &report, 40);
    }
    Ok(())
}
