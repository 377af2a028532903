//! Calls of the library for which the program itself has no use.

use crate::trials::trial;
use rl_model::{Call, Entry, Reply};
use rl_ops::{ByRank, Schedule, Turn, Turns, read_call, schedule_text};
use rl_text::{Lines, Refusal, TEXT_LIMIT, TextErr, Why};
use std::alloc::{AllocError as OutOfMemory, Global};
use std::process::Abort;

/// The first line of a text, read as a call from its second word on, of a table of one shard.
fn call_in(text: &str) -> Option<Result<(Call, u32), Refusal>> {
    if text.len() >= TEXT_LIMIT as usize {
        return None;
    }
    let mut lines = Lines::new(text.as_bytes());
    let line = lines.next_line()?;
    Some(read_call(&line, 2, 1))
}

#[test]
fn a_call_within_a_line(rt: HostRuntime) {
    assert!(rt;
        matches!(
            call_in("0 put 7 5\n"),
            Some(Ok((Call::Put { key: 7, value: 5 }, 5)))
        )
    );
    assert!(rt;
        matches!(
            call_in("0 take 7\n"),
            Some(Err(Refusal {
                line: 1,
                word: 2,
                why: Why::Word
            }))
        )
    );
}

/// The text of a schedule that a program has made by itself.
fn two_turns(alloc: Global) -> Result<Vec<u8>, OutOfMemory> {
    let turns = vec![in alloc; Turn::Steps { rank: 0, count: 9 }, Turn::Stop { rank: 1 }]?;
    let turns = Turns::from_vec(turns);
    schedule_text(alloc, &Schedule { turns })
}

/// The numbers of a rank that a program has made by itself.
fn two_ones(alloc: Global) -> Result<ByRank<u32>, OutOfMemory> {
    Ok(ByRank::from_vec(vec![in alloc; vec![in alloc; 1, 1]?]?))
}

/// Lists that a program has made by itself.
#[test]
fn lists_of_ones_own(rt: HostRuntime) -> Result<(), OutOfMemory> {
    let text = two_turns(rt.alloc())?;
    assert!(rt; text.as_slice() == b"rmalock-schedule 1\n0 9\nstop 1\nend\n".as_slice());
    let ones = two_ones(rt.alloc())?;
    assert!(rt; ones.as_slice().iter().map(|list| list.len()).eq([2]));
    Ok(())
}

/// Looks that a journal has this call of rank 0 with its reply at this place.
fn look_at(rt: &impl Abort, journal: &[Entry], at: u32, call: Call, reply: Reply) {
    let wanted = Entry {
        shard: 0,
        rank: 0,
        seq: at,
        call,
        at,
        reply,
        batch: 0,
        part: 0,
    };
    assert!(rt;
        journal
            .get(at as usize)
            .is_some_and(|entry| *entry == wanted)
    );
}

/// Looks that these are the six updates of the small table, with their replies.
fn look_at_six(rt: &impl Abort, journal: &[Entry]) {
    assert!(rt; journal.len() == 6);
    look_at(rt, journal, 0, Call::Put { key: 0, value: 1 }, Reply::New);
    look_at(rt, journal, 1, Call::Put { key: 1, value: 2 }, Reply::New);
    look_at(rt, journal, 2, Call::Put { key: 2, value: 3 }, Reply::Full);
    look_at(
        rt,
        journal,
        3,
        Call::Put { key: 1, value: 9 },
        Reply::Was(2),
    );
    look_at(rt, journal, 4, Call::Del { key: 0 }, Reply::Was(1));
    look_at(rt, journal, 5, Call::Put { key: 2, value: 3 }, Reply::New);
}

/// Six updates of one rank on a table of one bucket and one overflow cell: the journal that the words spell after them.
#[test]
fn a_journal_by_its_words(rt: HostRuntime) -> Result<(), TextErr> {
    let place =
        "rmalock-place 1\nlevels 1\nlock spin\nshards 1\nbuckets 1\noverflow 1\nrank 0 at 0\nhome 0 0\nend\n";
    let calls =
        "rmalock-calls 1\n0 put 0 1\n0 put 1 2\n0 put 2 3\n0 put 1 9\n0 del 0\n0 put 2 3\nend\n";
    let ranks =
        "00000000000000000000000000000000000000000000000000000000000000000000000000000000000000000000000000000000000000000000000000000000000000000000";
    let outcome = trial(&rt, place, calls, ranks)?;
    look_at_six(&rt, outcome.journal.as_slice());
    Ok(())
}
