//! What the words hold under optimistic readers and flat combining, with values worked out by hand.

use crate::replays::{Texts, state_before};
use std::process::Abort;
use std::test::*;

/// A step, and lines that stand together in the state before it.
type Sight = (u32, &'static str);

/// Whether a part stands in a text.
fn stands_in(text: &[u8], part: &[u8]) -> bool {
    for at in 0..text.len() {
        if text[at..].starts_with(part) {
            return true;
        }
    }
    false
}

/// These lines are seen in a replay.
fn are_seen(rt: &(impl Abort + AllocGlobal), texts: Texts, sights: &[Sight]) -> Result<(), Fail> {
    for (step, lines) in sights {
        let state = state_before(rt.alloc(), texts, *step)?;
        let seen = stands_in(state.as_slice(), lines.as_bytes());
        assert!(rt; seen, "step {step}: {lines}");
    }
    Ok(())
}

/// Two ranks under a version, on a table of one bucket.
const SEQ: &str =
    "rmalock-place 1\nlevels 1\nlock seq\nbudget 1 1\nshards 1\nbuckets 1\noverflow 0\nrank 0 at 0\nrank 1 at 0\nhome 0 0\nend\n";

/// A get beside a put. The get finds the version, the count and an empty bucket. The put enters by ALock, is decided by the count and the bucket, and opens
/// the version. The get finds another version, begins anew, and waits on it. Of the put there follow six words of the journal, three of the volume and
/// the count, with which its entry has joined; then the version is closed, and the rank leaves. The get reads all that it needs, and the version again.
const PUT: Texts = Texts {
    place: SEQ,
    calls: "rmalock-calls 1\n0 put 0 7\n1 get 0\nend\n",
    schedule: "rmalock-schedule 1\n1 3\n0 9\n1 2\n0 10\n0 3\n1 6\nend\n",
};

/// The version, which is the last word, and the ranks, of which one whose get is open is told as asking; and the count and the entry that has joined.
const BESIDE_A_PUT: &[Sight] = &[
    (
        11,
        " version = 0\nrank 0 0 writer opened 1 done 0\nrank 1 0 asks opened 1 done 0\nend\n",
    ),
    (
        14,
        " version = 1\nrank 0 0 writer opened 1 done 0\nrank 1 0 asks opened 1 done 0\nend\n",
    ),
    (
        24,
        " version = 1\nrank 0 0 writer opened 1 done 1\nrank 1 0 asks opened 1 done 0\nend\n",
    ),
    (24, "\nword 0 0 count = 1\n"),
    (
        24,
        "\nword 0 0 journal 0 1 = 9\nword 0 0 journal 0 3 = 7\nword 0 0 local tail ",
    ),
    (
        33,
        " version = 2\nrank 0 0 out opened 1 done 1\nrank 1 0 out opened 1 done 1\nend\n",
    ),
];

#[test]
fn a_get_beside_a_put(rt: HostRuntime) -> Result<(), Fail> {
    are_seen(&rt, PUT, BESIDE_A_PUT)
}

/// A hold, and then an update that changes nothing. The hold enters by ALock, ends with the load of the count, and leaves the version alone. The update
/// enters too; behind the count, the empty bucket, the version and its store there follow six words of the journal and the count; and the version again.
const HOLD_AND_CAS: Texts = Texts {
    place: SEQ,
    calls: "rmalock-calls 1\n0 hold 0\n1 cas 0 1 2\nend\n",
    schedule: "rmalock-schedule 1\n0 8\n1 16\n1 3\nend\n",
};

const WITHOUT_A_CHANGE: &[Sight] = &[
    (
        6,
        " version = 0\nrank 0 0 leaves opened 1 done 1\nrank 1 0 out opened 0 done 0\nend\n",
    ),
    (
        24,
        " version = 1\nrank 0 0 out opened 1 done 1\nrank 1 0 writer opened 1 done 1\nend\n",
    ),
    (
        25,
        " version = 2\nrank 0 0 out opened 1 done 1\nrank 1 0 leaves opened 1 done 1\nend\n",
    ),
    (
        27,
        "\nword 0 0 count = 1\nword 0 0 free = 0\nword 0 0 state 0 = 0\nword 0 0 key 0 = 0\nword 0 0 value 0 = 0\nword 0 0 journal 0 0 = 4294967296\nword 0 0 journal 0 1 = 36\nword 0 0 journal 0 3 = 1\nword 0 0 journal 0 4 = 2\nword 0 0 local tail ",
    ),
];

#[test]
fn a_hold_and_an_update_that_changes_nothing(rt: HostRuntime) -> Result<(), Fail> {
    are_seen(&rt, HOLD_AND_CAS, WITHOUT_A_CHANGE)
}

/// Both ranks post their calls: five words, and the flag. Rank 0 enters by ALock. Own flag and count; of the put flag, five words, one load, six words of
/// the entry, three writes, the count and four words of the answer, of which the flag is the last; of the get flag, five words, three loads and four words;
/// four words of its own answer. Then rank 1 enters: its own flag, and four words of its answer.
const COMBINED: Texts = Texts {
    place: "rmalock-place 1\nlevels 1\nlock combine\nbudget 1 1\nshards 1\nbuckets 1\noverflow 1\nrank 0 at 0\nrank 1 at 0\nhome 0 0\nend\n",
    calls: "rmalock-calls 1\n0 put 0 1\n1 get 0\nend\n",
    schedule: "rmalock-schedule 1\n1 6\n0 53\n1 12\nend\n",
};

/// The flags before and after each atom that changes one; and at the end all words but those of ALock, and of the journal those that aren't 0.
const DONE_BY_ONE: &[Sight] = &[
    (5, "\nword 0 0 flag 1 = 0\n"),
    (6, "\nword 0 0 flag 1 = 1\n"),
    (11, "\nword 0 0 flag 0 = 0\n"),
    (12, "\nword 0 0 flag 0 = 1\n"),
    (39, "\nword 0 0 flag 0 = 1\n"),
    (40, "\nword 0 0 flag 0 = 2\n"),
    (52, "\nword 0 0 flag 1 = 1\n"),
    (53, "\nword 0 0 flag 1 = 2\n"),
    (56, "\nword 0 0 flag 0 = 2\n"),
    (57, "\nword 0 0 flag 0 = 0\n"),
    (68, "\nword 0 0 flag 1 = 2\n"),
    (69, "\nword 0 0 flag 1 = 0\n"),
    (
        71,
        "\nword 0 0 count = 1\nword 0 0 free = 1\nword 0 0 state 0 = 1\nword 0 0 key 0 = 0\nword 0 0 value 0 = 1\nword 0 0 link 0 = 0\nword 0 0 cell key 0 = 0\nword 0 0 cell value 0 = 0\nword 0 0 journal 0 1 = 9\nword 0 0 journal 0 3 = 1\nword 0 0 local tail ",
    ),
    (
        71,
        "\nword 0 0 flag 0 = 0\nword 0 0 kind 0 = 1\nword 0 0 post key 0 = 0\nword 0 0 first 0 = 1\nword 0 0 second 0 = 0\nword 0 0 number 0 = 0\nword 0 0 place 0 = 0\nword 0 0 code 0 = 1\nword 0 0 post value 0 = 0\nword 0 0 flag 1 = 0\nword 0 0 kind 1 = 5\nword 0 0 post key 1 = 0\nword 0 0 first 1 = 0\nword 0 0 second 1 = 0\nword 0 0 number 1 = 0\nword 0 0 place 1 = 1\nword 0 0 code 1 = 9\nword 0 0 post value 1 = 1\nrank 0 0 out opened 1 done 1\nrank 1 0 out opened 1 done 1\nend\n",
    ),
];

#[test]
fn one_rank_does_the_calls_of_both(rt: HostRuntime) -> Result<(), Fail> {
    are_seen(&rt, COMBINED, DONE_BY_ONE)
}
