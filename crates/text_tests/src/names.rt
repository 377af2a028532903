//! The names of all words of small shards, by what stands where.

use rl_names::{WordMap, put_name};
use rl_place::read_place;
use rl_report::Naming;
use rl_text::{TEXT_LIMIT, TextErr};
use std::alloc::Global;
use std::test::*;

/// One bucket and one overflow cell: nine words before the journal. It has one place, so the lock's words begin with word 15.
const BEHIND: u32 = 15;

/// The names of these words of a shard of the placement, each with a comma behind it.
fn names_told(alloc: Global, place: &str, from: u32, to: u32) -> Result<Vec<u8>, TextErr> {
    if place.len() >= TEXT_LIMIT as usize {
        return Err(TextErr::Memory);
    }
    let place = read_place(alloc, place.as_bytes())?;
    let naming = Naming::of(alloc, &place)?;
    let map = WordMap::of(&place, &naming, BEHIND);
    let mut out = Vec::new(alloc);
    for word in from..to {
        put_name(&mut out, &naming, map.name_of(word))?;
        out.push(b',')?;
    }
    Ok(out)
}

/// The words of the table and of a journal of one place, and then each lock's, for a rank on node 0, which is the shard's home, and one on
/// node 7.
#[test]
fn each_word_has_its_name(rt: HostRuntime) -> Result<(), Fail> {
    let cohorts = "local tail, remote tail, victim, next 0, status 0, next 1, status 1,";
    let tree =
        "tail of root, tail of 0, tail of 7, next of 0, status of 0, next of 7, status of 7, next 0, status 0, next 1, status 1,";
    let cases = [
        (
            "spin",
            0,
            16,
            "fixed, count, free, state 0, key 0, value 0, link 0, cell key 0, cell value 0, journal 0 0, journal 0 1, journal 0 2, journal 0 3, journal 0 4, journal 0 5,",
            " word,",
        ),
        (
            "dmcs",
            BEHIND,
            20,
            "tail, next 0, status 0, next 1, status 1,",
            "",
        ),
        ("alock\nbudget 1 1", BEHIND, 22, cohorts, ""),
        ("mcs\nbudget 1", BEHIND, 26, tree, ""),
        (
            "rw\nbudget 1\nwriters 1\nreaders 1\ngroup 1",
            BEHIND,
            30,
            tree,
            " arrive 0, depart 0, arrive 1, depart 1,",
        ),
        ("seq\nbudget 1 1", BEHIND, 23, cohorts, " version,"),
        (
            "combine\nbudget 1 1",
            BEHIND,
            40,
            cohorts,
            " flag 0, kind 0, post key 0, first 0, second 0, number 0, place 0, code 0, post value 0, flag 1, kind 1, post key 1, first 1, second 1, number 1, place 1, code 1, post value 1,",
        ),
    ];
    for (lock, from, to, first, second) in cases {
        let place = format!(in rt.alloc();
            "rmalock-place 1\nlevels 1\nlock {lock}\nshards 1\nbuckets 1\noverflow 1\nrank 0 at 0\nrank 1 at 7\nhome 0 0\nend\n"
        )?;
        let want = format!(in rt.alloc(); " {first}{second}")?;
        let told = names_told(rt.alloc(), &place, from, to)?;
        assert_eq!(rt; told.as_slice(), want.as_bytes(), "{lock}");
    }
    Ok(())
}
