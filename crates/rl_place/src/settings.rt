//! Readers of the lines before the ranks: names with numbers, and the lock with its settings.
ghost use Rattle.std.specs.Prelude.{◌≡◌, ◌≤◌, ◌+◌, IfOk, OnOk};
ghost use Rattle.rl_text.specs.Rows.{row_of};
ghost use Rattle.rl_text.specs.Reading.{Gives, Leaves, GivesLeaving};
ghost use Rattle.rl_place.specs.Reading.{setting_at, setting_next, geom_next, lock_name_at, budgets_from, budgets_at, cohorts_at, cohorts_next, mcs_next, rw_next, settings_next, lock_next};

use crate::limits::{MOST_BUCKETS, MOST_BUDGET, MOST_CELLS, MOST_RANKS, MOST_SHARDS};
use crate::lock::{Budgets, Lock};
use crate::lock_words::lock_named;
use rl_model::Geom;
use rl_text::{Line, LineWords, Lines, Refusal, TextErr, Why};
use rl_word::LockName;
use std::alloc::Global;

/// `NAME NUMBER`, with the number from `low` to `high`.
#[tactic(auto, unfolding(crate::specs::Reading::setting_at))]
fn setting_of(line: &Line<'_>, name: &[u8], low: u32, high: u32) -> Result<u32, Refusal>
    ensures value { result ≡ setting_at (row_of line.now) name.now low high }
    ensures between { IfOk result (λ n. (low ≤ n) × (n ≤ high)) }
{
    let mut words = line.words();
    words.fixed(name, Why::Word)?;
    let n = words.between(u64::from(low), u64::from(high))?;
    words.no_more()?;
    Ok(n as u32)
}

/// The next line is `NAME NUMBER`, with the number from `low` to `high`.
#[tactic(auto, unfolding(crate::specs::Reading::setting_next))]
pub fn setting(lines: &mut Lines<'_>, name: &[u8], low: u32, high: u32) -> Result<u32, Refusal>
    ensures value { Leaves result lines.new (setting_next name.now low high lines.old) }
    ensures between { IfOk result (λ n. (low ≤ n) × (n ≤ high)) }
{
    let line = lines.next_whole()?;
    setting_of(&line, name, low, high)
}

/// The lines `shards S`, `buckets B` and `overflow O`.
#[tactic(auto, unfolding(crate::specs::Reading::geom_next))]
pub fn geom_of(lines: &mut Lines<'_>) -> Result<Geom, Refusal>
    ensures { Leaves result lines.new (geom_next lines.old) }
{
    let shards = setting(lines, b"shards", 1, MOST_SHARDS)?;
    let buckets = setting(lines, b"buckets", 1, MOST_BUCKETS)?;
    let overflow = setting(lines, b"overflow", 0, MOST_CELLS)?;
    Ok(Geom {
        shards,
        buckets,
        overflow,
    })
}

/// `lock NAME`.
#[tactic(auto, unfolding(crate::specs::Reading::lock_name_at))]
fn lock_name_of(line: &Line<'_>) -> Result<LockName, Refusal>
    ensures { result ≡ lock_name_at (row_of line.now) }
{
    let mut words = line.words();
    words.fixed(b"lock", Why::Word)?;
    let word = words.needed()?;
    let Some(name) = lock_named(word) else {
        return Err(words.refusal(Why::Word));
    };
    words.no_more()?;
    Ok(name)
}

/// So many budgets from word 2 on.
fn budget_words(alloc: Global, words: &mut LineWords<'_>, count: u32) -> Result<Budgets, TextErr>
    requires { (words.old.next ≡ 2) × (count ≤ 3) }
    ensures value { Gives result (budgets_from words.old.row 2 count) }
    ensures row { OnOk result (words.new ≡ record { row = words.old.row; next = count + 2 }) }
{
    let mut budgets = Budgets::new(alloc);
    for _ in 0..count {
        let budget = words.between(0, u64::from(MOST_BUDGET))?;
        budgets.push(budget as u32)?;
    }
    Ok(budgets)
}

/// `budget B1 .. BN`.
#[tactic(auto, unfolding(crate::specs::Reading::budgets_at))]
fn budgets_of(alloc: Global, line: &Line<'_>, count: u32) -> Result<Budgets, TextErr>
    requires { count ≤ 3 }
    ensures { Gives result (budgets_at (row_of line.now) count) }
{
    let mut words = line.words();
    words.fixed(b"budget", Why::Word)?;
    let budgets = budget_words(alloc, &mut words, count)?;
    words.no_more()?;
    Ok(budgets)
}

/// `budget LOCAL REMOTE`.
#[tactic(auto, unfolding(crate::specs::Reading::cohorts_at))]
fn cohorts_of(line: &Line<'_>) -> Result<(u32, u32), Refusal>
    ensures { result ≡ cohorts_at (row_of line.now) }
{
    let mut words = line.words();
    words.fixed(b"budget", Why::Word)?;
    let local = words.between(0, u64::from(MOST_BUDGET))?;
    let remote = words.between(0, u64::from(MOST_BUDGET))?;
    words.no_more()?;
    Ok((local as u32, remote as u32))
}

/// The next line is `budget LOCAL REMOTE`.
#[tactic(auto, unfolding(crate::specs::Reading::cohorts_next))]
fn cohorts(lines: &mut Lines<'_>) -> Result<(u32, u32), Refusal>
    ensures { Leaves result lines.new (cohorts_next lines.old) }
{
    let line = lines.next_whole()?;
    cohorts_of(&line)
}

#[tactic(auto, unfolding(crate::specs::Reading::mcs_next))]
fn mcs_of(alloc: Global, lines: &mut Lines<'_>, levels: u32) -> Result<Lock, TextErr>
    requires { levels ≤ 3 }
    ensures { GivesLeaving result lines.new (mcs_next levels lines.old) }
{
    let line = lines.next_whole()?;
    let budgets = budgets_of(alloc, &line, levels)?;
    Ok(Lock::Mcs { budgets })
}

#[tactic(auto, unfolding(crate::specs::Reading::rw_next))]
fn rw_of(alloc: Global, lines: &mut Lines<'_>, levels: u32) -> Result<Lock, TextErr>
    requires { levels ≤ 3 }
    ensures { GivesLeaving result lines.new (rw_next levels lines.old) }
{
    let line = lines.next_whole()?;
    let budgets = budgets_of(alloc, &line, levels)?;
    let writers = setting(lines, b"writers", 0, MOST_BUDGET)?;
    let readers = setting(lines, b"readers", 1, MOST_BUDGET)?;
    let group = setting(lines, b"group", 1, MOST_RANKS)?;
    Ok(Lock::Rw {
        budgets,
        writers,
        readers,
        group,
    })
}

/// The lines of the settings of the lock of this name.
#[tactic(auto, unfolding(crate::specs::Reading::settings_next))]
fn settings_of(
    alloc: Global,
    lines: &mut Lines<'_>,
    levels: u32,
    name: LockName,
) -> Result<Lock, TextErr>
    requires { levels ≤ 3 }
    ensures { GivesLeaving result lines.new (settings_next levels name lines.old) }
{
    match name {
        LockName::Spin => Ok(Lock::Spin),
        LockName::Dmcs => Ok(Lock::Dmcs),
        LockName::Alock => {
            let (local, remote) = cohorts(lines)?;
            Ok(Lock::Alock { local, remote })
        }
        LockName::Mcs => mcs_of(alloc, lines, levels),
        LockName::Rw => rw_of(alloc, lines, levels),
        LockName::Seq => {
            let (local, remote) = cohorts(lines)?;
            Ok(Lock::Seq { local, remote })
        }
        LockName::Combine => {
            let (local, remote) = cohorts(lines)?;
            Ok(Lock::Combine { local, remote })
        }
    }
}

/// `lock NAME`, and the lines of the lock's settings.
#[tactic(auto, unfolding(crate::specs::Reading::lock_next))]
pub fn lock_of(alloc: Global, lines: &mut Lines<'_>, levels: u32) -> Result<Lock, TextErr>
    requires { levels ≤ 3 }
    ensures { GivesLeaving result lines.new (lock_next levels lines.old) }
{
    let line = lines.next_whole()?;
    let name = lock_name_of(&line)?;
    settings_of(alloc, lines, levels, name)
}
