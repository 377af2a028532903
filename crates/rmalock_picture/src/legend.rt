//! The legend: what the looks of steps and ranks mean, and the labels. It tells only what can come under the placement's lock.

use crate::labels::width_of;
use crate::scale::LEFT;
use crate::svg::{Area, Px, Spot, Svg};
use rl_word::{LockName, QueueKind};
use std::alloc::AllocError as OutOfMemory;

/// Under which locks something can be seen.
#[derive(Clone, Copy)]
enum Under {
    All,
    /// A lock with queues.
    Queues,
    /// A lock with two cohorts.
    Cohorts,
    /// RMA-RW.
    Readers,
    /// Optimistic readers.
    Looks,
    /// Flat combining.
    Posts,
}

impl Under {
    /// Whether it can be seen under this lock.
    fn has(self, lock: LockName) -> bool {
        match self {
            Under::All => true,
            Under::Queues => !matches!(lock.facts().queues, QueueKind::NoQueue),
            Under::Cohorts => lock.facts().queues.has_cohorts(),
            Under::Readers => lock.facts().shares,
            Under::Looks => matches!(lock, LockName::Seq),
            Under::Posts => matches!(lock, LockName::Combine),
        }
    }
}

/// A look, and what it means.
type Meaning = (Under, &'static str, &'static str);

const STEPS: [Meaning; 6] = [
    (Under::All, "moved", "moved"),
    (Under::All, "waiting", "waits on a word"),
    (Under::All, "lost", "compare lost"),
    (Under::Looks, "look", "look lost"),
    (Under::All, "busy", "card taken"),
    (Under::All, "finished", "no call left"),
];

const RANKS: [Meaning; 9] = [
    (Under::All, "asking", "asks"),
    (Under::Looks, "looking", "reads"),
    (Under::Readers, "refused", "refused"),
    (Under::All, "writing", "holds, alone"),
    (Under::Readers, "reading", "holds, as a reader"),
    (Under::Posts, "answered", "its call is done"),
    (Under::Posts, "serving", "does a call"),
    (Under::All, "leaving", "gives it back"),
    (Under::All, "card", "in a node's card"),
];

/// What labels mean, a line each.
const LABELS: [(Under, &str); 5] = [
    (
        Under::Queues,
        "join: it stands at the queue's end; settle: it has the queue anew, with the whole budget; pass: it hands the queue on",
    ),
    (
        Under::Cohorts,
        "announce: the head of a cohort has stored that the other cohort goes first",
    ),
    (
        Under::Readers,
        "refused: a reader may not come in; reset: those that left are taken off; mark, mark off: a writer keeps readers out, or lets them in",
    ),
    (
        Under::Looks,
        "version odd, even: a write begins, has ended; look lost: a get finds another version, and reads anew",
    ),
    (
        Under::Posts,
        "posts: its call stands for whoever sweeps; done for rank: the sweep has done that rank's call; collects: it takes its reply",
    ),
];

/// How high a line is.
const LINE: Px = Px(16);

/// How high the legend is.
pub fn height_of_legend(lock: LockName) -> Px {
    let mut height = LINE + LINE + LINE;
    for (under, _) in &LABELS {
        if under.has(lock) {
            height = height + LINE;
        }
    }
    height
}

/// One line of the legend: a field for each look, and what it means.
fn draw_meanings(
    svg: &mut Svg,
    lock: LockName,
    name: &str,
    meanings: &[Meaning],
    y: Px,
) -> Result<(), OutOfMemory> {
    svg.words(Spot { x: Px(10), y }, "plain", name)?;
    let mut x = LEFT;
    for (under, look, meaning) in meanings {
        if under.has(lock) {
            svg.area(field_at(x, y), look)?;
            let spot = Spot { x: x + Px(24), y };
            svg.words(spot, "plain", meaning)?;
            x = spot.x + width_of(meaning) + Px(10);
        }
    }
    Ok(())
}

/// Where a look is shown whose words stand at this height.
fn field_at(x: Px, y: Px) -> Area {
    Area {
        x,
        y: Px(y.0.saturating_sub(9)),
        width: Px(20),
        height: Px(11),
    }
}

/// Writes what the labels mean.
fn draw_labels_meaning(svg: &mut Svg, lock: LockName, y: Px) -> Result<(), OutOfMemory> {
    let mut y = y;
    let mut name = "a label";
    for (under, words) in &LABELS {
        if under.has(lock) {
            svg.words(Spot { x: Px(10), y }, "plain", name)?;
            svg.words(Spot { x: LEFT, y }, "plain", words)?;
            name = "";
            y = y + LINE;
        }
    }
    Ok(())
}

/// Draws the legend from this height on.
pub fn draw_legend(svg: &mut Svg, lock: LockName, top: Px) -> Result<(), OutOfMemory> {
    let first = top + LINE;
    draw_meanings(svg, lock, "a step", &STEPS, first)?;
    draw_meanings(svg, lock, "a rank", &RANKS, first + LINE)?;
    draw_labels_meaning(svg, lock, first + LINE + LINE)
}
