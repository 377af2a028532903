//! How a report names the lock, the queues and their members.
ghost use Rattle.std.specs.Prelude.{◌≡◌, ◌==◌, ◌++◌, ◌∷◌, ℕ, [], length, IfOk, OnOk};
ghost use Rattle.rl_place.specs.Numbering.{element_paths};
ghost use Rattle.rl_place.specs.Places.{IsProper};
ghost use Rattle.rl_place.specs.Shapes.{shape_of};
ghost use Rattle.rl_report.specs.Naming.{element_word, element_queue_names, queue_names, naming_of, lone_queue};
ghost use Rattle.rl_report.specs.Lawful.{queues_at, queues_under};

use rl_place::{Path, Place, lock_word, path_text};
use rl_word::{QueueKind, Shape};
use std::alloc::{AllocError as OutOfMemory, Global};
use std::marker::Model;

/// A queue's name, the queue right above it, and whether its members are ranks.
#[derive(Drop)]
pub struct QueueName {
    pub word: Vec<u8>,
    pub parent: Option<u32>,
    pub of_ranks: bool,
}

impl Model for QueueName {
    ghost use Rattle.rl_report.specs.Naming.{TheQueueName};

    ghost Value = { TheQueueName };

    ghost view = { λ q. record { word = q.word.items; parent = q.parent; of_ranks = q.of_ranks } };
}

/// The lock's name, how many ranks and shards there are, whether the ranks are in two cohorts, and the queues by number.
#[derive(Drop)]
pub struct Naming {
    pub lock: &'static str,
    pub ranks: u32,
    pub shards: u32,
    pub cohorts: bool,
    pub queues: Vec<QueueName>,
}

impl Model for Naming {
    ghost use Rattle.std.specs.Prelude.{length, ◌<◌, ◌^◌};
    ghost use Rattle.rl_report.specs.Naming.{TheNaming};

    ghost Value = { TheNaming };

    ghost view = { λ n. record { lock = n.lock.now; ranks = n.ranks; shards = n.shards; cohorts = n.cohorts; queues = n.queues.items } };

    // The number of a queue has a place in an event.
    ghost invariant = { λ n. length n.queues.items < 2 ^ 32 };
}

// Appends a queue of ranks that stands by itself.
fn push_lone(queues: &mut Vec<QueueName>, alloc: Global, word: &[u8]) -> Result<(), OutOfMemory>
    ensures { OnOk result (queues.new.items ≡ queues.old.items ++ lone_queue word.now ∷ []) }
{
    queues.push(QueueName {
        word: Vec::from_slice(alloc, word)?,
        parent: None,
        of_ranks: true,
    })?;
    Ok(())
}

fn element_word(alloc: Global, path: Path) -> Result<Vec<u8>, OutOfMemory>
    ensures { IfOk result (λ word. word.items ≡ element_word path) }
{
    if path.len == 0 {
        return Vec::from_slice(alloc, b"root");
    }
    let mut word = Vec::new(alloc);
    path_text(path, &mut word)?;
    Ok(word)
}

// The queue of an element.
fn element_queue(
    alloc: Global,
    place: &Place,
    path: Path,
    parent: Option<u32>,
) -> Result<QueueName, OutOfMemory>
    ensures { IfOk result (λ queue. queue ≡ record { word = element_word path; parent = parent; of_ranks = path.len == place.now.levels }) }
{
    Ok(QueueName {
        word: element_word(alloc, path)?,
        parent,
        of_ranks: path.len == place.levels,
    })
}

// The queues of these elements, which are all elements of the placement.
fn queues_of_elements(
    alloc: Global,
    place: &Place,
    names: &[Path],
    shape: &Shape,
) -> Result<Vec<QueueName>, OutOfMemory>
    requires names { names.now ≡ element_paths place.now.paths }
    requires shape { shape.now ≡ shape_of place.now }
    ensures { IfOk result (λ queues. queues.items ≡ element_queue_names place.now.levels (element_paths place.now.paths)) }
{
    let mut queues = Vec::new(alloc);
    for (number, path) in names.iter().enumerate() {
        queues.push(element_queue(alloc, place, *path, shape.elements[number].parent)?)?;
    }
    Ok(queues)
}

// The queues of all elements.
fn element_queues(alloc: Global, place: &Place) -> Result<Vec<QueueName>, OutOfMemory>
    requires { IsProper place.now }
    ensures { IfOk result (λ queues. queues.items ≡ element_queue_names place.now.levels (element_paths place.now.paths)) }
{
    let names = place.names(alloc)?;
    let shape = place.shape(alloc)?;
    queues_of_elements(alloc, place, names.as_slice(), &shape)
}

// The queues of this kind.
fn queue_names(alloc: Global, place: &Place, kind: QueueKind) -> Result<Vec<QueueName>, OutOfMemory>
    requires { IsProper place.now }
    ensures { IfOk result (λ queues. queues.items ≡ queue_names kind place.now.levels place.now.paths) }
{
    let mut queues = Vec::new(alloc);
    match kind {
        QueueKind::NoQueue => Ok(queues),
        QueueKind::OneForAll => {
            push_lone(&mut queues, alloc, b"all")?;
            Ok(queues)
        }
        QueueKind::TwoCohorts => {
            push_lone(&mut queues, alloc, b"local")?;
            push_lone(&mut queues, alloc, b"remote")?;
            Ok(queues)
        }
        QueueKind::Elements { .. } => element_queues(alloc, place),
    }
}

impl Naming {
    /// How a report of this placement names things: as many queues as the placement's lock has, and as the lock on which that one stands,
    /// whatever a shard's home is.
    pub fn of(alloc: Global, place: &Place) -> Result<Naming, OutOfMemory>
        requires { IsProper place.now }
        ensures named { IfOk result (λ naming. naming ≡ naming_of place.now) }
        ensures queues { IfOk result (λ naming. (home : ℕ) → length naming.queues ≡ length (queues_at place.now home)) }
        ensures under { IfOk result (λ naming. (home : ℕ) → length naming.queues ≡ length (queues_under place.now home)) }
    {
        let name = place.lock.name();
        let facts = name.facts();
        let queues = queue_names(alloc, place, facts.queues)?;
        Ok(Naming {
            lock: lock_word(name),
            ranks: place.paths.len() as u32,
            shards: place.geom.shards,
            cohorts: facts.queues.has_cohorts(),
            queues,
        })
    }
}
