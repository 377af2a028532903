//! The queues of a shard's lock, and their tallies beside the history.
ghost use Rattle.std.specs.Prelude.{◌≡◌, ◌↔◌, ◌<◌, ◌+◌, ◌==◌, ℕ, count_by, length, nat_lt, slice_get, slice_index, Some, None, IsTrue, true, false, if◌then◌else◌, ◌&&◌};
ghost use Rattle.std.specs.Option.{option_copied};
ghost use Rattle.rl_word.specs.LockFacts.{facts_of};
ghost use Rattle.rl_word.specs.Shapes.{IsProper};
ghost use Rattle.rl_step.specs.LockQueues.{root_budget, element_budget, is_at, parent_of, leaf_of, stands, same, sits_at};
ghost use Rattle.rl_step.specs.Queues.{IsWithinBudget};
ghost use Rattle.rl_journal.specs.Blocks.{is_tenure};
ghost use Rattle.rl_journal.specs.Tenures.{AreTallied, is_had_by, settled_if};
ghost use Rattle.rl_model.specs.Table.{sum_below};
ghost use Rattle.rl_place.specs.LockWords.{name_of};
ghost use Rattle.rl_place.specs.Places.{IsProper as IsProperPlace};
ghost use Rattle.rl_place.specs.Shapes.{shape_of};
ghost use Rattle.rl_report.specs.Lawful.{queues_at};
ghost use Rattle.rl_check.specs.Tallying.{IsTallied};
ghost use Rattle.rl_check.specs.QueuesOf.{queue_of, queues_all};

use rl_model::Entry;
use rl_place::Place;
use rl_report::within;
use rl_step::Tally;
use rl_word::{Element, Knobs, LockFacts, QueueKind, Shape};

/// What tells the queues of the lock of one shard.
#[derive(Clone, Copy)]
pub struct Queues<'a> {
    /// What the lock's name decides.
    pub facts: LockFacts,
    /// The shape of the placement.
    pub shape: &'a Shape,
    /// The lock's settings.
    pub knobs: Knobs,
    /// The node on which the shard's words live.
    pub home: u32,
}

// The budget of the root's queue, if it has one.
fn root_budget(has_budget: bool, knobs: Knobs) -> Option<u32>
    ensures { result ≡ root_budget has_budget knobs }
{
    if has_budget {
        Some(knobs.writers)
    } else {
        None
    }
}

// The budget of an element's queue; that of the root's is told apart.
fn element_budget(shape: &Shape, root: Option<u32>, queue: usize) -> Option<u32>
    ensures { result ≡ element_budget shape.now root queue }
{
    if queue == 0 {
        return root;
    }
    match shape.elements.get(queue) {
        Some(element) => element.budget,
        None => None,
    }
}

// Whether the number is among these.
fn stands(numbers: &[u32], number: usize) -> bool
    ensures { result ≡ stands numbers.now number }
{
    for other in numbers {
        if *other as usize == number {
            return true;
        }
    }
    false
}

// Whether a rank sits on a node with this leaf.
fn is_under(shape: &Shape, leaf: usize, rank: u32) -> bool
    requires { IsProper shape.now }
    ensures { result ≡ (nat_lt rank (length shape.now.node_of) && (leaf_of shape.now rank == leaf)) }
{
    match shape.node_of.get(rank as usize) {
        Some(node) => shape.leaf_of[*node as usize] as usize == leaf,
        None => false,
    }
}

// Whether an element has this parent.
fn is_child(shape: &Shape, parent: usize, element: usize) -> bool
    ensures { result ≡ is_at (parent_of (slice_get shape.now.elements element)) parent }
{
    match shape.elements.get(element) {
        Some(element) => match element.parent {
            Some(above) => above as usize == parent,
            None => false,
        },
        None => false,
    }
}

// Whether a rank sits at home, for the local cohort, or elsewhere, for the remote one.
fn is_in_cohort(shape: &Shape, home: u32, local: bool, rank: u32) -> bool
    ensures { result ≡ (nat_lt rank (length shape.now.node_of) && same local (sits_at home shape.now.node_of rank)) }
{
    match shape.node_of.get(rank as usize) {
        Some(node) => (*node == home) == local,
        None => false,
    }
}

// How often a queue was settled and passed: in 128 bits, since a file may tell any two numbers.
fn times_of(tally: Tally) -> u128
    ensures { result ≡ tally.settled + tally.passed }
{
    u128::from(tally.settled) + u128::from(tally.passed)
}

impl<'a> Queues<'a> {
    /// The queues of the lock of a shard, by the placement and its shape.
    pub fn of(place: &Place, shape: &'a Shape, shard: u32) -> Queues<'a>
        requires proper { IsProperPlace place.now }
        requires shape { shape.now ≡ shape_of place.now }
        requires there { shard < place.now.geom.shards }
        ensures facts { result.facts ≡ facts_of (name_of place.now.lock) }
        ensures shape { result.shape.now ≡ shape_of place.now }
        ensures queues { queues_all result ≡ queues_at place.now (slice_index place.now.homes shard) }
    {
        Queues {
            facts: place.lock.name().facts(),
            shape,
            knobs: place.knobs(),
            home: place.homes[shard as usize],
        }
    }
}

impl Queues<'_> {
    /// The budget of a queue.
    pub fn budget(&self, queue: usize) -> Option<u32>
        ensures { result ≡ (queue_of self.now queue).budget }
    {
        match self.facts.queues {
            QueueKind::NoQueue | QueueKind::OneForAll => None,
            QueueKind::TwoCohorts => {
                if queue == 0 {
                    Some(self.knobs.local)
                } else {
                    Some(self.knobs.remote)
                }
            }
            QueueKind::Elements { root_has_budget } => {
                let root = root_budget(root_has_budget, self.knobs);
                element_budget(self.shape, root, queue)
            }
        }
    }

    /// Whether the members of a queue are ranks.
    pub fn of_ranks(&self, queue: usize) -> bool
        ensures { result ≡ (queue_of self.now queue).of_ranks }
    {
        let shape = self.shape;
        match self.facts.queues {
            QueueKind::NoQueue | QueueKind::OneForAll | QueueKind::TwoCohorts => true,
            QueueKind::Elements { .. } => stands(shape.leaf_of.as_slice(), queue),
        }
    }

    // Whether a rank is a member of a queue of ranks.
    fn has_rank(&self, queue: usize, rank: u32) -> bool
        requires proper { IsProper self.now.shape.now }
        requires ranks { (queue_of self.now queue).of_ranks ≡ true }
        ensures { result ≡ (queue_of self.now queue).members rank }
    {
        let shape = self.shape;
        match self.facts.queues {
            QueueKind::NoQueue => false,
            QueueKind::OneForAll => (rank as usize) < shape.node_of.len(),
            QueueKind::TwoCohorts => is_in_cohort(shape, self.home, queue == 0, rank),
            QueueKind::Elements { .. } => is_under(shape, queue, rank),
        }
    }

    /// Whether an element is a member of a queue of elements.
    pub fn has_element(&self, queue: usize, element: usize) -> bool
        requires { (queue_of self.now queue).of_ranks ≡ false }
        ensures { result ≡ (queue_of self.now queue).members element }
    {
        is_child(self.shape, queue, element)
    }

    // Whether the entry begins a tenure of the lock by a writer.
    fn is_tenure(&self, entry: &Entry) -> bool
        ensures { result ≡ is_tenure self.now.facts.spares entry.now }
    {
        let spared = self.facts.spares && entry.call.reads();
        entry.part == 0 && !spared
    }

    /// How often a queue of ranks was had: how many of the entries begin a tenure of a member.
    pub fn had_by_ranks(&self, queue: usize, entries: &[Entry]) -> usize
        requires proper { IsProper self.now.shape.now }
        requires ranks { (queue_of self.now queue).of_ranks ≡ true }
        ensures { result ≡ count_by (is_had_by (queue_of self.now queue) self.now.facts.spares) entries.now }
    {
        let mut had = 0;
        for entry in entries {
            had += usize::from(self.has_rank(queue, entry.rank) && self.is_tenure(entry));
        }
        had
    }

    // Whether a queue of elements was had so often: by each member as often as the member's own queue was settled. The sum
    // may pass any number of bits, so it is taken off what is left.
    fn had_by_elements(&self, queue: usize, tallies: &[Tally], times: u128) -> bool
        requires { (queue_of self.now queue).of_ranks ≡ false }
        ensures { IsTrue result ↔ (times ≡ sum_below (settled_if (queue_of self.now queue).members tallies.now) (length tallies.now)) }
    {
        let mut left = times;
        for element in 0..tallies.len() {
            if self.has_element(queue, element) {
                let settled = u128::from(tallies[element].settled);
                if left < settled {
                    return false;
                }
                left -= settled;
            }
        }
        left == 0
    }

    // Whether a queue kept its budget in all, if it has one.
    fn is_within(&self, queue: usize, tally: Tally) -> bool
        ensures { IsTrue result ↔ ((B : ℕ) → (queue_of self.now queue).budget ≡ Some B → IsWithinBudget tally B) }
    {
        match self.budget(queue) {
            Some(budget) => within(tally, budget),
            None => true,
        }
    }

    /// Whether a queue kept its budget in all, and was settled and passed as often as it was had.
    pub fn is_tallied(&self, queue: usize, entries: &[Entry], tallies: &[Tally]) -> bool
        requires proper { IsProper self.now.shape.now }
        requires there { queue < length tallies.now }
        ensures { IsTrue result ↔ IsTallied self.now.facts.spares entries.now tallies.now queue (queue_of self.now queue) }
    {
        let tally = tallies[queue];
        if !self.is_within(queue, tally) {
            return false;
        }
        let times = times_of(tally);
        if self.of_ranks(queue) {
            self.had_by_ranks(queue, entries) as u128 == times
        } else {
            self.had_by_elements(queue, tallies, times)
        }
    }

    /// Whether all queues kept their budgets in all, and were settled and passed as often as they were had.
    ///
    /// It takes time in proportion to the number of entries for each queue of ranks.
    pub fn are_tallied(&self, entries: &[Entry], tallies: &[Tally]) -> bool
        requires proper { IsProper self.now.shape.now }
        requires each { length tallies.now ≡ length (queues_all self.now) }
        ensures { IsTrue result ↔ AreTallied (queues_all self.now) self.now.facts.spares entries.now tallies.now }
    {
        for queue in 0..tallies.len() {
            if !self.is_tallied(queue, entries, tallies) {
                return false;
            }
        }
        true
    }
}
