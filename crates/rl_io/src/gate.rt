//! Who is told of the calls and the steps of running ranks.

/// Stands at the calls and the steps of ranks that run in threads: a test lets each rank on in an order of its own, and looks at
/// the answers.
///
/// Nothing is said of what a gate does, and it can change nothing of what the ranks do but its time. A gate may wait for other
/// ranks; then the run may not return.
pub trait Gate: Sync {
    /// The rank is about to ask for the call of this number, or for the batch that begins with it. A rank's calls count from 0, over
    /// all shards.
    fn before(&self, rank: u32, call: u32);

    /// The rank has made a step with this answer: 1 moved, 2 waiting, 3 lost, 4 busy, 5 finished.
    fn after(&self, rank: u32, answer: u32);
}

/// The gate that is always open: both calls return at once.
#[derive(Clone, Copy, Debug, PartialEq, Eq)]
pub struct OpenGate;

impl Gate for OpenGate {
    fn before(&self, _rank: u32, _call: u32) {}

    fn after(&self, _rank: u32, _answer: u32) {}
}
