//! The two cohorts of ranks, and the numbers that stand for them.

ghost use Rattle.std.specs.Prelude.{◌≡◌};
ghost use Rattle.rl_alock.specs.Alock.{cohort_no, other as the_other, tail_no};

/// A cohort of ranks, by where they sit.
#[derive(Clone, Copy, PartialEq, Eq, Debug)]
pub enum Cohort {
    /// The ranks on the shard's home.
    Local,
    /// All other ranks.
    Remote,
}

impl Cohort {
    /// The other cohort.
    pub fn other(self) -> Cohort
        ensures { result ≡ the_other self }
    {
        match self {
            Cohort::Local => Cohort::Remote,
            Cohort::Remote => Cohort::Local,
        }
    }

    /// The number by which the cohort is announced, and which the victim word has while the cohort is the one that yields: 1 for the
    /// local one, 2 for the remote one.
    pub fn number(self) -> u32
        ensures { result ≡ cohort_no self }
    {
        match self {
            Cohort::Local => 1,
            Cohort::Remote => 2,
        }
    }

    /// The number of the cohort's queue, and of the word that is its tail: 0 for the local one, 1 for the remote one.
    pub fn queue(self) -> u32
        ensures { result ≡ tail_no self }
    {
        match self {
            Cohort::Local => 0,
            Cohort::Remote => 1,
        }
    }
}
