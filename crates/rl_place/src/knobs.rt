//! The settings that a lock reads.
ghost use Rattle.std.specs.Prelude.{◌≡◌};
ghost use Rattle.rl_place.specs.Shapes.{knobs_of};

use crate::lock::Lock;
use crate::place::Place;
use rl_word::Knobs;

const NONE: Knobs = Knobs {
    local: 0,
    remote: 0,
    writers: 0,
    readers: 0,
    group: 0,
};

impl Place {
    /// The settings of the lock, with 0 for those that it doesn't have. The budgets of the elements stand in the shape.
    pub fn knobs(&self) -> Knobs
        ensures { result ≡ knobs_of self.now.lock }
    {
        match &self.lock {
            Lock::Alock { local, remote }
            | Lock::Seq { local, remote }
            | Lock::Combine { local, remote } => Knobs {
                local: *local,
                remote: *remote,
                ..NONE
            },
            Lock::Rw {
                writers,
                readers,
                group,
                ..
            } => Knobs {
                writers: *writers,
                readers: *readers,
                group: *group,
                ..NONE
            },
            Lock::Spin | Lock::Dmcs | Lock::Mcs { .. } => NONE,
        }
    }
}
