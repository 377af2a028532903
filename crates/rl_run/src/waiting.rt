//! How a caller waits for other ranks.

use crossbeam_utils::Backoff;
use rl_step::Stepped;

/// So many steps in a row that moved tell that the waiting is over.
const CALM_STEPS: u32 = 4;

/// So many times more the processor is given away after the same guess was lost again, once spinning hasn't helped.
const LOST_WAITS: u32 = 20;

/// Backs off after steps that didn't get on: it spins, longer each time, and then gives the processor to other threads.
///
/// After a Lost the next step is made first, since that leaves the card, which the holder of the lock may need to give it up. One
/// step that moved is no sign that the waiting is over, as a waiting round may have two loads; so spinning begins anew only after
/// four of them in a row. Both matter where there are more threads than processors: without them a run takes a hundred times as
/// long.
///
/// A rank that loses with the same guess again wants the word to have that value, as at a spin lock, and each time that it looks it takes
/// the card that the word's holder needs. So once spinning hasn't helped it waits much longer than after another answer: without that a run
/// of four ranks at a spin lock takes a third more time. A rank that joins a queue guesses what it saw last, and does better at once.
#[derive(Drop)]
pub struct Patience {
    backoff: Backoff,
    /// How many of the last steps moved, up to four.
    calm: u32,
    /// The last step was Lost, and it wasn't waited for yet.
    lost: bool,
    /// The guess that was lost last.
    guess: Option<u64>,
    /// It was the one that was lost before, too.
    again: bool,
}

impl Patience {
    /// Nothing was waited for yet.
    pub fn new() -> Patience {
        Patience {
            backoff: Backoff::new(),
            calm: 0,
            lost: false,
            guess: None,
            again: false,
        }
    }

    /// Whether this answer is one of a row that moved, long enough: then there is nothing to do. After a Lost no such row has begun.
    #[inline(always)]
    pub fn is_calm(&self, stepped: &Stepped) -> bool {
        self.calm == CALM_STEPS && matches!(stepped, Stepped::Moved)
    }

    /// Waits as long as the answer of the last step asks for.
    #[inline(always)]
    pub fn after(&mut self, stepped: &Stepped) {
        match stepped {
            Stepped::Lost { guess, .. } => {
                if self.lost {
                    self.wait_after_lost();
                }
                self.lost = true;
                self.calm = 0;
                self.again = self.guess == Some(*guess);
                self.guess = Some(*guess);
            }
            Stepped::Waiting { .. } | Stepped::Busy { .. } => self.wait(),
            Stepped::Moved | Stepped::Finished => self.go_on(),
        }
    }

    // The rank got on; where that was the step after a Lost, it waits now.
    fn go_on(&mut self) {
        if self.lost {
            self.wait_after_lost();
        } else if self.calm < CALM_STEPS {
            self.calm += 1;
            if self.calm == CALM_STEPS {
                self.backoff.reset();
            }
        }
    }

    // Waits after a Lost, for the word to change where the rank wants the value that it guessed.
    fn wait_after_lost(&mut self) {
        self.wait();
        if self.again && self.backoff.is_completed() {
            for _ in 0..LOST_WAITS {
                self.backoff.snooze();
            }
        }
    }

    // Waits, each time longer.
    fn wait(&mut self) {
        self.lost = false;
        self.calm = 0;
        self.backoff.snooze();
    }
}
