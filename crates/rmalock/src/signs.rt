//! What steps tell, as text: a sign for each answer, and one for each event.

use rl_step::{Event, Stepped};
use std::alloc::{AllocError as OutOfMemory, Global};

/// One event: `j1.0` member 0 joins queue 1, `s1.0` settles it, `p1.0` is passed it; `a2` cohort 2 announces itself; `+0` rank 0 enters
/// to write, `*0` looks at what the lock guards, `!0` writes it, `-0` leaves; `<0` rank 0 enters to read, `>0` leaves.
fn sign(alloc: Global, event: Event) -> Result<String, OutOfMemory> {
    let text = match event {
        Event::Join { queue, member } => format!(in alloc; "j{queue}.{member}")?,
        Event::Settle { queue, member } => format!(in alloc; "s{queue}.{member}")?,
        Event::Pass { queue, member } => format!(in alloc; "p{queue}.{member}")?,
        Event::Announce { cohort } => format!(in alloc; "a{cohort}")?,
        Event::EnterW { rank } => format!(in alloc; "+{rank}")?,
        Event::LeaveW { rank } => format!(in alloc; "-{rank}")?,
        Event::Touch { rank, write: false } => format!(in alloc; "*{rank}")?,
        Event::Touch { rank, write: true } => format!(in alloc; "!{rank}")?,
        Event::EnterR { rank } => format!(in alloc; "<{rank}")?,
        Event::LeaveR { rank } => format!(in alloc; ">{rank}")?,
    };
    Ok(text)
}

/// An answer: `m` moved, `w3.0` waiting on word 3, whose value is 0, `l0.1` lost with guess 0 and 1 seen, `b0.1` busy with rank 1 in the
/// card of node 0, `f` finished.
pub(crate) fn answer_sign(alloc: Global, answer: Stepped) -> Result<String, OutOfMemory> {
    let text = match answer {
        Stepped::Moved => format!(in alloc; "m")?,
        Stepped::Waiting { word, value } => format!(in alloc; "w{word}.{value}")?,
        Stepped::Lost { guess, seen } => format!(in alloc; "l{guess}.{seen}")?,
        Stepped::Busy { node, holder } => format!(in alloc; "b{node}.{holder}")?,
        Stepped::Finished => format!(in alloc; "f")?,
    };
    Ok(text)
}

/// An answer and the events of its step.
pub(crate) fn told(
    alloc: Global,
    step: u32,
    answer: Stepped,
    events: &[(u32, Event)],
) -> Result<String, OutOfMemory> {
    let mut text = answer_sign(alloc, answer)?;
    for (number, event) in events {
        if *number == step {
            text.push_str(&sign(alloc, *event)?)?;
        }
    }
    Ok(text)
}

/// The answers of what a trial tells, without the events, each with a space behind it.
pub(crate) fn answers_alone(alloc: Global, told: &str) -> Result<String, OutOfMemory> {
    let mut text = String::new(alloc);
    if told.len() > 0 {
        for sign in told.split(' ') {
            text.push_str(if sign.starts_with("m") { "m" } else { sign })?;
            text.push_str(" ")?;
        }
    }
    Ok(text)
}
