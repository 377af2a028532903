//! Reading the line of an event.
ghost use Rattle.std.specs.Prelude.{◌≡◌, ◌+◌, ◌≤◌, ◌<◌, ◌&&◌, ◌^◌, length, position, IfOk, IfSome};
ghost use Rattle.std.specs.Str.{bytes_eq};
ghost use Rattle.rl_text.specs.Rows.{row_of};
ghost use Rattle.rl_report.specs.Naming.{parent_is_at};
ghost use Rattle.rl_report.specs.Reading.{queue_at, below_queue_at, member_in_row, cohort_named, in_queue_at, in_queue_with, cohort_at, cohort_with, rank_at, rank_with, event_named, event_at};

use crate::line_reader::is;
use crate::naming::{Naming, QueueName};
use rl_ops::MOST_STEPS;
use rl_step::Event;
use rl_text::{Line, LineWords, Refusal, Why};

// The place of the queue of this name.
fn place_named(naming: &Naming, word: &[u8]) -> Option<usize>
    ensures value { result ≡ position (λ queue. bytes_eq word.now queue.word) naming.now.queues }
    ensures there { IfSome result (λ q. (q < length naming.now.queues) × (q < 2 ^ 32)) }
{
    naming
        .queues
        .iter()
        .position(|queue| word == queue.word.as_slice())
}

// The queue that the next word names.
#[tactic(auto, unfolding(crate::specs::Reading::queue_at))]
fn queue_of(words: &mut LineWords<'_>, naming: &Naming) -> Result<u32, Refusal>
    requires { words.old.next ≤ 16 }
    ensures value { result ≡ queue_at naming.now words.old.row words.old.next }
    ensures row { words.new.row ≡ words.old.row }
    ensures next { words.new.next ≡ words.old.next + 1 }
    ensures there { IfOk result (λ q. q < length naming.now.queues) }
{
    let word = words.needed()?;
    match place_named(naming, word) {
        Some(q) => Ok(q as u32),
        None => Err(words.refusal(Why::Word)),
    }
}

fn is_under(queue: &QueueName, q: u32) -> bool
    ensures { result ≡ parent_is_at q queue.now.parent }
{
    queue.parent == Some(q)
}

// The place of the queue of this name right below queue q.
fn place_below(naming: &Naming, q: u32, word: &[u8]) -> Option<usize>
    ensures value { result ≡ position (λ queue. parent_is_at q queue.parent && bytes_eq word.now queue.word) naming.now.queues }
    ensures there { IfSome result (λ m. m < 2 ^ 32) }
{
    naming.queues.iter().position(|queue| is_under(queue, q) && word == queue.word.as_slice())
}

// The queue right below queue q that the next word names.
#[tactic(auto, unfolding(crate::specs::Reading::below_queue_at))]
fn below_queue_of(words: &mut LineWords<'_>, naming: &Naming, q: u32) -> Result<u32, Refusal>
    requires { words.old.next ≤ 16 }
    ensures value { result ≡ below_queue_at naming.now q words.old.row words.old.next }
    ensures row { words.new.row ≡ words.old.row }
    ensures next { words.new.next ≡ words.old.next + 1 }
{
    let word = words.needed()?;
    match place_below(naming, q, word) {
        Some(m) => Ok(m as u32),
        None => Err(words.refusal(Why::Word)),
    }
}

// The member of queue q that the next word names.
#[tactic(auto, unfolding(crate::specs::Reading::member_in_row))]
fn member_of(words: &mut LineWords<'_>, naming: &Naming, q: u32) -> Result<u32, Refusal>
    requires place { words.old.next ≤ 16 }
    requires queue { q < length naming.now.queues }
    ensures value { result ≡ member_in_row naming.now q words.old.row words.old.next }
    ensures row { words.new.row ≡ words.old.row }
    ensures next { words.new.next ≡ words.old.next + 1 }
{
    if naming.queues[q as usize].of_ranks {
        Ok(words.below(u64::from(naming.ranks))? as u32)
    } else {
        below_queue_of(words, naming, q)
    }
}

// `QUEUE MEMBER`, with which the line ends.
#[tactic(auto, unfolding(crate::specs::Reading::in_queue_at))]
fn in_queue(words: &mut LineWords<'_>, naming: &Naming) -> Result<(u32, u32), Refusal>
    requires { words.old.next ≡ 4 }
    ensures { result ≡ in_queue_at naming.now words.old.row }
{
    let queue = queue_of(words, naming)?;
    let member = member_of(words, naming, queue)?;
    words.no_more()?;
    Ok((queue, member))
}

// The cohort that the word names, which is the fourth of its line.
fn cohort_named(words: &LineWords<'_>, naming: &Naming, word: &[u8]) -> Result<u32, Refusal>
    requires { words.now.next ≡ 5 }
    ensures { result ≡ cohort_named naming.now.cohorts words.now.row 4 word.now }
{
    if !naming.cohorts {
        return Err(words.refusal(Why::Word));
    }
    if is(word, "local") {
        Ok(1)
    } else if is(word, "remote") {
        Ok(2)
    } else {
        Err(words.refusal(Why::Word))
    }
}

// `COHORT`, with which the line ends.
#[tactic(auto, unfolding(crate::specs::Reading::cohort_at))]
fn cohort(words: &mut LineWords<'_>, naming: &Naming) -> Result<u32, Refusal>
    requires { words.old.next ≡ 4 }
    ensures { result ≡ cohort_at naming.now words.old.row }
{
    let word = words.needed()?;
    let cohort = cohort_named(words, naming, word)?;
    words.no_more()?;
    Ok(cohort)
}

// `RANK`, with which the line ends.
#[tactic(auto, unfolding(crate::specs::Reading::rank_at))]
fn rank(words: &mut LineWords<'_>, naming: &Naming) -> Result<u32, Refusal>
    requires { words.old.next ≡ 4 }
    ensures { result ≡ rank_at naming.now words.old.row }
{
    let rank = words.below(u64::from(naming.ranks))? as u32;
    words.no_more()?;
    Ok(rank)
}

// The words behind `join`: QUEUE MEMBER.
fn join_of(words: &mut LineWords<'_>, naming: &Naming) -> Result<Event, Refusal>
    requires { words.old.next ≡ 4 }
    ensures { result ≡ in_queue_with naming.now words.old.row (λ queue member. Event.Join queue member) }
{
    let (queue, member) = in_queue(words, naming)?;
    Ok(Event::Join { queue, member })
}

// The word behind `announce`: COHORT.
fn announce_of(words: &mut LineWords<'_>, naming: &Naming) -> Result<Event, Refusal>
    requires { words.old.next ≡ 4 }
    ensures { result ≡ cohort_with naming.now words.old.row (λ cohort. Event.Announce cohort) }
{
    let cohort = cohort(words, naming)?;
    Ok(Event::Announce { cohort })
}

// The words behind `pass`: QUEUE MEMBER.
fn pass_of(words: &mut LineWords<'_>, naming: &Naming) -> Result<Event, Refusal>
    requires { words.old.next ≡ 4 }
    ensures { result ≡ in_queue_with naming.now words.old.row (λ queue member. Event.Pass queue member) }
{
    let (queue, member) = in_queue(words, naming)?;
    Ok(Event::Pass { queue, member })
}

// The words behind `settle`: QUEUE MEMBER.
fn settle_of(words: &mut LineWords<'_>, naming: &Naming) -> Result<Event, Refusal>
    requires { words.old.next ≡ 4 }
    ensures { result ≡ in_queue_with naming.now words.old.row (λ queue member. Event.Settle queue member) }
{
    let (queue, member) = in_queue(words, naming)?;
    Ok(Event::Settle { queue, member })
}

// The word behind `enter-w`: RANK.
fn enter_w_of(words: &mut LineWords<'_>, naming: &Naming) -> Result<Event, Refusal>
    requires { words.old.next ≡ 4 }
    ensures { result ≡ rank_with naming.now words.old.row (λ rank. Event.EnterW rank) }
{
    let rank = rank(words, naming)?;
    Ok(Event::EnterW { rank })
}

// The word behind `enter-r`: RANK.
fn enter_r_of(words: &mut LineWords<'_>, naming: &Naming) -> Result<Event, Refusal>
    requires { words.old.next ≡ 4 }
    ensures { result ≡ rank_with naming.now words.old.row (λ rank. Event.EnterR rank) }
{
    let rank = rank(words, naming)?;
    Ok(Event::EnterR { rank })
}

// The word behind `leave-w`: RANK.
fn leave_w_of(words: &mut LineWords<'_>, naming: &Naming) -> Result<Event, Refusal>
    requires { words.old.next ≡ 4 }
    ensures { result ≡ rank_with naming.now words.old.row (λ rank. Event.LeaveW rank) }
{
    let rank = rank(words, naming)?;
    Ok(Event::LeaveW { rank })
}

// The word behind `leave-r`: RANK.
fn leave_r_of(words: &mut LineWords<'_>, naming: &Naming) -> Result<Event, Refusal>
    requires { words.old.next ≡ 4 }
    ensures { result ≡ rank_with naming.now words.old.row (λ rank. Event.LeaveR rank) }
{
    let rank = rank(words, naming)?;
    Ok(Event::LeaveR { rank })
}

// What the rest of the line tells, after the name of what happened.
#[tactic(auto, unfolding(crate::specs::Reading::event_named))]
fn event_named(words: &mut LineWords<'_>, naming: &Naming, name: &[u8]) -> Result<Event, Refusal>
    requires { words.old.next ≡ 4 }
    ensures { result ≡ event_named naming.now words.old.row name.now }
{
    if is(name, "join") {
        join_of(words, naming)
    } else if is(name, "announce") {
        announce_of(words, naming)
    } else if is(name, "pass") {
        pass_of(words, naming)
    } else if is(name, "settle") {
        settle_of(words, naming)
    } else if is(name, "enter-w") {
        enter_w_of(words, naming)
    } else if is(name, "enter-r") {
        enter_r_of(words, naming)
    } else if is(name, "leave-w") {
        leave_w_of(words, naming)
    } else if is(name, "leave-r") {
        leave_r_of(words, naming)
    } else {
        Err(words.refusal(Why::Word))
    }
}

/// `event STEP EVENT`, after an event of step `least`.
#[tactic(auto, unfolding(crate::specs::Reading::event_at))]
pub fn event_of(line: &Line<'_>, naming: &Naming, least: u32) -> Result<(u32, Event), Refusal>
    ensures { result ≡ event_at naming.now least (row_of line.now) }
{
    let mut words = line.words();
    words.fixed(b"event", Why::Word)?;
    let step = words.below(u64::from(MOST_STEPS))? as u32;
    if step < least {
        return Err(words.refusal(Why::Order));
    }
    let name = words.needed()?;
    let event = event_named(&mut words, naming, name)?;
    Ok((step, event))
}
