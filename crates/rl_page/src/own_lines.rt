//! The page's own lines: its version, the window, and who is stopped when.

ghost use Rattle.std.specs.Prelude.{◌≡◌, ◌+◌, ◌<◌, ◌≤◌, ◌^◌, ◌++◌, ◌∷◌, [], sum_by, codes, decimal, IfOk, OnOk};
ghost use Rattle.rl_text.specs.Spelling.{line_text, text_of};
ghost use Rattle.rl_ops.specs.Schedule.{steps_of};
ghost use Rattle.rl_page.specs.PageData.{shown_of, count_of, window_line, stop_line, stop_lines, own_lines};

use rl_ops::Turn;
use rl_report::{put_value, put_word};
use rl_shown::total_steps;
use rl_viewer::Window;
use std::alloc::{AllocError as OutOfMemory, Global};

/// The most steps that a page shows.
const MOST_SHOWN: u32 = 200_000;

/// The steps of a window that are shown.
pub fn shown_of(window: Window) -> Window
    requires { window.to ≤ 2000000 }
    ensures { result ≡ shown_of window }
{
    Window {
        from: window.from,
        to: window.to.min(window.from.saturating_add(MOST_SHOWN)),
    }
}

/// How many of them a schedule of so many steps has.
fn count_of(window: Window, total: u32) -> u32
    requires { window.to ≤ 2000000 }
    ensures { result ≡ count_of window total }
{
    shown_of(window).to.min(total).saturating_sub(window.from)
}

/// `window FROM TO shown N of TOTAL`.
fn put_window(out: &mut Vec<u8>, window: Window, total: u32) -> Result<(), OutOfMemory>
    requires { window.to ≤ 2000000 }
    ensures { OnOk result (out.new.items ≡ out.old.items ++ line_text (window_line window total)) }
{
    out.extend_from_slice(b"window")?;
    put_value(out, u64::from(window.from))?;
    put_value(out, u64::from(window.to))?;
    put_word(out, b"shown")?;
    put_value(out, u64::from(count_of(window, total)))?;
    put_word(out, b"of")?;
    put_value(out, u64::from(total))?;
    out.push(b'\n')?;
    Ok(())
}

/// `stop RANK before STEP`.
fn put_stopped(out: &mut Vec<u8>, rank: u8, made: u32) -> Result<(), OutOfMemory>
    ensures { OnOk result (out.new.items ≡ out.old.items ++ line_text (codes "stop" ∷ decimal rank ∷ codes "before" ∷ decimal made ∷ [])) }
{
    out.extend_from_slice(b"stop")?;
    put_value(out, u64::from(rank))?;
    put_word(out, b"before")?;
    put_value(out, u64::from(made))?;
    out.push(b'\n')?;
    Ok(())
}

/// The line of a turn that is a stop, where so many steps were made before it.
fn put_stop(out: &mut Vec<u8>, made: u32, turn: Turn) -> Result<(), OutOfMemory>
    ensures { OnOk result (out.new.items ≡ out.old.items ++ text_of (stop_line made turn)) }
{
    match turn {
        Turn::Steps { .. } => Ok(()),
        Turn::Stop { rank } => put_stopped(out, rank, made),
    }
}

/// The lines of all stops.
fn put_stops(out: &mut Vec<u8>, turns: &[Turn]) -> Result<(), OutOfMemory>
    requires { sum_by steps_of turns.now < 2 ^ 32 }
    ensures { OnOk result (out.new.items ≡ out.old.items ++ text_of (stop_lines 0 turns.now)) }
{
    let mut made = 0;
    for turn in turns {
        put_stop(out, made, *turn)?;
        made += turn.steps();
    }
    Ok(())
}

/// The page's own lines, of a window of a schedule with these turns. Refused only for want of memory.
pub fn own_lines(alloc: Global, window: Window, turns: &[Turn]) -> Result<Vec<u8>, OutOfMemory>
    requires low { window.to ≤ 2000000 }
    requires few { sum_by steps_of turns.now < 2 ^ 32 }
    ensures { IfOk result (λ text. text.items ≡ text_of (own_lines window turns.now)) }
{
    let mut out = Vec::from_slice(alloc, b"rmalock-page 1\n")?;
    put_window(&mut out, window, total_steps(turns))?;
    put_stops(&mut out, turns)?;
    Ok(out)
}
