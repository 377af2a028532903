//! The data of a page, one text behind the other.

ghost use Rattle.std.specs.Prelude.{◌≡◌, ◌≤◌, ◌++◌, length, IfOk, OnOk};
ghost use Rattle.rl_inputs.specs.Fitting.{IsProper, OpsFit, SuitsLock, ScheduleFits, ReplayFits};
ghost use Rattle.rl_report.specs.Naming.{naming_of};
ghost use Rattle.rl_report.specs.Spelling.{report_spelling};
ghost use Rattle.rl_program.specs.Replay.{report_of_replay};
ghost use Rattle.rl_page.specs.PageData.{files_text, replay_text, page_data, IsPageData};

use crate::own_lines::{own_lines, shown_of};
use rl_inputs::Replay;
use rl_ops::{Ops, Schedule, ops_text};
use rl_place::{Place, place_text, shape_text};
use rl_program::replay_report;
use rl_report::report_text;
use rl_shown::{copied, listing_text, state_text};
use rl_viewer::{Viewer, Window};
use std::alloc::{AllocError as OutOfMemory, Global};

/// What the files say, and the placement's shape.
fn files_text(alloc: Global, place: &Place, ops: &Ops) -> Result<Vec<u8>, OutOfMemory>
    requires { IsProper place.now }
    ensures { IfOk result (λ text. text.items ≡ files_text place.now ops.now) }
{
    let mut out = place_text(alloc, place)?;
    out.extend_from_slice(shape_text(alloc, place)?.as_slice())?;
    out.extend_from_slice(ops_text(alloc, ops)?.as_slice())?;
    Ok(out)
}

/// The text of the report.
fn report_part(
    alloc: Global,
    place: &Place,
    ops: Ops,
    schedule: &Schedule,
) -> Result<Vec<u8>, OutOfMemory>
    requires proper { IsProper place.now }
    requires fits { ReplayFits place.now ops schedule.now }
    ensures { IfOk result (λ text. text.items ≡ report_spelling (naming_of place.now) (report_of_replay place.now ops schedule.now)) }
{
    let report = replay_report(alloc, place, ops, schedule)?;
    report_text(alloc, place, &report)
}

/// What the replay comes to: its report, the state before the first step that is shown, and the list of the steps.
fn replay_text(
    alloc: Global,
    place: &Place,
    ops: Ops,
    schedule: &Schedule,
    window: Window,
) -> Result<Vec<u8>, OutOfMemory>
    requires proper { IsProper place.now }
    requires fits { ReplayFits place.now ops schedule.now }
    requires few { window.to ≤ 2000000 }
    ensures { IfOk result (λ text. text.items ≡ replay_text place.now ops schedule.now window) }
{
    let mut out = report_part(alloc, place, copied(alloc, &ops)?, schedule)?;
    let state = state_text(alloc, place, copied(alloc, &ops)?, schedule, window.from)?;
    out.extend_from_slice(state.as_slice())?;
    let listing = listing_text(alloc, place, ops, schedule, shown_of(window))?;
    out.extend_from_slice(listing.as_slice())?;
    Ok(out)
}

/// All that a page shows of a replay in a window of its steps, as one text. The calls and the schedule are of the placement's ranks, and no batch is
/// among the calls where the lock does none. The window ends at 2,000,000 at most, and of its steps the first 200,000 are listed. Refused
/// only for want of memory.
pub fn page_data(
    alloc: Global,
    place: &Place,
    ops: Ops,
    schedule: &Schedule,
    window: Window,
) -> Result<Vec<u8>, OutOfMemory>
    requires proper { IsProper place.now }
    requires calls { OpsFit (length place.now.paths) place.now.geom.shards ops }
    requires suits { SuitsLock place.now ops }
    requires schedule { ScheduleFits (length place.now.paths) schedule.now }
    requires few { window.to ≤ 2000000 }
    ensures { IfOk result (λ text. text.items ≡ page_data place.now ops schedule.now window) }
{
    let mut out = own_lines(alloc, window, schedule.turns.as_slice())?;
    out.extend_from_slice(files_text(alloc, place, &ops)?.as_slice())?;
    out.extend_from_slice(replay_text(alloc, place, ops, schedule, window)?.as_slice())?;
    Ok(out)
}

/// Shows a replay by the data of its page.
pub struct Pager;

impl Viewer for Pager {
    ghost shows = { IsPageData };

    fn show(alloc: Global, replay: Replay, window: Window) -> Result<Vec<u8>, OutOfMemory> {
        let Replay {
            place,
            ops,
            schedule,
        } = replay;
        page_data(alloc, &place, ops, &schedule, window)
    }
}
