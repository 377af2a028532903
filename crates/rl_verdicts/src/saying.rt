//! The line on standard error that says what was told and what was due.
ghost use Rattle.std.specs.Prelude.{◌≡◌, length};
ghost use Rattle.rl_place.specs.Places.{IsProper};
ghost use Rattle.rl_ops.specs.Ops.{OpsFit};
ghost use Rattle.rl_report.specs.Naming.{naming_of};
ghost use Rattle.rl_report.specs.Reports.{ReportFits};

use crate::explaining::explain_fault;
use rl_check::check_one;
use rl_explain::{Kept, KeptText, place_in};
use rl_ops::{Ops, read_ops};
use rl_place::Place;
use rl_report::{Naming, Report, read_report};
use rl_text::TEXT_LIMIT;
use std::alloc::{AllocError as OutOfMemory, Global};
use std::io::Eprint;

/// Says what the first fault of a report comes to, if it has one. If standard error takes nothing, the first line is all that is left.
fn say<R: Eprint>(
    rt: &R,
    alloc: Global,
    program: &str,
    place: &Place,
    ops: &Ops,
    report: &Report,
    name: &str,
) -> Result<(), OutOfMemory>
    requires proper { IsProper place.now }
    requires calls { OpsFit (length place.now.paths) place.now.geom.shards ops.now }
    requires fits { ReportFits (naming_of place.now) report.now }
{
    let Some(fault) = check_one(alloc, place, ops, report)? else {
        return Ok(());
    };
    let naming = Naming::of(alloc, place)?;
    if let Some(verdict) = explain_fault(alloc, place, &naming, ops, report, fault)? {
        let _ = eprintln!(rt; "{program}: {name:?}, {verdict}");
    }
    Ok(())
}

/// Reads calls and a report again, and says what the report's first fault comes to.
fn say_read<R: Eprint>(
    rt: &R,
    alloc: Global,
    program: &str,
    place: &Place,
    calls: &KeptText,
    text: &KeptText,
)
    requires { IsProper place.now }
{
    let limit = TEXT_LIMIT as usize;
    let bytes = text.bytes.as_slice();
    if calls.bytes.len() >= limit || bytes.len() >= limit {
        return;
    }
    let ranks = place.paths.len() as u32;
    let Ok(ops) = read_ops(alloc, ranks, place.geom.shards, calls.bytes.as_slice()) else {
        return;
    };
    let Ok(report) = read_report(alloc, place, bytes) else {
        return;
    };
    let _ = say(rt, alloc, program, place, &ops, &report, text.name.as_str());
}

/// Says on standard error, in one line, what the first fault of a report comes to: its line, what was told there and what was due. The kept
/// texts are those of a check. It says nothing where memory is short.
pub fn say_verdict<R: Eprint>(rt: &R, alloc: Global, program: &str, kept: &Kept) {
    if let [place, calls, report] = kept.texts() {
        if let Some(place) = place_in(alloc, place) {
            say_read(rt, alloc, program, &place, calls, report);
        }
    }
}
