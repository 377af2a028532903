//! The tests of a whole report.
ghost use Rattle.std.specs.Prelude.{◌≡◌, ◌<◌, length, IfOk};
ghost use Rattle.rl_place.specs.Places.{IsProper};
ghost use Rattle.rl_ops.specs.Ops.{OpsFit};
ghost use Rattle.rl_report.specs.Naming.{naming_of};
ghost use Rattle.rl_report.specs.Reports.{ReportFits};
ghost use Rattle.rl_check.specs.Legal.{report_tests};
ghost use Rattle.rl_check.specs.Tests.{IsFirstOf};

use crate::illegal::Illegal;
use crate::ranks::check_rank;
use crate::shards::check_shard;
use rl_ops::Ops;
use rl_place::Place;
use rl_report::Report;
use std::alloc::{AllocError as OutOfMemory, Global};

/// The first test that a report fails: of the lowest shard that fails one, else of the lowest rank; nothing where all pass.
///
/// The placement is a proper one, and calls and report are of it, as their readers give them.
///
/// # Errors
///
/// Want of memory. It is told too where the fault is an event whose number has no place in 32 bits.
pub fn check_one(
    alloc: Global,
    place: &Place,
    ops: &Ops,
    report: &Report,
) -> Result<Option<Illegal>, OutOfMemory>
    requires proper { IsProper place.now }
    requires calls { OpsFit (length place.now.paths) place.now.geom.shards ops.now }
    requires fits { ReportFits (naming_of place.now) report.now }
    ensures { IfOk result (λ found. IsFirstOf (report_tests place.now ops.now report.now) found) }
{
    for shard in 0..place.geom.shards {
        let on_shard = check_shard(alloc, place, report, shard)?;
        if on_shard.is_some() {
            return Ok(on_shard);
        }
    }
    for rank in 0..place.paths.len() as u32 {
        let by_rank = check_rank(alloc, ops, report, rank)?;
        if by_rank.is_some() {
            return Ok(by_rank);
        }
    }
    Ok(None)
}
