//! A report that is read back as it was written.

use crate::answers::{answer_alone, look, three_files};
use rl_place::read_place;
use rl_report::{read_report, report_text};
use rl_text::{TEXT_LIMIT, TextErr};
use std::alloc::Global;

/// Three writers of three nodes, and a reader for whom the last of them waits.
const PLACE: &str =
    "rmalock-place 1\nlevels 1\nlock rw\nbudget 1\nwriters 1\nreaders 1000\ngroup 32\nshards 1\nbuckets 1\noverflow 0\nrank 0 at 0\nrank 1 at 1\nrank 2 at 2\nrank 3 at 0\nhome 0 0\nend\n";

const CALLS: &str = "rmalock-calls 1\n0 hold 0\n1 hold 0\n2 hold 0\n3 get 0\nend\n";

const SCHEDULE: &str = "rmalock-schedule 1\n0 18\n1 16\n2 16\n3 11\n0 9\n1 18\n3 5\n2 7\nend\n";

/// A report's text, printed once more after it was read.
fn printed_again(alloc: Global, place: &str, text: &[u8]) -> Result<Vec<u8>, TextErr> {
    if place.len() >= TEXT_LIMIT as usize || text.len() >= TEXT_LIMIT as usize {
        return Err(TextErr::Memory);
    }
    let place = read_place(alloc, place.as_bytes())?;
    let report = read_report(alloc, &place, text)?;
    Ok(report_text(alloc, &place, &report)?)
}

/// The report of a replay is read as a report, and that is printed byte for byte as it stood.
#[test]
fn a_report_is_read_back(rt: HostRuntime) -> Result<(), TextErr> {
    let alloc = rt.alloc();
    let files = three_files(
        alloc,
        PLACE.as_bytes(),
        CALLS.as_bytes(),
        SCHEDULE.as_bytes(),
    )?;
    let (status, out) = answer_alone(alloc, "replay p c r", files)?;
    let again = printed_again(alloc, PLACE, out.bytes())?;
    assert_eq!(rt; status, 0);
    assert_eq!(rt; again.as_slice(), out.bytes());
    Ok(())
}
