//! Which steps a row of the picture shows, and how wide each is. A picture that would be too wide for a page has several rows.
ghost use Rattle.std.specs.Prelude.{◌<◌};

use crate::svg::Px;
use rl_viewer::Window;
use std::alloc::{AllocError as OutOfMemory, Global};

/// Where the lanes begin.
pub const LEFT: Px = Px(100);

/// The steps of a row: from the first on, before the last.
#[derive(Clone, Copy)]
pub struct Scale {
    pub first: u32,
    pub last: u32,
    /// The end of all rows.
    end: u32,
    cell: Px,
}

/// How wide a step is where there are so many, and how many of them a row has at most.
fn measures(steps: u32) -> (Px, u32)
    ensures { 0 < result.1 }
{
    match steps {
        0..=160 => (Px(20), 52),
        161..=520 => (Px(8), 130),
        _ => (Px(4), 260),
    }
}

/// How many parts of at most so many there are, and none without one.
fn parts(whole: u32, most: u32) -> u32
    requires { 0 < most }
    ensures { 0 < result }
{
    whole.div_ceil(most).max(1)
}

/// The rows of a window of a schedule with so many steps. They are as long as each other, but for the last.
pub fn rows_of(alloc: Global, window: Window, steps: u32) -> Result<Vec<Scale>, OutOfMemory> {
    let end = window.to.min(steps).max(window.from);
    let count = end.saturating_sub(window.from);
    let (cell, most) = measures(count);
    let rows = parts(count, most);
    let long = parts(count, rows);
    let mut scales = Vec::new(alloc);
    let mut first = window.from;
    for _ in 0..rows {
        let last = first.saturating_add(long).min(end);
        scales.push(Scale {
            first,
            last,
            end,
            cell,
        })?;
        first = last;
    }
    Ok(scales)
}

impl Scale {
    /// Where a step begins.
    pub fn x(self, step: u32) -> Px {
        LEFT + self.cell * step.saturating_sub(self.first)
    }

    /// Where the middle of a step is.
    pub fn middle(self, step: u32) -> Px {
        self.x(step) + Px(self.cell.0 / 2)
    }

    /// How wide a step is.
    pub fn cell(self) -> Px {
        self.cell
    }

    /// Whether the row shows a step.
    pub fn shows(self, step: u32) -> bool {
        self.first <= step && step < self.last
    }

    /// Whether what happens before a step is told in the row: at the end of all rows in the last.
    pub fn tells(self, step: u32) -> bool {
        self.shows(step) || (self.first <= step && step == self.last && step == self.end)
    }

    /// Whether a step has its number at the foot.
    pub fn is_numbered(self, step: u32) -> bool {
        match self.cell.0 {
            20 => true,
            8 => step % 5 == 0,
            _ => step % 10 == 0,
        }
    }

    /// Whether a line goes down where a step begins.
    pub fn is_ruled(self, step: u32) -> bool {
        match self.cell.0 {
            4 => step % 10 == 0,
            _ => step % 5 == 0,
        }
    }
}
