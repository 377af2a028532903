//! The picture of what was seen of a replay.
use crate::labels::{Labels, Word, labels_of, width_of};
use crate::lanes::{Band, Cell, Doing, Lane};
use crate::legend::{draw_legend, height_of_legend};
use crate::scale::{LEFT, Scale, rows_of};
use crate::svg::{Area, Px, Spot, Svg};
use rl_place::{Path, path_text};
use rl_report::Naming;
use rl_step::Stepped;
use rl_viewer::Window;
use rl_word::LockName;
use std::alloc::{AllocError as OutOfMemory, Global};

/// What is drawn: the lanes of the ranks, with the steps of the window, and what the placement says of ranks and shards.
#[derive(Clone, Copy)]
pub struct Scene<'a> {
    pub lock: LockName,
    pub naming: &'a Naming,
    /// The path of each rank's node.
    pub paths: &'a [Path],
    /// The number of each rank's node.
    pub nodes: &'a [u32],
    /// The number of each shard's home.
    pub homes: &'a [u32],
    pub lanes: &'a [Lane],
    pub window: Window,
    /// How many steps the schedule has.
    pub steps: u32,
}

/// What is left free behind the lanes, and behind a label that stands out of them.
const BEHIND: Px = Px(60);

const BEHIND_LABEL: Px = Px(10);

/// The least width of the picture, which the legend needs.
const LEAST: Px = Px(790);

/// The heights of the parts: the title, a row of labels, what is free below them, the bands and the cells of a lane, the gap below it, and the step
/// numbers with the gap below them.
const TITLE: Px = Px(46);

const LABEL: Px = Px(11);

const PAD: Px = Px(4);

const BAND: Px = Px(14);

const CARD: Px = Px(12);

const CELL: Px = Px(18);

const GAP: Px = Px(12);

const FOOT: Px = Px(22);

/// A row of the picture: the steps that it shows, the labels of each lane in them, and where it begins.
#[derive(Drop)]
struct Row {
    scale: Scale,
    labels: Vec<Labels>,
    top: Px,
}

/// How a cell looks.
fn look_of_cell(cell: &Cell) -> &'static str {
    match cell.answer {
        Stepped::Moved => "moved",
        Stepped::Waiting { .. } => "waiting",
        Stepped::Lost { .. } if cell.lost_look => "look",
        Stepped::Lost { .. } => "lost",
        Stepped::Busy { .. } => "busy",
        Stepped::Finished => "finished",
    }
}

/// How a band looks.
fn look_of_band(doing: Doing) -> &'static str {
    match doing {
        Doing::Asking => "asking",
        Doing::Writing => "writing",
        Doing::Reading => "reading",
        Doing::Leaving => "leaving",
        Doing::Looking => "looking",
        Doing::Refused => "refused",
        Doing::Answered => "answered",
        Doing::InCard { .. } => "card",
        Doing::Serving { .. } => "serving",
        Doing::Stopped => "stopped",
    }
}

/// Whether what is written on a band has to be light.
fn is_dark(doing: Doing) -> bool {
    matches!(doing, Doing::Writing | Doing::Reading)
}

/// Whether a band tells how a rank stands to a shard.
fn is_of_shard(doing: Doing) -> bool {
    !matches!(
        doing,
        Doing::InCard { .. } | Doing::Serving { .. } | Doing::Stopped
    )
}

/// What is written on a band; the shard's number too where there are several.
fn band_text(alloc: Global, scene: &Scene<'_>, band: Band) -> Result<String, OutOfMemory> {
    let Band { doing, shard, .. } = band;
    let naming = scene.naming;
    if naming.shards > 1 && is_of_shard(doing) {
        format!(in alloc; "{doing}, shard {shard}")
    } else {
        format!(in alloc; "{doing}")
    }
}

/// Where the part of a band is that a row shows.
fn area_of(scale: Scale, band: Band, y: Px, height: Px) -> Option<Area> {
    let from = band.from.max(scale.first);
    let to = band.to.min(scale.last);
    if from >= to {
        return None;
    }
    Some(Area {
        x: scale.x(from),
        y,
        width: scale.cell() * to.saturating_sub(from),
        height,
    })
}

/// Draws a band in its area, with its text where there is room for it.
fn draw_band(svg: &mut Svg, area: Area, doing: Doing, text: &str) -> Result<(), OutOfMemory> {
    svg.area_that_tells(area, look_of_band(doing), text)?;
    if width_of(text).0 > area.width.0 {
        return Ok(());
    }
    let class = if is_dark(doing) { "light" } else { "plain" };
    let spot = Spot {
        x: area.x + Px(3),
        y: area.y + Px(10),
    };
    svg.words(spot, class, text)
}

/// Draws bands from this height on, as far as the row shows them.
fn draw_bands(
    alloc: Global,
    svg: &mut Svg,
    scene: &Scene<'_>,
    scale: Scale,
    bands: &[Band],
    y: Px,
    height: Px,
) -> Result<(), OutOfMemory> {
    for band in bands {
        if let Some(area) = area_of(scale, *band, y, height) {
            let text = band_text(alloc, scene, *band)?;
            draw_band(svg, area, band.doing, text.as_str())?;
        }
    }
    Ok(())
}

/// Draws the steps of a lane.
fn draw_cells(
    alloc: Global,
    svg: &mut Svg,
    scale: Scale,
    cells: &[Cell],
    y: Px,
) -> Result<(), OutOfMemory> {
    for cell in cells {
        if !scale.shows(cell.step) {
            continue;
        }
        let area = Area {
            x: scale.x(cell.step),
            y,
            width: scale.cell(),
            height: CELL,
        };
        let told = format!(in alloc; "{cell}")?;
        svg.area_that_tells(area, look_of_cell(cell), told.as_str())?;
    }
    Ok(())
}

/// Draws the labels of a lane that begins at `top`, each with a line down to its bands.
fn draw_labels(
    svg: &mut Svg,
    scale: Scale,
    labels: &Labels,
    top: Px,
    bands: Px,
) -> Result<(), OutOfMemory> {
    for label in &labels.labels {
        let x = scale.x(label.step) + Px(1);
        let above = labels.rows.saturating_sub(label.row);
        let y = top + LABEL * above;
        svg.line_down(Spot { x, y }, bands, "tick")?;
        let spot = Spot { x: x + Px(2), y };
        svg.words(spot, "tag", label.text.as_str())?;
    }
    Ok(())
}

/// How high the band is that tells whose calls a rank does: only flat combining has one.
fn height_of_service(lock: LockName) -> Px {
    if matches!(lock, LockName::Combine) {
        CARD
    } else {
        Px(0)
    }
}

/// How high a lane is, with its labels.
fn height_of(lock: LockName, labels: &Labels) -> Px {
    LABEL * labels.rows + PAD + BAND + height_of_service(lock) + CARD + CELL
}

/// Writes which rank a lane is of, and where it sits.
fn draw_name(
    alloc: Global,
    svg: &mut Svg,
    scene: &Scene<'_>,
    rank: usize,
    y: Px,
) -> Result<(), OutOfMemory> {
    let name = format!(in alloc; "rank {rank}")?;
    svg.words(Spot { x: Px(10), y }, "rank", name.as_str())?;
    if let (Some(path), Some(node)) = (scene.paths.get(rank), scene.nodes.get(rank)) {
        let mut word = Vec::new(alloc);
        path_text(*path, &mut word)?;
        let at = Word(word.as_slice());
        let seat = format!(in alloc; "at {at} (node {node})")?;
        let spot = Spot {
            x: Px(10),
            y: y + Px(13),
        };
        svg.words(spot, "plain", seat.as_str())?;
    }
    Ok(())
}

/// Draws a lane whose bands begin at this height.
fn draw_lane(
    alloc: Global,
    svg: &mut Svg,
    scene: &Scene<'_>,
    scale: Scale,
    lane: &Lane,
    bands: Px,
) -> Result<(), OutOfMemory> {
    let service = bands + BAND;
    let card = service + height_of_service(scene.lock);
    let cells = card + CARD;
    let rows = [
        (&lane.standing, bands, BAND),
        (&lane.service, service, CARD),
        (&lane.card, card, CARD),
        (&lane.stop, cells, CELL),
    ];
    for (row, y, height) in rows {
        draw_bands(alloc, svg, scene, scale, row.as_slice(), y, height)?;
    }
    draw_cells(alloc, svg, scale, lane.cells.as_slice(), cells)
}

/// Draws what lies behind the lanes: a ground for each, and lines down at some steps.
fn draw_ground(svg: &mut Svg, scene: &Scene<'_>, row: &Row, bottom: Px) -> Result<(), OutOfMemory> {
    let scale = row.scale;
    let mut top = row.top;
    for lane in &row.labels {
        let height = height_of(scene.lock, lane);
        let area = Area {
            x: LEFT,
            y: top,
            width: scale.cell() * scale.last.saturating_sub(scale.first),
            height,
        };
        svg.area(area, "lane")?;
        top = top + height + GAP;
    }
    for step in scale.first..scale.last {
        if scale.is_ruled(step) {
            let x = scale.x(step);
            svg.line_down(Spot { x, y: row.top }, bottom, "grid")?;
        }
    }
    Ok(())
}

/// Writes the numbers of the steps along the foot.
fn draw_numbers(alloc: Global, svg: &mut Svg, scale: Scale, y: Px) -> Result<(), OutOfMemory> {
    svg.words(Spot { x: Px(10), y }, "plain", "step")?;
    for step in scale.first..scale.last {
        if scale.is_numbered(step) {
            let number = format!(in alloc; "{step}")?;
            let x = scale.middle(step);
            svg.words(Spot { x, y }, "number", number.as_str())?;
        }
    }
    Ok(())
}

/// Which of how many steps are shown.
fn steps_shown(alloc: Global, scene: &Scene<'_>) -> Result<String, OutOfMemory> {
    let Scene { window, steps, .. } = *scene;
    let first = window.from;
    let last = window.to.min(steps);
    if first < last {
        let last = last.saturating_sub(1);
        format!(in alloc; "steps {first} to {last} of {steps}")
    } else if steps == 0 {
        String::from_str(alloc, "the schedule has no steps")
    } else {
        format!(in alloc; "no step is shown: from {first} on there is none, of {steps}")
    }
}

/// Writes the title: the lock, how many ranks and shards there are, which steps are shown, and where the shards live.
fn draw_title(alloc: Global, svg: &mut Svg, scene: &Scene<'_>) -> Result<(), OutOfMemory> {
    let naming = scene.naming;
    let lock = naming.lock;
    let ranks = naming.ranks;
    let shards = naming.shards;
    let shown = steps_shown(alloc, scene)?;
    let title = format!(in alloc; "{lock}: ranks {ranks}, shards {shards}; {shown}")?;
    let spot = Spot {
        x: Px(10),
        y: Px(20),
    };
    svg.words(spot, "title", title.as_str())?;
    let mut homes = String::from_str(alloc, "words live on:")?;
    for (shard, home) in scene.homes.iter().enumerate() {
        let comma = if shard == 0 { "" } else { "," };
        let home = format!(in alloc; "{comma} shard {shard} on node {home}")?;
        homes.push_str(home.as_str())?;
    }
    let spot = Spot {
        x: Px(10),
        y: Px(36),
    };
    svg.words(spot, "plain", homes.as_str())
}

/// The labels of all lanes in a row.
fn all_labels(alloc: Global, scene: &Scene<'_>, scale: Scale) -> Result<Vec<Labels>, OutOfMemory> {
    let mut all = Vec::new(alloc);
    for lane in scene.lanes {
        all.push(labels_of(alloc, scene.naming, scale, lane.marks.as_slice())?)?;
    }
    Ok(all)
}

/// The rows of the picture, one below the other.
fn all_rows(alloc: Global, scene: &Scene<'_>) -> Result<Vec<Row>, OutOfMemory> {
    let mut rows = Vec::new(alloc);
    let mut top = TITLE;
    for scale in rows_of(alloc, scene.window, scene.steps)? {
        let labels = all_labels(alloc, scene, scale)?;
        let row = Row { scale, labels, top };
        top = bottom_of(scene.lock, &row) + FOOT;
        rows.push(row)?;
    }
    Ok(rows)
}

/// Where the lanes of a row end.
fn bottom_of(lock: LockName, row: &Row) -> Px {
    let mut bottom = row.top;
    for lane in &row.labels {
        bottom = bottom + height_of(lock, lane) + GAP;
    }
    bottom
}

/// How wide the picture has to be for a row.
fn width_of_row(row: &Row) -> Px {
    let mut width = row.scale.x(row.scale.last) + BEHIND;
    for lane in &row.labels {
        width = width.max(lane.right + BEHIND_LABEL);
    }
    width
}

/// Draws the lanes of a row one below the other.
fn draw_lanes(
    alloc: Global,
    svg: &mut Svg,
    scene: &Scene<'_>,
    row: &Row,
) -> Result<(), OutOfMemory> {
    let mut top = row.top;
    for (rank, lane) in scene.lanes.iter().enumerate() {
        if let Some(labels) = row.labels.get(rank) {
            let bands = top + LABEL * labels.rows + PAD;
            draw_name(alloc, svg, scene, rank, bands + BAND)?;
            draw_lane(alloc, svg, scene, row.scale, lane, bands)?;
            draw_labels(svg, row.scale, labels, top, bands)?;
            top = top + height_of(scene.lock, labels) + GAP;
        }
    }
    Ok(())
}

/// Draws a row.
fn draw_row(alloc: Global, svg: &mut Svg, scene: &Scene<'_>, row: &Row) -> Result<(), OutOfMemory> {
    let bottom = bottom_of(scene.lock, row);
    draw_ground(svg, scene, row, bottom)?;
    draw_lanes(alloc, svg, scene, row)?;
    draw_numbers(alloc, svg, row.scale, bottom + Px(6))
}

/// The picture of a scene. Refused only for want of memory.
pub fn draw(alloc: Global, scene: &Scene<'_>) -> Result<Vec<u8>, OutOfMemory> {
    let rows = all_rows(alloc, scene)?;
    let mut width = LEAST;
    let mut bottom = TITLE;
    for row in &rows {
        width = width.max(width_of_row(row));
        bottom = bottom_of(scene.lock, row) + FOOT;
    }
    let mut svg = Svg::new(alloc, width, bottom + height_of_legend(scene.lock))?;
    draw_title(alloc, &mut svg, scene)?;
    for row in &rows {
        draw_row(alloc, &mut svg, scene, row)?;
    }
    draw_legend(&mut svg, scene.lock, bottom)?;
    svg.finish()
}
