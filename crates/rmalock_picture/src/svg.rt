//! SVG text, element by element.

use std::alloc::{AllocError as OutOfMemory, Global};
use std::fmt;
use std::fmt::Write;
use std::ops::{Add, Mul};

/// A length or a place in pixels. Sums and products stop at the largest number.
#[derive(Clone, Copy, PartialEq, Eq, Debug)]
pub struct Px(pub u32);

impl Px {
    /// The larger of two.
    pub fn max(self, other: Px) -> Px {
        Px(self.0.max(other.0))
    }
}

impl Add for Px {
    type Output = Px;

    fn add(self, other: Px) -> Px {
        Px(self.0.saturating_add(other.0))
    }
}

impl Mul<u32> for Px {
    type Output = Px;

    fn mul(self, times: u32) -> Px {
        Px(self.0.saturating_mul(times))
    }
}

impl fmt::Display for Px {
    fn fmt<W: fmt::Write>(&self, f: &mut fmt::Formatter<W>) -> fmt::Result {
        let pixels = self.0;
        write!(f, "{pixels}")
    }
}

/// A place in the picture.
#[derive(Clone, Copy)]
pub struct Spot {
    pub x: Px,
    pub y: Px,
}

/// A rectangle.
#[derive(Clone, Copy)]
pub struct Area {
    pub x: Px,
    pub y: Px,
    pub width: Px,
    pub height: Px,
}

/// A text in which the characters that SVG keeps for itself are spelled by name.
#[derive(Clone, Copy)]
pub struct Escaped<'a>(pub &'a str);

impl fmt::Display for Escaped<'_> {
    fn fmt<W: fmt::Write>(&self, f: &mut fmt::Formatter<W>) -> fmt::Result {
        for letter in self.0.chars() {
            match letter {
                '&' => f.write_str("&amp;")?,
                '<' => f.write_str("&lt;")?,
                '>' => f.write_str("&gt;")?,
                '"' => f.write_str("&quot;")?,
                '\0'..='\u{1f}' => f.write_str("?")?,
                _ => f.write_char(letter)?,
            }
        }
        Ok(())
    }
}

/// How things look, by class. The colours are told apart by colour-blind readers (those of Okabe and Ito), and by their
/// lightness or their hatch where there is no colour.
const LOOKS: &str = "<style>
text { font-family: sans-serif; font-size: 10px; fill: #111 }
.title { font-size: 14px; font-weight: bold }
.rank { font-size: 12px; font-weight: bold }
.tag { font-size: 9px }
.number { font-size: 8px; fill: #444; text-anchor: middle }
.light { fill: #fff }
.paper { fill: #fff }
.lane { fill: #f4f4f4 }
.grid { stroke: #ddd; stroke-width: 1 }
.tick { stroke: #666; stroke-width: 1 }
.moved { fill: #56b4e9; stroke: #333; stroke-width: 0.5 }
.waiting { fill: url(#dots); stroke: #333; stroke-width: 0.5 }
.lost { fill: url(#slashes); stroke: #333; stroke-width: 0.5 }
.look { fill: url(#backslashes); stroke: #333; stroke-width: 0.5 }
.busy { fill: url(#bars); stroke: #333; stroke-width: 0.5 }
.finished { fill: #fff; stroke: #333; stroke-width: 0.5; stroke-dasharray: 2 2 }
.asking { fill: url(#strokes); stroke: #555; stroke-width: 0.5 }
.writing { fill: #222; stroke: #222; stroke-width: 0.5 }
.reading { fill: #009e73; stroke: #222; stroke-width: 0.5 }
.leaving { fill: #c8c8c8; stroke: #555; stroke-width: 0.5 }
.looking { fill: #dcecdf; stroke: #555; stroke-width: 0.5 }
.refused { fill: url(#crosses); stroke: #555; stroke-width: 0.5 }
.answered { fill: #c9ecd9; stroke: #555; stroke-width: 0.5 }
.serving { fill: #d9c9ee; stroke: #555; stroke-width: 0.5 }
.stopped { fill: #aaa; stroke: #222; stroke-width: 0.5 }
.card { fill: url(#posts); stroke: #222; stroke-width: 0.5 }
</style>
<defs>
<pattern id=\"dots\" width=\"5\" height=\"5\" patternUnits=\"userSpaceOnUse\"><rect width=\"5\" height=\"5\" fill=\"#f0e442\"/><circle cx=\"2.5\" cy=\"2.5\" r=\"1.1\" fill=\"#222\"/></pattern>
<pattern id=\"slashes\" width=\"5\" height=\"5\" patternUnits=\"userSpaceOnUse\"><rect width=\"5\" height=\"5\" fill=\"#d55e00\"/><path d=\"M-1 1L1 -1M0 5L5 0M4 6L6 4\" stroke=\"#fff\" stroke-width=\"1.4\"/></pattern>
<pattern id=\"backslashes\" width=\"5\" height=\"5\" patternUnits=\"userSpaceOnUse\"><rect width=\"5\" height=\"5\" fill=\"#f3b183\"/><path d=\"M-1 4L1 6M0 0L5 5M4 -1L6 1\" stroke=\"#222\" stroke-width=\"1\"/></pattern>
<pattern id=\"crosses\" width=\"6\" height=\"6\" patternUnits=\"userSpaceOnUse\"><rect width=\"6\" height=\"6\" fill=\"#fff\"/><path d=\"M0 0L6 6M6 0L0 6\" stroke=\"#e9b08a\" stroke-width=\"1\"/></pattern>
<pattern id=\"bars\" width=\"4\" height=\"4\" patternUnits=\"userSpaceOnUse\"><rect width=\"4\" height=\"4\" fill=\"#cc79a7\"/><path d=\"M0 2H4\" stroke=\"#222\" stroke-width=\"1.4\"/></pattern>
<pattern id=\"strokes\" width=\"6\" height=\"6\" patternUnits=\"userSpaceOnUse\"><rect width=\"6\" height=\"6\" fill=\"#fff\"/><path d=\"M-1 5L1 7M0 0L6 6M5 -1L7 1\" stroke=\"#bbb\" stroke-width=\"1\"/></pattern>
<pattern id=\"posts\" width=\"4\" height=\"4\" patternUnits=\"userSpaceOnUse\"><rect width=\"4\" height=\"4\" fill=\"#e69f00\"/><path d=\"M2 0V4\" stroke=\"#fbdc9a\" stroke-width=\"1\"/></pattern>
</defs>
";

/// A picture that is being written, one element after the other.
#[derive(Drop)]
pub struct Svg {
    text: String,
}

impl Svg {
    /// An empty sheet of this size.
    pub fn new(alloc: Global, width: Px, height: Px) -> Result<Svg, OutOfMemory> {
        let mut text = String::new(alloc);
        writeln!(
            text,
            "<svg xmlns=\"http://www.w3.org/2000/svg\" width=\"{width}\" height=\"{height}\" viewBox=\"0 0 {width} {height}\">"
        )?;
        text.push_str(LOOKS)?;
        let mut svg = Svg { text };
        let sheet = Area {
            x: Px(0),
            y: Px(0),
            width,
            height,
        };
        svg.area(sheet, "paper")?;
        Ok(svg)
    }

    /// A rectangle.
    pub fn area(&mut self, area: Area, class: &str) -> Result<(), OutOfMemory> {
        let Area {
            x,
            y,
            width,
            height,
        } = area;
        writeln!(
            self.text,
            "<rect class=\"{class}\" x=\"{x}\" y=\"{y}\" width=\"{width}\" height=\"{height}\"/>"
        )
    }

    /// A rectangle with a text that a browser shows under the pointer.
    pub fn area_that_tells(
        &mut self,
        area: Area,
        class: &str,
        told: &str,
    ) -> Result<(), OutOfMemory> {
        let Area {
            x,
            y,
            width,
            height,
        } = area;
        let told = Escaped(told);
        writeln!(
            self.text,
            "<rect class=\"{class}\" x=\"{x}\" y=\"{y}\" width=\"{width}\" height=\"{height}\"><title>{told}</title></rect>"
        )
    }

    /// A line of text that begins at a place, or has its middle there if its class says so.
    pub fn words(&mut self, spot: Spot, class: &str, words: &str) -> Result<(), OutOfMemory> {
        let Spot { x, y } = spot;
        let words = Escaped(words);
        writeln!(
            self.text,
            "<text class=\"{class}\" x=\"{x}\" y=\"{y}\">{words}</text>"
        )
    }

    /// A straight line down from a place.
    pub fn line_down(&mut self, spot: Spot, to: Px, class: &str) -> Result<(), OutOfMemory> {
        let Spot { x, y } = spot;
        writeln!(self.text, "<path class=\"{class}\" d=\"M{x} {y}V{to}\"/>")
    }

    /// The whole picture as bytes.
    pub fn finish(self) -> Result<Vec<u8>, OutOfMemory> {
        let Svg { mut text } = self;
        text.push_str("</svg>\n")?;
        Ok(text.into_bytes())
    }
}
