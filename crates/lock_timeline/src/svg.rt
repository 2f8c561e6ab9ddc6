//! A timeline as SVG.

use crate::bars::{Arrow, Bar, Span, Way};
use crate::timeline::Timeline;
use modes_core::{Mode, is_strong};
use std::alloc::AllocError;
use std::fmt::Write;

/// How wide the column with the sessions' names is.
const LEFT: u32 = 130;

/// How high the line with the numbers of the script's lines is.
const TOP: u32 = 34;

/// How far a step is from the next one.
const STEP: u32 = 40;

/// How far a row is from the next one.
const ROW: u32 = 18;

/// How far a lane is from the next one, beside its rows.
const GAP: u32 = 12;

/// How wide a picture is at least, so that the text below the lanes has room.
const NARROWEST: u32 = 740;

/// How high the text below the lanes is.
const BOTTOM: u32 = 40;

/// The part of a picture that comes before the lanes: how lines, bars and arrows look.
const STYLE: &str = r##"<style>
text { font: 10.5px ui-monospace, 'DejaVu Sans Mono', monospace; fill: #222 }
.name { font-weight: bold; font-size: 12px }
.line { stroke: #e4e4e4 }
.lane { stroke: #bbbbbb }
.number { fill: #777; text-anchor: middle }
.weak { fill: #d8e6f7; stroke: #7f9fc6 }
.strong { fill: #a9c3e8; stroke: #44699c }
.wait { fill: #fbe3e0; stroke: #c0392b; stroke-dasharray: 4 2 }
.holds { stroke: #c0392b; stroke-width: 1.6 }
.before { stroke: #c0392b; stroke-width: 1.6; stroke-dasharray: 3 3 }
</style>
<defs><marker id="head" viewBox="0 0 8 8" refX="7" refY="4" markerWidth="7" markerHeight="7" orient="auto"><path d="M0 0 8 4 0 8z" fill="#c0392b"/></marker></defs>
"##;

/// How far from the left the step `step` is.
fn x_of(step: u32) -> u32 {
    step.saturating_mul(STEP).saturating_add(LEFT)
}

impl Timeline {
    /// Draws the timeline as SVG: a lane for each session, a line for each step with the number of the
    /// script's line, a bar for each lock, which is red and dashed while it is awaited, and an arrow from
    /// each wait to the locks in its way. Refused only where memory ran out.
    pub fn svg(&self) -> Result<String, AllocError> {
        let mut text = String::new(self.alloc);
        let width = self.width();
        let bottom = self.top_of(u32::MAX);
        let height = bottom.saturating_add(BOTTOM);
        writeln!(
            text,
            "<svg xmlns=\"http://www.w3.org/2000/svg\" width=\"{width}\" height=\"{height}\">"
        )?;
        text.push_str(STYLE)?;
        writeln!(
            text,
            "<rect width=\"{width}\" height=\"{height}\" fill=\"white\"/>"
        )?;
        self.write_steps(bottom, &mut text)?;
        self.write_lanes(width, &mut text)?;
        for bar in &self.bars {
            self.write_bar(bar, &mut text)?;
        }
        for arrow in &self.arrows {
            self.write_arrow(arrow, &mut text)?;
        }
        self.write_below(width, bottom, &mut text)?;
        writeln!(text, "</svg>")?;
        Ok(text)
    }

    /// How wide the picture is: as far as the last step and each label reach.
    fn width(&self) -> u32 {
        let mut last = self.last_step();
        for bar in &self.bars {
            last = last.max(bar.label_end());
        }
        x_of(last).saturating_add(GAP).max(NARROWEST)
    }

    /// The step after all steps of the timeline, up to which the bars reach that have not ended.
    pub(crate) fn last_step(&self) -> u32 {
        u32::try_from(self.steps.len()).unwrap_or(u32::MAX)
    }

    /// How far from the top the lane numbered `number` begins; where there is no such lane, the end of all
    /// lanes.
    fn top_of(&self, number: u32) -> u32 {
        let mut top = TOP;
        let mut before = number;
        for lane in &self.lanes {
            if before == 0 {
                return top;
            }
            let rows = lane.rows().saturating_mul(ROW).saturating_add(GAP);
            top = top.saturating_add(rows);
            before -= 1;
        }
        top
    }

    /// How far from the top `bar` begins.
    fn y_of(&self, bar: &Bar) -> u32 {
        let rows = bar.row.saturating_mul(ROW).saturating_add(GAP / 2);
        self.top_of(bar.lane).saturating_add(rows)
    }

    /// Writes to `text` a line for each step, down to `bottom`, with the number of the script's line.
    fn write_steps(&self, bottom: u32, text: &mut String) -> Result<(), AllocError> {
        let mut step = 0_u32;
        for line in &self.steps {
            let x = x_of(step);
            writeln!(
                text,
                "<path class=\"line\" d=\"M{x} {TOP}V{bottom}\"/><text class=\"number\" x=\"{x}\" y=\"24\">{line}</text>"
            )?;
            step = step.saturating_add(1);
        }
        Ok(())
    }

    /// Writes to `text` a line above each lane, as wide as the picture, by `width`, with the name of the
    /// lane's session.
    fn write_lanes(&self, width: u32, text: &mut String) -> Result<(), AllocError> {
        let mut number = 0_u32;
        for lane in &self.lanes {
            let top = self.top_of(number);
            let y = top.saturating_add(GAP).saturating_add(6);
            let name = lane.name.as_str();
            writeln!(
                text,
                "<path class=\"lane\" d=\"M0 {top}H{width}\"/><text class=\"name\" x=\"8\" y=\"{y}\">{name}</text>"
            )?;
            number = number.saturating_add(1);
        }
        Ok(())
    }

    /// Writes `bar` to `text`: its wait in red, and then the time for which it was held.
    fn write_bar(&self, bar: &Bar, text: &mut String) -> Result<(), AllocError> {
        let y = self.y_of(bar);
        let label = bar.label.as_str();
        let wait = bar.wait(self.last_step());
        if !wait.is_empty() {
            write_rect(text, "wait", label, wait, y)?;
        }
        if let Some(hold) = bar.hold(self.last_step()) {
            let kind = if is_strong(bar.tag, bar.mode)
                || bar.mode.number() > Mode::ShareUpdateExclusive.number()
            {
                "strong"
            } else {
                "weak"
            };
            write_rect(text, kind, label, hold, y)?;
        }
        let (x, base) = (x_of(bar.asked).saturating_add(4), y.saturating_add(11));
        writeln!(text, "<text x=\"{x}\" y=\"{base}\">{label}</text>")
    }

    /// Writes `arrow` to `text`: down or up from the beginning of a wait to the bar that is in the way.
    fn write_arrow(&self, arrow: &Arrow, text: &mut String) -> Result<(), AllocError> {
        let (Some(from), Some(to)) = (
            self.bars.get(arrow.from as usize),
            self.bars.get(arrow.to as usize),
        ) else {
            return Ok(());
        };
        let class = match arrow.way {
            Way::Holds => "holds",
            Way::StandsBefore => "before",
        };
        let x = x_of(from.asked);
        let half = ROW / 2;
        let (start, end) = (
            self.y_of(from).saturating_add(half),
            self.y_of(to).saturating_add(half),
        );
        writeln!(
            text,
            "<path class=\"{class}\" d=\"M{x} {start}V{end}\" marker-end=\"url(#head)\"/>"
        )
    }

    /// Writes to `text`, in a picture `width` wide and below `bottom`, what the colours and arrows mean, and
    /// from which line on the script is left out.
    fn write_below(&self, width: u32, bottom: u32, text: &mut String) -> Result<(), AllocError> {
        let y = bottom.saturating_add(24);
        writeln!(
            text,
            "<path class=\"lane\" d=\"M0 {bottom}H{width}\"/><text x=\"8\" y=\"{y}\">red: waits, with an arrow to what is in its way: solid to a lock that is held, dashed to one awaited before</text>"
        )?;
        if let Some(line) = self.left_out {
            let y = y.saturating_add(14);
            writeln!(
                text,
                "<text x=\"8\" y=\"{y}\">left out: line {line} and those behind it</text>"
            )?;
        }
        Ok(())
    }
}

/// Writes to `text` a rectangle, the part of a bar of the steps `span`, whose top is `y`. `class` says how it
/// looks, and `label` is shown where the pointer is on it.
fn write_rect(
    text: &mut String,
    class: &str,
    label: &str,
    span: Span,
    y: u32,
) -> Result<(), AllocError> {
    let from = x_of(span.from);
    let width = x_of(span.to).saturating_sub(from).max(3);
    let height = ROW - 3;
    writeln!(
        text,
        "<rect class=\"{class}\" x=\"{from}\" y=\"{y}\" width=\"{width}\" height=\"{height}\" rx=\"2\"><title>{label}</title></rect>"
    )
}
