//! How a run shows what its script does.

use std::alloc::Global;
use std::str::FromStr;

/// The names of the languages of pictures, as the command line has them.
pub static DRAWINGS: [&str; 4] = ["mermaid", "dot", "timeline", "gantt"];

/// The language of a picture.
#[derive(Clone, Copy, Debug, PartialEq, Eq)]
pub enum Drawing {
    /// The language of Mermaid, which GitHub draws.
    Mermaid,
    /// The language of Graphviz, `dot`.
    Dot,
    /// SVG: what each session held and awaited, from line to line.
    Timeline,
    /// Mermaid's chart of what each session held and awaited, from line to line.
    Gantt,
}

impl Drawing {
    /// Whether one picture shows the whole script, at its end.
    pub fn is_of_all_lines(self) -> bool {
        matches!(self, Drawing::Timeline | Drawing::Gantt)
    }

    /// The name of the language, as the command line has it.
    pub fn name(self) -> &'static str {
        match self {
            Drawing::Mermaid => "mermaid",
            Drawing::Dot => "dot",
            Drawing::Timeline => "timeline",
            Drawing::Gantt => "gantt",
        }
    }
}

/// Text that names no language of pictures.
#[derive(Clone, Copy, Debug, PartialEq, Eq, Drop)]
pub struct NoDrawing;

impl FromStr for Drawing {
    type Err = NoDrawing;

    fn from_str(text: &str) -> Result<Self, NoDrawing> {
        match text {
            "mermaid" => Ok(Drawing::Mermaid),
            "dot" => Ok(Drawing::Dot),
            "timeline" => Ok(Drawing::Timeline),
            "gantt" => Ok(Drawing::Gantt),
            _ => Err(NoDrawing),
        }
    }
}

/// What a run shows beside the answers of its script, and how it writes them.
#[derive(Clone, Copy, Debug, PartialEq, Eq)]
pub struct Style {
    /// Whether a run prints each line of its script, before the line's answers.
    pub echo: bool,
    /// Whether a run prints an object of JSON for each line that it prints, instead of the line's text.
    pub json: bool,
    /// The language in which a run draws, if it draws: a picture of who waits for whom after the rows of each
    /// `list`, or one of the whole script in place of the answers.
    pub graph: Option<Drawing>,
}

impl Style {
    /// The style of a run that shows the answers alone, as text.
    pub const PLAIN: Style = Style {
        echo: false,
        json: false,
        graph: None,
    };
}

/// In which form a line is printed.
#[derive(Clone, Copy)]
pub enum Form {
    /// The line is printed as text.
    Text,
    /// The line is printed as an object of JSON, with this memory for it.
    Json(Global),
}

/// What draws pictures: the language, and the memory for them.
#[derive(Clone, Copy)]
pub struct Pen {
    pub drawing: Drawing,
    pub alloc: Global,
}
