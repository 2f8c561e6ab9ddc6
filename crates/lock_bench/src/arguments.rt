//! The words of the command line.

use clap::{Arg, ArgAction, ArgMatches, Command, Error, value_parser};
use std::alloc::{AllocError, Global};

/// The names of the pages, as the command line has them.
static PAGES: [&str; 3] = ["workloads", "threads", "sessions"];

/// The words of the workloads, each of which can be made alone.
static WORKLOADS: [&str; 10] = [
    "weak",
    "ten",
    "strong",
    "strong-of-8",
    "object",
    "object-crowded",
    "held",
    "refused-relation",
    "refused-object",
    "refused-object-crowded",
];

/// How many steps of a workload there are at most where it is made alone.
const MOST_STEPS: u32 = 1_000_000_000;

/// The list of the pages that `--help` shows.
const EACH_PAGE: &str = "Pages, all of which are printed where none is named:
  workloads  what one thread does, each row beside its atomic steps and the same work on
             a map in a mutex; and the local table of a session beside a map
  threads    up to 64 threads on one object, on one partition, and at listings, and the
             same under a mutex; and a lock that two threads pass back and forth
  sessions   managers of 8, 64, 256 and 1024 sessions: their memory, what it takes to
             make one, and what is done with them; and 1024 threads at one of them

A file of figures is opened before anything is timed, and keeps what it had until
there are new ones. Its figures are those of the workloads, which are timed for it
where another page is named.

Example:
  lock_bench workloads --csv workloads.csv";

/// A page of figures that the program prints.
#[derive(Clone, Copy)]
pub enum Page {
    Workloads,
    Threads,
    Sessions,
}

impl Page {
    /// The word that names the page on the command line.
    fn name(self) -> &'static str {
        match self {
            Page::Workloads => "workloads",
            Page::Threads => "threads",
            Page::Sessions => "sessions",
        }
    }
}

/// What the words after the program's name ask for.
#[derive(Clone, Copy)]
pub struct Wanted<'a> {
    /// Whether only a small fixed run is made, whose output has no times.
    pub check: bool,
    /// The name of the only page that is asked for, if a page is named.
    page: Option<&'a str>,
    /// The file that the figures of the workloads are written to, if it is named.
    pub csv: Option<&'a str>,
    /// The file with the instructions of each workload.
    pub counts: Option<&'a str>,
    /// The workload that is made alone in place of all pages.
    pub alone: Option<Alone<'a>>,
}

/// A workload that is made alone, without timing it.
#[derive(Clone, Copy)]
pub struct Alone<'a> {
    /// The word that names the workload.
    pub workload: &'a str,
    pub steps: u32,
}

impl Wanted<'_> {
    /// Whether `page` is printed: no page is named, or `page` is. The page of the workloads is printed too
    /// where a file is to have its figures, or has its instructions.
    pub fn has(&self, page: Page) -> bool {
        let Some(name) = self.page else {
            return true;
        };
        let is_for_file = match page {
            Page::Workloads => self.csv.is_some() || self.counts.is_some(),
            _ => false,
        };
        is_for_file || name == page.name()
    }
}

/// What `words`, those of the command line, ask for. Refused words and a call for help are an error.
pub fn parse<'a>(alloc: Global, words: &'a [String]) -> Result<Wanted<'a>, Error> {
    let matches = command(alloc)?.try_get_matches_from(words)?;
    Ok(Wanted {
        check: matches.get_flag("check"),
        page: matches.get_str("page"),
        csv: matches.get_str("csv"),
        counts: matches.get_str("counts"),
        alone: alone_of(&matches),
    })
}

/// The workload that `matches` names with its steps, if they name one.
fn alone_of<'a>(matches: &ArgMatches<'a>) -> Option<Alone<'a>> {
    let workload = matches.get_str("workload")?;
    let steps = matches.get_one::<u32>("steps")?;
    Some(Alone { workload, steps })
}

/// The words that there can be on the command line, in lists that grow by `alloc`.
fn command<'a>(alloc: Global) -> Result<Command<'a>, AllocError> {
    let page = Arg::new(alloc, "page")
        .value_name("PAGE")
        .value_parser(PAGES.as_slice())
        .help("The page that is printed; all if left out");
    let check = Arg::new(alloc, "check")
        .long("check")
        .action(ArgAction::SetTrue)
        .help("A small fixed run, with no times in its output");
    let command = Command::new(alloc, "lock_bench")
        .about("Times the parts of the lock manager")
        .after_help(EACH_PAGE)
        .arg(page)?
        .arg(check)?;
    with_workload(alloc, with_files(alloc, command)?)
}

/// The `command` with the words for a workload that is made alone.
fn with_workload<'a>(alloc: Global, command: Command<'a>) -> Result<Command<'a>, AllocError> {
    let workload = Arg::new(alloc, "workload")
        .long("workload")
        .value_name("NAME")
        .help("Make the steps of this workload alone, and time nothing: what they leave is told")
        .value_parser(WORKLOADS.as_slice())
        .requires_arg("steps")?
        .conflicts_with("page")?
        .conflicts_with("check")?
        .conflicts_with("csv")?
        .conflicts_with("counts")?;
    let steps = Arg::new(alloc, "steps")
        .long("steps")
        .value_name("N")
        .help("How many steps of the workload, 1 to 1000000000")
        .value_parser(value_parser!(u32).range(1..=i64::from(MOST_STEPS)))
        .requires_arg("workload")?;
    command.arg(workload)?.arg(steps)
}

/// The `command` with the words for files of figures and of instructions. A small fixed run has none.
fn with_files<'a>(alloc: Global, command: Command<'a>) -> Result<Command<'a>, AllocError> {
    let csv = Arg::new(alloc, "csv")
        .long("csv")
        .value_name("FILE")
        .help(
            "Also write the figures of the workloads to this file, as values with commas between them",
        )
        .conflicts_with("check")?;
    let counts = Arg::new(alloc, "counts")
        .long("counts")
        .value_name("FILE")
        .help(
            "Also print the instructions that this file has of each workload, as .ci/instructions.counts",
        )
        .conflicts_with("check")?;
    command.arg(csv)?.arg(counts)
}
