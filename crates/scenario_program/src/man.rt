//! The man page. Its sections are the texts of the help, so that the two can't differ.

use crate::arguments::{ABOUT, PROGRAM, VERSION, help_text};
use crate::statuses::{push_refusals, push_statuses};
use std::alloc::{AllocError, Global};

/// The sections that are texts of the help: their titles, and the words that ask for them.
static HELPS: [(&str, &[&str]); 7] = [
    ("DESCRIPTION", &["lock_scenario", "--help"]),
    ("LOCK_SCENARIO RUN", &["lock_scenario", "run", "--help"]),
    (
        "LOCK_SCENARIO ORDERS",
        &["lock_scenario", "orders", "--help"],
    ),
    ("LOCK_SCENARIO SQL", &["lock_scenario", "sql", "--help"]),
    ("LOCK_SCENARIO SHELL", &["lock_scenario", "shell", "--help"]),
    ("LOCK_SCENARIO MODES", &["lock_scenario", "modes", "--help"]),
    (
        "LOCK_SCENARIO HAMMER",
        &["lock_scenario", "hammer", "--help"],
    ),
];

/// How the program is called.
const SYNOPSIS: &str = "\
lock_scenario run [OPTIONS] < SCRIPT
lock_scenario orders [OPTIONS] < SCRIPT
lock_scenario sql [OPTIONS] < MIGRATION
lock_scenario shell [OPTIONS]
lock_scenario modes
lock_scenario hammer --sessions N --rounds K
lock_scenario --man";

/// The man page of the program, as `man` reads it.
pub fn man_page(alloc: Global) -> Result<String, AllocError> {
    let mut page = format!(in alloc;
        ".TH LOCK_SCENARIO 1 \"\" \"{PROGRAM} {VERSION}\" \"User Commands\"\n.SH NAME\n{PROGRAM} \\- "
    )?;
    push_line(&mut page, ABOUT)?;
    push_section(&mut page, "SYNOPSIS", SYNOPSIS)?;
    for (title, words) in &HELPS {
        let text = help_text(alloc, *words)?;
        push_section(&mut page, title, text.as_str())?;
    }
    let mut refusals = String::new(alloc);
    push_refusals(&mut refusals)?;
    push_section(&mut page, "REFUSALS", refusals.as_str())?;
    let mut statuses = String::new(alloc);
    push_statuses(&mut statuses)?;
    push_section(&mut page, "EXIT STATUS", statuses.as_str())?;
    Ok(page)
}

/// Adds to `page` the section `title`, whose lines of `text` stay as they are.
fn push_section(page: &mut String, title: &str, text: &str) -> Result<(), AllocError> {
    write!(page, ".SH {title}\n.nf\n")?;
    for line in text.lines() {
        push_line(page, line)?;
    }
    page.push_str(".fi\n")
}

/// Adds to `page` the line `line`, so that `troff` prints it as it is: what `troff` would read as a request,
/// or print as another character, is escaped.
fn push_line(page: &mut String, line: &str) -> Result<(), AllocError> {
    if line.starts_with('.') {
        page.push_str("\\&")?;
    }
    for character in line.chars() {
        match character {
            '\\' => page.push_str("\\e")?,
            '-' => page.push_str("\\-")?,
            '\'' => page.push_str("\\(aq")?,
            _ => page.push(character)?,
        }
    }
    page.push('\n')
}
