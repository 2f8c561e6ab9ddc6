//! What is answered to `help` in a shell.

use crate::forms::{push_forms, push_script_lines, push_shell_lines};
use crate::mode_help::{push_mode, push_modes};
use crate::statements::push_statements;
use std::alloc::{AllocError, Global};

/// What a shell answers to `help` with `words` after it.
pub fn help(alloc: Global, words: &[&str]) -> Result<String, AllocError> {
    let mut text = String::new(alloc);
    if words.is_empty() {
        push_all(&mut text)?;
        return Ok(text);
    }
    let topic = topic_of(alloc, words)?;
    push_forms(&mut text, topic.as_str())?;
    push_modes_of(&mut text, topic.as_str())?;
    push_statements(&mut text, topic.as_str())?;
    if text.len() == 0 {
        write!(text, "no help on {:?}; help lists the commands\n", topic)?;
    }
    Ok(text)
}

/// The words `words`, with a blank between two of them.
pub fn topic_of(alloc: Global, words: &[&str]) -> Result<String, AllocError> {
    let mut topic = String::new(alloc);
    for word in words {
        if topic.len() > 0 {
            topic.push(' ')?;
        }
        topic.push_str(*word)?;
    }
    Ok(topic)
}

/// Adds to `text` the forms of all lines, and what their words may be.
fn push_all(text: &mut String) -> Result<(), AllocError> {
    text.push_str("Lines of a script:\n")?;
    push_script_lines(text)?;
    text.push_str("\nLines of a shell:\n")?;
    push_shell_lines(text)
}

/// Adds to `text` which modes conflict, or what is to be said of the mode that `topic` names.
fn push_modes_of(text: &mut String, topic: &str) -> Result<(), AllocError> {
    if topic == "modes" {
        return push_modes(text);
    }
    push_mode(text, topic)
}
