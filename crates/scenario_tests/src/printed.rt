//! What the program prints.
use crate::programs::words_of;
use scenario_program::{Errors, Source, run_program};
use std::alloc::Global;
use std::process::Abort;
use std::rt::Files;
use std::str;
use std::sync::Wait;
use std::test::Fail;
use std::thread::Threads;
use std::time::Clock;

/// What the program prints on the words `line` and the input `script`, where it ends well and nobody is at a
/// terminal.
pub fn printed(
    rt: &(impl Abort + AllocGlobal + Clock + Files + Threads + Wait + Sync),
    line: &str,
    script: &str,
) -> Result<String, Fail> {
    let alloc: Global = rt.alloc();
    let words = words_of(alloc, line)?;
    let (mut output, mut errors) = (Vec::new(alloc), Vec::new(alloc));
    let input = Source {
        reader: script.as_bytes(),
        is_terminal: false,
    };
    let mut said_to = Errors {
        writer: &mut errors,
        is_terminal: false,
    };
    let status = run_program(rt, Ok(words), input, &mut output, &mut said_to);
    assert_eq!(rt; status, 0, "the status of {line:?} on {script:?}");
    let text = str::from_utf8(output.as_slice()).expect(rt, "text");
    Ok(String::from_str(alloc, text)?)
}
