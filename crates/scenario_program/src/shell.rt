//! A shell: the lines of a script as somebody types them, with help, and with what is wrong with a bad one.
ghost use Rattle.std.specs.Prelude.{◌≡◌, ◌≢◌, ◌⊎◌, ℕ, List, IfErr, IfOk, OnOk, Ok, false, true};
ghost use Rattle.scenario.specs.Acts.{UnlessUnheard};
ghost use Rattle.scenario.specs.Heard.{Hears, HearsAll, Helped, IsUnheard};
ghost use Rattle.scenario.specs.Scripts.{words_in};
ghost use Rattle.scenario.specs.Sizes.{IsForManager};
ghost use Rattle.scenario_program.specs.Typed.{AnswersLine, AsksFor, IsTypedHeard, Leaves, WritesTyped, at_terminal};

use crate::forms::ends_shell;
use crate::hints::{Reader, push_correction};
use crate::topics::help;
use lock_manager::{Config, Desk, ManagerDesk, OwnSession, Part, Session};
use lock_script::{
    Defect, Fault, LineReader, Name, NamedObject, ObjectNames, OpenSessions, parse, split_words,
};
use lock_table::PartTable;
use scenario::{Act, Listener, Output, Scene, ScriptDesk, drive};
use shared_rule::{Board, SeatBoard};
use std::alloc::{AllocError, Global};
use std::io::{Read, Write};
use std::sync::Wait;

/// What a shell prints before each line at a terminal.
const PROMPT: &str = "lock> ";

/// What a shell prints first at a terminal.
const GREETING: &str = "help lists the commands, end closes all sessions and leaves\n";

/// A shell, with the memory for what it says.
#[derive(Clone, Copy)]
pub struct Shell {
    pub alloc: Global,
    /// Whether somebody types the lines at a terminal, so that the shell prints a prompt.
    pub is_terminal: bool,
}

/// What a line that somebody typed asks of a shell.
enum Typed {
    /// The line asks the shell to end.
    End,
    /// The line asks for help, which is this text.
    Help(String),
    /// The line is one of a script.
    Line,
}

impl Shell {
    /// What `line` asks of the shell.
    fn understand(self, line: &str) -> Result<Typed, AllocError>
        ensures { IfOk result (AsksFor (words_in line.now)) }
    {
        let words = split_words(line);
        match words.as_slice().split_first() {
            Some((verb, [])) if ends_shell(*verb) => Ok(Typed::End),
            Some((verb, _)) if ends_shell(*verb) => {
                // Whoever means to close one session would lose them all.
                let text = told(self.alloc, line, Defect::WrongNumberOfWords, &[], &[])?;
                Ok(Typed::Help(text))
            }
            Some((verb, _)) if *verb == "help" => {
                let words = words_behind_first(self.alloc, line)?;
                Ok(Typed::Help(help(self.alloc, words.as_slice())?))
            }
            _ => Ok(Typed::Line),
        }
    }
}

/// The names of all of `sessions`, which are open.
fn names_of<S, W>(alloc: Global, sessions: &OpenSessions<S, W>) -> Result<Vec<Name>, AllocError> {
    let mut names = Vec::new(alloc);
    for place in 0..sessions.resting.len() {
        names.push(sessions.resting.at(place).name)?;
    }
    for place in 0..sessions.waiting.len() {
        names.push(sessions.waiting.at(place).name)?;
    }
    Ok(names)
}

/// All words of `line` after the first one, of which an SQL command may have more than a line of a script.
fn words_behind_first(alloc: Global, line: &str) -> Result<Vec<&str>, AllocError> {
    let mut words = Vec::new(alloc);
    let mut is_first = true;
    for part in line.split(' ') {
        for word in part.split('\t') {
            if word.is_empty() {
                continue;
            }
            if !is_first {
                words.push(word)?;
            }
            is_first = false;
        }
    }
    Ok(words)
}

/// How a shell is run.
#[derive(Clone, Copy, Debug, PartialEq, Eq)]
pub struct ShellOptions {
    /// Whether somebody types the lines at a terminal, so that the shell prints a prompt.
    pub is_terminal: bool,
    /// Whether the numbers of closed sessions are given out again.
    pub reuse: bool,
}

/// Runs the lines that `reader` gives as a shell does, against a lock manager of the size `config`: what is
/// wrong with a bad line is written to `writer`, with the nearest good word, and the shell goes on. Where
/// `options` say that somebody types, the shell has a prompt; where they say that numbers are reused, a new
/// session has the lowest number that no open session has. The shell ends with the line `end`, the input, or
/// another fault, and then the sessions that are open are closed in silence. The writer comes back, with all
/// that was written.
pub fn run_shell<H: AllocGlobal + Wait, R: Read + Drop, W: Write + Drop>(
    rt: &H,
    reader: R,
    writer: W,
    config: Config,
    options: ShellOptions,
) -> (W, Result<(), Fault>)
    requires { IsForManager config }
    ensures written { let B = ⟦<SeatBoard<'static, Part> as Board<Part>>⟧ in
        let D = ⟦<ManagerDesk<'static> as Desk<Session<'static>>>⟧ in
        UnlessUnheard result.1 (WritesTyped B.seat B.view B.stack options.reuse D.database_of D.entries options.is_terminal
        (R.remaining reader) (W.contents writer) result.1 (W.contents result.0)) }
{
    let shell = Shell {
        alloc: rt.alloc(),
        is_terminal: options.is_terminal,
    };
    let output = Output::new(writer);
    let typed = Typing { reader, shell };
    let (output, ended) = drive(rt, config, options.reuse, output, typed);
    (output.into_writer(), ended)
}

/// The lines that somebody types, which a shell answers.
#[derive(Drop)]
struct Typing<R> {
    reader: R,
    shell: Shell,
}

impl<R: Read + Drop, L: Listener> Act<L> for Typing<R> {
    ghost use Rattle.scenario_program.specs.Typed.{IsTypedHeard};

    ghost acts = { λ B seat view stack again database_of entries typing old before ended now.
        IsTypedHeard seat view stack again database_of entries L.hears typing.shell.is_terminal (R.remaining typing.reader) old
        before ended now };

    fn act<T: PartTable, B: Board<T>, D: ScriptDesk<OwnSession<T, B>>, H: Wait>(
        self,
        rt: &H,
        scene: &mut Scene<T, B, D, L>,
    ) -> Result<(), Fault> {
        let Typing { reader, shell } = self;
        converse(rt, scene, reader, shell)
    }
}

/// Runs the lines of `reader` in `scene` by `shell`, to the line that ends it, the end of the reader, or a
/// fault that is no bad line's.
fn converse<
    T: PartTable,
    B: Board<T>,
    D: ScriptDesk<OwnSession<T, B>>,
    L: Listener,
    H: Wait,
    R: Read + Drop,
>(rt: &H, scene: &mut Scene<T, B, D, L>, reader: R, shell: Shell) -> Result<(), Fault>
    ensures heard { IsTypedHeard B.seat B.view B.stack D.again D.database_of D.entries L.hears shell.is_terminal (R.remaining reader)
        (record { sessions = scene.old.state.sessions; names = scene.old.state.names }) scene.old.listener result
        scene.new.listener }
{
    let mut lines = LineReader::new(reader);
    prompt(&mut scene.listener, shell, GREETING)?;
    'lines: for _ in 0..u64::MAX {
        prompt(&mut scene.listener, shell, PROMPT)?;
        match lines.next_line() {
            Ok(Some(line)) => {
                if answer(rt, scene, line.as_str(), shell)? {
                    return Ok(());
                }
            }
            Ok(None) => return prompt(&mut scene.listener, shell, "\n"),
            Err(fault) => pass_over(&mut scene.listener, fault)?,
        }
    }
    // (the reader refuses the line after a million)
    Err(Fault::ReadFailed)
}

/// Has `listener` print `text` at the terminal of `shell`, if it has one.
fn prompt<L: Listener>(listener: &mut L, shell: Shell, text: &'static str) -> Result<(), Fault>
    ensures prompted { OnOk result (HearsAll L.hears listener.old (at_terminal shell.is_terminal text.now) listener.new) }
    ensures unheard { IfErr result IsUnheard }
{
    if shell.is_terminal {
        listener.tell(text)
    } else {
        Ok(())
    }
}

/// Has the shell go on after a line that was read to its end and isn't ASCII text, where that is the `fault`.
/// Other faults end the shell.
fn pass_over<L: Listener>(listener: &mut L, fault: Fault) -> Result<(), Fault>
    ensures passed { OnOk result ((line : ℕ) × (fault ≡ Fault.BadLine line Defect.NotAsciiText)) }
    ensures told { OnOk result ((text : List ℕ) × L.hears listener.old (Helped text) listener.new) }
    ensures ended { IfErr result (λ it. IsUnheard it ⊎ ((it ≡ fault) × (listener.new ≡ listener.old)
        × ((line : ℕ) → fault ≢ Fault.BadLine line Defect.NotAsciiText))) }
{
    match fault {
        Fault::BadLine {
            what: Defect::NotAsciiText,
            ..
        } => listener.tell("bad line: not ASCII text; a line has printable characters and tabs\n"),
        _ => Err(fault),
    }
}

/// Answers `line` in `scene` by `shell`, and says whether the line ends the shell.
fn answer<T: PartTable, B: Board<T>, D: ScriptDesk<OwnSession<T, B>>, L: Listener, H: Wait>(
    rt: &H,
    scene: &mut Scene<T, B, D, L>,
    line: &str,
    shell: Shell,
) -> Result<bool, Fault>
    ensures answered { result ≡ Ok false → (¬ Leaves (words_in line.now))
        × Hears L.hears scene.old.listener scene.new.listener (λ heard. AnswersLine B.seat B.view B.stack D.again D.database_of D.entries
        (record { sessions = scene.old.state.sessions; names = scene.old.state.names }) line.now heard
        (record { sessions = scene.new.state.sessions; names = scene.new.state.names })) }
    ensures leaves { result ≡ Ok true → Leaves (words_in line.now) × (scene.new.listener ≡ scene.old.listener) }
    ensures unheard { IfErr result IsUnheard }
{
    match shell.understand(line) {
        Ok(Typed::End) => Ok(true),
        Ok(Typed::Help(text)) => {
            scene.listener.tell(text.as_str())?;
            Ok(false)
        }
        Ok(Typed::Line) => {
            answer_line(rt, scene, line, shell)?;
            Ok(false)
        }
        Err(_) => Err(Fault::NoMemory),
    }
}

/// Runs `line`, one of a script, in `scene`, or says by `shell` what is wrong with the line.
fn answer_line<T: PartTable, B: Board<T>, D: ScriptDesk<OwnSession<T, B>>, L: Listener, H: Wait>(
    rt: &H,
    scene: &mut Scene<T, B, D, L>,
    line: &str,
    shell: Shell,
) -> Result<(), Fault>
    ensures answered { OnOk result (Hears L.hears scene.old.listener scene.new.listener (λ heard.
        AnswersLine B.seat B.view B.stack D.again D.database_of D.entries
        (record { sessions = scene.old.state.sessions; names = scene.old.state.names }) line.now heard
        (record { sessions = scene.new.state.sessions; names = scene.new.state.names }))) }
    ensures unheard { IfErr result IsUnheard }
{
    let state = &scene.state;
    match parse(line, &state.sessions, &state.names.objects) {
        Ok(Some(command)) => scene.run(rt, command),
        Ok(None) => Ok(()),
        Err(what) => {
            match correction(
                shell.alloc,
                line,
                what,
                &state.sessions,
                &state.names.objects,
            ) {
                Ok(text) => scene.listener.tell(text.as_str()),
                Err(_) => Err(Fault::NoMemory),
            }
        }
    }
}

/// What is wrong with `line`, which has the defect `what`, where `sessions` are open and `objects` have
/// names.
fn correction<S, W>(
    alloc: Global,
    line: &str,
    what: Defect,
    sessions: &OpenSessions<S, W>,
    objects: &ObjectNames,
) -> Result<String, AllocError> {
    let names = names_of(alloc, sessions)?;
    told(alloc, line, what, names.as_slice(), objects.as_slice())
}

/// What a shell says of `line`, which has the defect `what`, where sessions of these `names` are open and
/// `objects` have names.
fn told(
    alloc: Global,
    line: &str,
    what: Defect,
    names: &[Name],
    objects: &[NamedObject],
) -> Result<String, AllocError> {
    let reader = Reader {
        names,
        objects,
        is_in_shell: true,
    };
    let mut text = String::from_str(alloc, "bad line: ")?;
    push_correction(alloc, &mut text, line, what, reader)?;
    Ok(text)
}
