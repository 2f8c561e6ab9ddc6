//! The program as a function of its words and its streams.
ghost use Rattle.std.specs.Prelude.{◌≡◌, ◌≤◌, IfOk, IsSomeAnd, None, false};
ghost use Rattle.lock_hammer.specs.Sizes.{IsPlayable};
ghost use Rattle.scenario.specs.Acts.{UnlessUnheard};
ghost use Rattle.scenario.specs.Sizes.{IsForManager};
ghost use Rattle.scenario_program.specs.Runs.{ArePassedOn, IsStatusOf, PrintsScript, RunsScript, ShowsAnswers};
ghost use Rattle.scenario_program.specs.Typed.{WritesTyped};

use crate::arguments::{NoRun, Task, parse_arguments};
use crate::failures::{Failure, fail};
use crate::man::man_page;
use crate::modes::print_modes;
use crate::options::{FailOn, RunOptions};
use crate::orders::OnManagers;
use crate::outcome::{Outcome, Witness};
use crate::shell::{ShellOptions, run_shell};
use crate::timelines::draw_heard_script;
use lock_hammer::{Hammer, OpenGate, ProgressLine, run_hammer, run_watched_hammer};
use lock_manager::{Config, Desk, ManagerDesk, Part, Session};
use lock_script::Fault;
use scenario::{Output, Summary, run_in_turn};
use script_orders::{OrdersLine, OrdersOptions, run_orders};
use shared_rule::{Board, SeatBoard};
use sql_report::run_sql;
use std::alloc::Global;
use std::io::{self, BufWriter, Read, Write};
use std::rt::Files;
use std::sync::Wait;
use std::thread::Threads;
use std::time::Clock;

/// The status of a script that ran to its end, and of a text that was asked for.
const SUCCESS: u8 = 0;

/// The status where the program's own words are refused.
const REFUSED_WORDS: u8 = 2;

/// The status of a run in which something has come that the command line names as a failure.
const FAILED: u8 = 4;

/// Where a script comes from.
#[derive(Drop)]
pub struct Source<R: Drop> {
    pub reader: R,
    /// Whether a person types the script at a terminal.
    pub is_terminal: bool,
}

/// Where the program writes why it ends early, and, for somebody at a terminal, what it does meanwhile.
#[derive(Drop)]
pub struct Errors<'a, E> {
    pub writer: &'a mut E,
    /// Whether a person reads what is written at a terminal.
    pub is_terminal: bool,
}

/// Runs the program, and answers its status: 0, 4 where a run or an SQL statement fails by `words`, 3 for a
/// bad line of the script or a bad statement, 2 for refused words, and 1 for any other fault. The `words` are
/// those of the command line, or the error of reading them. The script or the statements come from `input`,
/// and a schema's file is read by `rt`. What the program prints, and texts that are asked for, go to
/// `output`. Why the program ends early goes to `errors`; so does, at a terminal, that the program reads from
/// there, and how far a hammer is.
pub fn run_program<
    H: AllocGlobal + Clock + Files + Threads + Wait + Sync,
    R: Read + Drop,
    W: Write + Drop,
    E: Write + Send,
>(rt: &H, words: io::Result<Vec<String>>, input: Source<R>, output: W, errors: &mut Errors<E>) -> u8
    ensures { result ≤ 4 }
{
    let ended = match words {
        Ok(words) => run_words(rt, words.as_slice(), input, output, errors),
        Err(error) if error.kind() == io::ErrorKind::OutOfMemory => {
            Err(Failure::from(Fault::NoMemory))
        }
        Err(_) => Ok(refuse_words(errors.writer)),
    };
    match ended {
        Ok(status) => status,
        Err(failure) => fail(errors.writer, &failure),
    }
}

/// Does what `words` ask for, with the script of `input`, and answers the status of the program.
fn run_words<
    H: AllocGlobal + Clock + Files + Threads + Wait + Sync,
    R: Read + Drop,
    W: Write + Drop,
    E: Write + Send,
>(
    rt: &H,
    words: &[String],
    input: Source<R>,
    output: W,
    errors: &mut Errors<E>,
) -> Result<u8, Failure>
    ensures { IfOk result (λ status. status ≤ 4) }
{
    let alloc = rt.alloc();
    match parse_arguments(alloc, words) {
        Ok(Task::Modes) => print_modes(output)?,
        Ok(Task::Man) => print_man(alloc, output)?,
        Ok(Task::Hammer(hammer)) => run_hammers(rt, hammer, output, errors)?,
        Ok(Task::Run(config, options)) => {
            let (_, status) = run_input(rt, config, options, input, output, errors);
            return Ok(status);
        }
        Ok(Task::Sql) => return Ok(run_statements(rt, words, input, output, errors)),
        Ok(Task::Shell(config, reuse)) => run_typed(rt, config, reuse, input, output).1?,
        Ok(Task::Orders(config, options, hints)) => {
            run_all_orders(rt, config, options, hints, input, output, errors)?
        }
        Err(NoRun::Text(text)) => print_text(output, text.as_str())?,
        Err(NoRun::Refused(text)) => {
            // Where the errors can't be written, the status says it alone.
            let _ = write!(errors.writer, "{text}");
            return Ok(REFUSED_WORDS);
        }
        Err(NoRun::NoMemory) => return Err(Failure::from(Fault::NoMemory)),
    }
    Ok(SUCCESS)
}

/// Runs the script of `input` with these `options` against a lock manager of the size `config`, and answers
/// the status of the program. Why the run ends early goes to `errors`. The output comes back, with all that
/// was printed, unless writing or the memory failed.
fn run_input<H: AllocGlobal + Wait, R: Read + Drop, W: Write + Drop, E: Write>(
    rt: &H,
    config: Config,
    options: RunOptions,
    input: Source<R>,
    output: W,
    errors: &mut Errors<E>,
) -> (Option<W>, u8)
    requires { IsForManager config }
    ensures ran { let B = ⟦<SeatBoard<'static, Part> as Board<Part>>⟧ in
        let D = ⟦<ManagerDesk<'static> as Desk<Session<'static>>>⟧ in
        ShowsAnswers options → RunsScript B.seat B.view B.stack options.turns.reuse D.database_of D.entries W.contents
        (R.remaining input.reader) options (W.contents output) result.0 result.1 }
    ensures status { result.1 ≤ 4 }
{
    if input.is_terminal {
        say_input_is_typed(errors.writer, TYPED_SCRIPT);
    }
    let mut outcome = Outcome::new(rt.alloc());
    let (output, ended) = play_input(rt, input.reader, output, config, options, &mut outcome);
    let hints = options.hints || errors.is_terminal;
    let status = status_after(errors.writer, ended, &outcome, options.fail_on, hints);
    (output, status)
}

/// The status of a run that has `ended` so, and of which `outcome` has heard: 4 where something has come that
/// `fail_on` names. Why it ended early is said by `errors`, with a hint only where `hints`.
fn status_after<E: Write>(
    errors: &mut E,
    ended: Result<(), Fault>,
    outcome: &Outcome,
    fail_on: FailOn,
    hints: bool,
) -> u8
    ensures of_end { IsStatusOf fail_on ended result }
    ensures at_most { result ≤ 4 }
{
    match ended {
        Ok(()) if outcome.fails(fail_on) => FAILED,
        Ok(()) => SUCCESS,
        Err(fault) => fail(errors, &Failure::of_run(fault, outcome, hints)),
    }
}

/// Runs the script of `reader` with these `options`, and shows on `output` what they ask for: what each line
/// is answered, or a picture of the whole script. What the run comes to is noted in `outcome`. The output
/// comes back, with all that was printed, unless writing or the memory failed.
fn play_input<H: AllocGlobal + Wait, R: Read + Drop, W: Write + Drop>(
    rt: &H,
    reader: R,
    output: W,
    config: Config,
    options: RunOptions,
    outcome: &mut Outcome,
) -> (Option<W>, Result<(), Fault>)
    requires { IsForManager config }
    ensures played { let B = ⟦<SeatBoard<'static, Part> as Board<Part>>⟧ in
        let D = ⟦<ManagerDesk<'static> as Desk<Session<'static>>>⟧ in
        ShowsAnswers options → PrintsScript B.seat B.view B.stack options.turns.reuse D.database_of D.entries W.contents
        (R.remaining reader) options (W.contents output) result.1 result.0 }
{
    match options.style.graph {
        Some(drawing) if drawing.is_of_all_lines() => {
            draw_input(rt, reader, output, config, options, outcome)
        }
        _ => print_input(rt, reader, output, config, options, outcome),
    }
}

/// Runs the script of `reader` with these `options`, and prints to `output` what each line is answered. What
/// the run comes to is noted in `outcome`. The output comes back, with all that was printed, unless writing
/// or the memory failed.
fn print_input<H: AllocGlobal + Wait, R: Read + Drop, W: Write + Drop>(
    rt: &H,
    reader: R,
    output: W,
    config: Config,
    options: RunOptions,
    outcome: &mut Outcome,
) -> (Option<W>, Result<(), Fault>)
    requires { IsForManager config }
    ensures printed { let B = ⟦<SeatBoard<'static, Part> as Board<Part>>⟧ in
        let D = ⟦<ManagerDesk<'static> as Desk<Session<'static>>>⟧ in
        ShowsAnswers options → PrintsScript B.seat B.view B.stack options.turns.reuse D.database_of D.entries W.contents
        (R.remaining reader) options (W.contents output) result.1 result.0 }
{
    let alloc = rt.alloc();
    let Ok(buffered) = BufWriter::new(alloc, output) else {
        return (None, Err(Fault::NoMemory));
    };
    let witness = Witness {
        output: Output::styled(alloc, buffered, options.style),
        outcome,
        summary: summary_of(alloc, options),
    };
    let (witness, ended) = run_in_turn(rt, reader, witness, config, options.turns);
    let Witness {
        output,
        outcome: _,
        summary: _,
    } = witness;
    pass_on(output.into_writer(), ended)
}

/// The summary of a run with these `options`, in memory by `alloc`, if one is to be told at its end.
fn summary_of(alloc: Global, options: RunOptions) -> Option<Summary>
    ensures { options.summary ≡ false → result ≡ None }
{
    if options.summary {
        Some(Summary::new(alloc))
    } else {
        None
    }
}

/// Passes on to the writer behind `buffered` what is still in the buffer, and answers that writer and how the
/// run has ended, which is `ended` where all could be written.
fn pass_on<W: Write + Drop>(
    buffered: BufWriter<W>,
    ended: Result<(), Fault>,
) -> (Option<W>, Result<(), Fault>)
    ensures { ArePassedOn W.contents buffered ended result.0 result.1 }
{
    match buffered.into_inner() {
        Ok(output) => (Some(output), ended),
        Err(_) => (None, Err(Fault::WriteFailed)),
    }
}

/// Runs the script of `reader` with these `options`, and writes a picture of the whole script to `output`.
/// What the run comes to is noted in `outcome`.
fn draw_input<H: AllocGlobal + Wait, R: Read + Drop, W: Write + Drop>(
    rt: &H,
    reader: R,
    output: W,
    config: Config,
    options: RunOptions,
    outcome: &mut Outcome,
) -> (Option<W>, Result<(), Fault>)
    requires { IsForManager config }
{
    let Ok(output) = BufWriter::new(rt.alloc(), output) else {
        return (None, Err(Fault::NoMemory));
    };
    let ended = draw_heard_script(rt, reader, output, config, options, outcome);
    (None, ended)
}

/// Has `hammer` run, and shows by `errors` to somebody at a terminal how far it is.
fn run_hammers<H: AllocGlobal + Clock + Threads + Wait + Sync, W: Write + Drop, E: Write + Send>(
    rt: &H,
    hammer: Hammer,
    output: W,
    errors: &mut Errors<E>,
) -> Result<(), Fault>
    requires { IsPlayable hammer }
{
    let all = u64::from(hammer.sessions) * u64::from(hammer.rounds);
    if errors.is_terminal {
        if let Ok(line) = ProgressLine::new(rt, errors.writer, all) {
            return run_watched_hammer(rt, &OpenGate, &line, output, hammer);
        }
    }
    run_hammer(rt, &OpenGate, output, hammer.sessions, hammer.rounds)
}

/// Runs the lines of `input` in every order, as `options` say, and shows by `errors` to somebody at a
/// terminal how many were run. A bad line has a hint behind it where `hints`, and for somebody at a terminal.
fn run_all_orders<H: AllocGlobal + Wait, R: Read + Drop, W: Write + Drop, E: Write>(
    rt: &H,
    config: Config,
    options: OrdersOptions,
    hints: bool,
    input: Source<R>,
    output: W,
    errors: &mut Errors<E>,
) -> Result<(), Failure>
    requires { IsForManager config }
{
    let alloc = rt.alloc();
    let output = BufWriter::new(alloc, output).map_err(|_| Fault::NoMemory)?;
    if input.is_terminal {
        say_input_is_typed(errors.writer, TYPED_SCRIPT);
    }
    let hints = hints || errors.is_terminal;
    let mut line = OrdersLine {
        is_terminal: errors.is_terminal,
        writer: errors.writer,
    };
    let player = OnManagers { config };
    match run_orders(rt, &player, input.reader, output, &mut line, options) {
        Ok(()) => Ok(()),
        Err(fault) => Err(Failure::of_orders(alloc, fault, config, hints)),
    }
}

/// Runs the lines of `input` as they are typed, against a lock manager of the size `config`. Where `reuse`,
/// the numbers of closed sessions are given out again. The output comes back, with all that was printed,
/// unless writing or the memory failed.
fn run_typed<H: AllocGlobal + Wait, R: Read + Drop, W: Write + Drop>(
    rt: &H,
    config: Config,
    reuse: bool,
    input: Source<R>,
    output: W,
) -> (Option<W>, Result<(), Fault>)
    requires { IsForManager config }
    ensures typed { let B = ⟦<SeatBoard<'static, Part> as Board<Part>>⟧ in
        let D = ⟦<ManagerDesk<'static> as Desk<Session<'static>>>⟧ in
        UnlessUnheard result.1 (IsSomeAnd result.0 (λ writer. WritesTyped B.seat B.view B.stack reuse D.database_of D.entries
        input.is_terminal (R.remaining input.reader) (W.contents output) result.1 (W.contents writer))) }
{
    let Ok(buffered) = BufWriter::new(rt.alloc(), output) else {
        return (None, Err(Fault::NoMemory));
    };
    let options = ShellOptions {
        is_terminal: input.is_terminal,
        reuse,
    };
    let (buffered, ended) = run_shell(rt, input.reader, buffered, config, options);
    pass_on(buffered, ended)
}

/// Prints the man page to `output`.
fn print_man<W: Write + Drop>(alloc: Global, output: W) -> Result<(), Fault> {
    match man_page(alloc) {
        Ok(page) => print_text(output, page.as_str()),
        Err(_) => Err(Fault::NoMemory),
    }
}

/// Says what each SQL statement of `input` locks, as `words` ask, on `output`, and answers the status of the
/// program. Faults go to `errors`.
fn run_statements<H: AllocGlobal + Files, R: Read + Drop, W: Write + Drop, E: Write>(
    rt: &H,
    words: &[String],
    input: Source<R>,
    output: W,
    errors: &mut Errors<E>,
) -> u8
    ensures { result ≤ 4 }
{
    let (mut reader, mut output) = (input.reader, output);
    if input.is_terminal {
        say_input_is_typed(errors.writer, TYPED_SQL);
    }
    run_sql(rt, words, &mut reader, &mut output, errors.writer)
}

/// What is printed for somebody at a terminal who is to type a script.
const TYPED_SCRIPT: &str =
    "reading a script from the terminal, to its end (Ctrl-D); run --help shows its lines";

/// What is printed for somebody at a terminal who is to type SQL.
const TYPED_SQL: &str = "reading SQL statements from the terminal, to their end (Ctrl-D)";

/// Says to somebody at a terminal, by `errors`, that the program reads the input from there, in the words
/// `what`.
fn say_input_is_typed<E: Write>(errors: &mut E, what: &str) {
    // Where the errors can't be written, the input is read all the same.
    let _ = writeln!(errors, "{what}");
}

/// Prints `text`, which the words ask for, to `output`.
fn print_text<W: Write + Drop>(mut output: W, text: &str) -> Result<(), Fault> {
    write!(output, "{text}").map_err(|_| Fault::WriteFailed)?;
    output.flush().map_err(|_| Fault::WriteFailed)
}

/// Says by `errors` that the words of the command line are no text, and answers the status for that.
fn refuse_words<E: Write>(errors: &mut E) -> u8
    ensures { result ≤ 2 }
{
    // Where the errors can't be written, the status says it alone.
    let _ = writeln!(
        errors,
        "error: invalid UTF-8 was detected in one or more arguments"
    );
    REFUSED_WORDS
}
