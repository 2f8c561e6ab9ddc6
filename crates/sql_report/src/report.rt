//! What is said of each statement of a text.
ghost use Rattle.std.specs.Prelude.{◌≡◌, map, string_bytes, All, IfOk};
ghost use Rattle.std.specs.List.{flat_map};
ghost use Rattle.modes_core.specs.declared.modes.Mode.TheVariants.{AccessShare, RowExclusive};
ghost use Rattle.sql_report.specs.Report.{line_of, lines_that_stop, line_of_statement, text_of, transaction_after, AreAnswersOf, BeginsWith, CameTo, IsAnswer};

use crate::effects::{push_before, push_modes, push_waiting};
use crate::outcome::{Outcome, are_known, modes_on, outcome_of};
use crate::texts::{awaits_text, fault_text, shown, until_text, work_text};
use modes_core::{Mode, ModeSet};
use sql_locks::{Awaits, Defect, Lock, SqlFault};
use sql_statements::{Control, SqlStatement, StatementReader, has_part, split_statements};
use std::alloc::{AllocError, Global};

/// What a report says of one statement.
#[derive(Drop)]
pub struct Answer {
    /// The line on which the statement begins, from 1.
    pub line: usize,
    /// The locks of the statement, in the order in which they are taken.
    pub locks: Vec<Lock>,
    /// The modes that the statement keeps waiting on relations that others know.
    pub stopped: ModeSet,
    /// All that is printed of the statement.
    pub text: String,
}

/// What a report says of a text of statements.
#[derive(Drop)]
pub struct Report {
    /// What is said of each statement, in the order of the statements.
    pub answers: Vec<Answer>,
    /// The lines of the statements that keep reads of a relation waiting that others know, and of those that
    /// keep writes of such a relation waiting.
    pub reads: Vec<usize>,
    pub writes: Vec<usize>,
    /// All that is printed: the answers' texts, and sums after them.
    pub text: String,
}

/// Why a text of statements is refused.
#[derive(Drop)]
pub struct Refused {
    /// What is said of the refused text.
    pub text: String,
    /// Whether the text is refused for want of memory.
    pub is_out_of_memory: bool,
}

impl Refused {
    /// The refusal of a text for want of memory.
    fn of_memory(alloc: Global) -> Self {
        Refused {
            text: String::new(alloc),
            is_out_of_memory: true,
        }
    }

    /// The refusal of `text` for `fault`, in words that begin with `name`.
    fn of_fault(alloc: Global, name: &str, text: &[u8], fault: SqlFault) -> Self {
        if fault == SqlFault::NoMemory {
            return Refused::of_memory(alloc);
        }
        match fault_text(alloc, text, fault) {
            Ok(said) => match format!(in alloc; "{name}{said}") {
                Ok(text) => Refused {
                    text,
                    is_out_of_memory: false,
                },
                Err(_) => Refused::of_memory(alloc),
            },
            Err(_) => Refused::of_memory(alloc),
        }
    }
}

/// What writes a report: the reader of the statements, and whether a transaction is open.
#[derive(Drop)]
struct Writer {
    alloc: Global,
    reader: StatementReader,
    /// Whether all statements are one transaction.
    is_single: bool,
    is_in_transaction: bool,
}

/// Says of each statement of `migration` what it locks, where the statements of `schema` were run before.
/// Where `is_single`, all statements of `migration` are one transaction.
pub fn make_report(
    alloc: Global,
    schema: &[u8],
    migration: &[u8],
    is_single: bool,
) -> Result<Report, Refused>
    ensures answers { IfOk result (λ report. AreAnswersOf migration.now report.answers.items) }
    ensures reads { IfOk result (λ report. report.reads.items ≡ lines_that_stop AccessShare report.answers.items) }
    ensures writes { IfOk result (λ report. report.writes.items ≡ lines_that_stop RowExclusive report.answers.items) }
    ensures printed { IfOk result (λ report. BeginsWith (flat_map text_of report.answers.items) report.text) }
{
    let mut writer = Writer {
        alloc,
        reader: StatementReader::new(alloc),
        is_single,
        is_in_transaction: is_single,
    };
    if let Err(fault) = writer.read_schema(schema) {
        return Err(Refused::of_fault(alloc, "schema, ", schema, fault));
    }
    match writer.report(migration) {
        Ok(report) => Ok(report),
        Err(fault) => Err(Refused::of_fault(alloc, "", migration, fault)),
    }
}

/// Whether a transaction is open after a statement that does `control` to it, where `was_open` says whether
/// one was open before the statement, and `is_single` whether all statements are one transaction.
pub fn is_open_after(control: Control, was_open: bool, is_single: bool) -> bool
    ensures { result ≡ transaction_after is_single was_open control }
{
    match control {
        Control::Begin => true,
        Control::Commit | Control::Rollback => is_single,
        Control::Stay | Control::Savepoint => was_open,
    }
}

impl Writer {
    /// Runs the statements of `schema`.
    fn read_schema(&mut self, schema: &[u8]) -> Result<(), SqlFault> {
        for statement in split_statements(self.alloc, schema)? {
            self.reader.read_statement(statement.words)?;
            self.reader.settle(true)?;
        }
        Ok(())
    }

    /// Says of each statement of `migration` what it locks, and what all statements come to.
    fn report(&mut self, migration: &[u8]) -> Result<Report, SqlFault>
        ensures answers { IfOk result (λ report. AreAnswersOf migration.now report.answers.items) }
        ensures reads { IfOk result (λ report. report.reads.items ≡ lines_that_stop AccessShare report.answers.items) }
        ensures writes { IfOk result (λ report. report.writes.items ≡ lines_that_stop RowExclusive report.answers.items) }
        ensures printed { IfOk result (λ report. BeginsWith (flat_map text_of report.answers.items) report.text) }
    {
        let statements = split_statements(self.alloc, migration)?;
        let answers = self.answer_all(migration, statements)?;
        Ok(report_of(self.alloc, answers)?)
    }

    /// Says of each of `statements`, those of `migration`, what it locks.
    fn answer_all(
        &mut self,
        migration: &[u8],
        statements: Vec<SqlStatement>,
    ) -> Result<Vec<Answer>, SqlFault>
        ensures lines { IfOk result (λ answers. map line_of answers.items ≡ map line_of_statement statements.items) }
        ensures each { IfOk result (λ answers. All IsAnswer answers.items) }
    {
        let mut answers = Vec::new(self.alloc);
        for statement in statements {
            let answer = self.answer(migration, statement)?;
            answers.push(answer)?;
        }
        Ok(answers)
    }

    /// Says of `statement`, one of `migration`, what it locks.
    fn answer(&mut self, migration: &[u8], statement: SqlStatement) -> Result<Answer, SqlFault>
        ensures line { IfOk result (λ answer. answer.line ≡ statement.line) }
        ensures answer { IfOk result IsAnswer }
    {
        let line = statement.line;
        let title = shown(self.alloc, migration, statement.from, statement.to)?;
        self.reader.read_statement(statement.words)?;
        let control = self.reader.control;
        if control == Control::Begin {
            self.is_in_transaction = true;
        }
        let outcome = self.outcome()?;
        let text = self.text_of(line, title.as_str(), &outcome)?;
        self.is_in_transaction = is_open_after(control, self.is_in_transaction, self.is_single);
        self.reader.settle(!self.is_in_transaction)?;
        Ok(Answer {
            line,
            locks: outcome.locks,
            stopped: outcome.stopped,
            text,
        })
    }

    /// What the locks of the statement that was read last come to.
    fn outcome(&self) -> Result<Outcome, SqlFault>
        ensures { IfOk result (λ outcome. CameTo outcome.locks.items outcome.stopped) }
    {
        let catalog = &self.reader.catalog;
        outcome_of(
            self.alloc,
            catalog.relations.as_slice(),
            catalog.links.as_slice(),
            self.reader.acts.as_slice(),
            self.reader.fault_at(0, Defect::UnknownStatement),
        )
    }

    /// What is printed of the statement that was read last, which begins on `line` as `title` and comes to
    /// `outcome`.
    fn text_of(&self, line: usize, title: &str, outcome: &Outcome) -> Result<String, AllocError> {
        let mut text = format!(in self.alloc; "line {line}: {title}\n")?;
        if !outcome.locks.is_empty() {
            let are_known = self.push_locks(&mut text, outcome.locks.as_slice())?;
            self.push_effort(&mut text, outcome, are_known)?;
        }
        self.push_advisory(&mut text)?;
        Ok(text)
    }

    /// Adds to `text` the modes on each relation of `locks`, in the order of the relations' first locks, and
    /// answers whether others know one of these relations.
    fn push_locks(&self, text: &mut String, locks: &[Lock]) -> Result<bool, AllocError> {
        let relations = self.reader.catalog.relations.as_slice();
        let mut is_known = false;
        for (place, lock) in locks.iter().enumerate() {
            let before = locks.get(..place).unwrap_or(&[]);
            if before.iter().any(|other| other.relation == lock.relation) {
                continue;
            }
            let name = self.reader.name_of_relation(lock.relation)?;
            write!(text, "  {name}: ")?;
            push_modes(text, modes_on(locks, lock.relation))?;
            if are_known(relations, lock.relation) {
                is_known = true;
            } else {
                text.push_str(", made here and known to nobody else")?;
            }
            text.push('\n')?;
        }
        Ok(is_known)
    }

    /// Adds to `text` how long the statement of `outcome` works, and whom it keeps waiting where `are_known`
    /// says that others know what it locks.
    fn push_effort(
        &self,
        text: &mut String,
        outcome: &Outcome,
        are_known: bool,
    ) -> Result<(), AllocError> {
        let effort = outcome.effort;
        let work = work_text(effort.work);
        let until = until_text(effort.until, self.is_in_transaction);
        write!(
            text,
            "  works for {work}, and holds its locks until {until}\n"
        )?;
        if are_known {
            text.push_str("  keeps waiting: ")?;
            push_waiting(text, outcome.stopped)?;
            text.push_str("\n  waits behind: ")?;
            push_before(text, outcome.stopped)?;
            text.push('\n')?;
        }
        if effort.awaits != Awaits::Nobody {
            let awaits = awaits_text(effort.awaits);
            write!(text, "  waits for the end of {awaits}\n")?;
        }
        Ok(())
    }

    /// Adds to `text` the advisory locks that the statement that was read last takes, and those that it gives
    /// back.
    fn push_advisory(&self, text: &mut String) -> Result<(), AllocError> {
        for lock in &self.reader.advisory {
            let words = &self.reader.cursor.words;
            let function = word_text(words.get(lock.function));
            if has_part(function, "all") {
                text.push_str("  gives back all advisory locks that the session owns\n")?;
                continue;
            }
            let first = word_text(words.get(lock.first));
            let mode = if has_part(function, "shared") {
                Mode::Share
            } else {
                Mode::Exclusive
            };
            write!(text, "  advisory lock {first}")?;
            if let Some(second) = lock.second {
                let second = word_text(words.get(second));
                write!(text, ", {second}")?;
            }
            let until = until_of(function);
            write!(text, ": {mode}, {until}\n")?;
        }
        Ok(())
    }
}

/// The report of `answers`: their texts one after another, and what all come to after them.
fn report_of(alloc: Global, answers: Vec<Answer>) -> Result<Report, AllocError>
    ensures reads { IfOk result (λ report. report.reads.items ≡ lines_that_stop AccessShare report.answers.items) }
    ensures writes { IfOk result (λ report. report.writes.items ≡ lines_that_stop RowExclusive report.answers.items) }
    ensures printed { IfOk result (λ report. BeginsWith (flat_map text_of report.answers.items) report.text) }
    ensures answers { IfOk result (λ report. report.answers.items ≡ answers.items) }
{
    let reads = lines_stopping(alloc, answers.as_slice(), Mode::AccessShare)?;
    let writes = lines_stopping(alloc, answers.as_slice(), Mode::RowExclusive)?;
    let sums = sums_of(alloc, answers.len(), reads.as_slice(), writes.as_slice())?;
    let mut text = texts_of(alloc, answers.as_slice())?;
    text.push_str(sums.as_str())?;
    Ok(Report {
        answers,
        reads,
        writes,
        text,
    })
}

/// The lines of those of `answers` whose statements keep `mode` waiting.
fn lines_stopping(alloc: Global, answers: &[Answer], mode: Mode) -> Result<Vec<usize>, AllocError>
    ensures { IfOk result (λ lines. lines.items ≡ lines_that_stop mode answers.now) }
{
    answers
        .iter()
        .filter(|answer| answer.stopped.has(mode))
        .map(|answer| answer.line)
        .collect(alloc)
}

/// The texts of `answers`, one after another.
fn texts_of(alloc: Global, answers: &[Answer]) -> Result<String, AllocError>
    ensures { IfOk result (λ text. string_bytes text ≡ flat_map text_of answers.now) }
{
    let mut text = String::new(alloc);
    for answer in answers {
        text.push_str(answer.text.as_str())?;
    }
    Ok(text)
}

/// What all statements come to, `count` of them, of which those on the lines `reads` and `writes` keep reads
/// and writes waiting.
fn sums_of(
    alloc: Global,
    count: usize,
    reads: &[usize],
    writes: &[usize],
) -> Result<String, AllocError> {
    let mut text = format!(in alloc; "statements: {count}\nkeep reads waiting: ")?;
    push_lines(&mut text, reads)?;
    text.push_str("\nkeep writes waiting: ")?;
    push_lines(&mut text, writes)?;
    text.push('\n')?;
    Ok(text)
}

/// Until when the advisory lock that `function` takes is held, or that `function` gives one back, in words.
fn until_of(function: &str) -> &'static str {
    if has_part(function, "unlock") {
        "given back"
    } else if has_part(function, "xact") {
        "until the transaction's end"
    } else {
        "until it is unlocked, or the session ends"
    }
}

/// The text of `word`, or an empty text where there is no word.
fn word_text(word: Option<&sql_statements::SqlWord>) -> &str {
    match word {
        Some(word) => word.text.as_str(),
        None => "",
    }
}

/// Adds to `text` how many `lines` there are, and which.
fn push_lines(text: &mut String, lines: &[usize]) -> Result<(), AllocError> {
    let count = lines.len();
    write!(text, "{count}")?;
    let mut is_first = true;
    for line in lines {
        text.push_str(if is_first { ", by line " } else { ", " })?;
        write!(text, "{line}")?;
        is_first = false;
    }
    Ok(())
}
