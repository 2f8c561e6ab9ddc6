//! What the helps of the command line show beside their options.

use crate::forms::{push_script_lines, push_sql_lines, push_verbs};
use crate::statuses::push_statuses_of_run;
use std::alloc::{AllocError, Global};

/// The texts that `--help` and `run --help` show beside the options.
#[derive(Drop)]
pub struct Helps {
    /// The words with which a script's lines begin.
    pub program: String,
    /// Each line of a script with its words, what the words may be, and how a run ends.
    pub run: String,
}

impl Helps {
    /// The texts of the help, made of the table of commands.
    pub fn new(alloc: Global) -> Result<Self, AllocError> {
        let mut program = String::from_str(alloc, "Lines of a script begin with:\n")?;
        push_verbs(alloc, &mut program)?;
        program.push_str("\n\n")?;
        program.push_str(PROGRAM_EXAMPLE)?;
        let mut run = String::from_str(
            alloc,
            "Lines of a script, after lock_scenario run < FILE:\n",
        )?;
        push_script_lines(&mut run)?;
        run.push('\n')?;
        push_sql_lines(&mut run)?;
        run.push('\n')?;
        push_statuses_of_run(alloc, &mut run)?;
        run.push_str("\n\n")?;
        run.push_str(RUN_EXAMPLES)?;
        Ok(Helps { program, run })
    }
}

/// The example that `--help` shows.
const PROGRAM_EXAMPLE: &str = "Example:
  lock_scenario run --sessions 2 < scenarios/object_lock.scn";

/// The examples of `run --help`.
const RUN_EXAMPLES: &str = "Examples:
  lock_scenario run < scenarios/object_lock.scn
  lock_scenario run --json < scenarios/object_lock.scn | jq .
  lock_scenario run --graph dot < FILE | sed -n '/^digraph/,/^}/p' | dot -Tsvg
  lock_scenario run --json --graph dot < FILE |
    jq -r 'select(.graph).text' | dot -Tsvg
  lock_scenario run --keep --summary --fail-on refused,stuck < FILE
  lock_scenario run --sql --summary < scenarios/sql/alter_behind_a_long_read.scn";

/// What `modes --help` shows beside its options.
pub const MODES_HELP: &str =
    "Each line has a mode's number, its name, and the modes that it conflicts with: a
hexadecimal number, whose bit 1 << NUMBER stands for the mode of that number.

Example:
  lock_scenario modes";

/// What `hammer --help` shows beside its options.
pub const HAMMER_HELP: &str =
    "Each session locks and unlocks relations 5/16384 to 5/16387 in every mode, in a
thread of its own. Then each takes AccessShareLock on 5/16384, and the first one
ShareLock on 5/16385. Two lines tell what stands in fast-path slots and in the
table, and the sum of the strong lock counters: by an audit then, and when all
sessions are closed.

Example:
  lock_scenario hammer --sessions 4 --rounds 1000";

/// What `orders --help` shows beside its options.
pub const ORDERS_HELP: &str =
    "The lines that open sessions come first. Each session's other lines keep their
order, and those of different sessions are merged in every way in which only a
session that can go on has its next line. Of orders that differ only in
neighbouring lines that have nothing to do with one another one is run. An order
is stuck where nobody who has lines left can go on, as in a deadlock. For each
way to end, the answers of each session and who is left waiting, it prints how
many orders that were run lead there, and the first of them as a script.

Where there are more than K orders, half of the K are the first ones and half
are drawn: each session that can go on comes next as likely as it has lines left.
The last lines say whether all were run.

Examples:
  lock_scenario orders < scenarios/a_deadlock_over_two_tables.scn
  lock_scenario orders --ends < scenarios/an_upgrade_of_two_shared_locks.scn
  lock_scenario orders --limit 1000 --seed 7 < FILE";

/// What `shell --help` shows beside its options.
pub const SHELL_HELP: &str =
    "Type the lines of a script, which lock_scenario run --help has, help, help COMMAND,
help STATEMENT, as in help alter table, help MODE, help modes, or end. A bad line
is explained, and the shell goes on.

Example:
  lock_scenario shell";
