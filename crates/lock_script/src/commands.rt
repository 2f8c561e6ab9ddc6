//! The commands of the language: a row for each, which the parse, its errors and every help go by.
ghost use Rattle.std.specs.Prelude.{◌≡◌, Some, None, is_some, length, map, codes, true, IfSome, MatchOption};
ghost use Rattle.std.specs.List.{list_all};
ghost use Rattle.std.specs.Str.{bytes_eq};
ghost use Rattle.lock_script.specs.Defects.{commands, look_commands, words_behind};
ghost use Rattle.lock_script.specs.Rows.{kinds_in, looks_in};

/// What a word after a command has to be.
#[derive(Clone, Copy)]
pub enum WordKind {
    /// A name that no open session has.
    FreeName,
    /// The name of an open session.
    OpenName,
    /// The name of an open session that doesn't wait.
    CallerName,
    /// A number, 0 to 4294967295.
    Number,
    /// The index of a strong lock counter, 0 to 1023.
    CounterIndex,
    /// A name that no object has.
    FreeObjectName,
    /// The lock tag or the name of an object that has no name.
    FreeTag,
    /// The lock tag or the name of an object.
    TagWord,
    /// The name of a lock mode.
    ModeName,
    /// The word `session`, for the session itself as the owner. It comes last, and may be left out.
    OwnerWord,
}

/// A command of the language of scripts.
#[derive(Clone, Copy)]
pub struct CommandRow {
    /// The word with which the command's lines begin.
    pub verb: &'static str,
    /// What the words after the verb have to be.
    pub kinds: &'static [WordKind],
    /// The words after the verb, as a help names them.
    pub form: &'static str,
    /// What the command does, as a help says it.
    pub help: &'static str,
    /// The second line of what the command does, as a help says it, or nothing.
    pub help_below: &'static str,
    /// Whether the command only looks: no session and no lock changes.
    pub looks: bool,
    /// Whether the command may make the session wait that calls it.
    pub may_wait: bool,
}

/// Rows of commands, each with the verb, the kinds of the words behind it, their form, whether the command
/// acts, only looks or may wait, and its help, on one line or two.
macro_rules! rows {
    ($($verb:literal [$($kind:ident)*] $form:literal $does:ident $help:literal $($below:literal)?;)+) => {
        [$(CommandRow {
            verb: $verb,
            kinds: &[$(WordKind::$kind),*],
            form: $form,
            help: $help,
            help_below: below!($($below)?),
            looks: looks!($does),
            may_wait: may_wait!($does),
        }),+]
    };
}

/// The second line of a help.
macro_rules! below {
    () => { "" };
    ($below:literal) => { $below };
}

/// Whether a command only looks.
macro_rules! looks {
    (looks) => { true };
    ($does:ident) => { false };
}

/// Whether a command may wait.
macro_rules! may_wait {
    (may_wait) => { true };
    ($does:ident) => { false };
}

/// All commands of the language of scripts, in the order of the help.
static COMMANDS: [CommandRow; 21] = rows! {
    "session" [FreeName Number] "NAME DB" acts "open a session of a database";
    "name" [FreeObjectName FreeTag] "OBJECT TAG" acts "give an object a name, which stands for its tag";
    "try" [CallerName TagWord ModeName OwnerWord] "NAME TAG MODE [session]" acts
        "take a lock, if nothing is in the way";
    "fast" [CallerName TagWord ModeName OwnerWord] "NAME TAG MODE [session]" acts
        "take a lock by a fast-path slot, or not at all";
    "lock" [CallerName TagWord ModeName OwnerWord] "NAME TAG MODE [session]" may_wait
        "take a lock, and wait for it if need be";
    "unlock" [CallerName TagWord ModeName OwnerWord] "NAME TAG MODE [session]" acts
        "give one count of a lock back";
    "unlock_all" [CallerName] "NAME" acts "give back all advisory locks of the session";
    "commit" [CallerName] "NAME" acts "drop what the transaction owns";
    "abort" [CallerName] "NAME" acts
        "drop what the transaction and the session own," "but for the session's advisory locks";
    "begin" [CallerName] "NAME" acts "begin a level of the transaction, a savepoint";
    "subcommit" [CallerName] "NAME" acts "end it; what it owns goes to the level outside";
    "subabort" [CallerName] "NAME" acts "end it, and drop what it owns";
    "owned" [CallerName TagWord ModeName] "NAME TAG MODE" looks
        "say how often each of the two owns a lock: the" "transaction's innermost level, and the session";
    "waiters" [CallerName TagWord ModeName] "NAME TAG MODE" looks
        "say whether somebody awaits a conflicting mode";
    "queue" [CallerName TagWord] "NAME TAG" looks "list who waits for an object, in order";
    "blockers" [CallerName OpenName TagWord] "NAME OTHER TAG" looks
        "list who is in the way of one that waits";
    "cancel" [CallerName OpenName] "BY NAME" acts "ask a session to stop waiting";
    "list" [CallerName] "NAME" looks "list all locks";
    "count" [CallerName CounterIndex] "NAME INDEX" looks "say what a strong lock counter shows";
    "hash" [TagWord] "TAG" looks "say a tag's hash, partition and counter";
    "close" [CallerName] "NAME" acts "close a session";
};

/// All commands of the language of scripts, in the order of the help.
pub fn command_rows() -> &'static [CommandRow]
    ensures words { map (λ command. kinds_in command.0 result.now) commands ≡ map (λ command. Some command.1) commands }
    ensures looks { map (λ command. looks_in command.0 result.now) commands
        ≡ map (λ command. Some (is_some (words_behind command.0 look_commands))) commands }
    ensures none_else { list_all (λ row. is_some (words_behind row.verb.now commands)) result.now ≡ true }
    ensures no_more { length result.now ≡ length commands }
    ensures only_lock { map (λ row. row.may_wait) result.now ≡ map (λ row. bytes_eq row.verb.now (codes "lock")) result.now }
{
    COMMANDS.as_slice()
}

/// The row of the command whose lines begin with `verb`, if there is one.
pub fn command_row(verb: &str) -> Option<&'static CommandRow>
    ensures verb { IfSome result (λ row. row.now.verb.now ≡ verb.now) }
    ensures kinds { MatchOption result (words_behind verb.now commands ≡ None)
        (λ row. words_behind verb.now commands ≡ Some row.now.kinds.now) }
{
    'rows: for row in command_rows() {
        if row.verb == verb {
            return Some(row);
        }
    }
    None
}

impl CommandRow {
    /// The place of the command's first word of `kind`, counted from 1 after the verb, if the command has
    /// such a word.
    pub fn place_of(&self, kind: WordKind) -> Option<usize> {
        let place = self.kinds.iter().position(|other| *other == kind)?;
        Some(place + 1)
    }
}
