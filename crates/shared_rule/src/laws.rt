//! Laws of the layout, each a clause over all words, and what the rule of the table keeps. The bodies are
//! empty.

ghost use Rattle.std.specs.Prelude.{◌≡◌, ◌≢◌, ◌⊎◌, ◌<◌, ◌≤◌, ℕ, List, [], ◌∷◌, ◌++◌, Some, true, false, slice_set, slice_index};
ghost use mathlib.Core.Option.{some};
ghost use lib.ListN.{get_elem?};
ghost use Rattle.atomic_table.specs.Table.{State};
ghost use Rattle.lock_world.specs.World.{World, Hand, TraceEntry, opening};
ghost use Rattle.shared_rule.specs.declared.rule.TableSizes.{TableSizes};
ghost use Rattle.shared_rule.specs.declared.history.History.{History};
ghost use Rattle.shared_rule.specs.declared.history.Mark.{Mark};
ghost use Rattle.shared_rule.specs.History.{told, lone, spent_view};
ghost use Rattle.shared_rule.specs.WasSo.{WasSo, WasInSlot};
ghost use Rattle.modes_core.specs.declared.modes.Mode.{Mode};
ghost use Rattle.modes_core.specs.declared.tags.Tag.{Tag};
ghost use Rattle.lock_table.specs.declared.moves.Move.TheVariants.{Adopt};
ghost use Rattle.lock_world.specs.declared.events.Word.{Word};
ghost use Rattle.shared_rule.specs.Layout.{index_of_word, words_of, IsInTable, IsGap, IsApart, group_of};
ghost use Rattle.lock_world.specs.World.{Words};
ghost use Rattle.shared_rule.specs.Shown.{WordsAreShown, set_word};
ghost use Rattle.shared_rule.specs.declared.history.View.{View};
ghost use Rattle.shared_rule.specs.declared.kept.Kept.{Kept};
ghost use Rattle.shared_rule.specs.Headline.{ShowsHeadline, ShowsReasons, ShowsSleepers, ShowsCalls, ShowsNoCircle};
ghost use Rattle.shared_rule.specs.Tells.{Leads, steps_of};
ghost use Rattle.shared_rule.specs.Quiet.{quiet_told, quiet_of};
ghost use Rattle.shared_rule.specs.Ruled.{Ruled, StandsAtSeat, StandsClosed, HasSeat, HasClosedHistory, NobodyElse, StepsAreTold};
ghost use Rattle.shared_rule.specs.Marks.{LoadedStrong};
ghost use Rattle.lock_world.specs.declared.events.Word.TheVariants.{Strong};

use lock_table::PartTable;

/// A table that keeps the rule, as it does between any two steps of all threads, shows a World that has the
/// headline: no two sessions stand with conflicting modes on one object. Each hold is in one place, a slot of
/// its session or the content of a partition, and each strong lock counter is how much is counted at its
/// index.
pub fn the_table_shows_no_two_sessions_in_conflict<T: PartTable>()
    ensures { (sizes : TableSizes) (state : State (Kept T) (View T)) → Ruled T.content T.begun sizes state
        → ShowsHeadline T.content T.begun sizes state }
{}

/// A table that keeps the rule shows a World in which every session that waits has a reason. Where the
/// object's partition is at home, another session holds the object in a mode that conflicts with the one
/// awaited, or one that waits before it awaits such a mode; otherwise its wait word shows the grant.
pub fn the_table_shows_why_each_session_waits<T: PartTable>()
    ensures { (sizes : TableSizes) (state : State (Kept T) (View T)) → Ruled T.content T.begun sizes state
        → ShowsReasons T.content T.begun sizes state }
{}

/// A table that keeps the rule forgets no session that sleeps for a lightweight lock, whatever the steps of
/// the threads and their order. It shows a World in which, where a lock's wait list has a waiter, a session
/// has the lock or something to do for it: a look at the list, the list itself, an attempt, or the release-ok
/// flag. The session's history says what it has to do. So a session that sleeps is in a wait list, and one
/// that makes steps has that list's lock or something to do for it; or the sleeper was taken off its list,
/// and a session that makes steps has still to tell it so.
pub fn the_table_forgets_no_sleeper<T: PartTable>()
    ensures { (sizes : TableSizes) (state : State (Kept T) (View T)) → Ruled T.content T.begun sizes state
        → ShowsSleepers T.content T.begun sizes state }
{}

/// A table that keeps the rule loses no call, whatever the steps of the threads and their order. It shows a
/// World to which turns of all sessions led: events, looks and calls. Each session's turns are those that its
/// history tells, one for each mark and in order. A session parks on its wait word where that shows that it
/// waits, and on its sleep word where that doesn't show that it was told; a call since it loaded the word
/// wakes it. A session that is parked on what its word no more shows is owed a call: a session that makes
/// steps has it to wake, as its history tells.
pub fn the_table_loses_no_call<T: PartTable>()
    ensures { (sizes : TableSizes) (state : State (Kept T) (View T)) → Ruled T.content T.begun sizes state
        → ShowsCalls T.content T.begun sizes state }
{}

/// No circle of sleepers comes at a table that keeps the rule. It shows a World in which nobody stands in the
/// wait list of a lightweight lock while it has a later one: first come the locks of slots, then the
/// partitions, the lowest first. Whoever is parked, on its wait word or its sleep word, has nothing left to
/// do that others may wait for. So not all are parked who have a lightweight lock, something to do for one,
/// somebody to tell or a call to make, where there are any, or where anybody is parked for a lightweight
/// lock: a chain of waiting ends at a session that runs.
pub fn the_table_lets_no_circle_of_sleepers_come<T: PartTable>()
    ensures { (sizes : TableSizes) (state : State (Kept T) (View T)) → Ruled T.content T.begun sizes state
        → ShowsNoCircle T.content T.begun sizes state }
{}

/// Each word of a table, for any number of sessions and of groups of slots, is at an index below the table's
/// length.
pub fn each_word_is_within_the_table()
    ensures { (sizes : TableSizes) → 0 < sizes.groups → (word : Word) → IsInTable sizes word →
        index_of_word sizes.sessions word < words_of sizes.sessions sizes.groups }
{}

/// Two words of a table that have one index are one word.
pub fn no_two_words_share_an_index()
    ensures { (sizes : TableSizes) (word other : Word) → IsInTable sizes word → IsInTable sizes other →
        index_of_word sizes.sessions word ≡ index_of_word sizes.sessions other → word ≡ other }
{}

/// The words of two partitions are at least 128 bytes apart; so are the words of two sessions, and the words
/// of a partition, of the strong lock counters and of a session from each other.
pub fn words_of_two_groups_stand_apart()
    ensures { (sizes : TableSizes) (word other : Word) → IsInTable sizes word → IsInTable sizes other →
        group_of word ≢ group_of other →
        IsApart (index_of_word sizes.sessions word) (index_of_word sizes.sessions other) }
{}

/// Where a table shows the words of a World, a table with one word set shows those with just that word set.
pub fn a_word_is_set_alone()
    ensures { (sizes : TableSizes) → 0 < sizes.groups → (table : List ℕ) (words : Words) (word : Word)
        (n : ℕ) → WordsAreShown sizes table words → IsInTable sizes word →
        WordsAreShown sizes (slice_set table (index_of_word sizes.sessions word) n) (set_word words word n) }
{}

/// Where the rule holds, whatever a session's account tells of what it has seen was so: each entry of its
/// trace is about a World on the way of events that lead from the World before the first step to the one that
/// the table shows now. This holds for the sessions that seats are for, and for those that have closed.
pub fn what_an_account_tells_was_so<T: PartTable>()
    ensures at_seat { (sizes : TableSizes) (state : State (Kept T) (View T)) (rule : Ruled T.content T.begun sizes state)
        (history : History T) → StandsAtSeat state.views history →
        (before after : List TraceEntry) (entry : TraceEntry) →
        (told T.content history.number history.marks).trace ≡ before ++ entry ∷ after →
        WasSo sizes rule.world history.number before entry }
    ensures closed { (sizes : TableSizes) (state : State (Kept T) (View T)) (rule : Ruled T.content T.begun sizes state)
        (history : History T) → StandsClosed state.views history →
        (before after : List TraceEntry) (entry : TraceEntry) →
        (told T.content history.number history.marks).trace ≡ before ++ entry ∷ after →
        WasSo sizes rule.world history.number before entry }
{}

/// Where the rule holds, events lead from the World before the first step to the one that the table shows,
/// each of them happening in its turn, and the steps among them of each session are those that its history
/// tells, one for each mark, in order, and no other: of the sessions that seats are for, of those that have
/// closed, and of a number not given out, which has made none. Each live session has a seat, where its
/// history is.
pub fn no_step_was_made_but_those_told<T: PartTable>()
    ensures run { (sizes : TableSizes) (state : State (Kept T) (View T)) (rule : Ruled T.content T.begun sizes state) →
        Leads (opening sizes.sessions sizes.groups) rule.events rule.world }
    ensures steps { (sizes : TableSizes) (state : State (Kept T) (View T)) (rule : Ruled T.content T.begun sizes state) →
        StepsAreTold state.views rule.world.numbers rule.events }
{}

/// Where the rule holds, each number that was given out has its history: at a seat, where its session is
/// live, or with the opener, where it has closed. So no session's steps are in no history.
pub fn each_number_given_out_has_its_history<T: PartTable>()
    ensures { (sizes : TableSizes) (state : State (Kept T) (View T)) (rule : Ruled T.content T.begun sizes state)
        (number : ℕ) → number < rule.world.numbers.issued →
        HasSeat state.views number ⊎ HasClosedHistory state.views number }
{}

/// No load of a strong lock counter lies: where the rule holds, nobody else has made a step, and the load is
/// a session's last step, it shows what the counter's word shows. Where others make steps too, it shows what
/// the word showed in a World on the way, by `what_an_account_tells_was_so`, and no step but those that
/// histories tell led there.
pub fn no_load_of_a_counter_lies<T: PartTable>()
    ensures { (sizes : TableSizes) (state : State (Kept T) (View T)) → Ruled T.content T.begun sizes state →
        (number index shown : ℕ) (marks : List (Mark T)) →
        StandsAtSeat state.views (record { number = number; marks = LoadedStrong index shown ∷ marks }) →
        index < 1024 → NobodyElse state.views number →
        shown ≡ slice_index state.words (index_of_word sizes.sessions (Strong index)) }
{}

/// The quiet steps of a session are those of the run: where the rule holds, what its history tells of them is
/// what the steps tell that it made, of each session that seats are for and of each that has closed. So no
/// lock of slots is taken or shared, no mode set in a slot and no strong lock counted that isn't told,
/// whatever undoes it later.
pub fn the_quiet_steps_are_those_of_the_run<T: PartTable>()
    ensures at_seat { (sizes : TableSizes) (state : State (Kept T) (View T)) (rule : Ruled T.content T.begun sizes state)
        (history : History T) → StandsAtSeat state.views history →
        quiet_told history.marks ≡ quiet_of [] (steps_of history.number rule.events) }
    ensures closed { (sizes : TableSizes) (state : State (Kept T) (View T)) (rule : Ruled T.content T.begun sizes state)
        (history : History T) → StandsClosed state.views history →
        quiet_told history.marks ≡ quiet_of [] (steps_of history.number rule.events) }
{}

/// An adopt moves what its slot had. Where the rule holds, let a partition be in hand with the adopt of a
/// session's slot recorded: a hold that its content has of that session, and that the content taken had not,
/// was in that slot, with the partition in hand with that content taken, in a World on the way of the events
/// that led there.
pub fn an_adopt_moves_what_its_slot_had<T: PartTable>()
    ensures { (sizes : TableSizes) (state : State (Kept T) (View T)) (rule : Ruled T.content T.begun sizes state)
        (partition owner slot : ℕ) (tag : Tag) (mode : Mode) (hand : Hand) →
        rule.world.contents.hand partition ≡ Some hand → hand.recorded ≡ Some (Adopt owner slot) →
        hand.taken.holds owner tag mode ≡ false → (rule.world.contents.now partition).holds owner tag mode ≡ true →
        WasInSlot (opening sizes.sessions sizes.groups) rule.world rule.events partition owner slot tag mode hand.taken }
{}

/// Nobody writes into the gaps between a table's words: where the rule holds, each gap shows what the table
/// opened with.
pub fn gaps_are_never_written<T: PartTable>()
    ensures { (sizes : TableSizes) (state : State (Kept T) (View T)) → Ruled T.content T.begun sizes state →
        (index : ℕ) → IsGap sizes index → slice_index state.words index ≡ 0 }
{}

/// No seat vanishes: where the rule holds of a table's state in which a seat is for one session, it doesn't
/// hold of that state without the view of that seat.
pub fn no_seat_vanishes<T: PartTable>()
    ensures { (sizes : TableSizes) (state : State (Kept T) (View T)) → Ruled T.content T.begun sizes state →
        (seat number : ℕ) (marks : List (Mark T)) → get_elem? state.views seat ≡ some (lone number marks) →
        Ruled T.content T.begun sizes (record {
          words = state.words;
          homes = state.homes;
          views = slice_set state.views seat spent_view;
        }) → ⊥ }
{}
