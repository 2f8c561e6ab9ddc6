//! What the contracts of a session's calls say together. Each function here is a law: its clause is proved,
//! and its body is empty.

ghost use Rattle.std.specs.Prelude.{◌≡◌, ◌≢◌, ◌⊎◌, ◌<◌, ℕ, true, List, ◌∷◌, ◌++◌, Err, None, Some, slice_get};
ghost use mathlib.Core.Option.{some};
ghost use lib.ListN.{get_elem?};
ghost use Rattle.atomic_table.specs.Table.{State};
ghost use Rattle.modes_core.specs.declared.modes.Mode.{Mode};
ghost use Rattle.modes_core.specs.declared.tags.Tag.{Tag};
ghost use Rattle.modes_core.specs.declared.refusals.How.{How};
ghost use Rattle.modes_core.specs.declared.refusals.Refusal.TheVariants.{Conflict};
ghost use Rattle.wait_queue.specs.declared.requests.Kind.TheVariants.{Conditional};
ghost use Rattle.lock_world.specs.Account.{Account};
ghost use Rattle.lock_world.specs.Headline.{IsInTheWay, NamesWhatIs};
ghost use Rattle.lock_world.specs.Happens.{Runs};
ghost use Rattle.lock_world.specs.World.{World, TraceEntry, opening};
ghost use Rattle.shared_rule.specs.Boards.{Seated, Stack};
ghost use Rattle.shared_rule.specs.History.{told};
ghost use Rattle.shared_rule.specs.Ruled.{Ruled};
ghost use Rattle.shared_rule.specs.declared.history.History.{History};
ghost use Rattle.shared_rule.specs.declared.history.View.{View};
ghost use Rattle.shared_rule.specs.declared.kept.Kept.{Kept};
ghost use Rattle.shared_rule.specs.declared.kept.Kept.TheVariants as kept;
ghost use Rattle.shared_rule.specs.Layout.{content_shelf_of};
ghost use Rattle.lock_records.specs.declared.counts.Counts.{Counts};
ghost use Rattle.lock_records.specs.Counts.{AreCountsOf, CountSessions, IsUntouched};
ghost use Rattle.lock_records.specs.View.{RecordView, content_of};
ghost use Rattle.shared_rule.specs.declared.rule.TableSizes.{TableSizes};
ghost use Rattle.fast_path.specs.declared.use_counts.UseCounts.{UseCounts};
ghost use Rattle.lock_manager.specs.Requests.{Decides};
ghost use Rattle.lock_manager.specs.Rest.{IsAtRest};
ghost use Rattle.lock_manager.specs.Waiting.{IsWaiting};
ghost use Rattle.local_locks.specs.declared.records.Entry.{Entry};
ghost use Rattle.lock_table.specs.OwnWait.{is_for};
ghost use Rattle.lock_world.specs.Counted.{is_counted};

use lock_table::PartTable;

/// A conditional request that is refused with a conflict, as the clause `steps` of `try_lock` describes it,
/// names another session. In the content that was taken for the request that session holds the object in the
/// mode that is named, or awaits the object in that mode, and the mode conflicts with the one asked for.
pub fn a_conflict_names_another_session_in_the_way()
    ensures another { (seat : Seated) (a b : Account) (uses left : UseCounts)
        (tag : Tag) (mode its : Mode) (other : ℕ) (how : How) →
        Decides Conditional seat a uses tag mode (Err (Conflict other its how)) b left → other ≢ seat.number }
    ensures in_the_way { (seat : Seated) (a b : Account) (uses left : UseCounts)
        (tag : Tag) (mode its : Mode) (other : ℕ) (how : How) →
        (decides : Decides Conditional seat a uses tag mode (Err (Conflict other its how)) b left) →
        IsInTheWay decides.taken seat.number tag mode (record { session = other; mode = its; how = how }) }
{}

/// A refusal saw what it names. The rule of the table holds between any two steps of all threads; where it
/// does, let a session's account have gone on from the one that `try_lock` left when it was refused with a
/// conflict, as the clause `steps` of `try_lock` describes it. Events lead from the opening World to the one
/// that the table shows. In a World on their way, in which the session had made just the steps before the
/// episode that decided, the content of the object's partition was the one that was taken. In that content
/// the session named, which is another one, held the object in the mode named, or awaited it in that mode,
/// and the mode conflicts with the one asked for.
pub fn a_refusal_saw_what_it_names<T: PartTable>()
    ensures { (sizes : TableSizes) (state : State (Kept T) (View T)) (rule : Ruled T.content T.begun sizes state)
        (at place : ℕ) (view : View T) (history : History T) → get_elem? state.views at ≡ some view →
        slice_get view.sessions place ≡ Some history → (seat : Seated) (a b : Account) (uses left : UseCounts)
        (tag : Tag) (mode its : Mode) (other : ℕ) (how : How) → seat.number ≡ history.number →
        (decides : Decides Conditional seat a uses tag mode (Err (Conflict other its how)) b left) →
        (after : List TraceEntry) → (told T.content history.number history.marks).trace ≡ b.trace ++ after →
        (run : Runs (opening sizes.sessions sizes.groups) rule.events rule.world) × (way : ℕ) × (world : World)
        × (slice_get (opening sizes.sessions sizes.groups ∷ run.0) way ≡ Some world)
        × (world.sessions.trace seat.number ≡ a.trace ++ decides.steps)
        × NamesWhatIs world seat.number tag mode decides.taken (record { session = other; mode = its; how = how }) }
{}

/// The counts of the running table are exact. The rule of the table holds between any two steps of all
/// threads; where it does, a partition that nobody has in hand has its part at home, with the content that
/// the World has in that partition. What `RecordPart::counts` says of an object of that part is how many
/// sessions hold it in each mode in that content, and how many hold or await it in each mode; where the part
/// has no counts of the object, nobody holds or awaits it.
pub fn the_counts_of_the_table_are_exact()
    ensures { (sizes : TableSizes) (state : State (Kept RecordView) (View RecordView))
        (rule : Ruled content_of (λ part. part.begun) sizes state) (partition : ℕ) → partition < 16 →
        rule.world.contents.hand partition ≡ None →
        (part : RecordView) × (get_elem? state.homes (content_shelf_of partition) ≡ some (some (kept.Part part)))
        × ((tag : Tag) (counts : Counts) → AreCountsOf (content_of part) tag counts →
        CountSessions (rule.world.contents.now partition) tag counts)
        × ((tag : Tag) → IsUntouched (content_of part) tag → IsUntouched (rule.world.contents.now partition) tag) }
{}

/// Nothing is counted without a reason. Between two calls of a session that waits for nothing, as `rest` of
/// each call says it, a strong mode on an object that it has counted is its own hold; of one that waits, its
/// own hold or what it awaits. Within a call a count is for what is being acquired or given up.
pub fn what_is_counted_is_held_or_awaited()
    ensures at_rest { (groups limit database : ℕ) (uses : UseCounts) (a : Account) (stack : Stack) (entries : List Entry)
        → IsAtRest groups limit database uses a stack entries → (tag : Tag) (mode : Mode)
        → is_counted a.fast.counted tag mode ≡ true → a.own tag mode ≡ true }
    ensures in_wait { (groups limit database : ℕ) (uses : UseCounts) (a : Account) (stack : Stack) (entries : List Entry)
        (awaited : Tag) (its : Mode) → IsWaiting groups limit database uses a stack entries awaited its
        → (tag : Tag) (mode : Mode) → is_counted a.fast.counted tag mode ≡ true
        → (a.own tag mode ≡ true) ⊎ (is_for a.awaited tag mode ≡ true) }
{}
