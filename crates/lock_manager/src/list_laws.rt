//! The running table is one plain list of holds and waits: what that list answers where a session's calls do.
//! Each function here is a law: its clause is proved, and its body is empty.

ghost use Rattle.std.specs.Prelude.{◌≡◌, ◌⊎◌, ℕ, true, false, List, ◌∷◌, ◌++◌, Err, Some, slice_get, Result};
ghost use mathlib.Core.Option.{some};
ghost use lib.ListN.{get_elem?};
ghost use Rattle.atomic_table.specs.Table.{State};
ghost use Rattle.modes_core.specs.declared.modes.Mode.{Mode};
ghost use Rattle.modes_core.specs.declared.tags.Tag.{Tag};
ghost use Rattle.modes_core.specs.declared.refusals.How.{How};
ghost use Rattle.modes_core.specs.declared.refusals.Refusal.{Refusal};
ghost use Rattle.modes_core.specs.declared.refusals.Refusal.TheVariants.{Conflict};
ghost use Rattle.wait_queue.specs.declared.requests.Kind.{Kind};
ghost use Rattle.wait_queue.specs.declared.requests.Kind.TheVariants.{Conditional};
ghost use Rattle.wait_queue.specs.declared.requests.Decision.{Decision};
ghost use Rattle.lock_table.specs.Content.{empty_content};
ghost use Rattle.lock_world.specs.Account.{Account};
ghost use Rattle.lock_world.specs.Happens.{Runs};
ghost use Rattle.lock_world.specs.World.{TraceEntry, opening};
ghost use Rattle.one_list.specs.OneList.{list_of, IsRunOfList};
ghost use Rattle.one_list.specs.Moments.{ListIsSafe};
ghost use Rattle.one_list.specs.Requests.{InSomeWorld, IsCleared, IsRefusedByList};
ghost use Rattle.shared_rule.specs.Boards.{Seated};
ghost use Rattle.shared_rule.specs.History.{told};
ghost use Rattle.shared_rule.specs.Ruled.{Ruled, StandsAtSeat};
ghost use Rattle.shared_rule.specs.Tells.{LooksOnly};
ghost use Rattle.shared_rule.specs.declared.history.History.{History};
ghost use Rattle.shared_rule.specs.declared.history.Mark.{Mark};
ghost use Rattle.shared_rule.specs.declared.history.View.{View};
ghost use Rattle.shared_rule.specs.declared.kept.Kept.{Kept};
ghost use Rattle.shared_rule.specs.declared.rule.TableSizes.{TableSizes};
ghost use Rattle.fast_path.specs.declared.use_counts.UseCounts.{UseCounts};
ghost use Rattle.lock_manager.specs.ListAnswers.{IsAnsweredSo};
ghost use Rattle.lock_manager.specs.ListMoments.{HasItsMoment, OneHasItsMoment, ComesToOwn, GivesUp};
ghost use Rattle.lock_manager.specs.Requests.{Decides};

use lock_table::PartTable;

/// The running table is one list. The rule of the table holds between any two steps of all threads; where it
/// does, the events that lead from the opening World to the one that the table shows are a run of one list,
/// from the empty one on. The list that the table shows now is safe, and has what each session owns by its
/// own account.
pub fn the_running_table_is_one_list<T: PartTable>()
    ensures { (sizes : TableSizes) (state : State (Kept T) (View T)) (rule : Ruled T.content T.begun sizes state) →
        (run : Runs (opening sizes.sessions sizes.groups) rule.events rule.world)
        × IsRunOfList empty_content rule.events run.0 × ListIsSafe (list_of rule.world)
        × ((session : ℕ) (tag : Tag) (mode : Mode) → rule.world.sessions.own session tag mode ≡ true →
        (list_of rule.world).holds session tag mode ≡ true) }
{}

/// Each step of a session has its moment in the one list. Where the rule of the table holds, each mark of the
/// history of a session that has a seat is that of a look or a call, which are no steps, or there is an event
/// of the run at which the session made the step that the mark tells, after just the steps that the older
/// marks tell. That event changes nothing in the list, or makes just the move of the step: a mode set in a
/// slot is a grant, a mode cleared there a release, a wait word set a join. So the moves of the steps that a
/// call made come in their order, behind those of earlier calls.
pub fn each_step_of_a_history_has_its_moment<T: PartTable>()
    ensures { (sizes : TableSizes) (state : State (Kept T) (View T)) (rule : Ruled T.content T.begun sizes state)
        (history : History T) → StandsAtSeat state.views history →
        (newer older : List (Mark T)) (mark : Mark T) → history.marks ≡ newer ++ mark ∷ older →
        LooksOnly mark
        ⊎ HasItsMoment (opening sizes.sessions sizes.groups) rule.events rule.world history.number mark older }
{}

/// What a session comes to own has its moment. Where the rule of the table holds, let the history of a
/// session that has a seat have gone on by some marks, as by those of a call, from an account in which the
/// session does not own a mode on an object to one in which it does. Then one of these marks sets the mode in
/// a slot, puts a partition with its grant, or clears the session's wait word, once its wait was granted. Its
/// step has its moment in the run, behind the steps of the marks before it, and so between the two accounts:
/// a mode set in a slot is granted in the one list by that event. Where the session owns the mode first and
/// then not, one of the marks clears it in a slot, puts a partition with its release, or marks somebody
/// granted whom its release wakes, at its moment.
pub fn what_a_session_comes_to_own_has_its_moment<T: PartTable>()
    ensures comes { (sizes : TableSizes) (state : State (Kept T) (View T)) (rule : Ruled T.content T.begun sizes state)
        (history : History T) → StandsAtSeat state.views history → (later between earlier : List (Mark T))
        (tag : Tag) (mode : Mode) → history.marks ≡ later ++ (between ++ earlier) →
        (told T.content history.number earlier).own tag mode ≡ false →
        (told T.content history.number (between ++ earlier)).own tag mode ≡ true →
        OneHasItsMoment (opening sizes.sessions sizes.groups) rule.events rule.world history.number between earlier
        (λ mark. ComesToOwn mark tag mode) }
    ensures goes { (sizes : TableSizes) (state : State (Kept T) (View T)) (rule : Ruled T.content T.begun sizes state)
        (history : History T) → StandsAtSeat state.views history → (later between earlier : List (Mark T))
        (tag : Tag) (mode : Mode) → history.marks ≡ later ++ (between ++ earlier) →
        (told T.content history.number earlier).own tag mode ≡ true →
        (told T.content history.number (between ++ earlier)).own tag mode ≡ false →
        OneHasItsMoment (opening sizes.sessions sizes.groups) rule.events rule.world history.number between earlier
        (λ mark. GivesUp mark tag mode) }
{}

/// An answer of a request is the list's. The rule of the table holds between any two steps of all threads;
/// where it does, let a session's account have gone on from the one that a request of the session left which
/// was decided in the table, as the clauses `steps` of `try_lock`, `start`, `lock` and `acquire` describe it.
/// Events lead from the opening World to the one that the table shows. In a World on their way, in which the
/// session had made just the steps before the episode that decided, so between call and return, the whole
/// list answers the request as it was answered: granted, queued, or refused by just that name. So it does
/// where the mode is weak, or was counted past each session then.
pub fn an_answer_of_a_request_is_the_lists<T: PartTable>()
    ensures { (sizes : TableSizes) (state : State (Kept T) (View T)) (rule : Ruled T.content T.begun sizes state)
        (history : History T) → StandsAtSeat state.views history → (kind : Kind) (seat : Seated) (a b : Account)
        (uses left : UseCounts) (tag : Tag) (mode : Mode) (result : Result Decision Refusal) →
        seat.number ≡ history.number → (decides : Decides kind seat a uses tag mode result b left) →
        (after : List TraceEntry) → (told T.content history.number history.marks).trace ≡ b.trace ++ after →
        (run : Runs (opening sizes.sessions sizes.groups) rule.events rule.world)
        × InSomeWorld (opening sizes.sessions sizes.groups ∷ run.0) seat.number (a.trace ++ decides.steps)
        (λ world. IsCleared world seat.number tag mode → IsAnsweredSo kind (list_of world) seat.number tag mode result) }
{}

/// A refusal of `try_lock` is the list's. Where the rule of the table holds, let a session's account have
/// gone on from the one that `try_lock` left when it was refused with a conflict, as its clause `steps`
/// describes it. In a World on the way of the events, in which the session had made just the steps before the
/// episode that decided, so between call and return, the whole list refuses the request, and what is named is
/// in the way in the list. Where the mode is weak the list refuses it by just that name.
pub fn a_refusal_of_try_lock_is_the_lists<T: PartTable>()
    ensures { (sizes : TableSizes) (state : State (Kept T) (View T)) (rule : Ruled T.content T.begun sizes state)
        (history : History T) → StandsAtSeat state.views history → (seat : Seated) (a b : Account)
        (uses left : UseCounts) (tag : Tag) (mode its : Mode) (other : ℕ) (how : How) → seat.number ≡ history.number →
        (decides : Decides Conditional seat a uses tag mode (Err (Conflict other its how)) b left) →
        (after : List TraceEntry) → (told T.content history.number history.marks).trace ≡ b.trace ++ after →
        (run : Runs (opening sizes.sessions sizes.groups) rule.events rule.world)
        × InSomeWorld (opening sizes.sessions sizes.groups ∷ run.0) seat.number (a.trace ++ decides.steps)
        (λ world. IsRefusedByList world seat.number tag mode (record { session = other; mode = its; how = how })) }
{}
