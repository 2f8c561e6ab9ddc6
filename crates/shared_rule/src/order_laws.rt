//! When steps were made: laws of the order in which sessions make their steps on a table that keeps its rule.
//! The bodies are empty.

ghost use Rattle.std.specs.Prelude.{◌≡◌, ℕ, List, ◌∷◌, Some, slice_get, slice_index};
ghost use mathlib.Core.Option.{some};
ghost use lib.ListN.{get_elem?};
ghost use Rattle.atomic_table.specs.Table.{State};
ghost use Rattle.lock_world.specs.declared.events.Word.{Word};
ghost use Rattle.shared_rule.specs.declared.history.History.{History};
ghost use Rattle.shared_rule.specs.declared.history.Mark.{Mark};
ghost use Rattle.shared_rule.specs.declared.history.PlacedView.{PlacedView};
ghost use Rattle.shared_rule.specs.declared.kept.Kept.{Kept};
ghost use Rattle.shared_rule.specs.declared.rule.TableSizes.{TableSizes};
ghost use Rattle.shared_rule.specs.Layout.{index_of_word, IsInTable};
ghost use Rattle.shared_rule.specs.Places.{RuledInOrder, place_of, word_loaded, NoneIsLater, AllAreEarlier, HasMadeStep};

use lock_table::PartTable;

/// Each step is made last. Let the rule hold of a table's state, and of one in which the first session of a
/// seat has made one step more. Then the place of that step among the steps of all sessions is beyond the
/// place of each one's last step before, and nobody's is beyond it. So no step can be put before one that was
/// made earlier, whoever made it.
pub fn each_step_is_made_last<T: PartTable>()
    ensures earlier { (sizes : TableSizes) (before after : State (Kept T) (PlacedView T)) →
        RuledInOrder T.content T.begun sizes before → RuledInOrder T.content T.begun sizes after →
        (seat : ℕ) (first : History T) (mark : Mark T) (now : PlacedView T) →
        HasMadeStep before.views after.views seat first mark now →
        AllAreEarlier before.views (place_of now.places first.number) }
    ensures last { (sizes : TableSizes) (before after : State (Kept T) (PlacedView T)) →
        RuledInOrder T.content T.begun sizes before → RuledInOrder T.content T.begun sizes after →
        (seat : ℕ) (first : History T) (mark : Mark T) (now : PlacedView T) →
        HasMadeStep before.views after.views seat first mark now →
        NoneIsLater after.views (place_of now.places first.number) }
{}

/// No load lies. Where the rule holds, let a session's last step be a load, of whatever word, and let
/// nobody's last step have a later place in the run, as it is right after each step
/// (`each_step_is_made_last`). Then the load shows what its word shows.
pub fn no_load_lies<T: PartTable>()
    ensures { (sizes : TableSizes) (state : State (Kept T) (PlacedView T)) →
        RuledInOrder T.content T.begun sizes state →
        (seat at : ℕ) (placed : PlacedView T) (number : ℕ) (mark : Mark T) (marks : List (Mark T)) →
        get_elem? state.views seat ≡ some placed →
        slice_get placed.view.sessions at ≡ Some (record { number = number; marks = mark ∷ marks }) →
        (word : Word) (shown : ℕ) → word_loaded number mark ≡ Some (word, shown) → IsInTable sizes word →
        NoneIsLater state.views (place_of placed.places number) →
        shown ≡ slice_index state.words (index_of_word sizes.sessions word) }
{}
