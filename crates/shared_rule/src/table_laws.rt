//! What can be read in a table that keeps its rule. Each function is a law: its clause is proved, and its
//! body is empty.

ghost use Rattle.atomic_table.specs.Table.{State};
ghost use Rattle.shared_rule.specs.declared.rule.TableSizes.{TableSizes};
ghost use Rattle.shared_rule.specs.declared.history.View.{View};
ghost use Rattle.shared_rule.specs.declared.kept.Kept.{Kept};
ghost use Rattle.shared_rule.specs.Headline.{ShowsRefusals};
ghost use Rattle.shared_rule.specs.Ruled.{Ruled};
ghost use Rattle.shared_rule.specs.TableHeadline.{NoTwoConflictAtTable};

use lock_table::PartTable;

/// By what the words of a table that keeps the rule and the contents at home show, as they do between any two
/// steps of all threads, no two sessions have conflicting modes on one object. A session has a mode where a
/// word of its slots shows it, or where the word of the object's partition shows that nobody holds it, and
/// the content that is at home there has it.
pub fn no_two_conflict_at_the_table<T: PartTable>()
    ensures { (sizes : TableSizes) (state : State (Kept T) (View T)) → Ruled T.content T.begun sizes state
        → NoTwoConflictAtTable T.content sizes state }
{}

/// A table that keeps the rule shows a World to which events have led from the opening one. A session for
/// which a conditional request was refused held the object in the mode named, or awaited it so, in the World
/// on the way in which the session that asked took the content of the object's partition. What else a safe
/// World promises is so in the last.
pub fn the_table_shows_what_each_refusal_saw<T: PartTable>()
    ensures { (sizes : TableSizes) (state : State (Kept T) (View T)) → Ruled T.content T.begun sizes state
        → ShowsRefusals T.content T.begun sizes state }
{}
