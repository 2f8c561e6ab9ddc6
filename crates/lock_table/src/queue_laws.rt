//! What the rules of an object's wait queue are for. Each function here is a law: its clause is proved
//! of all contents, and its body is empty.

ghost use Rattle.std.specs.Prelude.{◌≡◌, ◌==◌, ℕ, List, [], false};
ghost use Rattle.std.specs.List.{list_any};
ghost use Rattle.modes_core.specs.declared.modes.Mode.{Mode};
ghost use Rattle.modes_core.specs.declared.tags.Tag.{Tag};
ghost use Rattle.lock_table.specs.Content.{Wait, Content, remove_hold};
ghost use Rattle.lock_table.specs.Clash.{NoConflictingHolder, ClashIs};
ghost use Rattle.lock_table.specs.declared.answering.Answer.{Answer};
ghost use Rattle.lock_table.specs.declared.answering.Answer.TheVariants.{Granted, Queued};
ghost use Rattle.lock_table.specs.Queue.{some_awaits_conflict, joined, WaitingAnswer, Wakes, NoneFreeBehind, NoneFree, NoConflictAmong, IsSplitOf};

/// A request that may wait and is granted conflicts with no other session's hold.
pub fn what_is_granted_conflicts_with_no_holder()
    ensures { (content : Content) (session : ℕ) (tag : Tag) (mode : Mode) →
        WaitingAnswer content session tag mode Granted → NoConflictingHolder content.holds session tag mode }
{}

/// A conditional request that is granted, since it clashes with nothing, conflicts with no other
/// session's hold and with no wait.
pub fn what_is_granted_at_once_conflicts_with_nothing()
    ensures { (content : Content) (session : ℕ) (tag : Tag) (mode : Mode) →
        ClashIs content session tag mode None →
        NoConflictingHolder content.holds session tag mode × (some_awaits_conflict (content.waits tag) mode ≡ false) }
{}

/// A conditional request that is granted, since it clashes with nothing, is granted also if it may wait.
pub fn what_is_granted_at_once_need_not_wait()
    ensures { (content : Content) (session : ℕ) (tag : Tag) (mode : Mode) →
        ClashIs content session tag mode None → WaitingAnswer content session tag mode Granted }
{}

/// Where no two sessions' holds conflict, none do after a wakeup.
pub fn a_wakeup_makes_no_conflict()
    ensures { (before after : Content) (tag : Tag) (granted : List Wait) →
        Wakes before tag granted after → NoConflictAmong before.holds → NoConflictAmong after.holds }
{}

/// After a wakeup of an object's queue nobody who was left in it is free to go.
pub fn whoever_is_left_is_not_free()
    ensures { (before after : Content) (tag : Tag) (granted : List Wait) →
        Wakes before tag granted after → NoneFree after tag }
{}

/// A wakeup splits the queue into those granted and those left, and both keep the order of the queue.
pub fn a_wakeup_splits_the_queue()
    ensures { (before after : Content) (tag : Tag) (granted : List Wait) →
        Wakes before tag granted after → IsSplitOf (before.waits tag) granted (after.waits tag) }
{}

/// A request that may wait has exactly one answer.
pub fn there_is_one_answer()
    ensures { (content : Content) (session : ℕ) (tag : Tag) (mode : Mode) (answer other : Answer) →
        WaitingAnswer content session tag mode answer → WaitingAnswer content session tag mode other → answer ≡ other }
{}

/// A wakeup of a queue has exactly one outcome.
pub fn there_is_one_wakeup()
    ensures { (before after its : Content) (tag : Tag) (granted other : List Wait) →
        Wakes before tag granted after → Wakes before tag other its → (granted ≡ other) × (after ≡ its) }
{}

/// A second wakeup of a queue, right after the first one, grants nobody and changes nothing.
pub fn waking_again_changes_nothing()
    ensures { (before after again : Content) (tag : Tag) (granted more : List Wait) →
        Wakes before tag granted after → Wakes after tag more again → (more ≡ []) × (again ≡ after) }
{}

/// Where nobody in the queue is free to go, nobody is free to go after a request has joined the queue at the
/// place that it is answered.
pub fn joining_leaves_none_free()
    ensures { (content : Content) (session : ℕ) (tag : Tag) (mode : Mode) (place : ℕ) →
        WaitingAnswer content session tag mode (Queued place) → NoneFree content tag →
        NoneFreeBehind [] content.holds tag
        (joined place (record { session = session; mode = mode; held = content.holds session tag })
        (content.waits tag)) }
{}

/// A release wakes no wait of the session that makes it: what was in the way of that wait is still in the
/// way.
pub fn a_release_wakes_none_of_its_own()
    ensures { (before after : Content) (session : ℕ) (tag : Tag) (mode : Mode) (granted : List Wait) →
        NoneFree before tag → Wakes (remove_hold before session tag mode) tag granted after →
        list_any (λ wait. wait.session == session) granted ≡ false }
{}
