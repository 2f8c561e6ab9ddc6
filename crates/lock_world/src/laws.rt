//! What holds in every World that a list of events leads to. Each function here is a law: its clause is
//! proved, and its body is empty. Every World of a run is safe (`every_world_is_safe`), so what the laws say
//! of a safe World they say of each of these. The laws that speak of runs, or of one event, say so.

ghost use Rattle.std.specs.Prelude.{◌≡◌, ◌≢◌, ◌↔◌, ◌⊎◌, ◌<◌, ◌≤◌, ◌+◌, ◌*◌, ◌^◌, ◌==◌, ℕ, List, [], ◌∷◌, true, false, Some, None, slice_get, count_by, length, if◌then◌else◌};
ghost use Rattle.modes_core.specs.declared.modes.Mode.{Mode};
ghost use Rattle.modes_core.specs.declared.tags.Tag.{Tag};
ghost use Rattle.modes_core.specs.declared.tags.Tag.TheVariants.{Relation};
ghost use Rattle.modes_core.specs.Conflict.{conflict};
ghost use Rattle.modes_core.specs.Tag.{index_of, partition_of, is_strong_on};
ghost use Rattle.lock_world.specs.declared.events.Event.{Event};
ghost use Rattle.lock_table.specs.Content.{Wait};
ghost use Rattle.lw_word.specs.LightweightWord.{IsHeldExclusively, IsListLocked, shared_count};
ghost use Rattle.lw_word.specs.WaitList.{stands_in, times_in};
ghost use Rattle.lock_table.specs.OwnWait.{OwnWait, entry_of, is_for};
ghost use Rattle.lock_table.specs.Queue.{NoneFree, waits_there, awaits_mode};
ghost use Rattle.lock_table.specs.declared.rows.TableRow.{TableRow};
ghost use Rattle.lock_table.specs.Listing.{IsListing};
ghost use Rattle.lock_table.specs.WholeContent.{whole_of};
ghost use Rattle.lock_table.specs.Total.{total, how_many};
ghost use Rattle.lock_world.specs.Tallies.{AreSoMany, OwnStand, ShowsLeft, shown_in_slots};
ghost use Rattle.lw_word.specs.SlotWord.{in_use, shows};
ghost use Rattle.lock_world.specs.SlotHolds.{IsHeldIn, OneSlotEach, InUseHasDatabase, AreInGroups, NoSlotInUse};
ghost use Rattle.lock_world.specs.SlotHolds.{slot_count, group_size, most_groups};
ghost use Rattle.lock_world.specs.Counted.{AtMostOnce, counter, is_done, is_past};
ghost use Rattle.lock_world.specs.WaitLists.{partition_lock, fast_lock};
ghost use Rattle.lock_world.specs.WaitWord.{wait_state, is_asked, asked_word, granted_word};
ghost use Rattle.lock_world.specs.World.{World, opening, is_unmarked};
ghost use Rattle.lock_world.specs.Happens.{Happens, RunsThrough, Runs, last_of};
ghost use Rattle.lock_world.specs.Safe.{is_hand_of};
ghost use Rattle.lock_world.specs.SafeWorld.{SafeWorld, slots_of};
ghost use Rattle.lock_world.specs.Headline.{NoTwoConflict, Headline, RefusalsSawWhatTheyName};
ghost use Rattle.lock_world.specs.Account.{IsLeftAlone, account};
ghost use Rattle.lock_world.specs.Closed.{empty_account};

/// The World before the first event is safe, of any number of sessions that the count of a lightweight word
/// can hold, with any number of groups of slots.
pub fn opening_is_safe()
    ensures { (limit groups : ℕ) → limit < 2 ^ 24 → SafeWorld (opening limit groups) }
{}

/// Where an event is lawful in a safe World, the World after it is safe.
pub fn each_event_is_safe()
    ensures { (w v : World) (event : Event) → SafeWorld w → Happens w event v → SafeWorld v }
{}

/// Whatever list of events comes, lawful or not, the World that it leads to is safe, and so is each World on
/// the way.
pub fn every_world_is_safe()
    ensures last { (limit groups : ℕ) (events : List Event) (w : World) → limit < 2 ^ 24 →
        Runs (opening limit groups) events w → SafeWorld w }
    ensures on_the_way { (limit groups : ℕ) (events : List Event) (worlds : List World) (place : ℕ) (w : World) →
        limit < 2 ^ 24 → RunsThrough (opening limit groups) events worlds → slice_get worlds place ≡ Some w →
        SafeWorld w }
{}

/// A list of events leads to one World and no other.
pub fn one_world_comes()
    ensures { (limit groups : ℕ) (events : List Event) (w v : World) → limit < 2 ^ 24 →
        Runs (opening limit groups) events w → Runs (opening limit groups) events v → w ≡ v }
{}

/// Every safe World has the headline: no two sessions have conflicting modes on one object, wherever these
/// are held; each hold is in one place, one slot or the content of one partition, so as many sessions have a
/// mode on an object as slots show it and the content has it together; and each strong lock counter is how
/// much is counted.
pub fn no_two_sessions_conflict()
    ensures no_two_conflict { (w : World) → SafeWorld w → NoTwoConflict w }
    ensures whole { (w : World) → SafeWorld w → Headline w }
{}

/// A refusal saw what it names: where the content that a session took has something in the way of a
/// conditional request of its own, a World on the way of the run, the one in which the session took that
/// content, had just that in the way. In that World the session that the refusal names, another one, had the
/// named mode on the object, or awaited it, in conflict with the mode asked for.
pub fn a_refusal_saw_what_it_names()
    ensures { (limit groups : ℕ) (events : List Event) (worlds : List World) → limit < 2 ^ 24 →
        RunsThrough (opening limit groups) events worlds →
        RefusalsSawWhatTheyName (opening limit groups ∷ worlds) (last_of (opening limit groups) worlds) }
{}

/// In a safe World no two sessions hold conflicting modes on one object, wherever the holds are: both in
/// contents of partitions, one in a fast-path slot (two in slots never conflict by their modes), and so by
/// the sessions' own accounts.
pub fn no_two_conflicting_holds()
    ensures in_contents { (w : World) → SafeWorld w →
        (p session other : ℕ) (tag : Tag) (mode its : Mode) → session ≢ other →
        (w.contents.now p).holds session tag mode ≡ true → (w.contents.now p).holds other tag its ≡ true →
        conflict mode its ≡ false }
    ensures slot_and_content { (w : World) → SafeWorld w →
        (p session other : ℕ) (tag : Tag) (mode its : Mode) →
        slots_of w.words.database w.words.slot session tag mode ≡ true → (w.contents.now p).holds other tag its ≡ true →
        conflict mode its ≡ false }
    ensures own { (w : World) → SafeWorld w →
        (session other : ℕ) (tag : Tag) (mode its : Mode) → session ≢ other →
        w.sessions.own session tag mode ≡ true → w.sessions.own other tag its ≡ true → conflict mode its ≡ false }
{}

/// In a safe World a hold is in a content exactly where the object is of that partition and the hold is the
/// session's own and in none of its slots, or its pending grant: what it awaits, where its wait word shows
/// that this was granted, or that grant is unmarked in the hand that has the partition. What a slot shows is
/// its session's own hold, and is in no content and in no other slot; a relation has one slot of a session at
/// most, whatever its modes, and that one is of the relation's group, so past the groups that there are none
/// is in use. Each mode bit of a slot is such a hold, on the relation of that number in the session's
/// database: a session that has a slot in use has a database. What a session awaits is no own hold of it, so
/// no hold is both.
pub fn each_hold_in_one_place()
    ensures in_content { (w : World) → SafeWorld w →
        (p session : ℕ) (tag : Tag) (mode : Mode) →
        ((w.contents.now p).holds session tag mode ≡ true)
        ↔ ((partition_of tag ≡ p)
        × (((w.sessions.own session tag mode ≡ true)
        × (slots_of w.words.database w.words.slot session tag mode ≡ false))
        ⊎ ((is_for (w.sessions.awaited session) tag mode ≡ true)
        × ((wait_state (w.words.wait session) ≡ 2) ⊎ (is_unmarked (w.contents.hand p) session ≡ true))))) }
    ensures in_slot { (w : World) → SafeWorld w →
        (p session : ℕ) (tag : Tag) (mode : Mode) → slots_of w.words.database w.words.slot session tag mode ≡ true →
        (w.sessions.own session tag mode ≡ true) × ((w.contents.now p).holds session tag mode ≡ false) }
    ensures one_slot { (w : World) → SafeWorld w →
        (session place other : ℕ) (tag : Tag) (mode : Mode) →
        IsHeldIn (w.words.database session) (w.words.slot session) tag mode place →
        IsHeldIn (w.words.database session) (w.words.slot session) tag mode other → place ≡ other }
    ensures one_slot_of_a_relation { (w : World) → SafeWorld w → (session : ℕ) → OneSlotEach (w.words.slot session) }
    ensures in_use_has_database { (w : World) → SafeWorld w →
        (session : ℕ) → InUseHasDatabase (w.words.database session) (w.words.slot session) }
    ensures in_its_group { (w : World) → SafeWorld w →
        (session : ℕ) → AreInGroups w.numbers.groups (w.words.slot session) }
    ensures none_past_the_groups { (w : World) → SafeWorld w → 0 < w.numbers.groups →
        (session place : ℕ) → group_size * w.numbers.groups ≤ place → place < slot_count →
        in_use (w.words.slot session place) ≡ false }
    ensures each_bit_is_a_hold { (w : World) → SafeWorld w →
        (session place relation : ℕ) (mode : Mode) → place < slot_count →
        shows (w.words.slot session place) relation mode ≡ true →
        w.sessions.own session (Relation (w.words.database session) relation) mode ≡ true }
    ensures never_both { (w : World) → SafeWorld w →
        (session : ℕ) (tag : Tag) (mode : Mode) → is_for (w.sessions.awaited session) tag mode ≡ true →
        w.sessions.own session tag mode ≡ false }
{}

/// In a safe World each strong lock counter is how much is counted at its index: by each session, each mode
/// on each object once at most. A strong mode that a session has, or awaits, is counted and past each
/// session, and so is each strong hold and each strong wait in a content; and where something counted for an
/// object is past a session, no slot of that session has the object.
pub fn counters_show_what_is_counted()
    ensures shown { (w : World) → SafeWorld w → (index : ℕ) →
        w.words.strong index ≡ counter w.numbers.limit w.sessions.counted index }
    ensures once { (w : World) → SafeWorld w → (session : ℕ) → AtMostOnce (w.sessions.counted session) }
    ensures held { (w : World) → SafeWorld w → (session : ℕ) (tag : Tag) (mode : Mode) → is_strong_on tag mode ≡ true →
        w.sessions.own session tag mode ≡ true →
        is_done w.numbers.limit (w.sessions.counted session) tag mode ≡ true }
    ensures awaited { (w : World) → SafeWorld w → (session : ℕ) (tag : Tag) (mode : Mode) →
        is_strong_on tag mode ≡ true → is_for (w.sessions.awaited session) tag mode ≡ true →
        is_done w.numbers.limit (w.sessions.counted session) tag mode ≡ true }
    ensures held_in_content { (w : World) → SafeWorld w → (p session : ℕ) (tag : Tag) (mode : Mode) →
        is_strong_on tag mode ≡ true → (w.contents.now p).holds session tag mode ≡ true →
        is_done w.numbers.limit (w.sessions.counted session) tag mode ≡ true }
    ensures awaited_in_content { (w : World) → SafeWorld w → (p session : ℕ) (tag : Tag) (mode : Mode) →
        is_strong_on tag mode ≡ true → awaits_mode ((w.contents.now p).waits tag) session mode ≡ true →
        is_done w.numbers.limit (w.sessions.counted session) tag mode ≡ true }
    ensures past { (w : World) → SafeWorld w → (session other : ℕ) (tag : Tag) (mode : Mode) →
        is_past (w.sessions.counted session) tag other ≡ true →
        slots_of w.words.database w.words.slot other tag mode ≡ false }
{}

/// In a safe World a session that has read a strong lock counter as 0, and has not put the lock of its own
/// slots since, holds that lock, and nothing that anybody has counted for an object of that index is past it,
/// granted or not. So nobody has a strong mode on such an object, nor awaits one, and the session may set a
/// slot for it.
pub fn a_counter_read_as_zero_is_a_permission()
    ensures lock_is_held { (w : World) → SafeWorld w → (session index : ℕ) → w.sessions.zero session ≡ Some index →
        w.sessions.holds_fast session session ≡ true }
    ensures nobody_is_past { (w : World) → SafeWorld w → (session other : ℕ) (tag : Tag) →
        w.sessions.zero session ≡ Some (index_of tag) → is_past (w.sessions.counted other) tag session ≡ false }
    ensures nobody_strong { (w : World) → SafeWorld w → (session other : ℕ) (tag : Tag) (mode : Mode) →
        w.sessions.zero session ≡ Some (index_of tag) → is_strong_on tag mode ≡ true →
        (w.sessions.own other tag mode ≡ false) × (is_for (w.sessions.awaited other) tag mode ≡ false) }
{}

/// In a safe World nobody who waits is free to go: each waits for a holder in its way, or for somebody
/// before it in the queue.
pub fn nobody_who_waits_is_free()
    ensures { (w : World) → SafeWorld w →
        (p : ℕ) (tag : Tag) → NoneFree (w.contents.now p) tag }
{}

/// In a safe World each entry of a queue, at any place, is the wait that its session has recorded, on the
/// object of the queue, which is an object of the partition that has the queue. A session is at most once in
/// a queue, and in one queue at most.
pub fn a_session_waits_once()
    ensures recorded { (w : World) → SafeWorld w →
        (p place : ℕ) (tag : Tag) (entry : Wait) → slice_get ((w.contents.now p).waits tag) place ≡ Some entry →
        (partition_of tag ≡ p)
        × ((wait : OwnWait) × (w.sessions.awaited entry.session ≡ Some wait) × (wait.tag ≡ tag)
        × (entry ≡ entry_of entry.session wait)) }
    ensures once { (w : World) → SafeWorld w →
        (p session : ℕ) (tag : Tag) → count_by (λ wait. wait.session == session) ((w.contents.now p).waits tag) ≤ 1 }
    ensures in_one_queue { (w : World) → SafeWorld w →
        (p q session : ℕ) (tag other : Tag) →
        waits_there ((w.contents.now p).waits tag) session ≡ true →
        waits_there ((w.contents.now q).waits other) session ≡ true →
        (p ≡ q) × (tag ≡ other) }
{}

/// In a safe World a wait word shows 0 exactly where its session has no wait. It shows waiting where the
/// session is in a queue, and where it shows that and the partition is at home, the session is in its
/// object's queue. Where it shows granted, what the session awaits is a hold in the content, and not its own
/// yet.
pub fn wait_words_tell()
    ensures idle { (w : World) → SafeWorld w →
        (session : ℕ) → (wait_state (w.words.wait session) ≡ 0) ↔ (w.sessions.awaited session ≡ None) }
    ensures queued { (w : World) → SafeWorld w →
        (p session : ℕ) (tag : Tag) → waits_there ((w.contents.now p).waits tag) session ≡ true →
        wait_state (w.words.wait session) ≡ 1 }
    ensures waiting { (w : World) → SafeWorld w →
        (session : ℕ) (wait : OwnWait) → w.sessions.awaited session ≡ Some wait →
        w.contents.hand (partition_of wait.tag) ≡ None →
        wait_state (w.words.wait session) ≡ 1 →
        waits_there ((w.contents.now (partition_of wait.tag)).waits wait.tag) session ≡ true }
    ensures granted { (w : World) → SafeWorld w →
        (session : ℕ) → wait_state (w.words.wait session) ≡ 2 →
        (wait : OwnWait) × (w.sessions.awaited session ≡ Some wait)
        × ((w.contents.now (partition_of wait.tag)).holds session wait.tag wait.mode ≡ true)
        × (w.sessions.own session wait.tag wait.mode ≡ false) }
{}

/// In a safe World a partition's word shows an exclusive holder exactly where a session has the partition
/// in hand, and the content is in that session's hand.
pub fn partition_words_show_the_hand()
    ensures shown { (w : World) → SafeWorld w →
        (p : ℕ) → IsHeldExclusively (w.words.partition p)
        ↔ ((session : ℕ) × (w.sessions.holds_partition session p ≡ true)) }
    ensures in_hand { (w : World) → SafeWorld w → (p session : ℕ) →
        w.sessions.holds_partition session p ≡ is_hand_of (w.contents.hand p) session }
{}

/// In a safe World the word of a lightweight lock, a partition's or that of a session's fast-path slots,
/// counts those who share it, and nobody shares it while somebody holds it exclusively; the word of a
/// session's fast-path slots shows an exclusive holder exactly where there is one, and there is one at most.
pub fn lightweight_words_show_who_holds_them()
    ensures partition_shared { (w : World) → SafeWorld w → (p : ℕ) →
        shared_count (w.words.partition p)
        ≡ how_many w.numbers.limit (λ session. w.sessions.shares_partition session p) }
    ensures partition_never_both { (w : World) → SafeWorld w → (p session other : ℕ) →
        w.sessions.holds_partition session p ≡ true → w.sessions.shares_partition other p ≡ false }
    ensures fast_exclusive { (w : World) → SafeWorld w → (owner : ℕ) →
        IsHeldExclusively (w.words.fast owner) ↔ ((session : ℕ) × (w.sessions.holds_fast session owner ≡ true)) }
    ensures fast_by_one { (w : World) → SafeWorld w → (owner session other : ℕ) →
        w.sessions.holds_fast session owner ≡ true → w.sessions.holds_fast other owner ≡ true → session ≡ other }
    ensures fast_shared { (w : World) → SafeWorld w → (owner : ℕ) →
        shared_count (w.words.fast owner) ≡ how_many w.numbers.limit (λ session. w.sessions.shares_fast session owner) }
    ensures fast_never_both { (w : World) → SafeWorld w → (owner session other : ℕ) →
        w.sessions.holds_fast session owner ≡ true → w.sessions.shares_fast other owner ≡ false }
{}

/// In a safe World the word of a lightweight lock shows that its wait list is locked exactly where a session
/// has that list in hand, and no more than one has it. A session is only in the list that its own account
/// names, once, and its sleep word shows that it waits; where the account names none, that word shows 0. The
/// sleep word of a session that was taken off a list and not woken yet shows that.
pub fn wait_lists_are_in_order()
    ensures partition_locked { (w : World) → SafeWorld w → (p : ℕ) →
        IsListLocked (w.words.partition p) ↔ ((session : ℕ) × (w.sessions.has_list session ≡ Some (partition_lock p))) }
    ensures fast_locked { (w : World) → SafeWorld w → (owner : ℕ) →
        IsListLocked (w.words.fast owner) ↔ ((session : ℕ) × (w.sessions.has_list session ≡ Some (fast_lock owner))) }
    ensures in_one_hand { (w : World) → SafeWorld w → (lock session other : ℕ) →
        w.sessions.has_list session ≡ Some lock → w.sessions.has_list other ≡ Some lock → session ≡ other }
    ensures named { (w : World) → SafeWorld w → (lock session : ℕ) → stands_in session (w.words.list lock) ≡ true →
        (w.sessions.stands session ≡ Some lock) × (w.words.sleep session ≡ 1) }
    ensures once { (w : World) → SafeWorld w → (lock session : ℕ) → times_in session (w.words.list lock) ≤ 1 }
    ensures idle { (w : World) → SafeWorld w → (session : ℕ) →
        w.sessions.stands session ≡ None → w.words.sleep session ≡ 0 }
    ensures taken_off { (w : World) → SafeWorld w → (session other : ℕ) →
        w.sessions.off session other ≡ true → w.words.sleep other ≡ 2 }
{}

/// In a safe World no two sessions have one partition in hand.
pub fn one_hand_at_a_time()
    ensures { (w : World) → SafeWorld w →
        (p session other : ℕ) →
        w.sessions.holds_partition session p ≡ true → w.sessions.holds_partition other p ≡ true → session ≡ other }
{}

/// In a safe World a session number that is not live has no hold, by its own account, in each content and in
/// its slots, of which none is in use, no wait, recorded or in a queue, no partition in hand, no lightweight
/// lock, exclusively or shared, nothing counted, no wait list in hand, and is in no wait list.
pub fn spent_sessions_have_nothing()
    ensures no_hold { (w : World) → SafeWorld w →
        (session p : ℕ) (tag : Tag) (mode : Mode) → w.numbers.live session ≡ false →
        (w.sessions.own session tag mode ≡ false) × ((w.contents.now p).holds session tag mode ≡ false)
        × (slots_of w.words.database w.words.slot session tag mode ≡ false) }
    ensures no_slot { (w : World) → SafeWorld w → (session : ℕ) → w.numbers.live session ≡ false →
        NoSlotInUse (w.words.slot session) }
    ensures no_count { (w : World) → SafeWorld w → (session : ℕ) → w.numbers.live session ≡ false →
        w.sessions.counted session ≡ [] }
    ensures no_wait { (w : World) → SafeWorld w →
        (session p : ℕ) (tag : Tag) → w.numbers.live session ≡ false →
        (w.sessions.awaited session ≡ None) × (waits_there ((w.contents.now p).waits tag) session ≡ false) }
    ensures no_hand { (w : World) → SafeWorld w →
        (session p : ℕ) → w.numbers.live session ≡ false → w.sessions.holds_partition session p ≡ false }
    ensures no_lock { (w : World) → SafeWorld w →
        (session lock : ℕ) → w.numbers.live session ≡ false →
        (w.sessions.shares_partition session lock ≡ false) × (w.sessions.holds_fast session lock ≡ false)
        × (w.sessions.shares_fast session lock ≡ false) }
    ensures no_list { (w : World) → SafeWorld w →
        (session lock : ℕ) → w.numbers.live session ≡ false →
        (w.sessions.has_list session ≡ None) × (stands_in session (w.words.list lock) ≡ false) }
{}

/// In each World of a run the account of a session number that is not live (not given out yet, or closed) has
/// nothing in it: no hold, no wait, nothing in hand, counted, read or remembered, nobody to wake, and no step
/// in its trace. The database in the account is the one that the word of that session's database shows.
pub fn closed_numbers_are_forgotten()
    ensures { (limit groups : ℕ) (events : List Event) (w : World) (session : ℕ) → limit < 2 ^ 24 →
        Runs (opening limit groups) events w → w.numbers.live session ≡ false →
        account w session ≡ empty_account (w.words.database session) }
{}

/// In a safe World a session number that was not given out has no trace; a session that is kept apart is
/// live, and so is the one that keeps it apart.
pub fn numbers_are_in_order()
    ensures new { (w : World) → SafeWorld w → (session : ℕ) →
        w.numbers.issued ≤ session → w.sessions.trace session ≡ [] }
    ensures kept_apart { (w : World) → SafeWorld w → (session joiner : ℕ) → w.numbers.kept_by session ≡ Some joiner →
        (w.numbers.live session ≡ true) × (w.numbers.live joiner ≡ true) }
{}

/// Asking a session to cancel sets bit 2 of its wait word, whatever the word is: the session is asked from
/// then on, what the word says of the session's wait stays, and asking a second time changes nothing.
pub fn asking_sets_one_bit()
    ensures asked { (word : ℕ) → is_asked (asked_word word) ≡ true }
    ensures same_state { (word : ℕ) → wait_state (asked_word word) ≡ wait_state word }
    ensures sum { (word : ℕ) → asked_word word ≡ (if is_asked word then word else word + 4) }
{}

/// An event leaves every session alone that does not make it: its account, that is its own holds, its wait
/// and what it has seen of that, what it has in hand with its contents, what it knows of slots, counters and
/// wait lists, and its trace; the words that it holds; and whether its number is live and kept apart. The
/// event leaves the wait word of such a session, or sets the bit in it that asks to cancel, or turns it from
/// waiting into granted.
pub fn others_are_untouched()
    ensures account { (w v : World) (event : Event) (other : ℕ) →
        SafeWorld w → Happens w event v → other ≢ event.session → IsLeftAlone w v other }
    ensures wait_word { (w v : World) (event : Event) (other : ℕ) → Happens w event v → other ≢ event.session →
        (v.words.wait other ≡ w.words.wait other)
        ⊎ ((v.words.wait other ≡ asked_word (w.words.wait other))
        ⊎ ((wait_state (w.words.wait other) ≡ 1) × (v.words.wait other ≡ granted_word (w.words.wait other)))) }
{}

/// In each World of a run the holds of a session that waits for nothing are in its slots or in contents: what
/// contents have of the session is its own, and the word of each of its slots shows just its own holds that
/// it remembers there and that no content has. In what the session remembers a relation has one slot at most,
/// in the relation's group; and the number of groups never changes.
pub fn own_holds_are_in_slots_or_contents()
    ensures stand { (limit groups : ℕ) (events : List Event) (w : World) (session : ℕ) → limit < 2 ^ 24 →
        Runs (opening limit groups) events w → w.sessions.awaited session ≡ None →
        OwnStand groups session (account w session) w.contents.now }
    ensures as_many_groups { (limit groups : ℕ) (events : List Event) (w : World) →
        Runs (opening limit groups) events w → w.numbers.groups ≡ groups }
    ensures shows { (limit groups : ℕ) (events : List Event) (w : World) (session place : ℕ) → limit < 2 ^ 24 →
        Runs (opening limit groups) events w → place < slot_count →
        ShowsLeft session (account w session) w.contents.now place (w.words.slot session place) }
{}

/// In each World of a run in which nobody waits, what all slots show and the granted rows of all contents
/// together are as much as all sessions own; and in each World all strong lock counters together show how
/// much is counted.
pub fn what_all_sessions_own_adds_up()
    ensures holds { (limit groups : ℕ) (events : List Event) (w : World) (rows : List TableRow) (many : ℕ → ℕ) →
        limit < 2 ^ 24 → 0 < groups → groups ≤ most_groups → Runs (opening limit groups) events w →
        ((session : ℕ) → w.sessions.awaited session ≡ None) →
        IsListing (whole_of w.contents.now) rows →
        ((session : ℕ) → AreSoMany (w.sessions.own session) (many session)) →
        shown_in_slots w.numbers.limit groups w.words.slot + count_by (λ (row : TableRow). row.granted) rows
        ≡ total w.numbers.limit many }
    ensures counters { (w : World) → SafeWorld w →
        total 1024 w.words.strong ≡ total w.numbers.limit (λ session. length (w.sessions.counted session)) }
{}
