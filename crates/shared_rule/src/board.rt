//! Shared state as one session sees it. All that a session does on it goes by these calls, each of them one
//! atomic step (or several attempts at one), so what is proved over any board holds for the table that
//! threads share and for the fake that tests use.

ghost use Rattle.std.specs.Prelude.{◌≡◌, ◌<◌, ◌≤◌, ◌*◌, ◌||◌, ◌==◌, ℕ, List, [], ◌∷◌, map, Some, None, true};
ghost use Rattle.modes_core.specs.Tag.{partition_of};
ghost use Rattle.lock_table.specs.declared.moves.Move.TheVariants.{Join};
ghost use Rattle.lock_table.specs.Content as contents;
ghost use Rattle.lock_table.specs.Content.{add_hold};
ghost use Rattle.lock_table.specs.OwnWait.{OwnWait};
ghost use Rattle.lock_table.specs.Waiter.{whose_and_mode};
ghost use Rattle.lock_world.specs.declared.events.Word.TheVariants.{Database, Slot, Wait};
ghost use Rattle.lock_world.specs.WaitWord.{wait_state};
ghost use Rattle.lock_world.specs.World.{Loaded, AskedToCancel};
ghost use Rattle.lock_world.specs.Account.{Account, InHand, SlotsInHand};
ghost use Rattle.lock_world.specs.SlotHolds.{group_size, most_groups, slot_holds};
ghost use Rattle.lock_world.specs.AccountSteps.{account_taking, account_putting};
ghost use Rattle.lock_world.specs.AccountSteps.{account_putting_fast, account_unsharing_fast};
ghost use Rattle.lock_world.specs.AccountSteps.{account_passing, account_counting};
ghost use Rattle.lock_world.specs.AccountSteps.{account_uncounting, account_tracing, account_waiting};
ghost use Rattle.lock_world.specs.AccountSteps.{account_reading, account_storing, account_setting};
ghost use Rattle.lock_world.specs.AccountSteps.{account_unsetting, account_transferring};
ghost use Rattle.lock_world.specs.AccountFacts.{KnowsContent};
ghost use Rattle.lock_world.specs.AccountLaw.{MayMoveBy, MayLeaveBy, MayPutFastBy, MayUnshareFastBy};
ghost use Rattle.lock_world.specs.AccountLaw.{MayPassBy, MayCountBy, MayUncountBy};
ghost use Rattle.lock_world.specs.AccountLaw.{MaySetSlotBy, MayClearSlotBy, MayTransferBy};
ghost use Rattle.shared_rule.specs.History.{taken_of, slots_here, in_hand, is_among, sessions_told};
ghost use Rattle.shared_rule.specs.History.{account_granting, account_cleared, account_left};
ghost use Rattle.shared_rule.specs.Quiet.{Quiet, TakesSlots, SharesSlots, SetsSlot, CountsStrong, StoresDatabase, quiet_trying};
ghost use Rattle.shared_rule.specs.Slots.{TakesFast, SharesFast, TriesFast};
ghost use Rattle.shared_rule.specs.Boards.{Seated, Stack, nothing_due, stack_taking, stack_putting};
ghost use Rattle.shared_rule.specs.Boards.{stack_owing, stack_asking, stack_waking};
ghost use Rattle.shared_rule.specs.Lawful.{MayPutPart, IsGrantingIn, MayMarkBy, MayClearBy, HasJustLooked};
ghost use Rattle.shared_rule.specs.Lawful.{IsAboveHand};
ghost use Rattle.shared_rule.specs.Seats.{HoldsNothing};
ghost use Rattle.shared_rule.specs.Waiters.{WaitsExist};

use crate::busy::Busy;
use lock_table::{Move, PartTable};
use lw_word::SlotWord;
use modes_core::{Mode, SessionId, Tag};
use std::sync::Wait;

/// One session's board. Contracts see the session's account: its holds, what it has in hand and counted, its
/// trace. They also see its quiet steps, which leave no trace: each call says which of them it makes.
///
/// All sessions take lightweight locks in one order: the lock of a session's slots only with no other one in
/// hand, and then partitions in rising order. Partitions go home in the opposite order of their taking. A
/// session that lets another one go, or asks it to cancel its wait, owes it a wake, and takes no lock before.
pub trait Board<T: PartTable> {
    // Whose board it is, how many sessions there can be, how many groups of slots each has, and at which
    // table.
    ghost seat: { Self → Seated };

    // The session's account.
    ghost view: { Self → Account };

    // What it has to do yet: the partitions to put, and the sessions to wake.
    ghost stack: { Self → Stack };

    // Its steps that the account may not tell, the last one first.
    ghost quiet: { Self → List Quiet };

    /// The number of the board's session, which is less than `sessions` answers.
    fn number(&self) -> SessionId
        ensures value { result ≡ (seat self.now).number }
        ensures exists { result < (seat self.now).limit };

    /// How many sessions there can be.
    fn sessions(&self) -> u16
        ensures { result ≡ (seat self.now).limit };

    /// How many groups of fast-path slots each session has, 1 to 8 (`FastPathLockGroupsPerBackend` in proc.h
    /// of version 18).
    fn groups(&self) -> u8
        ensures value { result ≡ (seat self.now).groups }
        ensures some { 0 < (seat self.now).groups }
        ensures few { (seat self.now).groups ≤ most_groups };

    /// Takes the lightweight lock of partition `part` exclusively, and its content in hand (`LWLockAcquire`
    /// in lwlock.c). The call waits until the lock is free.
    fn take_part<R: Wait>(&mut self, rt: &R, part: u8) -> T
        requires exists { part < 16 }
        requires rising { IsAboveHand (view self.old) part }
        requires none_owed { (stack self.old).owed ≡ [] }
        ensures seat { seat self.new ≡ seat self.old }
        ensures view { view self.new ≡ account_taking (view self.old) part (T.content result) }
        ensures stack { stack self.new ≡ stack_taking (stack self.old) part }
        ensures quiet { quiet self.new ≡ quiet self.old }
        ensures none_begun { T.begun result ≡ None }
        ensures knows { KnowsContent (seat self.old).number (view self.old) part (T.content result) }
        ensures waiters { WaitsExist (seat self.old).limit (T.content result) };

    /// Puts `content` home to partition `part` after the move `done`, and releases the partition's
    /// lightweight lock (`LWLockRelease` in lwlock.c).
    fn put_part(&mut self, part: u8, done: &Move, content: T)
        requires exists { part < 16 }
        requires in_hand { (others : List ℕ) × ((stack self.old).parts ≡ part ∷ others) }
        requires none_begun { T.begun content ≡ None }
        requires lawful { (mine : InHand) × MayPutPart (seat self.old).limit (seat self.old).number (view self.old)
            part mine done.now (T.content content) }
        ensures seat { seat self.new ≡ seat self.old }
        ensures view { view self.new ≡
            account_putting (view self.old) part (taken_of ((view self.old).hand part)) (T.content content) done.now }
        ensures stack { stack self.new ≡ stack_putting (stack self.old) }
        ensures quiet { quiet self.new ≡ quiet self.old };

    /// Takes the lock of the fast-path slots of `owner` exclusively, whether its number is issued or not
    /// (`fpInfoLock` in proc.h). The call waits until the lock is free.
    fn take_fast<R: Wait>(&mut self, rt: &R, owner: SessionId)
        requires exists { owner < (seat self.old).limit }
        requires nothing_due { stack self.old ≡ nothing_due }
        requires no_content { (part : ℕ) → (view self.old).hand part ≡ None }
        requires no_slots { (view self.old).fast.slots ≡ (λ _. None) }
        requires no_shared_slots { (view self.old).fast.shared_slots ≡ (λ _. None) }
        ensures seat { seat self.new ≡ seat self.old }
        ensures taken { TakesFast (seat self.old).groups (seat self.old).number (view self.old) owner (view self.new) }
        ensures stack { stack self.new ≡ stack self.old }
        ensures quiet { quiet self.new ≡ TakesSlots owner ∷ quiet self.old };

    /// Takes the lock of the session's own fast-path slots if nobody holds that lock: a load of the lock's
    /// word and, where bits 0 to 24 are all 0, one exchange that expects the very number loaded
    /// (`LWLockConditionalAcquire` in lwlock.c). `Busy` where somebody holds the lock, or changed its word
    /// meanwhile.
    fn try_take_fast(&mut self) -> Result<(), Busy>
        requires nothing_due { stack self.old ≡ nothing_due }
        requires no_slots { (view self.old).fast.slots ≡ (λ _. None) }
        requires no_shared_slots { (view self.old).fast.shared_slots ≡ (λ _. None) }
        ensures seat { seat self.new ≡ seat self.old }
        ensures tried { TriesFast (seat self.old).groups (seat self.old).number (view self.old) result (view self.new) }
        ensures stack { stack self.new ≡ stack self.old }
        ensures quiet { quiet self.new ≡ quiet_trying (seat self.old).number result (quiet self.old) };

    /// Releases the lock of the fast-path slots of `owner`, which the session holds exclusively
    /// (`LWLockRelease` in lwlock.c).
    fn put_fast(&mut self, owner: SessionId)
        requires exists { owner < (seat self.old).limit }
        requires lawful { (slots : SlotsInHand) × MayPutFastBy (view self.old) owner slots }
        ensures seat { seat self.new ≡ seat self.old }
        ensures view { view self.new ≡ account_putting_fast (seat self.old).number (view self.old) owner }
        ensures stack { stack self.new ≡ stack self.old }
        ensures quiet { quiet self.new ≡ quiet self.old };

    /// Shares the lock of the fast-path slots of `owner`, whether its number is issued or not, so that nobody
    /// changes them while others may read them too (`fpInfoLock` in `LW_SHARED`, as `GetLockStatusData` in
    /// lock.c takes it). The call waits until nobody holds the lock exclusively.
    fn share_fast<R: Wait>(&mut self, rt: &R, owner: SessionId)
        requires exists { owner < (seat self.old).limit }
        requires nothing_due { stack self.old ≡ nothing_due }
        requires no_content { (part : ℕ) → (view self.old).hand part ≡ None }
        requires no_slots { (view self.old).fast.slots ≡ (λ _. None) }
        requires no_shared_slots { (view self.old).fast.shared_slots ≡ (λ _. None) }
        ensures seat { seat self.new ≡ seat self.old }
        ensures shared { SharesFast (seat self.old).groups (seat self.old).number (view self.old) owner
            (view self.new) }
        ensures stack { stack self.new ≡ stack self.old }
        ensures quiet { quiet self.new ≡ SharesSlots owner ∷ quiet self.old };

    /// Gives back the session's share of the lock of the fast-path slots of `owner` (`LWLockRelease` in
    /// lwlock.c).
    fn unshare_fast(&mut self, owner: SessionId)
        requires exists { owner < (seat self.old).limit }
        requires lawful { (slots : SlotsInHand) × MayUnshareFastBy (view self.old) owner slots }
        ensures seat { seat self.new ≡ seat self.old }
        ensures view { view self.new ≡ account_unsharing_fast (view self.old) owner }
        ensures stack { stack self.new ≡ stack self.old }
        ensures quiet { quiet self.new ≡ quiet self.old };

    /// Releases the lock of the fast-path slots of `owner`, and goes past that session with the strong lock
    /// of `mode` on `tag`, which is counted (the end of a turn of the loop in `FastPathTransferRelationLocks`
    /// in lock.c).
    fn pass_fast(&mut self, owner: SessionId, tag: &Tag, mode: Mode)
        requires exists { owner < (seat self.old).limit }
        requires lawful { (slots : SlotsInHand) × MayPassBy (view self.old) owner slots tag.now mode }
        ensures seat { seat self.new ≡ seat self.old }
        ensures view { view self.new ≡ account_passing (seat self.old).number (view self.old) owner tag.now mode }
        ensures stack { stack self.new ≡ stack self.old }
        ensures quiet { quiet self.new ≡ quiet self.old };

    /// Counts a strong lock of `mode` on `tag` in the strong lock counter of `tag`; the strong lock has gone
    /// past no session yet (`BeginStrongLockAcquire` in lock.c).
    fn add_strong(&mut self, tag: &Tag, mode: Mode)
        requires lawful { MayCountBy (view self.old) tag.now mode }
        ensures seat { seat self.new ≡ seat self.old }
        ensures view { view self.new ≡ account_counting (view self.old) tag.now mode }
        ensures stack { stack self.new ≡ stack self.old }
        ensures quiet { quiet self.new ≡ CountsStrong tag.now mode ∷ quiet self.old };

    /// Takes the count of the strong lock of `mode` on `tag` back (`AbortStrongLockAcquire` and
    /// `RemoveLocalLock` in lock.c).
    fn sub_strong(&mut self, tag: &Tag, mode: Mode)
        requires lawful { MayUncountBy (view self.old) tag.now mode }
        ensures seat { seat self.new ≡ seat self.old }
        ensures view { view self.new ≡ account_uncounting (view self.old) tag.now mode }
        ensures stack { stack self.new ≡ stack self.old }
        ensures quiet { quiet self.new ≡ quiet self.old };

    /// Loads the database of `owner`, 0 where it has none (`databaseId` in proc.h).
    fn load_database(&mut self, owner: SessionId) -> u64
        requires exists { owner < (seat self.old).limit }
        ensures seat { seat self.new ≡ seat self.old }
        ensures view { view self.new ≡ account_tracing (view self.old) (Loaded (Database owner) result) }
        ensures stack { stack self.new ≡ stack self.old }
        ensures quiet { quiet self.new ≡ quiet self.old }
        ensures of_slots { (slots : SlotsInHand) → (view self.old).fast.slots owner ≡ Some slots
            → slots.holds ≡ slot_holds result slots.word }
        ensures of_shared_slots { (slots : SlotsInHand) → (view self.old).fast.shared_slots owner ≡ Some slots
            → slots.holds ≡ slot_holds result slots.word }
        ensures own { owner ≡ (seat self.old).number → result ≡ (view self.old).fast.database };

    /// Stores `database` as that of the session, which holds nothing: as it is new (`InitPostgres` in
    /// postinit.c), or goes on to serve somebody else.
    fn store_database(&mut self, database: u32)
        requires no_hold { HoldsNothing (view self.old) }
        ensures seat { seat self.new ≡ seat self.old }
        ensures view { view self.new ≡ account_storing (view self.old) database }
        ensures stack { stack self.new ≡ stack self.old }
        ensures quiet { quiet self.new ≡ StoresDatabase database ∷ quiet self.old };

    /// Loads the fast-path slot `slot` of `owner`, one of those of its groups (`fpRelId` and `fpLockBits` in
    /// proc.h).
    fn load_slot(&mut self, owner: SessionId, slot: u8) -> SlotWord
        requires exists { owner < (seat self.old).limit }
        requires within { slot < group_size * (seat self.old).groups }
        ensures seat { seat self.new ≡ seat self.old }
        ensures view { view self.new ≡ account_tracing (view self.old) (Loaded (Slot owner slot) result) }
        ensures stack { stack self.new ≡ stack self.old }
        ensures quiet { quiet self.new ≡ quiet self.old }
        ensures of_slots { (slots : SlotsInHand) → (view self.old).fast.slots owner ≡ Some slots
            → result ≡ slots.word slot }
        ensures of_shared_slots { (slots : SlotsInHand) → (view self.old).fast.shared_slots owner ≡ Some slots
            → result ≡ slots.word slot };

    /// Loads the strong lock counter at `index`. Where the counter shows 0 while the session has the lock of
    /// its own slots, the session may set slots for objects of that index until it releases that lock
    /// (`FastPathStrongRelationLocks->count` in `LockAcquireExtended` of lock.c).
    fn load_strong(&mut self, index: u16) -> u64
        requires within { index < 1024 }
        ensures seat { seat self.new ≡ seat self.old }
        ensures view { view self.new ≡ account_reading (seat self.old).number (view self.old) index result }
        ensures stack { stack self.new ≡ stack self.old }
        ensures quiet { quiet self.new ≡ quiet self.old };

    /// Sets `mode` on `tag` in the session's own slot `slot`, whose word shows `shown`
    /// (`FastPathGrantRelationLock` in lock.c).
    fn set_slot(&mut self, slot: u8, shown: SlotWord, tag: &Tag, mode: Mode)
        requires within { slot < group_size * (seat self.old).groups }
        requires lawful { (mine : SlotsInHand)
            × MaySetSlotBy (seat self.old).groups (seat self.old).number (view self.old) mine slot tag.now mode
            × (shown ≡ mine.word slot) }
        ensures seat { seat self.new ≡ seat self.old }
        ensures view { view self.new ≡ account_setting (seat self.old).number (view self.old)
            (slots_here ((view self.old).fast.slots (seat self.old).number)) slot tag.now mode }
        ensures stack { stack self.new ≡ stack self.old }
        ensures quiet { quiet self.new ≡ SetsSlot tag.now mode ∷ quiet self.old };

    /// Clears `mode` on `tag` in the session's own slot `slot`, whose word shows `shown`
    /// (`FastPathUnGrantRelationLock` in lock.c).
    fn clear_slot(&mut self, slot: u8, shown: SlotWord, tag: &Tag, mode: Mode)
        requires within { slot < group_size * (seat self.old).groups }
        requires lawful { (mine : SlotsInHand)
            × MayClearSlotBy (seat self.old).number (view self.old) mine slot tag.now mode
            × (shown ≡ mine.word slot) }
        ensures seat { seat self.new ≡ seat self.old }
        ensures view { view self.new ≡ account_unsetting (seat self.old).number (view self.old)
            (slots_here ((view self.old).fast.slots (seat self.old).number)) slot tag.now mode }
        ensures stack { stack self.new ≡ stack self.old }
        ensures quiet { quiet self.new ≡ quiet self.old };

    /// Moves `mode` on `tag` from the slot `slot` of `owner`, whose word shows `shown`, to `content` in hand,
    /// which has it already, with the strong lock of the mode `strong` counted, which is to go past that
    /// session next (a mode of the inner loop of `FastPathTransferRelationLocks` in lock.c).
    fn transfer_slot(
        &mut self,
        owner: SessionId,
        slot: u8,
        shown: SlotWord,
        tag: &Tag,
        mode: Mode,
        strong: Mode,
        content: &T,
    )
        requires exists { owner < (seat self.old).limit }
        requires within { slot < group_size * (seat self.old).groups }
        requires lawful { (its : SlotsInHand) × (mine : InHand)
            × MayTransferBy (seat self.old).limit (view self.old) owner slot its mine tag.now mode strong
            × (shown ≡ its.word slot) × (T.content content.now ≡ add_hold mine.now owner tag.now mode) }
        ensures seat { seat self.new ≡ seat self.old }
        ensures view { view self.new ≡ account_transferring (view self.old) owner slot
            (slots_here ((view self.old).fast.slots owner))
            (in_hand ((view self.old).hand (partition_of tag.now))) tag.now mode }
        ensures stack { stack self.new ≡ stack self.old }
        ensures quiet { quiet self.new ≡ quiet self.old };

    /// Stores in the session's own wait word that the session waits for `mode` on `tag`, with its join made
    /// in `content` in hand (`ProcSleep` in proc.c sets `waitStatus` so).
    fn set_waiting(&mut self, tag: &Tag, mode: Mode, content: &T)
        requires lawful { (mine : InHand) × MayMoveBy (seat self.old).limit (seat self.old).number (view self.old)
            (partition_of tag.now) mine (Join tag.now mode) [] (T.content content.now) }
        ensures seat { seat self.new ≡ seat self.old }
        ensures view { view self.new ≡ account_waiting (view self.old)
            (in_hand ((view self.old).hand (partition_of tag.now)))
            tag.now mode (T.content content.now)
            ((in_hand ((view self.old).hand (partition_of tag.now))).now.holds (seat self.old).number tag.now) }
        ensures stack { stack self.new ≡ stack self.old }
        ensures quiet { quiet self.new ≡ quiet self.old };

    /// Marks the wait of `other` granted, one of the sessions in `woken`, whose waits the move `done` grants
    /// in `content`, that of partition `part` in hand (`ProcWakeup` in proc.c sets `waitStatus`). The first
    /// mark records the move, and the session's own holds follow the move; once all sessions in `woken` are
    /// marked the partition is put with the move `Keep`. From the mark on `other` is owed a wake.
    fn mark_granted(
        &mut self,
        part: u8,
        other: SessionId,
        done: &Move,
        woken: &[(SessionId, Mode)],
        content: &T,
    )
        requires exists { other < (seat self.old).limit }
        requires grants { IsGrantingIn part done.now }
        requires lawful { (mine : InHand) × (granted : List contents.Wait)
            × (woken.now ≡ map whose_and_mode granted)
            × MayMarkBy (seat self.old).limit (seat self.old).number (view self.old) part mine done.now granted
            (T.content content.now) other }
        ensures seat { seat self.new ≡ seat self.old }
        ensures view { view self.new ≡ account_granting (view self.old) part
            (in_hand ((view self.old).hand part)) other done.now
            (sessions_told woken.now) (T.content content.now) }
        ensures stack { stack self.new ≡ stack_owing (stack self.old) other }
        ensures quiet { quiet self.new ≡ quiet self.old };

    /// Loads the session's own wait word: 2 in bits 0 to 1 where the wait was granted, bit 2 set where it was
    /// asked to cancel (`waitStatus` in proc.h, as `ProcSleep` in proc.c reads it).
    fn load_wait(&mut self) -> u64
        ensures seat { seat self.new ≡ seat self.old }
        ensures view { view self.new ≡
            record (account_tracing (view self.old) (Loaded (Wait (seat self.old).number) result))
            { seen = (view self.old).seen || (wait_state result == 2) } }
        ensures stack { stack self.new ≡ stack self.old }
        ensures quiet { quiet self.new ≡ quiet self.old };

    /// Asks `other` to cancel its wait, and answers what its wait word showed before (`pg_cancel_backend` in
    /// signalfuncs.c). Where it showed that the session waits, that one is owed a wake from then on.
    fn ask_cancel(&mut self, other: SessionId) -> u64
        requires exists { other < (seat self.old).limit }
        ensures seat { seat self.new ≡ seat self.old }
        ensures view { view self.new ≡ account_tracing (view self.old) (AskedToCancel other result) }
        ensures stack { stack self.new ≡ stack_asking (stack self.old) other result }
        ensures quiet { quiet self.new ≡ quiet self.old }
        ensures own { other ≡ (seat self.old).number → (view self.old).awaited ≡ None → wait_state result ≡ 0 };

    /// Clears the session's own wait word: the wait is over, since the grant was seen or the wait is gone
    /// from the content in hand.
    fn clear_wait(&mut self)
        requires lawful { (wait : OwnWait) × MayClearBy (seat self.old).number (view self.old) wait }
        ensures seat { seat self.new ≡ seat self.old }
        ensures view { view self.new ≡ account_cleared (seat self.old).number (view self.old) (view self.old).awaited }
        ensures stack { stack self.new ≡ stack self.old }
        ensures quiet { quiet self.new ≡ quiet self.old };

    /// Clears the session's own wait word, and records that its wait was taken out of the wait queue in
    /// `content` in hand, which granted the waits of the sessions in `woken` (`RemoveFromWaitQueue` in
    /// lock.c).
    fn leave_queue(&mut self, woken: &[(SessionId, Mode)], content: &T)
        requires lawful { (wait : OwnWait) × (mine : InHand) × (granted : List contents.Wait)
            × (woken.now ≡ map whose_and_mode granted)
            × MayLeaveBy (seat self.old).limit (seat self.old).number (view self.old)
            wait mine granted (T.content content.now) }
        ensures seat { seat self.new ≡ seat self.old }
        ensures view { view self.new ≡ account_left (view self.old) (view self.old).awaited (T.content content.now)
            (sessions_told woken.now) }
        ensures stack { stack self.new ≡ stack self.old }
        ensures quiet { quiet self.new ≡ quiet self.old };

    /// Sleeps while the session's own wait word shows `shown`, until somebody wakes the session; the call may
    /// also return for no reason (`WaitLatch` in `ProcSleep` of proc.c). The session has loaded that number
    /// just before, so no grant and no request to cancel that came since is slept through. It has no
    /// lightweight lock, so nobody waits for one that it would keep while it sleeps, and owes nobody a wake.
    /// Its history notes that it parks.
    fn sleep<R: Wait>(&mut self, rt: &R, shown: u64)
        requires looked { HasJustLooked (seat self.old).number (view self.old) shown }
        requires nothing_due { stack self.old ≡ nothing_due }
        requires no_slots { (owner : ℕ) → (view self.old).fast.slots owner ≡ None }
        requires no_shared_slots { (owner : ℕ) → (view self.old).fast.shared_slots owner ≡ None }
        ensures seat { seat self.new ≡ seat self.old }
        ensures view { view self.new ≡ view self.old }
        ensures stack { stack self.new ≡ stack self.old }
        ensures quiet { quiet self.new ≡ quiet self.old };

    /// Wakes `other`, which sleeps until its wait word changes and is owed a wake (`SetLatch` in `ProcWakeup`
    /// of proc.c): `other` is owed one wake less from then on. The call is no step on a word, but the history
    /// of the session that makes it notes the wake.
    fn wake(&mut self, other: SessionId)
        requires exists { other < (seat self.old).limit }
        requires owed { is_among (stack self.old).owed other ≡ true }
        ensures seat { seat self.new ≡ seat self.old }
        ensures view { view self.new ≡ view self.old }
        ensures stack { stack self.new ≡ stack_waking (stack self.old) other }
        ensures quiet { quiet self.new ≡ quiet self.old };
}
