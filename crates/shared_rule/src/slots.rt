//! The steps of a session on fast-path slots and databases: with the lock of a session's slots in hand it
//! knows what they show.

ghost use Rattle.std.specs.Prelude.{◌≡◌, ◌<◌, ◌*◌, Some};
ghost use Rattle.lock_world.specs.Account.{InHand, SlotsInHand};
ghost use Rattle.shared_rule.specs.History.{noting};
ghost use Rattle.shared_rule.specs.Plays.{side_of, account_at, number_at, FitsTable, HasSession, IsSameSeat};
ghost use Rattle.lock_table.specs.Content.{add_hold};
ghost use Rattle.lock_world.specs.SlotHolds.{group_size, slot_holds};
ghost use Rattle.lock_world.specs.AccountLaw.{MaySetSlotBy, MayClearSlotBy, MayTransferBy};
ghost use Rattle.shared_rule.specs.Seats.{HoldsNothing};
ghost use Rattle.shared_rule.specs.Marks.{LoadedDatabase, LoadedSlot, SetSlot};
ghost use Rattle.shared_rule.specs.Marks.{ClearedSlot, TransferredSlot, StoredDatabase};

use crate::layout::{database_word, slot_word};
use crate::plays::Marking;
use crate::rule::{Seat, SharedWords};
use crate::words::{look_as, store_as};
use lock_table::PartTable;
use lw_word::SlotWord;
use modes_core::{Mode, SessionId, Tag};

/// Loads the database of `owner`, 0 where it has none (`databaseId` in proc.h).
pub(crate) fn load_database<T: PartTable, M: Marking<T>>(
    words: &SharedWords<T>,
    seat: &mut Seat<T>,
    owner: SessionId,
) -> u64
    requires table { FitsTable seat.old words.now.key words.now.table_id }
    requires exists { owner < words.now.key.sessions }
    requires session { HasSession (side_of seat.old).0 }
    requires mark { M.mark ≡ LoadedDatabase owner }
    ensures same_seat { IsSameSeat seat.old seat.new }
    ensures side { side_of seat.new ≡ (noting (side_of seat.old).0 (LoadedDatabase owner result), (side_of seat.old).1) }
    ensures of_slots { (slots : SlotsInHand) → (account_at T.content seat.old).fast.slots owner ≡ Some slots
        → slots.holds ≡ slot_holds result slots.word }
    ensures of_shared_slots { (slots : SlotsInHand)
        → (account_at T.content seat.old).fast.shared_slots owner ≡ Some slots
        → slots.holds ≡ slot_holds result slots.word }
    ensures own { owner ≡ number_at seat.old → result ≡ (account_at T.content seat.old).fast.database }
{
    look_as::<T, M>(words, seat, database_word(owner))
}

/// Loads the fast-path slot `slot` of `owner` (`fpRelId` and `fpLockBits` in proc.h).
pub(crate) fn load_slot<T: PartTable, M: Marking<T>>(
    words: &SharedWords<T>,
    seat: &mut Seat<T>,
    sessions: u16,
    owner: SessionId,
    slot: u8,
) -> SlotWord
    requires table { FitsTable seat.old words.now.key words.now.table_id }
    requires sessions { sessions ≡ words.now.key.sessions }
    requires exists { owner < words.now.key.sessions }
    requires session { HasSession (side_of seat.old).0 }
    requires within { slot < group_size * words.now.key.groups }
    requires mark { M.mark ≡ LoadedSlot owner slot }
    ensures same_seat { IsSameSeat seat.old seat.new }
    ensures side { side_of seat.new ≡ (noting (side_of seat.old).0 (LoadedSlot owner slot result), (side_of seat.old).1) }
    ensures of_slots { (slots : SlotsInHand) → (account_at T.content seat.old).fast.slots owner ≡ Some slots
        → result ≡ slots.word slot }
    ensures of_shared_slots { (slots : SlotsInHand)
        → (account_at T.content seat.old).fast.shared_slots owner ≡ Some slots → result ≡ slots.word slot }
{
    SlotWord::from_number(look_as::<T, M>(words, seat, slot_word(sessions, owner, slot)))
}

/// Sets `mode` on `tag` in the slot `slot` of the session `number`, its own, which shows `shown`
/// (`FastPathGrantRelationLock` in lock.c).
pub(crate) fn set_slot<T: PartTable, M: Marking<T>>(
    words: &SharedWords<T>,
    seat: &mut Seat<T>,
    sessions: u16,
    number: SessionId,
    slot: u8,
    shown: SlotWord,
    tag: &Tag,
    mode: Mode,
)
    requires table { FitsTable seat.old words.now.key words.now.table_id }
    requires session { HasSession (side_of seat.old).0 }
    requires own { number ≡ number_at seat.old }
    requires among { number < words.now.key.sessions }
    requires sessions { sessions ≡ words.now.key.sessions }
    requires within { slot < group_size * words.now.key.groups }
    requires lawful { (mine : SlotsInHand)
        × MaySetSlotBy words.now.key.groups (number_at seat.old) (account_at T.content seat.old)
        mine slot tag.now mode × (shown ≡ mine.word slot) }
    requires mark { M.mark ≡ (λ _. SetSlot slot tag.now mode) }
    ensures same_seat { IsSameSeat seat.old seat.new }
    ensures side { side_of seat.new ≡ (noting (side_of seat.old).0 (SetSlot slot tag.now mode), (side_of seat.old).1) }
{
    let word = shown.with(tag.relation_number(), mode);
    store_as::<T, M>(
        words,
        seat,
        slot_word(sessions, number, slot),
        word.number(),
    );
}

/// Clears `mode` on `tag` in the slot `slot` of the session `number`, its own, which shows `shown`
/// (`FastPathUnGrantRelationLock` in lock.c).
pub(crate) fn clear_slot<T: PartTable, M: Marking<T>>(
    words: &SharedWords<T>,
    seat: &mut Seat<T>,
    sessions: u16,
    number: SessionId,
    slot: u8,
    shown: SlotWord,
    tag: &Tag,
    mode: Mode,
)
    requires table { FitsTable seat.old words.now.key words.now.table_id }
    requires session { HasSession (side_of seat.old).0 }
    requires own { number ≡ number_at seat.old }
    requires among { number < words.now.key.sessions }
    requires sessions { sessions ≡ words.now.key.sessions }
    requires within { slot < group_size * words.now.key.groups }
    requires lawful { (mine : SlotsInHand) × MayClearSlotBy (number_at seat.old) (account_at T.content seat.old)
        mine slot tag.now mode × (shown ≡ mine.word slot) }
    requires mark { M.mark ≡ (λ _. ClearedSlot slot tag.now mode) }
    ensures same_seat { IsSameSeat seat.old seat.new }
    ensures side { side_of seat.new ≡ (noting (side_of seat.old).0 (ClearedSlot slot tag.now mode), (side_of seat.old).1) }
{
    let word = shown.without(mode);
    store_as::<T, M>(
        words,
        seat,
        slot_word(sessions, number, slot),
        word.number(),
    );
}

/// Moves `mode` on `tag` from the slot `slot` of `owner`, which shows `shown`, to `content` in hand, which
/// has it now (a mode of the inner loop of `FastPathTransferRelationLocks` in lock.c).
pub(crate) fn transfer_slot<T: PartTable, M: Marking<T>>(
    words: &SharedWords<T>,
    seat: &mut Seat<T>,
    sessions: u16,
    owner: SessionId,
    slot: u8,
    shown: SlotWord,
    tag: &Tag,
    mode: Mode,
    strong: Mode,
    content: &T,
)
    requires table { FitsTable seat.old words.now.key words.now.table_id }
    requires session { HasSession (side_of seat.old).0 }
    requires sessions { sessions ≡ words.now.key.sessions }
    requires within { slot < group_size * words.now.key.groups }
    requires lawful { (its : SlotsInHand) × (mine : InHand)
        × MayTransferBy words.now.key.sessions (account_at T.content seat.old) owner slot its mine tag.now mode strong
        × (shown ≡ its.word slot) × (T.content content.now ≡ add_hold mine.now owner tag.now mode) }
    requires exists { owner < words.now.key.sessions }
    requires mark { M.mark ≡ (λ _. TransferredSlot owner slot tag.now mode) }
    ensures same_seat { IsSameSeat seat.old seat.new }
    ensures side { (side_of seat.new)
        ≡ (noting (side_of seat.old).0 (TransferredSlot owner slot tag.now mode), (side_of seat.old).1) }
{
    let word = shown.without(mode);
    store_as::<T, M>(words, seat, slot_word(sessions, owner, slot), word.number());
}

/// Stores `database` as that of the session `number`, its own, which holds nothing (`InitPostgres` in
/// postinit.c).
pub(crate) fn store_database<T: PartTable, M: Marking<T>>(
    words: &SharedWords<T>,
    seat: &mut Seat<T>,
    number: SessionId,
    database: u32,
)
    requires table { FitsTable seat.old words.now.key words.now.table_id }
    requires session { HasSession (side_of seat.old).0 }
    requires own { number ≡ number_at seat.old }
    requires among { number < words.now.key.sessions }
    requires no_hold { HoldsNothing (account_at T.content seat.old) }
    requires mark { M.mark ≡ (λ _. StoredDatabase database) }
    ensures same_seat { IsSameSeat seat.old seat.new }
    ensures side { side_of seat.new ≡ (noting (side_of seat.old).0 (StoredDatabase database), (side_of seat.old).1) }
{
    store_as::<T, M>(words, seat, database_word(number), u64::from(database));
}
