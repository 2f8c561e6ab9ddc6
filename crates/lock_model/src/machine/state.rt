ghost use Rattle.std.specs.Prelude.{◌≡◌, ◌<◌, ℕ, length, IfOk, None};
ghost use Rattle.modes_core.specs.Sessions.{usual_sessions};
ghost use Rattle.lock_table.specs.Content.{empty_content};
ghost use Rattle.lock_table.specs.Parts.{part_at, contents_in};
ghost use Rattle.lock_model.specs.Shows.{has_a_mark};

use super::hands::InHand;
use super::own_waits::Awaited;
use super::plain::{Hold, Plain};
use super::plain_lists::{gather_holds, gather_waits};
use lock_table::{NoMemory, PlainPart, empty_parts};
use lock_world::{Event, Step};
use lw_word::{LwWaiter, LwWord, SlotWord};
use modes_core::{Mode, SessionId, Tag, USUAL_SESSIONS};
use std::alloc::Global;

/// The session numbers: which were given out, which are open, and which are kept apart.
#[derive(Clone, Copy)]
pub struct Numbers {
    /// The session numbers below this one have been given out.
    pub issued: u16,
    /// How many groups of fast-path slots each session has.
    pub groups: u8,
    /// For each session number, whether that session is open.
    pub live: [bool; 64],
    /// For each session number, the session that keeps that one apart, if any.
    pub kept_by: [Option<SessionId>; 64],
}

/// What the words of the shared table show.
#[derive(Clone, Copy)]
pub struct Words {
    /// The lightweight lock of each partition.
    pub partitions: [LwWord; 16],
    /// The lightweight lock of each session's fast-path slots.
    pub fast: [LwWord; 64],
    /// The wait word of each session number: any session may be asked to cancel, one that can't open too.
    pub waits: [u8; 1024],
}

/// Who has which lightweight locks: for each lock a mark for each session. Who holds a partition's lock
/// exclusively is not in these marks: the hands of `Contents` say it.
#[derive(Clone, Copy)]
pub struct Locks {
    /// For each session, who holds the lock of its fast-path slots exclusively: a mark for each session.
    pub fast_holders: [[bool; 64]; 64],
    /// For each session, who shares the lock of its fast-path slots: a mark for each session.
    pub fast_sharers: [[bool; 64]; 64],
    /// For each partition, who shares its lock: a mark for each session.
    pub partition_sharers: [[bool; 64]; 16],
}

/// Whether `marks`, which has for each lock a mark for each session, shows any lock to be that of `session`.
pub fn has_a_mark(marks: &[[bool; 64]], session: SessionId) -> bool
    requires within { session < usual_sessions }
    ensures { result ≡ has_a_mark session marks.now }
{
    marks
        .iter()
        .any(|of_lock| of_lock[usize::from(session.number())])
}

/// The contents of the partitions.
#[derive(Drop)]
pub struct Contents {
    /// For each partition, the hand that has its content, if any.
    pub hands: [Option<InHand>; 16],
    /// The content of each partition.
    pub parts: Vec<PlainPart>,
}

/// The waits of the sessions by their own account.
#[derive(Clone, Copy)]
pub struct OwnWaits {
    /// The wait of each session, until the session has cleared its wait word.
    pub awaited: [Option<Awaited>; 64],
    /// For each session, whether it has seen its wait word show that its wait was granted.
    pub seen: [bool; 64],
}

/// Sessions' databases and fast-path slots, and which strong lock counter each session has read as 0.
#[derive(Clone, Copy)]
pub struct FastPath {
    /// The database of each session.
    pub databases: [u32; 64],
    /// The words of each session's slots, with places for those of eight groups.
    pub slots: [[SlotWord; 128]; 64],
    /// For each session, the index of the strong lock counter that it has read as 0, for as long as that lets
    /// it set a slot.
    pub zeros: [Option<u16>; 64],
}

impl FastPath {
    ghost use Rattle.std.specs.Prelude.{◌≡◌, replicate, None};

    /// No database, no slot in use, and no counter read.
    pub fn empty() -> Self
        ensures databases { result.databases ≡ replicate 64 0 }
        ensures slots { result.slots ≡ replicate 64 (replicate 128 0) }
        ensures zeros { result.zeros ≡ replicate 64 None }
    {
        FastPath {
            databases: [0; 64],
            slots: [[SlotWord::from_number(0); 128]; 64],
            zeros: [None; 64],
        }
    }
}

/// A strong lock that a session has counted, and the position up to which the session has gone past others.
#[derive(Clone, Copy)]
pub struct CountedBy {
    /// The session that has counted the strong lock.
    pub session: SessionId,
    /// The object of the strong lock.
    pub tag: Tag,
    /// The mode of the strong lock.
    pub mode: Mode,
    /// The session of the strong lock has gone past each session below this number.
    pub position: u16,
}

/// A session that waits for a lightweight lock, by the number of the lock: twice the partition, or twice the
/// session whose slots the lock guards and 1 more.
#[derive(Clone, Copy)]
pub struct Sleeper {
    /// The number of the lightweight lock that the session waits for: twice the partition, or twice the
    /// session whose slots the lock guards and 1 more.
    pub lock: u16,
    /// The session that waits, and how it wants to take the lock.
    pub waiter: LwWaiter,
}

/// The wait lists of lightweight locks, the sleep words, and what sessions know of lists.
#[derive(Drop)]
pub struct Lists {
    /// The sleep word of each session.
    pub sleep: [u8; 64],
    /// Which session waits for which lightweight lock, in the order of joining.
    pub sleepers: Vec<Sleeper>,
    /// For each session, the number of the lightweight lock whose wait list it has locked, if any.
    pub has_list: [Option<u16>; 64],
    /// For each session, the number of the lightweight lock in whose wait list it is by its own account, if
    /// any.
    pub stands: [Option<u16>; 64],
    /// For each session, whom it has taken off a wait list and not woken yet: a mark for each session.
    pub off: [[bool; 64]; 64],
}

impl Lists {
    ghost use Rattle.std.specs.Prelude.{◌≡◌, replicate, [], false, None};

    /// Lists, with room from `alloc`, in which nobody waits and none of which is locked.
    fn empty(alloc: Global) -> Self
        ensures sleep { result.sleep ≡ replicate 64 0 }
        ensures sleepers { result.sleepers.items ≡ [] }
        ensures has_list { result.has_list ≡ replicate 64 None }
        ensures stands { result.stands ≡ replicate 64 None }
        ensures off { result.off ≡ replicate 64 (replicate 64 false) }
    {
        Lists {
            sleep: [0; 64],
            sleepers: Vec::new(alloc),
            has_list: [None; 64],
            stands: [None; 64],
            off: [[false; 64]; 64],
        }
    }
}

/// What the plain machine keeps of a World.
#[derive(Drop)]
pub struct Machine {
    /// The session numbers in use.
    pub numbers: Numbers,
    /// What the words of the shared table show.
    pub words: Words,
    /// Who has which lightweight locks.
    pub locks: Locks,
    /// Sessions' databases and fast-path slots.
    pub fast_path: FastPath,
    /// The strong locks that sessions have counted, in the order of counting. Each strong lock counter shows
    /// how many there are at its index.
    pub counted: Vec<CountedBy>,
    /// The wait lists of lightweight locks.
    pub lists: Lists,
    /// The contents of the partitions.
    pub contents: Contents,
    /// The waits of the sessions by their own account.
    pub waits: OwnWaits,
}

impl Machine {
    ghost use Rattle.std.specs.Prelude.{◌≡◌, ◌<◌, ◌&&◌, not, OnOk, IfOk, is_none, slice_index_or, None};
    ghost use Rattle.modes_core.specs.Sessions.{usual_sessions};
    ghost use Rattle.std.specs.List.Sorted.{IsSorted};
    ghost use Rattle.lock_world.specs.World.{World, opening};
    ghost use Rattle.lock_world.specs.SafeWorld.{SafeWorld};
    ghost use Rattle.lock_model.specs.Plain.{IsPlainOf, hold_cmp, holds_of};
    ghost use Rattle.lock_model.specs.Shows.{Shows, ShowsSafe, Follows, makes_steps};
    ghost use Rattle.lock_table.specs.Parts.{contents_in};
    ghost use Rattle.modes_core.specs.Tag.{partition_of};

    /// The machine that shows the opening World, with `groups` groups of slots. Refused only where memory, by
    /// `alloc`, ran out.
    pub fn new(alloc: Global, groups: u8) -> Result<Self, NoMemory>
        requires some { 0 < groups }
        ensures { IfOk result (λ machine. Shows machine (opening 64 groups)) }
    {
        Ok(Machine {
            numbers: Numbers {
                issued: 0,
                groups,
                live: [false; 64],
                kept_by: [None; 64],
            },
            words: Words {
                partitions: [LwWord::opening(); 16],
                fast: [LwWord::opening(); 64],
                waits: [0; 1024],
            },
            locks: Locks {
                fast_holders: [[false; 64]; 64],
                fast_sharers: [[false; 64]; 64],
                partition_sharers: [[false; 64]; 16],
            },
            fast_path: FastPath::empty(),
            counted: Vec::new(alloc),
            lists: Lists::empty(alloc),
            contents: Contents {
                hands: [None; 16],
                parts: empty_parts(alloc, PlainPart::new)?,
            },
            waits: OwnWaits {
                awaited: [None; 64],
                seen: [false; 64],
            },
        })
    }

    /// Whether `session` makes steps of its own: it is live, and no other session keeps it apart.
    pub fn makes_steps(&self, session: SessionId) -> bool
        requires within { session < usual_sessions }
        ensures { result ≡ makes_steps self.now session }
    {
        let index = usize::from(session.number());
        self.numbers.live[index] && self.numbers.kept_by[index].is_none()
    }

    /// Makes the step of `event`, where it is lawful. No session numbered 64 or above makes a lawful step.
    pub fn step(&mut self, event: Event) -> Result<(), NoMemory>
        requires shown { ShowsSafe self.old }
        ensures { OnOk result (Follows self.old event.session event.step self.new) }
    {
        let Event { session, step } = event;
        if session.number() >= USUAL_SESSIONS {
            return Ok(());
        }
        match step {
            Step::TakeExclusive { word } => self.take_exclusive(session, word),
            Step::PutExclusive { word, done } => return self.put_exclusive(session, word, done),
            Step::TakeShared { word } => self.take_shared(session, word),
            Step::PutShared { word } => self.put_shared(session, word),
            Step::SplitSeat => self.split_seat(session),
            Step::JoinSeat { joiner } => self.join_seat(session, joiner),
            Step::AskCancel { other } => self.ask_cancel(session, other),
            Step::LoadWait { shown } => self.load_wait(session, shown),
            Step::SetWaiting { tag, mode } => return self.set_waiting(session, tag, mode),
            Step::MarkGranted { other, done } => return self.mark_granted(session, other, done),
            Step::ClearWait { leaving } => self.clear_wait(session, leaving),
            Step::PutPassing { owner, tag, mode } => self.put_passing(session, owner, tag, mode),
            Step::LoadStrong { index, shown } => self.load_strong(session, index, shown),
            Step::LoadWord { word, shown } => self.load_word(session, word, shown),
            Step::SetSlot { slot, tag, mode } => self.set_slot(session, slot, tag, mode),
            Step::ClearSlot { slot, tag, mode } => self.clear_slot(session, slot, tag, mode),
            Step::StoreDatabase { database } => self.store_database(session, database),
            Step::Count { tag, mode } => return self.count(session, tag, mode),
            Step::Uncount { tag, mode } => self.uncount(session, tag, mode),
            Step::TransferSlot {
                owner,
                slot,
                tag,
                mode,
                strong,
            } => return self.transfer_slot(session, owner, slot, tag, mode, strong),
            Step::LockList { word } => self.lock_list(session, word),
            Step::UnlockList {
                word,
                has_waiters,
                release_ok,
            } => self.unlock_list(session, word, has_waiters, release_ok),
            Step::JoinList { mode } => return self.join_list(session, mode),
            Step::LeaveList => self.leave_list(session),
            Step::TakeOff { other } => self.take_off(session, other),
            Step::Tell { other } => self.tell(session, other),
            Step::LoadSleep { shown } => self.load_sleep(session, shown),
            Step::SetReleaseOk { word, shown } => self.set_release_ok(session, word, shown),
            Step::SetHasWaiters { word, shown } => self.set_has_waiters(session, word, shown),
        }
        Ok(())
    }

    /// What the machine shows, with its holds and waits in order, in lists that grow by `alloc`.
    pub fn into_plain(self, alloc: Global) -> Result<Plain, NoMemory>
        ensures shown { IfOk result (λ plain. (w : World) → SafeWorld w → Shows self w → IsPlainOf plain w) }
        ensures in_order { IfOk result (λ plain. IsSorted hold_cmp (holds_of plain)) }
    {
        let holds = gather_holds(alloc, &self.fast_path, self.contents.parts.as_slice())?;
        let waits = gather_waits(alloc, self.contents.parts.as_slice())?;
        Ok(Plain {
            holds,
            waits,
            groups: self.numbers.groups,
            words: self.words,
            fast_path: self.fast_path,
            counted: self.counted,
            lists: self.lists,
        })
    }
}
