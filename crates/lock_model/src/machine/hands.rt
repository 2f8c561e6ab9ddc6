//! The life of a hand: a partition is in a session's hand from the step that takes its lock to the one that
//! puts it.

ghost use Rattle.std.specs.Prelude.{◌≡◌, ℕ};
ghost use Rattle.lock_model.specs.Shows.{has_made, is_unmarked_in, none_unmarked, names_in};
ghost use Rattle.lock_model.specs.Transfers.{may_adopt};

use super::lw_words::put;
use super::state::Machine;
use lock_table::Move;
use lw_word::{LwMode, LwWord};
use modes_core::{Mode, SessionId};

/// A partition in a session's hand.
#[derive(Clone, Copy)]
pub struct InHand {
    /// The session that has the partition in hand.
    pub holder: SessionId,
    /// The move that the holder has made on the content of the partition in hand, if any.
    pub recorded: Option<Move>,
    /// For each session number, whether the recorded move granted that session and its wait word is not yet
    /// marked granted.
    pub unmarked: [bool; 1024],
}

impl InHand {
    /// Whether the wait words of all sessions whom the recorded move granted are marked granted.
    pub fn none_unmarked(&self) -> bool
        ensures { result ≡ none_unmarked self.now.unmarked }
    {
        !self.unmarked.contains(&true)
    }

    /// Whether the recorded move granted `session` and its wait word is not yet marked granted.
    pub fn is_unmarked(&self, session: SessionId) -> bool
        ensures { result ≡ is_unmarked_in self.now.unmarked session }
    {
        self.unmarked[usize::from(session.number())]
    }

    /// Whether `done` is the move that is recorded in this hand.
    pub fn has_made(&self, done: &Move) -> bool
        ensures { result ≡ has_made self.now.recorded done.now }
    {
        match self.recorded {
            Some(recorded) => recorded.is_same(*done),
            None => false,
        }
    }

    /// Whether a mode may be moved from the slot `slot` of `owner` to the content in hand: no move is
    /// recorded, or the recorded one is the adopt of this slot.
    pub fn may_adopt(&self, owner: u16, slot: u8) -> bool
        ensures { result ≡ may_adopt self.now.recorded owner slot }
    {
        match self.recorded {
            Some(done) => done.is_same(Move::Adopt { owner, slot }),
            None => true,
        }
    }
}

impl Machine {
    ghost use Rattle.std.specs.Prelude.{◌≡◌, ◌<◌, ◌+◌, replicate, false, slice_set, slice_index_or, Some, None};
    ghost use Rattle.modes_core.specs.Sessions.{usual_sessions};
    ghost use Rattle.lw_word.specs.declared.words.LwMode.TheVariants.{Exclusive};
    ghost use Rattle.lw_word.specs.LockState.{opening_state, put_in};
    ghost use Rattle.lock_world.specs.WaitWord.{wait_state, granted_word};
    ghost use Rattle.lock_model.specs.Shows.{hand_of};

    /// The hand of `session` that has `partition`, or `None` where `session` hasn't the partition in hand or
    /// makes no steps of its own.
    pub fn hand_of(&self, session: SessionId, partition: u8) -> Option<InHand>
        requires within { session < usual_sessions }
        ensures { result ≡ hand_of self.now session partition }
    {
        let hands = self.contents.hands.as_slice();
        let index = usize::from(partition);
        if index >= hands.len() || !self.makes_steps(session) {
            return None;
        }
        match hands[index] {
            Some(hand) => {
                if hand.holder == session {
                    Some(hand)
                } else {
                    None
                }
            }
            None => None,
        }
    }

    /// Sets the word of `partition` to `held`, and puts the partition's content into the hand of `session`,
    /// with no move recorded.
    pub fn set_held(&mut self, session: SessionId, partition: u8, held: LwWord)
        requires { partition < 16 }
        ensures { self.new ≡ record self.old {
          words = record (self.old.words) { partitions = slice_set self.old.words.partitions partition held };
          contents = record (self.old.contents) {
            hands = slice_set self.old.contents.hands partition
                (Some (record { holder = session; recorded = None; unmarked = replicate 1024 false }));
          };
        } }
    {
        let index = usize::from(partition);
        self.words.partitions[index] = held;
        self.contents.hands[index] = Some(InHand {
            holder: session,
            recorded: None,
            unmarked: [false; 1024],
        });
    }

    /// Records the move `done` in `hand`, which has `partition`; `unmarked` says for each session number
    /// whether `done` granted that session and its wait word is not yet marked granted.
    pub fn record(&mut self, partition: u8, hand: InHand, done: Move, unmarked: [bool; 1024])
        requires { partition < 16 }
        ensures { self.new ≡ record self.old {
          contents = record (self.old.contents) {
            hands = slice_set self.old.contents.hands partition
                (Some (record { holder = hand.holder; recorded = Some done; unmarked = unmarked }));
          };
        } }
    {
        self.contents.hands[usize::from(partition)] = Some(InHand {
            holder: hand.holder,
            recorded: Some(done),
            unmarked,
        });
    }

    /// Marks the wait of `other`, which the move `done` in `hand` granted in `partition`: the wait word of
    /// `other` goes from waiting to granted, and `hand` records `done` with those of `unmarked` but `other`.
    pub fn mark(
        &mut self,
        partition: u8,
        hand: InHand,
        other: SessionId,
        done: Move,
        unmarked: [bool; 1024],
    )
        requires exists { partition < 16 }
        requires waiting { wait_state (slice_index_or self.old.words.waits other 0) ≡ 1 }
        ensures { self.new ≡ record self.old {
          words = record (self.old.words) {
            waits = slice_set self.old.words.waits other
                (granted_word (slice_index_or self.old.words.waits other 0));
          };
          contents = record (self.old.contents) {
            hands = slice_set self.old.contents.hands partition
                (Some (record {
                  holder = hand.holder;
                  recorded = Some done;
                  unmarked = slice_set unmarked other false;
                }));
          };
        } }
    {
        let index = usize::from(other.number());
        let mut unmarked = unmarked;
        unmarked[index] = false;
        self.record(partition, hand, done, unmarked);
        self.words.waits[index] += 1;
    }

    /// Puts back the word of `partition`, which is held exclusively, and takes the partition's content out of
    /// the hand that has it.
    pub fn set_free(&mut self, partition: u8)
        requires { partition < 16 }
        ensures { self.new ≡ record self.old {
          words = record (self.old.words) {
            partitions = slice_set self.old.words.partitions partition
                (put_in Exclusive (slice_index_or self.old.words.partitions partition opening_state));
          };
          contents = record (self.old.contents) { hands = slice_set self.old.contents.hands partition None };
        } }
    {
        let index = usize::from(partition);
        self.words.partitions[index] = put(self.words.partitions[index], LwMode::Exclusive);
        self.contents.hands[index] = None;
    }
}

/// Whether `session` is among those in `woken`.
pub fn is_among(woken: &[(SessionId, Mode)], session: SessionId) -> bool
    ensures { result ≡ names_in woken.now session }
{
    woken.iter().any(|(other, _)| *other == session)
}

/// For each session number, whether `woken` has that session: no grant is marked yet.
pub fn unmarked_of(woken: &[(SessionId, Mode)]) -> [bool; 1024]
    ensures { (session : ℕ) → is_unmarked_in result session ≡ names_in woken.now session }
{
    let mut marks = [false; 1024];
    for whose in woken {
        marks[usize::from(whose.0.number())] = true;
    }
    marks
}
