//! What the shelves of the table keep.

use lw_word::WaitList;

/// What a shelf keeps: a partition's content, or the wait list of a lightweight lock, each on a shelf of its
/// own. A list lies behind a pointer, so that a shelf is two words wide; all lists are made before the first
/// step, and then nothing takes memory.
#[derive(Drop)]
pub enum Kept<T> {
    /// The shelf is empty: what belongs on it is in a session's hand, or nothing belongs on it.
    Nothing,
    /// The content of a partition.
    Part(T),
    /// The wait list of a lightweight lock.
    List(Box<WaitList>),
}

impl<T> Kept<T> {
    ghost use Rattle.std.specs.Prelude.{◌≡◌};
    ghost use Rattle.std.specs.Global.{Box};
    ghost use Rattle.lw_word.specs.WaitList.{Waiting};
    ghost use Rattle.shared_rule.specs.declared.kept.Kept.TheVariants as kept;

    // The content that it keeps.
    pub(crate) fn into_part(self) -> T
        requires { (part : T) × (self ≡ kept.Part part) }
        ensures { self ≡ kept.Part result }
    {
        match self {
            Kept::Part(part) => part,
            Kept::Nothing | Kept::List(_) => unreachable!(),
        }
    }

    // The list that it keeps.
    pub(crate) fn into_list(self) -> Box<WaitList>
        requires { (list : Box Waiting) × (self ≡ kept.List list) }
        ensures { self ≡ kept.List result }
    {
        match self {
            Kept::List(list) => list,
            Kept::Nothing | Kept::Part(_) => unreachable!(),
        }
    }
}
