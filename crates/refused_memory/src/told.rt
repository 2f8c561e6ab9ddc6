//! What came of a call for which a growth was to be refused.

/// How a call went for which a growth was to be refused.
#[derive(Clone, Copy, PartialEq, Eq)]
pub enum Told {
    /// No growth of the call was refused, and the call answered as it is to.
    Answered,
    /// A growth was refused: the call answered that memory ran out, left all as it was, and answered as it is
    /// to when it was made once more.
    Refused,
    /// The call went otherwise than it is to.
    Otherwise,
}

impl Told {
    /// How a case went: whether a growth was refused (`was_refused`), whether the call answered that memory
    /// ran out (`ran_out`), and whether all the rest was right (`is_right`).
    pub fn of(was_refused: bool, ran_out: bool, is_right: bool) -> Told {
        match (was_refused, ran_out, is_right) {
            (true, true, true) => Told::Refused,
            (false, false, true) => Told::Answered,
            _ => Told::Otherwise,
        }
    }
}
