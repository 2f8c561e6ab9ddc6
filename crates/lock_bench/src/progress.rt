//! What a run writes to standard error while it goes on.

/// Whether a run writes what it times at the moment, for somebody at a terminal.
#[derive(Clone, Copy)]
pub struct Progress {
    is_shown: bool,
}

impl Progress {
    /// The progress of a run, which writes what it times where `is_shown`.
    pub fn new(is_shown: bool) -> Self {
        Progress { is_shown }
    }

    /// Writes to standard error that `what` is timed now.
    pub fn note<R: Eprint>(self, rt: &R, what: &str) {
        if self.is_shown {
            // The figures are the same where the progress can't be shown.
            let _ = eprintln!(rt; "timing: {what}");
        }
    }
}
