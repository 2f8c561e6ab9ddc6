//! What a lightweight lock is to the session that has it.

ghost use Rattle.std.specs.Prelude.{◌≡◌, true, false};
ghost use Rattle.lw_word.specs.declared.words.LwMode.{LwMode};
ghost use Rattle.lw_word.specs.LockState.{state_of, put_in, must_wake};
ghost use Rattle.lw_lock.specs.Since.{IsSinceWith, Carries};

use lw_word::LwMode;

/// A lightweight lock that a session has. `S` is the session's state, and `C` what the session gives back as
/// it puts the lock.
pub trait Held<S, C> {
    // How the session has it.
    ghost in_mode: { Self → LwMode };

    // It may put the lock, with this.
    ghost may_put: { Self → S → C → Type 0 };

    // Since the first state it has put the lock, with this, and has to look whom to wake.
    ghost due: { Self → S → S → C → Type 0 };

    // Since the first state it has put the lock, with this, and has done what there was to do for those who
    // wait.
    ghost released: { Self → S → S → C → Type 0 };

    /// In which mode the session has the lock.
    fn mode(&self) -> LwMode
        ensures { result ≡ in_mode self.now };

    /// Puts the lock by one fetch-and-subtract, gives `content` back with it, and answers the number that the
    /// lock's word showed before.
    fn put(&self, state: &mut S, content: C) -> u64
        requires { may_put self.now state.old content }
        ensures due { must_wake (put_in (in_mode self.now) (state_of result)) ≡ true
            → due self.now state.old state.new content }
        ensures released { must_wake (put_in (in_mode self.now) (state_of result)) ≡ false
            → released self.now state.old state.new content };

    /// Has the session in `state`, which has put the lock, wake the first ones in the lock's wait list
    /// (`LWLockWakeup` in lwlock.c).
    fn wake_waiters(&self, state: &mut S)
        requires { IsSinceWith (due self.now) state.old }
        ensures { Carries (due self.now) (released self.now) state.old state.new };
}
