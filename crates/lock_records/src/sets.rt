ghost use Rattle.std.specs.Prelude.{◌≡◌, false, true};
ghost use Rattle.modes_core.specs.ModeSet.{set_has};

use modes_core::{Mode, ModeSet, conflicts};

/// Whether `modes` has a mode: the strongest lock mode conflicts with each, so that a conflict with it shows
/// one.
#[inline(always)]
pub(crate) fn has_some(modes: ModeSet) -> bool
    ensures some { result ≡ true → (mode : _) × (set_has modes mode ≡ true) }
    ensures none { result ≡ false → (mode : _) → set_has modes mode ≡ false }
{
    modes.meets(conflicts(Mode::AccessExclusive))
}
