//! The merges of several sessions' lines. A merge is a list of sessions, each as often as it has lines: whose
//! line comes when. So each session's lines keep their order in every merge.

ghost use Rattle.std.specs.Prelude.{◌≡◌, ℕ, ◌<◌, ◌≤◌, ◌+◌, List, true, false, length, take, drop, reverse, slice_index, IfSome, IfNone};
ghost use Rattle.std.specs.List.Sorted.{IsPermutation};
ghost use Rattle.script_orders.specs.Merges.{ComesLater, LiesBetween, IsDescendingFrom, IsInDescendingOrder};

/// Makes `merge` the next merge of its sessions' lines, or answers that there is none. The first merge of all
/// has the sessions in ascending order. Each next merge comes later, so none comes twice.
pub fn next_merge(merge: &mut [usize]) -> bool
    ensures same { IsPermutation merge.old merge.new }
    ensures later { result ≡ true → ComesLater merge.old merge.new }
    ensures none_between { result ≡ true → (other : List ℕ) → ¬ LiesBetween merge.old merge.new other }
    ensures last { result ≡ false → IsInDescendingOrder merge.old }
    ensures unchanged { result ≡ false → merge.new ≡ merge.old }
{
    let Some(place) = last_ascent(merge) else {
        return false;
    };
    let other = last_above(merge, place);
    merge.swap(place, other);
    turn_round(merge, place + 1);
    true
}

/// The last place of `merge` whose session comes before that of the next place.
fn last_ascent(merge: &[usize]) -> Option<usize>
    ensures ascent { IfSome result (λ place. (place + 1 < length merge.now)
        × (slice_index merge.now place < slice_index merge.now (place + 1))) }
    ensures descending { IfSome result (λ place. IsDescendingFrom (place + 1) merge.now) }
    ensures none { IfNone result (IsInDescendingOrder merge.now) }
{
    let mut found = None;
    'places: for place in 0..merge.len().saturating_sub(1) {
        if merge[place] < merge[place + 1] {
            found = Some(place);
        }
    }
    found
}

/// The last place of `merge` after `place` with a session that comes after the one at `place`.
fn last_above(merge: &[usize], place: usize) -> usize
    requires behind { place + 1 < length merge.now }
    requires ascent { slice_index merge.now place < slice_index merge.now (place + 1) }
    ensures behind { (place < result) × (result < length merge.now) }
    ensures above { slice_index merge.now place < slice_index merge.now result }
    ensures last { (k : ℕ) → result < k → k < length merge.now →
        slice_index merge.now k ≤ slice_index merge.now place }
{
    let mut found = place + 1;
    'places: for other in place + 1..merge.len() {
        if merge[place] < merge[other] {
            found = other;
        }
    }
    found
}

/// Reverses what `merge` has from the place `from` on.
fn turn_round(merge: &mut [usize], from: usize)
    requires { from ≤ length merge.old }
    ensures same { IsPermutation merge.old merge.new }
    ensures front { take from merge.new ≡ take from merge.old }
    ensures turned { drop from merge.new ≡ reverse (drop from merge.old) }
{
    merge[from..].reverse();
}
