//! Searches by halving.

ghost use Rattle.std.specs.Prelude.{◌≡◌, ◌<◌, ◌≤◌, ◌+◌, ◌*◌, ◌-◌, ◌^◌, false, length, true};
ghost use Rattle.version_views.specs.SeparatorSearch.{IsPlaceOf};

use std::cmp::Ordering;
use tree_index::Steps;

/// The segment whose keys are the last ones that the key may be among.
#[inline]
pub fn place_of<K: Ord>(separators: &[K], key: &K) -> usize
    ensures { IsPlaceOf K.cmp key.now separators.now result }
{
    let mut steps = Steps::new();
    place_of_counted(separators, key, &mut steps)
}

/// The same, by comparisons that are counted, each of which halves what is left.
///
/// The result of a comparison is added up and not branched on: either result is as likely, so a processor would
/// mispredict every other branch.
pub(crate) fn place_of_counted<K: Ord>(separators: &[K], key: &K, steps: &mut Steps) -> usize
    ensures place { IsPlaceOf K.cmp key.now separators.now result }
    ensures cost { 2 ^ (steps.new.count - steps.old.count) ≤ 2 * length separators.now + 1 }
    ensures raised { steps.old.count ≤ steps.new.count }
{
    let mut low = 0;
    let mut left = separators.len();
    while left > 0 {
        let half = (left - 1) / 2;
        let is_less = steps.compare(&separators[low + half], key) == Ordering::Less;
        low += count_past(half, is_less);
        left /= 2;
    }
    low
}

/// How many separators are passed: `half` and the one behind them, or none.
#[inline]
fn count_past(half: usize, is_past: bool) -> usize
    requires { half < 2 ^ 63 }
    ensures past { is_past ≡ true → result ≡ half + 1 }
    ensures none { is_past ≡ false → result ≡ 0 }
{
    (half << u32::from(is_past)) - half + usize::from(is_past)
}
