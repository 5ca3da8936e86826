//! Look-ups that count their comparisons, by keys that count them too.

ghost use Rattle.std.specs.Prelude.{◌≡◌, ◌≤◌};
ghost use Rattle.std.specs.Ordering.{nat_cmp};
ghost use Rattle.sdd_world.specs.State.{value_at};
ghost use Rattle.version_views.specs.Versions.{IsVersion};

use crate::places::{end, prepared};
use local_versions::{Directory, Item, Write, look_up, look_up_counted, version};
use sdd_world::groups::Group;
use sdd_world::job::NoJob;
use sdd_world::world::World;
use std::alloc::{AllocError, Global};
use std::cell::Cell;
use std::cmp::Ordering;
use std::marker::Model;
use std::process::Abort;
use tree_index::Steps;

// A number as a key, which counts the comparisons that it is in.
#[derive(Drop)]
struct CountedKey {
    number: u64,
    count: Cell<u64>,
}

impl CountedKey {
    fn new(number: u64) -> Self
        ensures { result ≡ number }
    {
        CountedKey {
            number,
            count: Cell::new(0),
        }
    }

    fn count_one(&self) {
        self.count.set(self.count.get().saturating_add(1));
    }
}

impl Model for CountedKey {
    ghost use Rattle.std.specs.Prelude.{ℕ};

    ghost Value = { ℕ };

    ghost view = { λ k. k.number };
}

impl Clone for CountedKey {
    ghost use Rattle.std.specs.Prelude.{◌≡◌};

    ghost is_clone = { λ old new. new ≡ old };

    fn clone(&self) -> Result<Self, AllocError> {
        Ok(CountedKey::new(self.number))
    }
}

impl PartialEq for CountedKey {
    ghost use Rattle.std.specs.Cmp;
    ghost use Rattle.std.specs.Prelude.{nat_eq};

    ghost eq = { λ x y. nat_eq x y };

    ghost laws = { Cmp.partial_equiv_from_equiv Cmp.nat_eq_equiv };

    fn eq(&self, other: &Self) -> bool {
        self.number == other.number
    }
}

impl Eq for CountedKey {
    ghost use Rattle.std.specs.Cmp;

    ghost laws = { Cmp.nat_eq_equiv };
}

impl PartialOrd for CountedKey {
    ghost use Rattle.std.specs.Cmp;
    ghost use Rattle.std.specs.Ordering.{nat_cmp};
    ghost use Rattle.std.specs.Prelude.{Some};

    ghost partial_cmp = { λ x y. Some (nat_cmp x y) };

    ghost laws = { Cmp.unsigned_po };

    fn partial_cmp(&self, other: &Self) -> Option<Ordering> {
        Some(self.cmp(other))
    }
}

impl Ord for CountedKey {
    ghost use Rattle.std.specs.Cmp;
    ghost use Rattle.std.specs.Ordering.{nat_cmp};
    ghost use Rattle.std.specs.Prelude.{refl};

    ghost cmp = { λ x y. nat_cmp x y };

    ghost total = { Cmp.nat_cmp_total };

    ghost matches_partial_cmp = { λ x y. refl };

    ghost matches_eq = { λ x y. Cmp.unsigned_ties x y };

    fn cmp(&self, other: &Self) -> Ordering {
        self.count_one();
        other.count_one();
        self.number.cmp(&other.number)
    }
}

// Upserts of the keys from 1 to a number.
fn upserts<R: Abort>(rt: &R, alloc: Global, last: u64) -> Vec<Write<CountedKey, u64>> {
    let mut writes = Vec::new(alloc);
    for number in 1..=last {
        let key = CountedKey::new(number);
        assert!(rt;
            writes
                .push(Write::Upsert(key, number.saturating_add(100)))
                .is_ok()
        );
    }
    writes
}

// The values that both look-ups of a number find, the comparisons that the counted one made, and those that both made.
fn looked_up<const S: usize>(
    w: &World<Item<CountedKey, u64, S>, NoJob>,
    dir: &Directory<CountedKey, Group>,
    number: u64,
) -> ([Option<u64>; 2], u64, u64)
    requires { IsVersion nat_cmp w.now.groups (value_at w.now) dir.now }
{
    let mut steps = Steps::new();
    let key = CountedKey::new(number);
    let counted = look_up_counted(w, dir, &key, &mut steps).map(|pair| *pair.1);
    let made = key.count.get();
    let plain = look_up(w, dir, &key).map(|pair| *pair.1);
    ([counted, plain], made, key.count.get())
}

// Looks up the keys from 0 to one above the last, where those from 1 on are there: each answer is that of the list, and so
// many comparisons were made at most, as many by a look-up that isn't counted.
fn look_up_all<R: Abort, const S: usize>(
    rt: &R,
    w: &World<Item<CountedKey, u64, S>, NoJob>,
    dir: &Directory<CountedKey, Group>,
    last: u64,
    most: u64,
)
    requires { IsVersion nat_cmp w.now.groups (value_at w.now) dir.now }
{
    let mut right = 0u64;
    for number in 0..=last.saturating_add(1) {
        let there = 1 <= number && number <= last;
        let wanted = if there {
            Some(number.saturating_add(100))
        } else {
            None
        };
        let (found, made, both) = looked_up(w, dir, number);
        let is_right = found == [wanted; 2] && made <= most && both == made.saturating_mul(2);
        if right == number && is_right {
            right = right.saturating_add(1);
        }
    }
    assert_eq!(rt;
        right,
        last.saturating_add(2),
        "the first number that is looked up wrongly"
    );
}

// Versions of the keys from 1 to the last, each with a hundred more as its value. In the empty one no look-up compares.
fn look_up_among<R: Abort, const S: usize>(rt: &R, alloc: Global, last: u64, most: u64)
    requires { (1 ≤ S) × (S ≤ 225) }
{
    let writes = upserts(rt, alloc, last);
    let held = prepared::<R, CountedKey, S>(rt, alloc, writes.as_slice());
    look_up_all::<R, S>(rt, &held.w, version(&held.w, &held.none), 0, 0);
    look_up_all::<R, S>(rt, &held.w, version(&held.w, &held.root), last, most);
    end(rt, held);
}

// Five pairs lie in at most five segments: three binary digits.
#[test]
fn a_counted_look_up_among_five_pairs_makes_at_most_33_comparisons(rt: HostRuntime) {
    look_up_among::<_, 1>(&rt, rt.alloc(), 5, 33);
    look_up_among::<_, 2>(&rt, rt.alloc(), 5, 33);
    look_up_among::<_, 3>(&rt, rt.alloc(), 5, 33);
    look_up_among::<_, 225>(&rt, rt.alloc(), 5, 33);
}

// 1,000 pairs lie in at most 9 segments of 225 pairs, four binary digits; a hundred in 100 of one pair, seven.
#[test]
fn a_counted_look_up_halves_the_segments(rt: HostRuntime) {
    look_up_among::<_, 225>(&rt, rt.alloc(), 1_000, 34);
    look_up_among::<_, 1>(&rt, rt.alloc(), 100, 37);
}
