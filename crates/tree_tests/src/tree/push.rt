//! Pairs that come by rising keys, each put behind the last one, and copies that are made so.

use super::calls::Act::Fill;
use super::calls::Numbers::Modulo;
use super::calls::Told::Is;
use super::calls::{Pairs, SAME, all, equal};
use super::each_call::{
    clear, copy_of, count_of, depth_of, empty, first_of, last_of, len_of, push, roomy, val_of,
};
use super::{Tree, leaf_at};
use std::test::Fail;

#[test]
fn pairs_are_put_behind_the_last_one(rt: HostRuntime) -> Result<(), Fail> {
    let mut tree = roomy(rt.alloc(), 3)?;
    let depth = depth_of(&tree);
    let first = push(&mut tree, 10, 1);
    let second = push(&mut tree, 20, 2);
    let third = push(&mut tree, 30, 3);
    let ends = (first_of(&tree), val_of(&tree, 20), last_of(&tree));
    let pushed = first.is_ok() && second.is_ok() && third.is_ok();
    assert!(rt; pushed && depth == 0 && len_of(&tree) == 3);
    assert!(rt; ends == (Some((10, 1)), Some(2), Some((30, 3))));
    Ok(())
}

#[test]
fn a_tree_that_was_emptied_takes_pairs_behind_its_last_one(rt: HostRuntime) {
    let mut tree = empty(rt.alloc());
    let first = push(&mut tree, 5, 50);
    clear(&mut tree);
    let second = push(&mut tree, 4, 40);
    let third = push(&mut tree, 6, 60);
    let found = len_of(&tree) == 2 && val_of(&tree, 4) == Some(40) && val_of(&tree, 5).is_none();
    assert!(rt; first.is_ok() && second.is_ok() && third.is_ok() && found);
}

// Keys below 300, in no order and none twice, as 337 and 300 have no common divisor, each with its number.
pub(super) const BELOW_300: Pairs = Pairs(Modulo(337, 300), SAME);

/// How many pairs the first leaf has, if there is a pair.
pub(super) fn first_leaf(tree: &Tree) -> Option<usize> {
    let (key, _) = first_of(tree)?;
    Some(leaf_at(tree, key)?.array.len())
}

#[test]
fn copies_of_every_size_have_full_leaves(rt: HostRuntime) -> Result<(), Fail> {
    for count in 0..300u64 {
        let mut tree = empty(rt.alloc());
        let taken = all(&mut tree, Fill, BELOW_300, 0, count);
        let copy = copy_of(rt.alloc(), &tree)?;
        let len = len_of(&tree);
        // equal by its walk too, at the least depth, and with a full first leaf
        let same = equal(&copy, &tree) == Is(true) && count_of(&copy) == len;
        let depth = if len > 240 { 2 } else { 1 };
        let full = depth_of(&copy) == depth && first_leaf(&copy) == Some(len.min(15));
        assert!(rt; taken && same && (full || len == 0));
    }
    Ok(())
}
