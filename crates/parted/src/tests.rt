//! Tests of parts, of lives, and of reading from several threads. They are in the crate, which is checked in a minute or two
//! with them.

use super::*;
use std::alloc::Global;
use std::mem::ManuallyDrop;
use std::test::Fail;
use std::thread::join;

#[test]
fn the_box_comes_back_of_all_parts(rt: HostRuntime) -> Result<(), Fail> {
    let (deed, mut all) = freeze(Box::new(rt.alloc(), 7u64)?);
    let mut some = all.split(1000);
    let one = some.split_one();
    let read = (*all.get(), *some.get(), *one.get());
    some.join(one);
    all.join(some);
    let whole = thaw(deed, all);
    assert_eq!(rt; read, (7, 7, 7));
    assert_eq!(rt; *whole, 7);
    Ok(())
}

#[test]
fn parts_are_lent_to_a_life(rt: HostRuntime) -> Result<(), Fail> {
    let (deed, all) = freeze(Box::new(rt.alloc(), 7u64)?);
    let mut life = Life::begin();
    let guard = life.split_one();
    let lent = all.lend(&life);
    let seen = lent.see();
    is_send(&deed);
    is_send(&lent);
    is_sync(&lent);
    is_send(&seen);
    is_sync(&seen);
    is_send(&guard);
    is_sync(&guard);
    let read = (
        *seen.get(&guard),
        *seen.copy().get(&life),
        *lent.get(&guard),
    );
    life.join(guard);
    let all = lent.recover(&life.end());
    let whole = thaw(deed, all);
    assert_eq!(rt; read, (7, 7, 7));
    assert_eq!(rt; *whole, 7);
    Ok(())
}

#[test]
fn tokens_are_split_pledged_and_joined(rt: HostRuntime) -> Result<(), Fail> {
    let whole = Box::new(rt.alloc(), 7u64)?;
    let mut life = Life::begin();
    let (deed, seen) = share(whole, &life);
    let mut some = life.split(10);
    let one = some.split_one();
    let outer = Life::begin();
    let pledge = one.pledge(&outer);
    let under = seen.copy().under(&pledge);
    let read = (*seen.get(&some), *under.get(&outer));
    some.join(pledge.recover(&outer.end()));
    life.join(some);
    let whole = deed.reclaim(&life.end());
    assert_eq!(rt; read, (7, 7));
    assert_eq!(rt; *whole, 7);
    Ok(())
}

#[test]
fn a_part_sees_what_another_one_sees(rt: HostRuntime) -> Result<(), Fail> {
    let (deed, mut all) = freeze(Box::new(rt.alloc(), 7u64)?);
    let home = all.split_one();
    let one = One::from_part(all.like(home));
    let life = Life::begin();
    let lent = all.split_one().lend(&life);
    let read = (*one.get(), *lent.see_like(&one.part).get(&life));
    all.join(lent.recover(&life.end()));
    all.join(one.into_part());
    let whole = thaw(deed, all);
    assert_eq!(rt; read, (7, 7));
    assert_eq!(rt; *whole, 7);
    Ok(())
}

#[test]
fn a_box_is_lent_to_a_life(rt: HostRuntime) -> Result<(), Fail> {
    let whole = Box::new(rt.alloc(), 7u64)?;
    let life = Life::begin();
    let (deed, seen) = share(whole, &life);
    let read = *seen.get(&life);
    let whole = deed.reclaim(&life.end());
    assert_eq!(rt; read, 7);
    assert_eq!(rt; *whole, 7);
    Ok(())
}

/// An item that owns a part of an item of its type.
enum Item {
    Leaf(u64),
    Branch(One<Option<ManuallyDrop<Item>>>),
}

fn is_sync<T: Sync>(_value: &T) {}

fn is_send<T: Send>(_value: &T) {}

/// The number below an item, by one owner at most.
fn number_below(item: &Item) -> u64 {
    is_sync(item);
    is_send(item);
    let Item::Branch(one) = item else {
        return 0;
    };
    match one.get() {
        Some(below) => match &**below {
            Item::Leaf(number) => *number,
            Item::Branch(_) => 1,
        },
        None => 2,
    }
}

#[test]
fn an_item_owns_a_part_of_its_type(rt: HostRuntime) -> Result<(), Fail> {
    let leaf = Box::new(
        rt.alloc(),
        Some(unsafe { ManuallyDrop::new_unchecked(Item::Leaf(7)) }),
    )?;
    let (deed, mut all) = freeze(leaf);
    let branch = Item::Branch(One::from_part(all.split_one()));
    let read = number_below(&branch);
    let Item::Branch(one) = branch else {
        unreachable!()
    };
    all.join(one.into_part());
    let leaf = thaw(deed, all);
    assert_eq!(rt; read, 7);
    assert_eq!(rt; leaf.is_some(), true);
    Ok(())
}

/// Reads a value a thousand times, and adds up what it reads.
fn reads(part: &Part<u64>) -> u64 {
    let mut sum: u64 = 0;
    for _ in 0..1000 {
        sum = sum.wrapping_add(*part.get());
    }
    sum
}

/// Freezes a value a thousand times, and thaws it.
fn freezes(whole: Box<u64, Global>) -> Box<u64, Global> {
    let mut whole = whole;
    for _ in 0..1000 {
        let (deed, all) = freeze(whole);
        whole = thaw(deed, all);
    }
    whole
}

#[test]
fn two_read_beside_another_that_freezes(rt: HostRuntime) -> Result<(), Fail> {
    let whole = Box::new(rt.alloc(), 7u64)?;
    let other = Box::new(rt.alloc(), 8u64)?;
    let (deed, mut all) = freeze(whole);
    let one = all.split_one();
    let (sums, other) = join(
        &rt,
        || join(&rt, || reads(&one), || reads(&all)),
        move || freezes(other),
    );
    all.join(one);
    let whole = thaw(deed, all);
    assert_eq!(rt; sums, (7000, 7000));
    assert_eq!(rt; (*whole, *other), (7, 8));
    Ok(())
}
