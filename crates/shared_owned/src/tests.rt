//! Tests of owners that are alone, of their cells and of raw items, by one thread and by two.

ghost use Rattle.std.specs.Prelude.{◌≡◌, ◌≤◌, ◌<◌, [], IfSome};
ghost use Rattle.sdd_domain.specs.Layout.{IsSized};
ghost use Rattle.sdd_domain.specs.Tokens.{place_of, home_of, hand_of, own_of, nest_of, nest_in, IsInNest, IsSameButMisses};
ghost use Rattle.shared_owned.specs.Alone.{place_in, IsCellOf, IsAsBefore};
ghost use Rattle.shared_owned.specs.Raw.{AreRawItemsOf};

use crate::atomic_owned::AtomicOwned;
use crate::atomic_raw::AtomicRaw;
use crate::collecting::collect_owned;
use crate::owned::Owned;
use crate::pointer::OwnedPtr;
use crate::raw_items::{RawItems, RawRefused};
use crate::raw_ptr::RawPtr;
use sdd_domain::domain::Domain;
use sdd_domain::guard::Guard;
use sdd_domain::local::Local;
use sdd_domain::private_collector::PrivateCollector;
use sdd_plain::refusal::NoSlot;
use sdd_plain::sizes::Sizes;
use sdd_plain::tag::Tag;
use std::alloc::Global;
use std::process::Abort;
use std::test::Fail;
use std::thread::{Threads, join};

pub(crate) fn sized(participants: u8, slots: u16, cells: u16) -> Sizes
    requires { 1 ≤ participants }
    ensures { IsSized result }
{
    Sizes {
        participants: usize::from(participants),
        slots: usize::from(slots),
        cells: usize::from(cells),
        jobs: 0,
    }
}

pub(crate) fn member<R: Abort>(rt: &R, domain: &Domain<u64>) -> Local<u64>
    ensures home { (home_of result ≡ place_of domain.now) × (hand_of result ≡ []) }
    ensures closed { (own_of result).nesting ≡ 0 }
{
    match domain.register() {
        Ok(local) => local,
        Err(_) => panic!(rt; "a participant is free"),
    }
}

/// Ends a place in which nobody is registered.
pub(crate) fn end<R: Abort>(rt: &R, domain: Domain<u64>) {
    match domain.close() {
        Ok(()) => {}
        Err(_) => panic!(rt; "nobody is registered, and nothing has an owner"),
    }
}

pub(crate) fn owned<R: Abort>(
    rt: &R,
    domain: &Domain<u64>,
    value: u64,
    local: &mut Local<u64>,
) -> Owned<u64>
    requires home { (home_of local.old ≡ place_of domain.now) × (hand_of local.old ≡ []) }
    ensures home { place_in result ≡ (place_of domain.now).0 }
    ensures same { IsSameButMisses local.old local.new × (own_of local.new ≡ own_of local.old) × (nest_in local.new ≡ nest_in local.old) }
{
    match Owned::new(domain, value, local) {
        Ok(owner) => owner,
        Err(_) => panic!(rt; "a slot is free"),
    }
}

/// Opens and closes an accelerated guard.
fn pass(domain: &Domain<u64>, local: &mut Local<u64>)
    requires home { (home_of local.old ≡ place_of domain.now) × (hand_of local.old ≡ []) }
    requires closed { (own_of local.old).nesting ≡ 0 }
    ensures same { IsAsBefore local.old local.new }
{
    let Ok(guard) = Guard::new(domain, local) else {
        unreachable!();
    };
    guard.accelerate(local);
    guard.close(domain, local);
}

/// Four of them: what was retired before is reclaimed.
fn four(domain: &Domain<u64>, local: &mut Local<u64>)
    requires home { (home_of local.old ≡ place_of domain.now) × (hand_of local.old ≡ []) }
    requires closed { (own_of local.old).nesting ≡ 0 }
    ensures same { IsAsBefore local.old local.new }
{
    pass(domain, local);
    pass(domain, local);
    pass(domain, local);
    pass(domain, local);
}

/// The value that an owner reads, which is retired.
pub(crate) fn last_value(
    domain: &Domain<u64>,
    owner: Option<Owned<u64>>,
    local: &mut Local<u64>,
) -> Option<u64>
    requires home { home_of local.old ≡ place_of domain.now }
    requires mine { IfSome owner (λ o. place_in o ≡ (place_of domain.now).0) }
    ensures same { IsAsBefore local.old local.new }
{
    let owner = owner?;
    let value = *owner.as_ref();
    owner.retire(domain, local);
    Some(value)
}

/// In a place of one slot: whether a second item is refused while the first has its owner, and while it waits behind its
/// retirement; what is placed behind four guards.
#[test]
fn a_retired_item_leaves_its_slot_after_four_guards(rt: HostRuntime) -> Result<(), Fail> {
    let domain = Domain::new(rt.alloc(), sized(1, 1, 0))?;
    let mut local = member(&rt, &domain);
    let first = owned(&rt, &domain, 7, &mut local);
    let back = match Owned::new(&domain, 8, &mut local) {
        Ok(owner) => last_value(&domain, Some(owner), &mut local),
        Err(value) => Some(value + 100),
    };
    let retired = first.retire(&domain, &mut local);
    let waits = match Owned::new(&domain, 9, &mut local) {
        Ok(owner) => last_value(&domain, Some(owner), &mut local),
        Err(value) => Some(value + 100),
    };
    four(&domain, &mut local);
    let third = owned(&rt, &domain, 10, &mut local);
    let value = last_value(&domain, Some(third), &mut local);
    local.end(&domain);
    end(&rt, domain);
    assert!(rt; (back, retired, waits, value) == (Some(108), true, Some(109), Some(10)));
    Ok(())
}

/// In a place of one slot: whether an item was collected, and whether a second one is refused behind its guard, which isn't
/// accelerated, once the collector is handed over; what is placed behind four guards.
#[test]
fn a_collected_item_leaves_its_slot_four_guards_after_it_is_handed_over(
    rt: HostRuntime,
) -> Result<(), Fail> {
    let domain = Domain::new(rt.alloc(), sized(1, 1, 0))?;
    let mut local = member(&rt, &domain);
    let Ok(collector) = PrivateCollector::new(&domain) else {
        panic!(rt; "memory is there");
    };
    let first = owned(&rt, &domain, 7, &mut local);
    let Ok(guard) = Guard::new(&domain, &mut local) else {
        panic!(rt; "no guard is open");
    };
    let (collector, collected) = collect_owned(&domain, collector, first, &guard, &mut local);
    guard.close(&domain, &mut local);
    collector.hand_over(&domain, &mut local);
    let back = match Owned::new(&domain, 8, &mut local) {
        Ok(owner) => last_value(&domain, Some(owner), &mut local),
        Err(value) => Some(value + 100),
    };
    four(&domain, &mut local);
    let second = owned(&rt, &domain, 9, &mut local);
    let value = last_value(&domain, Some(second), &mut local);
    local.end(&domain);
    end(&rt, domain);
    assert!(rt; (collected, back, value) == (true, Some(108), Some(9)));
    Ok(())
}

/// In a place of one slot: the value that a closure gave, and whether a second one was called, for which no slot was free.
#[test]
fn a_closure_is_called_where_a_slot_is_free(rt: HostRuntime) -> Result<(), Fail> {
    let domain = Domain::new(rt.alloc(), sized(1, 1, 0))?;
    let mut local = member(&rt, &domain);
    let Ok(first) = Owned::new_with(&domain, || 7, &mut local) else {
        panic!(&rt; "a slot is free");
    };
    let mut called = false;
    let second = Owned::new_with(
        &domain,
        || {
            called = true;
            8
        },
        &mut local,
    );
    let refused = match second {
        Ok(owner) => last_value(&domain, Some(owner), &mut local).is_none(),
        Err(NoSlot) => true,
    };
    let value = last_value(&domain, Some(first), &mut local);
    local.end(&domain);
    end(&rt, domain);
    assert_eq!(rt; (value, refused, called), (Some(7), true, false));
    Ok(())
}

type Swapped = (Option<u64>, Tag);

/// What three swaps of a cell with 14 take out of it.
fn three_swaps<R: Abort>(rt: &R, domain: &Domain<u64>, local: &mut Local<u64>) -> [Swapped; 3]
    requires home { (home_of local.old ≡ place_of domain.now) × (hand_of local.old ≡ []) }
    ensures same { IsAsBefore local.old local.new }
{
    let Ok(cell) = AtomicOwned::new(domain, 14, local) else {
        panic!(rt; "a slot and a cell are free");
    };
    let fifteen = owned(rt, domain, 15, local);
    let (one, first) = cell.swap(domain, (Some(fifteen), Tag::Second), local);
    let (two, second) = cell.swap(domain, (None, Tag::First), local);
    let (three, third) = cell.swap(domain, (None, Tag::None), local);
    cell.retire(domain, local);
    let one = last_value(domain, one, local);
    let two = last_value(domain, two, local);
    let three = last_value(domain, three, local);
    [(one, first), (two, second), (three, third)]
}

#[test]
fn a_swap_takes_out_the_owner_and_the_tag(rt: HostRuntime) -> Result<(), Fail> {
    let domain = Domain::new(rt.alloc(), sized(1, 2, 1))?;
    let mut local = member(&rt, &domain);
    let found = three_swaps(&rt, &domain, &mut local);
    local.end(&domain);
    end(&rt, domain);
    let row = [
        (Some(14), Tag::None),
        (Some(15), Tag::Second),
        (None, Tag::First),
    ];
    assert!(rt; found == row);
    Ok(())
}

/// What is seen of a cell: whether it is empty, its tag, and the value and the tag that a guard loads.
type Looked = (bool, Tag, Option<u64>, Tag);

fn looks(domain: &Domain<u64>, cell: &AtomicOwned<u64>, local: &mut Local<u64>) -> Looked
    requires home { (home_of local.old ≡ place_of domain.now) × (hand_of local.old ≡ []) }
    requires closed { (own_of local.old).nesting ≡ 0 }
    requires cell { IsCellOf cell.now domain.now }
    ensures same { IsAsBefore local.old local.new }
{
    let (empty, tag) = (cell.is_null(domain, local), cell.tag(domain, local));
    let Ok(guard) = Guard::new(domain, local) else {
        unreachable!();
    };
    let found = cell.load(domain, &guard, local);
    let (value, loaded) = (found.as_ref().copied(), found.tag());
    guard.close(domain, local);
    (empty, tag, value, loaded)
}

/// What is seen of a cell that is made empty, then has 14 with both tags, and then nothing with the second one.
fn three_looks<R: Abort>(rt: &R, domain: &Domain<u64>, local: &mut Local<u64>) -> [Looked; 3]
    requires home { (home_of local.old ≡ place_of domain.now) × (hand_of local.old ≡ []) }
    requires closed { (own_of local.old).nesting ≡ 0 }
    ensures same { IsAsBefore local.old local.new }
{
    let Ok(cell) = AtomicOwned::null(domain, local) else {
        panic!(rt; "a cell is free");
    };
    let made = looks(domain, &cell, local);
    let fourteen = owned(rt, domain, 14, local);
    let (none, _) = cell.swap(domain, (Some(fourteen), Tag::Both), local);
    last_value(domain, none, local);
    let full = looks(domain, &cell, local);
    let (taken, _) = cell.swap(domain, (None, Tag::Second), local);
    last_value(domain, taken, local);
    let emptied = looks(domain, &cell, local);
    cell.retire(domain, local);
    [made, full, emptied]
}

#[test]
fn a_cell_is_seen_as_it_was_left(rt: HostRuntime) -> Result<(), Fail> {
    let domain = Domain::new(rt.alloc(), sized(1, 1, 1))?;
    let mut local = member(&rt, &domain);
    let found = three_looks(&rt, &domain, &mut local);
    local.end(&domain);
    end(&rt, domain);
    let rows = [
        (true, Tag::None, None, Tag::None),
        (false, Tag::Both, Some(14), Tag::Both),
        (true, Tag::Second, None, Tag::Second),
    ];
    assert!(rt; found == rows);
    Ok(())
}

/// What a guard finds in a cell of 14: its value, by a pointer with another tag; whether the tag is set where the pointer is
/// asked for 14 and where for 15; what an exchange for nothing gives of a pointer with the tag before, and with the tag.
type Exchanged = (Option<u64>, [bool; 2], Option<u64>, Option<u64>);

fn exchanges<R: Abort>(rt: &R, domain: &Domain<u64>, local: &mut Local<u64>) -> Exchanged
    requires home { (home_of local.old ≡ place_of domain.now) × (hand_of local.old ≡ []) }
    requires closed { (own_of local.old).nesting ≡ 0 }
    ensures same { IsAsBefore local.old local.new }
{
    let fourteen = owned(rt, domain, 14, local);
    let cell = match AtomicOwned::from(domain, fourteen, local) {
        Ok(cell) => cell,
        Err(back) => {
            back.retire(domain, local);
            panic!(rt; "a cell is free")
        }
    };
    let found = exchanges_in(domain, &cell, local);
    cell.retire(domain, local);
    found
}

fn exchanges_in(domain: &Domain<u64>, cell: &AtomicOwned<u64>, local: &mut Local<u64>) -> Exchanged
    requires home { (home_of local.old ≡ place_of domain.now) × (hand_of local.old ≡ []) }
    requires closed { (own_of local.old).nesting ≡ 0 }
    requires cell { IsCellOf cell.now domain.now }
    ensures same { IsAsBefore local.old local.new }
{
    let Ok(guard) = Guard::new(domain, local) else {
        unreachable!();
    };
    let (value, set) = looked_at(domain, cell, &guard, local);
    let refused = taken(domain, cell, Tag::None, &guard, local);
    let taken = taken(domain, cell, Tag::First, &guard, local);
    guard.close(domain, local);
    (value, set, refused, taken)
}

/// The value in a cell, by a pointer with another tag, and whether its tag is set where it is asked for 14 and for 15.
fn looked_at(
    domain: &Domain<u64>,
    cell: &AtomicOwned<u64>,
    guard: &Guard,
    local: &mut Local<u64>,
) -> (Option<u64>, [bool; 2])
    requires home { home_of local.old ≡ place_of domain.now }
    requires nest { nest_of guard.now ≡ nest_in local.old }
    requires open { 0 < (own_of local.old).nesting }
    requires cell { IsCellOf cell.now domain.now }
    ensures same { IsInNest local.old local.new × (own_of local.new ≡ own_of local.old) }
{
    let found = cell.load(domain, guard, local);
    let value = found.with_tag(Tag::Both).as_ref().copied();
    let set = cell.update_tag_if(
        domain,
        Tag::First,
        |it| it.as_ref() == Some(&14),
        guard,
        local,
    );
    let not = cell.update_tag_if(
        domain,
        Tag::Second,
        |it| it.as_ref() == Some(&15),
        guard,
        local,
    );
    (value, [set, not])
}

/// The value that an exchange for nothing takes out of a cell that is asked for this tag, or 100 where it is refused and the cell has the first tag.
fn taken(
    domain: &Domain<u64>,
    cell: &AtomicOwned<u64>,
    tag: Tag,
    guard: &Guard,
    local: &mut Local<u64>,
) -> Option<u64>
    requires home { home_of local.old ≡ place_of domain.now }
    requires nest { nest_of guard.now ≡ nest_in local.old }
    requires open { 0 < (own_of local.old).nesting }
    requires cell { IsCellOf cell.now domain.now }
    ensures same { IsAsBefore local.old local.new }
{
    let current = cell.load(domain, guard, local).with_tag(tag);
    match cell.compare_exchange(domain, current, (None, Tag::None), guard, local) {
        Ok((old, _)) => last_value(domain, old, local),
        Err((back, found)) => match last_value(domain, back, local) {
            None if found.tag() == Tag::First => Some(100),
            _ => None,
        },
    }
}

#[test]
fn an_exchange_is_taken_where_item_and_tag_are_the_same(rt: HostRuntime) -> Result<(), Fail> {
    let domain = Domain::new(rt.alloc(), sized(1, 1, 1))?;
    let mut local = member(&rt, &domain);
    let found = exchanges(&rt, &domain, &mut local);
    local.end(&domain);
    end(&rt, domain);
    assert!(rt; found == (Some(14), [true, false], Some(100), Some(14)));
    Ok(())
}

/// Of an item that is out as a raw one: its value by a pointer with the second tag, and that tag; the value of the owner that
/// is had back, and of the one had back once more; whether a pointer to nothing gives one to nothing; its value and tag then.
type Raw = (
    Option<(u64, Tag)>,
    Option<u64>,
    Option<u64>,
    bool,
    Option<(u64, Tag)>,
);

fn goes_out<R: Abort>(
    rt: &R,
    domain: &Domain<u64>,
    raws: &RawItems<u64>,
    local: &mut Local<u64>,
) -> Raw
    requires home { (home_of local.old ≡ place_of domain.now) × (hand_of local.old ≡ []) }
    requires closed { (own_of local.old).nesting ≡ 0 }
    requires raws { AreRawItemsOf raws.now domain.now }
    ensures same { IsAsBefore local.old local.new }
{
    let pointer = sent_out(rt, domain, 7, raws, local).with_tag(Tag::Second);
    let (is_seen, is_nothing) = seen(domain, raws, pointer, local);
    let back = had_back(domain, raws, pointer, local);
    let again = had_back(domain, raws, pointer, local);
    let (gone, _) = seen(domain, raws, pointer, local);
    (is_seen, back, again, is_nothing, gone)
}

/// A raw pointer to a new item.
fn sent_out<R: Abort>(
    rt: &R,
    domain: &Domain<u64>,
    value: u64,
    raws: &RawItems<u64>,
    local: &mut Local<u64>,
) -> RawPtr<u64>
    requires home { (home_of local.old ≡ place_of domain.now) × (hand_of local.old ≡ []) }
    requires raws { AreRawItemsOf raws.now domain.now }
    ensures same { IsAsBefore local.old local.new }
{
    let owner = owned(rt, domain, value, local);
    match raws.into_raw(domain, owner, local) {
        Ok(pointer) => pointer,
        Err(back) => {
            back.retire(domain, local);
            RawPtr::null()
        }
    }
}

/// What a guard reads by a raw pointer, and its tag; and whether the pointer to nothing gives one to nothing.
fn seen(
    domain: &Domain<u64>,
    raws: &RawItems<u64>,
    pointer: RawPtr<u64>,
    local: &mut Local<u64>,
) -> (Option<(u64, Tag)>, bool)
    requires home { (home_of local.old ≡ place_of domain.now) × (hand_of local.old ≡ []) }
    requires closed { (own_of local.old).nesting ≡ 0 }
    requires raws { AreRawItemsOf raws.now domain.now }
    ensures same { IsAsBefore local.old local.new }
{
    let Ok(guard) = Guard::new(domain, local) else {
        unreachable!();
    };
    let seen = match raws.into_ptr(domain, pointer, &guard, local) {
        Some(it) => it.as_ref().map(|value| (*value, it.tag())),
        None => None,
    };
    let nothing = raws.into_ptr(domain, RawPtr::null(), &guard, local);
    let is_nothing = nothing == Some(OwnedPtr::null());
    guard.close(domain, local);
    (seen, is_nothing)
}

/// The value of the owner that is had back.
fn had_back(
    domain: &Domain<u64>,
    raws: &RawItems<u64>,
    pointer: RawPtr<u64>,
    local: &mut Local<u64>,
) -> Option<u64>
    requires home { home_of local.old ≡ place_of domain.now }
    requires raws { AreRawItemsOf raws.now domain.now }
    ensures same { IsAsBefore local.old local.new }
{
    let back = raws.from_raw(domain, pointer, local);
    last_value(domain, back, local)
}

#[test]
fn an_item_that_is_out_as_a_raw_one_is_had_back_once(rt: HostRuntime) -> Result<(), Fail> {
    let domain = Domain::new(rt.alloc(), sized(1, 2, 2))?;
    let mut local = member(&rt, &domain);
    let Ok(raws) = RawItems::new(rt.alloc(), &domain, &mut local) else {
        panic!(&rt; "memory is ample, and so are cells");
    };
    let found = goes_out(&rt, &domain, &raws, &mut local);
    let refused = match RawItems::new(rt.alloc(), &domain, &mut local) {
        Ok(more) => {
            more.end(&domain, &mut local);
            None
        }
        Err(why) => Some(why),
    };
    raws.end(&domain, &mut local);
    local.end(&domain);
    end(&rt, domain);
    let row = (Some((7, Tag::Second)), Some(7), None, true, None);
    assert!(rt; (found, refused) == (row, Some(RawRefused::NoCell)));
    Ok(())
}

/// A raw pointer to an item in the second slot.
fn pointer<R: Abort>(
    rt: &R,
    alloc: Global,
    domain: &Domain<u64>,
    local: &mut Local<u64>,
) -> RawPtr<u64>
    requires home { (home_of local.old ≡ place_of domain.now) × (hand_of local.old ≡ []) }
    ensures same { IsAsBefore local.old local.new }
{
    let Ok(raws) = RawItems::new(alloc, domain, local) else {
        panic!(rt; "memory is ample, and so are cells");
    };
    let first = owned(rt, domain, 1, local);
    let found = sent_out(rt, domain, 2, &raws, local);
    first.retire(domain, local);
    raws.end(domain, local);
    found
}

/// Words of raw pointers: what was written is read, with its tag; an exchange is taken where slot and tag are the same.
#[test]
fn a_word_has_the_raw_pointer_that_was_written(rt: HostRuntime) -> Result<(), Fail> {
    let domain = Domain::new(rt.alloc(), sized(1, 2, 2))?;
    let mut local = member(&rt, &domain);
    let it = pointer(&rt, rt.alloc(), &domain, &mut local);
    local.end(&domain);
    end(&rt, domain);
    let (tagged, null) = (it.with_tag(Tag::Both), RawPtr::null());
    let word = AtomicRaw::null();
    let empty = word.is_null();
    word.store(tagged);
    let read = [word.load(), word.swap(it)];
    let tried = [
        word.compare_exchange(tagged, null),
        word.compare_exchange_weak(tagged, null),
        word.compare_exchange(it, tagged),
    ];
    let more = [
        word.fetch_update(|found| Some(found.without_tag())),
        word.fetch_update(|found| if found == it { None } else { Some(found) }),
    ];
    let set = [
        word.update_tag_if(Tag::First, |found| found.is_null()),
        word.update_tag_if(Tag::Second, |found| found == it),
    ];
    let now = (word.tag(), word.load());
    assert!(rt; !it.is_null() && empty && read == [tagged, tagged]);
    assert!(rt; tried == [Err(it), Err(it), Ok(it)] && more == [Ok(tagged), Err(it)]);
    assert!(rt; set == [false, true] && now == (Tag::Second, it.with_tag(Tag::Second)));
    // one that is made with a pointer, and exchanged for nothing and back
    assert!(rt; RawPtr::default() == null);
    let made = AtomicRaw::new(tagged);
    let had = (made.is_null(), made.tag(), made.load());
    let gone = (made.compare_exchange(tagged, null), made.is_null());
    let back = (made.compare_exchange(null, it), made.load());
    assert!(rt;
        had == (false, Tag::Both, tagged) && gone == (Ok(tagged), true) && back == (Ok(null), it)
    );
    Ok(())
}

/// What the owner of a new item lends to a guard, by reference and by pointer.
fn lent<R: Abort>(rt: &R, domain: &Domain<u64>, local: &mut Local<u64>) -> (u64, Option<u64>)
    requires home { (home_of local.old ≡ place_of domain.now) × (hand_of local.old ≡ []) }
    requires closed { (own_of local.old).nesting ≡ 0 }
    ensures same { IsAsBefore local.old local.new }
{
    let owner = owned(rt, domain, 5, local);
    let Ok(guard) = Guard::new(domain, local) else {
        unreachable!();
    };
    let (owner, item) = owner.get_guarded_ref(domain, &guard, local);
    let (owner, pointer) = owner.get_guarded_ptr(domain, &guard, local);
    owner.retire(domain, local);
    let found = (*item, pointer.as_ref().copied());
    guard.close(domain, local);
    found
}

/// An owner lends its own item, though the place's first slot and cell have another one.
#[test]
fn an_owner_lends_its_own_item(rt: HostRuntime) -> Result<(), Fail> {
    let domain = Domain::new(rt.alloc(), sized(1, 2, 2))?;
    let mut local = member(&rt, &domain);
    let other = owned(&rt, &domain, 3, &mut local);
    let cell = match AtomicOwned::from(&domain, other, &mut local) {
        Ok(cell) => cell,
        Err(_) => panic!(rt; "a cell is free"),
    };
    let found = lent(&rt, &domain, &mut local);
    cell.retire(&domain, &mut local);
    local.end(&domain);
    end(&rt, domain);
    assert!(rt; found == (5, Some(5)));
    Ok(())
}

/// What thread after thread took out of the cell: the sum of the values, and how many they were.
#[derive(Clone, Copy, PartialEq, Eq)]
struct Out {
    sum: u64,
    count: u64,
}

impl Out {
    /// With one more value that there may be.
    fn with(self, value: Option<u64>) -> Out {
        match value {
            Some(value) => Out {
                sum: self.sum.saturating_add(value),
                count: self.count.saturating_add(1),
            },
            None => self,
        }
    }
}

/// Swaps an item of this value into a cell: the value of what came out.
fn swap_in(
    domain: &Domain<u64>,
    cell: &AtomicOwned<u64>,
    value: u64,
    local: &mut Local<u64>,
) -> Option<u64>
    requires home { (home_of local.old ≡ place_of domain.now) × (hand_of local.old ≡ []) }
    requires cell { IsCellOf cell.now domain.now }
    ensures same { IsAsBefore local.old local.new }
{
    let Ok(owner) = Owned::new(domain, value, local) else {
        return None;
    };
    let (old, _) = cell.swap(domain, (Some(owner), Tag::None), local);
    last_value(domain, old, local)
}

/// Swaps items of two thousand values into a cell, one after the other. Behind each it waits until the item is reclaimed that
/// came out.
fn swaps(domain: &Domain<u64>, cell: &AtomicOwned<u64>, first: u64) -> Option<Out>
    requires { IsCellOf cell.now domain.now }
{
    let Ok(mut local) = domain.register() else {
        return None;
    };
    let mut out = Out { sum: 0, count: 0 };
    for i in 0..2000u64 {
        out = out.with(swap_in(domain, cell, first.saturating_add(i), &mut local));
        pass(domain, &mut local);
    }
    local.end(domain);
    Some(out)
}

/// Two threads swap items into one cell: what each takes out, and what is left in it.
fn two_swap<R: Threads + Abort + Sync>(rt: &R, domain: &Domain<u64>) -> [Option<Out>; 3] {
    let mut local = member(rt, domain);
    let Ok(cell) = AtomicOwned::null(domain, &mut local) else {
        panic!(rt; "a cell is free");
    };
    let (left, right) = join(
        rt,
        || swaps(domain, &cell, 0),
        || swaps(domain, &cell, 10_000),
    );
    let rest = cell.into_owned(domain, &mut local);
    let rest = last_value(domain, rest, &mut local);
    local.end(domain);
    [left, right, Some(Out { sum: 0, count: 0 }.with(rest))]
}

#[test]
fn two_threads_swap_one_cell_and_each_item_comes_out_once(rt: HostRuntime) -> Result<(), Fail> {
    let domain = Domain::new(rt.alloc(), sized(3, 4096, 1))?;
    let found = two_swap(&rt, &domain);
    end(&rt, domain);
    let mut all = Out { sum: 0, count: 0 };
    for out in found {
        let Out { sum, count } = out.unwrap_or(Out { sum: 0, count: 0 });
        all = Out {
            sum: all.sum.saturating_add(sum),
            count: all.count.saturating_add(count),
        };
    }
    // (2,000 values from 0 on, and 2,000 from 10,000 on)
    assert!(rt; (all.sum, all.count) == (23_998_000, 4_000));
    Ok(())
}
