//! What lies in the slots of a place when it is made, and when it is closed.

ghost use Rattle.std.specs.Prelude.{◌≡◌, ℕ, ◌+◌, ◌*◌, ◌^◌, ◌<◌, ◌≤◌, ◌++◌, ◌∷◌, List, [], replicate, length, vec_len, vec_capacity, IfOk, OnOk};
ghost use Rattle.core.specs.Mem.Slots.{IsFull};
ghost use Rattle.sdd_homes.specs.declared.Owner.{Owner};
ghost use Rattle.sdd_homes.specs.Book.{deed, part, room};
ghost use Rattle.domain_table.specs.Layout.{IsSized};
ghost use Rattle.domain_table.specs.Contents.{IsIn, first_in_home, AreResting, AreNewHomes, ArePartsOf, IsDeedOf};
ghost use Rattle.domain_table.specs.declared.board.Home.{Home};
ghost use Rattle.domain_table.specs.declared.board.Home.TheVariants.{Blank};

use crate::board::{Home, Stored};
use crate::holding::Holding;
use atomic_table::Closed;
use parted::{Deed, Part};
use sdd_plain::sizes::Sizes;
use std::alloc::{AllocError, Global};
use std::mem::ManuallyDrop;

/// Where a spare slot lies.
pub fn spare_at(sizes: &Sizes, spare: u64) -> usize
    requires { (sizes.now.slots ≤ 2 ^ 30) × (sizes.now.participants ≤ 2 ^ 30) × (spare < 2 ^ 31) }
    ensures { result ≡ sizes.now.slots * (sizes.now.participants + 1) + spare }
{
    sizes.slots * (sizes.participants + 1) + spare as usize
}

/// Forgets what lies in a slot: an item whose parts lie there, or its deed, isn't dropped.
pub fn let_go<T>(home: Home<T>) {
    match home {
        Home::Blank => {}
        Home::Room(room) => drop(room),
        Home::Deed(deed) => drop(unsafe { ManuallyDrop::new_unchecked(deed) }),
        Home::Part(part, _) => drop(unsafe { ManuallyDrop::new_unchecked(part) }),
        Home::Announced(_) => {}
    }
}

/// The box of a free slot.
pub(crate) fn room_of<T, H: Holding<T>>(home: Home<T>) -> Box<Stored<T>>
    requires { IsIn H.holds room home }
{
    match home {
        Home::Room(room) => room,
        other => {
            let_go(other);
            unreachable!()
        }
    }
}

/// The deed of an item.
pub fn deed_of<T, H: Holding<T>>(home: Home<T>) -> Deed<Stored<T>, Global>
    requires { (r : ℕ) × (hs : List Owner) × IsIn H.holds (deed r hs) home }
    ensures { IsDeedOf H.holds home result.life result.value }
{
    match home {
        Home::Deed(deed) => deed,
        other => {
            let_go(other);
            unreachable!()
        }
    }
}

/// The parts that lie in a home, and how many they are.
pub fn parts_of<T, H: Holding<T>>(home: Home<T>) -> (Part<Stored<T>>, u64)
    requires { (r : ℕ) × (c : ℕ) × IsIn H.holds (part r c) home }
    ensures { ArePartsOf H.holds home result.0 result.1 }
{
    match home {
        Home::Part(part, count) => (part, count),
        other => {
            let_go(other);
            unreachable!()
        }
    }
}

/// Forgets homes.
pub fn clear<T>(homes: Vec<Home<T>>) {
    let mut homes = homes;
    while let Some(home) = homes.pop() {
        let_go(home);
    }
    homes.destroy_empty();
}

/// Forgets what a place had in its slots.
pub fn empty<T>(closed: Closed<Home<T>, Global>)
    requires { IsFull closed.slots }
{
    let mut closed = closed;
    let mut at = 0;
    while at < closed.slot_count() {
        let_go(closed.take(at));
        at += 1;
    }
    closed.free();
}

/// Adds a home where there is room.
fn keep<T>(homes: &mut Vec<Home<T>>, home: Home<T>)
    requires { vec_len homes.old < vec_capacity homes.old }
    ensures items { homes.new.items ≡ homes.old.items ++ home ∷ [] }
    ensures room { vec_capacity homes.old ≤ vec_capacity homes.new }
{
    match homes.push(home) {
        Ok(()) => {}
        Err(_) => unreachable!(),
    }
}

/// What lies at first in home `at` of all, where those from `deeds` on are the homes of deeds: a box in these.
fn first_home<T, H: Holding<T>>(
    alloc: Global,
    deeds: usize,
    at: usize,
) -> Result<Home<T>, AllocError>
    ensures { IfOk result (λ home. IsIn H.holds (first_in_home deeds at) home) }
{
    if at < deeds {
        return Ok(Home::Blank);
    }
    match Box::new(alloc, None) {
        Ok(room) => Ok(Home::Room(room)),
        Err(_) => Err(AllocError),
    }
}

/// The homes of a number of free slots, those of deeds from `deeds` on, where there is room for all.
fn push_rooms<T, H: Holding<T>>(
    homes: &mut Vec<Home<T>>,
    alloc: Global,
    deeds: usize,
    count: usize,
) -> Result<(), AllocError>
    requires { (homes.old.items ≡ []) × (count ≤ vec_capacity homes.old) }
    ensures homes { OnOk result ((length homes.new.items ≡ count) × AreResting H.holds deeds homes.new.items) }
    ensures room { vec_capacity homes.old ≤ vec_capacity homes.new }
{
    for at in 0..count {
        let home = first_home::<T, H>(alloc, deeds, at)?;
        keep(homes, home);
    }
    Ok(())
}

/// Appends `count` empty slots, where there is room for them.
fn push_blanks<T>(homes: &mut Vec<Home<T>>, count: usize)
    requires { vec_len homes.old + count ≤ vec_capacity homes.old }
    ensures homes { homes.new.items ≡ homes.old.items ++ replicate count Blank }
    ensures room { vec_capacity homes.old ≤ vec_capacity homes.new }
{
    for _i in 0..count {
        keep(homes, Home::Blank);
    }
}

/// The homes and spare slots of a new place.
pub fn homes_from<T, H: Holding<T>>(
    alloc: Global,
    sizes: &Sizes,
) -> Result<Vec<Home<T>>, AllocError>
    requires { IsSized sizes.now }
    ensures { IfOk result (λ homes. AreNewHomes H.holds sizes.now homes.items) }
{
    let own = sizes.slots * (sizes.participants + 1);
    let spares = sizes.cells + sizes.participants;
    let mut homes = Vec::with_capacity(alloc, own + spares)?;
    if push_rooms::<T, H>(&mut homes, alloc, sizes.participants * sizes.slots, own).is_err() {
        clear(homes);
        return Err(AllocError);
    }
    push_blanks(&mut homes, spares);
    Ok(homes)
}
