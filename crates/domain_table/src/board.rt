//! The table of words that the threads of a place share, its rule, and what a seat at it knows.

use crate::holding::Holding;
use atomic_table::{Shared, Table, TableRule};
use parted::{Deed, Part};
use sdd_homes::{Filling, Garbage, Lease, Owner};
use sdd_plain::sizes::Sizes;
use sdd_steps::{Participant, Seq};
use std::alloc::Global;
use std::marker::PhantomData;
use std::mem::ManuallyDrop;

/// One step on the word of a cell: which word, what was found there, and what was left there. No value of it is made.
pub struct CellStep {
    pub word: usize,
    pub found: u64,
    pub left: u64,
}

/// What a seat knows. No value of it is made.
pub struct Acting {
    /// Of which kind the seat is, by its names in `specs/Views`: `of_nobody` has a private bag at most, `of_participant` acts
    /// for the participant `number`, and `of_owner` has one owner.
    pub kind: u64,
    pub number: u64,
    /// 0 outside a scan, 1 with the scan lock, and 2 where the count is known to be the published one too.
    pub scan: u64,
    /// The count when the open guard was published.
    pub born: u64,
    pub known: Participant,
    /// How large the place is.
    pub sizes: Sizes,
    /// The participant's spare slot.
    pub spare: u64,
    /// The owners that are in hand here, and what is out of the participant's homes.
    pub hand: Seq<Owner>,
    pub leases: Seq<Lease>,
    /// One more than the item whose home is out for a release, or 0.
    pub releasing: u64,
    /// The slot that the participant fills or empties, and how far that is.
    pub slot: u64,
    pub filling: Option<Filling>,
    /// What the participant has retired.
    pub waits: Seq<Garbage>,
    /// 1 where it is known that nothing is left of where the participant ended before.
    pub left: u64,
    /// What is in a private bag that is at this seat.
    pub collected: Seq<Garbage>,
    /// Its steps on the words of cells, in their order.
    pub cell_steps: Seq<CellStep>,
}

/// An item as it lies in its box, which stays with its slot and is empty while the slot is free.
pub type Stored<T> = Option<ManuallyDrop<T>>;

/// What lies in a slot of the table.
pub enum Home<T> {
    Blank,
    /// The box for the item of a slot that is free.
    Room(Box<Stored<T>>),
    /// The right to have that box back once nobody reads the item.
    Deed(Deed<Stored<T>, Global>),
    /// Parts of the right to read the item, and how many they are.
    Part(Part<Stored<T>>, u64),
    /// How large the place is: this lies in no slot, and is only said to a seat.
    Announced(Sizes),
}

/// What a place is made with: how large it is, and the count of raises that it begins with.
#[derive(Clone, Copy, Drop)]
pub struct Plan {
    pub sizes: Sizes,
    pub first: u64,
}

/// The rule: the words and views show a state of the single steps that meets their invariant.
pub struct Rule<H>(PhantomData<H>);

impl<T, H: Holding<T>> TableRule<Home<T>, Acting, Plan> for Rule<H> {
    ghost use Rattle.domain_table.specs.Contents.{IsIn};
    ghost use Rattle.domain_table.specs.Rule.{Shows};
    ghost use Rattle.domain_table.specs.Views.{spent};

    ghost holds = { λ plan. Shows (IsIn H.holds) plan };

    ghost first = { λ _. spent };
}

/// The table with its memory.
pub type Board<T, H> = Table<Home<T>, Acting, Plan, Rule<H>, Global>;

/// The table as threads see it.
pub type Words<T, H> = Shared<Home<T>, Acting, Plan, Rule<H>>;

/// The words of a place, with how large it is: what each call here acts on. It is handed on by value, in two registers.
#[derive_where(Clone, Copy)]
pub struct Place<'a, T, H: Holding<T>> {
    pub words: &'a Words<T, H>,
    pub sizes: &'a Sizes,
}

/// What one thread knows of it.
pub type Seat<T> = atomic_table::Seat<Home<T>, Acting>;
