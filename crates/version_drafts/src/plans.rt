//! Drafts: versions that aren't placed yet.

ghost use Rattle.std.specs.Prelude.{◌≡◌, ◌≤◌, ◌<◌, ◌+◌, ◌*◌, ◌/◌, [], ℕ, List, length, IfOk};
ghost use Rattle.leaf_array.specs.Pairs.{IsAscending};
ghost use Rattle.leaf_array.specs.Values.{ClonesAreSame};
ghost use Rattle.version_views.specs.Cuts.{IsCut, pairs_in, separators_of};
ghost use Rattle.version_views.specs.Rows.{CutsInRows};
ghost use Rattle.version_views.specs.Sizes.{room_for};
ghost use Rattle.version_views.specs.Writes.{after_writes, replies_to};
ghost use Rattle.version_drafts.specs.Drafts.{IsPlanned, list_planned, number_of, slots_for};
ghost use Rattle.version_drafts.specs.Shelves.{made_on_all};

use crate::draft::drafted;
use crate::listed::{listed, shelved_alone};
use crate::segments::made_of;
use crate::shelves::{Shelf, shelved};
use std::alloc::{AllocError, Global};
use std::marker::Model;
use version_views::{Directory, Reply, Row, Trees, VersionView, Write};

/// A version that isn't placed yet: its directory, of whose rows some are those of an older version.
#[derive(Drop)]
pub struct Draft<K: Ord, V, const S: usize> {
    shelves: Directory<K, Shelf<K, V>>,
    // how many slots it takes
    slots: usize,
}

/// Invariant: specs/Drafts.antt, IsDrafted: its slots are few, and counted.
impl<K: Ord, V, const S: usize> Model for Draft<K, V, S> {
    ghost use Rattle.version_drafts.specs.Drafts.{IsDrafted, Plan};

    ghost Value = { Plan K V S };

    ghost view = { λ d. record { shelves = d.shelves } };

    ghost invariant = { λ d. IsDrafted S d.shelves d.slots };
}

impl<K: Ord, V, const S: usize> Draft<K, V, S> {
    /// The empty list, with number 0. It takes no memory.
    pub fn empty(alloc: Global) -> Self
        ensures number { number_of result ≡ 0 }
        ensures slots { slots_for result ≡ 1 }
        ensures list { (blocks : List (List (K × V))) → list_planned blocks result ≡ [] }
        ensures planned { (blocks : List (List (K × V))) (ends : List ℕ) → IsPlanned K.cmp blocks ends result }
    {
        let shelves = Directory::new(0, 0, Vec::new(alloc), Vec::new(alloc), Vec::new(alloc));
        Draft { shelves, slots: 1 }
    }

    /// The version of these rows, which takes so many slots. Condition: it does, and they are few.
    fn of(shelves: Directory<K, Shelf<K, V>>, slots: usize) -> Self
        requires counted { slots ≡ made_on_all shelves.rows.items + 1 }
        requires few { slots ≤ 2 * (shelves.length / (S + 1)) + 2 }
        ensures { result.shelves ≡ shelves }
    {
        Draft { shelves, slots }
    }

    /// The same list under this number.
    pub fn numbered(self, number: u64) -> Self
        ensures { result.shelves ≡ record self.shelves { number = number } }
    {
        let Draft { shelves, slots } = self;
        Draft {
            shelves: shelves.numbered(number),
            slots,
        }
    }

    /// How many slots it takes: one for each new segment, and one for its directory. A list of `n` pairs takes at most
    /// `2 * (n / (S + 1)) + 2`, and so do `w` writes at most `2 * w + 1`.
    pub fn slots(&self) -> usize
        ensures count { result ≡ slots_for self.now }
        ensures few { result ≤ 2 * (self.now.shelves.length / (S + 1)) + 2 }
    {
        self.slots
    }

    /// Its rows, in order.
    pub fn rows(&self) -> &[Row<K, Shelf<K, V>>]
        ensures { result.now ≡ self.now.shelves.rows.items }
    {
        self.shelves.rows()
    }

    /// Its directory: all that is left of it.
    pub fn into_shelves(self) -> Directory<K, Shelf<K, V>>
        ensures { result ≡ self.shelves }
    {
        let Draft { shelves, slots: _ } = self;
        shelves
    }
}

/// The version that writes make of an older one, under a number, and the replies; `rows` is the directory of the older one. Fails
/// only if an allocation fails. Rows and segments that no write touches are taken over, so the older version has to be there when
/// it is placed.
pub fn build<K: Clone + Ord + Drop, V: Clone + Drop, W: Trees<K, V>, const S: usize>(
    alloc: Global,
    number: u64,
    old: &VersionView<'_, K, V, W>,
    rows: &Directory<K, W::Owners>,
    writes: &[Write<K, V>],
) -> Result<(Draft<K, V, S>, Vec<Reply>), AllocError>
    requires size { (1 ≤ S) × (S ≤ 225) }
    requires keys { ClonesAreSame K.is_clone }
    requires values { ClonesAreSame V.is_clone }
    requires whole { IsCut K.cmp S old.now (separators_of old.now) }
    requires rows { CutsInRows old.now rows.now }
    ensures number { IfOk result (λ made. number_of made.0 ≡ number) }
    ensures list { IfOk result (λ made. list_planned old.now made.0 ≡ after_writes K.cmp writes.now (pairs_in old.now)) }
    ensures few { IfOk result (λ made. slots_for made.0 ≤ 2 * length writes.now + 1) }
    ensures planned { IfOk result (λ made. IsPlanned K.cmp old.now rows.now.ends.items made.0) }
    ensures replies { IfOk result (λ made. made.1.items ≡ replies_to K.cmp writes.now (pairs_in old.now)) }
{
    let (segments, replies) = drafted::<K, V, W, S>(alloc, old, writes)?;
    let slots = made_of(&segments.parts) + 1;
    let shelves = shelved(alloc, number, old, rows, segments)?;
    Ok((Draft::of(shelves, slots), replies))
}

/// The version of clones of these pairs, whose keys rise, under a number. Fails only if an allocation fails. It takes nothing
/// over, so it can be placed wherever there are the slots that it takes, and its segments are as few as can hold the pairs.
pub fn build_list<K: Clone + Ord + Drop, V: Clone + Drop, const S: usize>(
    alloc: Global,
    number: u64,
    pairs: &[(K, V)],
) -> Result<Draft<K, V, S>, AllocError>
    requires size { (1 ≤ S) × (S ≤ 225) }
    requires keys { ClonesAreSame K.is_clone }
    requires values { ClonesAreSame V.is_clone }
    requires rising { IsAscending K.cmp pairs.now }
    ensures number { IfOk result (λ made. number_of made ≡ number) }
    ensures list { IfOk result (λ made. (blocks : List (List (K × V))) → list_planned blocks made ≡ pairs.now) }
    ensures length { IfOk result (λ made. made.shelves.length ≡ length pairs.now) }
    ensures few { IfOk result (λ made. slots_for made ≤ room_for S (length pairs.now)) }
    ensures fewest { IfOk result (λ made. S * slots_for made < length pairs.now + 2 * S) }
    ensures planned { IfOk result (λ made. (blocks : List (List (K × V))) (ends : List ℕ) → IsPlanned K.cmp blocks ends made) }
{
    let segments = listed::<K, V, S>(alloc, pairs)?;
    let slots = made_of(&segments.parts) + 1;
    let shelves = shelved_alone(alloc, number, segments)?;
    Ok(Draft::of(shelves, slots))
}
