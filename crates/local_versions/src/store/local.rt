//! The store of one thread.

ghost use Rattle.std.specs.Prelude.{◌≡◌, ◌≤◌, ◌<◌, ◌+◌, ◌-◌, ◌*◌, ◌^◌, ℕ, List, Option, None, Some, IfOk, IfSome, IfNone, IsErrOf, IsSome, IsTrue, IsFalse, ◌↔◌, OnOk, OnErr, get_or, length, replicate, slice_get, slice_set};
ghost use Rattle.std.specs.List.{All, sum_by};
ghost use Rattle.std.specs.Option.{option_map};
ghost use Rattle.leaf_array.specs.Values.{ClonesAreSame};
ghost use Rattle.sdd_world.specs.Frame.{IsLive};
ghost use Rattle.sdd_world.specs.Passing.{slot_kept};
ghost use Rattle.sdd_world.specs.State.{cell_at, value_at};
ghost use Rattle.sdd_world.specs.Steps.{NoneOpen};
ghost use Rattle.sdd_world.specs.Tokens.{shared_cell};
ghost use Rattle.version_views.specs.Cuts.{pairs_in};
ghost use Rattle.local_versions.specs.Placing.{IsForSlots, IsSettled, StandsAlone, list_alone, number_of, slots_for};
ghost use Rattle.local_versions.specs.Reclaiming.{IsRootless};
ghost use Rattle.version_views.specs.Sizes.{IsStoreSized, room_for, segments_for};
ghost use Rattle.local_versions.specs.Store.{Version, IsKeptHere, IsNamedBy, IsStore, LacksRoom, directory_version, fresh_store, gap, next_version, no_version, version_in};
ghost use Rattle.version_views.specs.Versions.{IsVersion, list_of};
ghost use Rattle.version_views.specs.Writes.{after_writes, replies_to};
ghost use Rattle.local_versions.specs.declared.store.readers.Opened.{Opened};

use crate::built::{Built, build};
use crate::placing::{PlaceRefused, place, publish};
use crate::reads::view_of;
use crate::store::readers::{Opened, are_free, end_all, free_all, nearest, read_at};
use crate::store::reclaiming::{PASSES, run_passes};
use sdd_world::cell::AtomicShared;
use sdd_world::groups::Group;
use sdd_world::job::NoJob;
use sdd_world::sizes::Sizes;
use sdd_world::status::Cell;
use sdd_world::tag::Tag;
use sdd_world::world::{World, atomic_shared, guard};
use std::alloc::{AllocError, Global};
use std::marker::Model;
use std::mem;
use thiserror::Error;
use version_views::{Directory, Item, LocalView, Reply, Write, WriteRefused};

/// Why no store was made of a version.
#[derive(Clone, Copy, Debug, PartialEq, Eq, Error)]
pub enum StoreRefused {
    /// The memory of the store was refused.
    #[error("memory was refused; there is no store")]
    Memory,
    /// The version takes more slots than the store was to have.
    #[error("the version takes more slots; there is no store")]
    NoSlot,
}

/// Versions in a place of one thread: a root names the present one, and a reader has the one that was present when it
/// opened, under a guard of its own participant.
///
/// Contracts see it as the present version, the version of each reader, how many slots there are and are in use, and how
/// often the epoch was raised. The participant behind the readers is the writer, which publishes and reclaims. A store
/// must be consumed by [`end`](LocalStore::end).
pub struct LocalStore<K: Ord, V, const S: usize> {
    world: World<Item<K, V, S>, NoJob>,
    root: AtomicShared<Item<K, V, S>>,
    readers: Vec<Option<Opened<K, V, S>>>,
    // the places without a reader
    free: Vec<usize>,
}

/// Invariant: specs/Store.antt, IsStore: the versions of the root and of readers are whole, and nothing else is owned from
/// outside; `free` names the places without a reader.
impl<K: Ord, V, const S: usize> Model for LocalStore<K, V, S> {
    ghost use Rattle.sdd_world.specs.Tokens.{shared_cell};
    ghost use Rattle.std.specs.Prelude.{length};
    ghost use Rattle.sdd_world.specs.View.{IsFreeList};
    ghost use Rattle.local_versions.specs.Store.{Store, store_of, IsStore, gap};

    ghost Value = { Store K V };

    ghost view = { λ a. store_of a.world (shared_cell a.root) a.readers.items };

    ghost invariant = { λ a. IsStore K.cmp a.world (shared_cell a.root) a.readers.items × IsFreeList gap a.readers.items (length a.readers.items) a.free };
}

impl<K: Clone + Ord, V: Clone, const S: usize> LocalStore<K, V, S> {
    /// The empty list, with number 0, and `readers` places for readers. Fails only if an allocation fails.
    pub fn new(alloc: Global, readers: usize, slots: usize) -> Result<Self, AllocError>
        requires { IsStoreSized readers slots S }
        ensures { IfOk result (λ s. s ≡ record { present = no_version; readers = replicate readers None; slots = slots; used = 1; raises = 0 }) }
    {
        LocalStore::begun(alloc, readers, slots, Built::empty(alloc))
    }

    /// A store of a version that takes nothing over, and `readers` places for readers. It is refused as `NoSlot` if the
    /// version takes more slots, before any memory is requested, and as `Memory` if an allocation fails.
    pub fn holding(
        alloc: Global,
        readers: usize,
        slots: usize,
        built: Built<K, V, S>,
    ) -> Result<Self, StoreRefused>
        requires size { IsStoreSized readers slots S }
        requires alone { StandsAlone K.cmp built }
        ensures holds { IfOk result (λ s. s ≡ fresh_store (record { number = number_of built; pairs = list_alone built }) readers slots (slots_for built)) }
        ensures full { IsErrOf result StoreRefused.NoSlot ↔ slots < slots_for built }
    {
        if slots < built.slots() {
            return Err(StoreRefused::NoSlot);
        }
        match LocalStore::begun(alloc, readers, slots, built) {
            Ok(store) => Ok(store),
            Err(AllocError) => Err(StoreRefused::Memory),
        }
    }

    // A store of a version that takes nothing over, where there are as many slots as it takes.
    fn begun(
        alloc: Global,
        readers: usize,
        slots: usize,
        built: Built<K, V, S>,
    ) -> Result<Self, AllocError>
        requires size { IsStoreSized readers slots S }
        requires alone { StandsAlone K.cmp built }
        requires room { slots_for built ≤ slots }
        ensures { IfOk result (λ s. s ≡ fresh_store (record { number = number_of built; pairs = list_alone built }) readers slots (slots_for built)) }
    {
        let mut free = Vec::with_capacity(alloc, readers)?;
        let mut places = Vec::with_capacity(alloc, readers)?;
        let sizes = Sizes {
            participants: readers + 1,
            slots,
            cells: 1,
            jobs: 0,
        };
        let mut world = match World::new(alloc, sizes) {
            Ok(world) => world,
            Err(refused) => {
                places.destroy_empty();
                return Err(refused);
            },
        };
        let placed = place(alloc, &mut world, built, None);
        world.laws();
        let version = match placed {
            Ok(version) => version,
            // as many slots as it takes are free, so memory was refused
            Err(_) => {
                places.destroy_empty();
                end_unused(world);
                return Err(AllocError);
            }
        };
        free_all(&mut places, &mut free, readers);
        let root = match atomic_shared::from(&mut world, version) {
            Ok(root) => root,
            Err(_) => unreachable!(),
        };
        world.laws();
        Ok(LocalStore {
            world,
            root,
            readers: places,
            free,
        })
    }

    /// Whether no place has a reader.
    pub fn is_idle(&self) -> bool
        ensures { IsTrue result ↔ All (λ r. r ≡ None) self.now.readers }
    {
        are_free(&self.readers)
    }

    /// A reader gets the present version, at a place that had none; none is opened if each has one. It takes no memory.
    pub fn open(&mut self) -> Option<usize>
        ensures free { IfSome result (λ place. slice_get self.old.readers place ≡ Some None) }
        ensures opened { IfSome result (λ place. self.new ≡ record self.old { readers = slice_set self.old.readers place (Some self.old.present) }) }
        ensures full { IfNone result (All IsSome self.old.readers) }
        ensures refused { IfNone result (self.new ≡ self.old) }
    {
        let Some(place) = self.free.pop() else {
            return None;
        };
        let guard = match guard::new(&mut self.world, place) {
            Ok(guard) => guard,
            Err(_) => unreachable!(),
        };
        let root = atomic_shared::loaded(&self.world, &self.root, &guard);
        match mem::replace(&mut self.readers[place], Some(Opened { guard, root })) {
            None => {},
            Some(_) => unreachable!(),
        }
        Some(place)
    }

    /// Closes the reader at a place.
    pub fn close(&mut self, place: usize)
        requires { (v : Version K V) × (slice_get self.old.readers place ≡ Some (Some v)) }
        ensures { self.new ≡ record self.old { readers = slice_set self.old.readers place None } }
    {
        match mem::replace(&mut self.readers[place], None) {
            Some(Opened { guard, root: _ }) => guard::close(&mut self.world, guard),
            None => unreachable!(),
        }
        self.free.push_reserved(place);
    }

    /// The version that the reader of a place has.
    pub fn reader(&self, place: usize) -> LocalView<'_, K, V, S>
        requires { (v : Version K V) × (slice_get self.now.readers place ≡ Some (Some v)) }
        ensures pairs { (v : Version K V) → slice_get self.now.readers place ≡ Some (Some v) → pairs_in result ≡ v.pairs }
        ensures few { length result ≤ segments_for S (length (pairs_in result)) }
    {
        view_of(&self.world, read_at(&self.world, &self.readers, place))
    }

    /// The present version.
    pub fn present(&self) -> LocalView<'_, K, V, S>
        ensures { pairs_in result ≡ self.now.present.pairs }
    {
        view_of(&self.world, present(&self.world, &self.root))
    }

    /// The version with the greatest number up to this one, of the present one and those that readers have, and its
    /// number.
    pub fn latest_at(&self, number: u64) -> Option<(u64, LocalView<'_, K, V, S>)>
        ensures { IfSome result (λ r. (v : Version K V) × IsKeptHere v self.now × (v.number ≡ r.0) × (r.0 ≤ number) × (pairs_in r.1 ≡ v.pairs)) }
    {
        let root = present(&self.world, &self.root);
        let last = root.number();
        if last <= number {
            return Some((last, view_of(&self.world, root)));
        }
        match nearest(&self.world, &self.readers, number) {
            Some(version) => Some((version.number(), view_of(&self.world, version))),
            None => None,
        }
    }

    /// Makes the writes on the present version, in order: the version that they leave is the present one afterwards, under
    /// the next number, and the reply to each write is returned. It is built beside the place first, then placed whole,
    /// and then named by the root; where one of these is refused, nothing has changed.
    ///
    /// `NoSlot` is answered only if fewer slots are free than a version of that many pairs may take, and, for `w` writes,
    /// fewer than `2 * w + 1`: segments that no write touches are taken over.
    pub fn write(
        &mut self,
        alloc: Global,
        writes: &[Write<K, V>],
    ) -> Result<Vec<Reply>, WriteRefused>
        requires size { (1 ≤ S) × (S ≤ 225) }
        requires last { self.old.present.number < 2 ^ 64 - 1 }
        requires keys { ClonesAreSame K.is_clone }
        requires values { ClonesAreSame V.is_clone }
        ensures written { OnOk result (self.new ≡ record self.old { present = next_version K.cmp writes.now self.old.present; used = self.new.used }) }
        ensures replies { IfOk result (λ told. told.items ≡ replies_to K.cmp writes.now self.old.present.pairs) }
        ensures room { OnOk result (self.new.used ≤ self.old.used + room_for S (length (after_writes K.cmp writes.now self.old.present.pairs))) }
        ensures few { OnOk result (self.new.used ≤ self.old.used + (2 * length writes.now + 1)) }
        ensures refused { OnErr result (self.new ≡ self.old) }
        ensures full { IsErrOf result WriteRefused.NoSlot → LacksRoom S (next_version K.cmp writes.now self.old.present).pairs self.old }
        ensures short { IsErrOf result WriteRefused.NoSlot → self.old.slots < self.old.used + (2 * length writes.now + 1) }
    {
        let older = present(&self.world, &self.root);
        let (built, replies) = match build(alloc, &self.world, older, writes) {
            Ok(made) => made,
            Err(AllocError) => return Err(WriteRefused::Memory),
        };
        // what is asked here tells the proof how few slots a version takes
        let _slots = built.slots();
        let at = atomic_shared::kept_at(&self.world, &self.root);
        let placed = place(alloc, &mut self.world, built, Some(at));
        self.world.laws();
        let version = match placed {
            Ok(version) => version,
            Err(refused) => return Err(why(refused)),
        };
        publish(&mut self.world, &self.root, version, self.readers.len());
        Ok(replies)
    }

    /// Reclaims versions that nobody has, by eight accelerated guards of the writer: without readers, all but the present
    /// one, as long as the epoch was raised at most `2^64 - 9` times. It takes no memory.
    pub fn reclaim(&mut self)
        ensures same { self.new ≡ record self.old { used = self.new.used; raises = self.new.raises } }
        ensures fewer { self.new.used ≤ self.old.used }
        ensures left { All (λ r. r ≡ None) self.old.readers → self.old.raises ≤ 2 ^ 64 - 9 → self.new.used ≤ room_for S (length self.old.present.pairs) }
    {
        run_passes(&mut self.world, self.readers.len(), PASSES);
    }

    /// One of the eight rounds of [`reclaim`](LocalStore::reclaim): an accelerated guard of the writer, which reclaims what has
    /// waited long enough by now. Without readers it raises the epoch once, up to `2^64 - 1`. It takes no memory.
    pub fn reclaim_once(&mut self)
        ensures same { self.new ≡ record self.old { used = self.new.used; raises = self.new.raises } }
        ensures fewer { self.new.used ≤ self.old.used }
        ensures raised { All (λ r. r ≡ None) self.old.readers → self.old.raises < 2 ^ 64 - 1 → self.new.raises ≡ self.old.raises + 1 }
    {
        run_passes(&mut self.world, self.readers.len(), 1);
    }

    /// How many slots are in use.
    pub fn slots_in_use(&self) -> usize
        ensures used { result ≡ self.now.used }
        ensures some { 1 ≤ self.now.used }
        ensures within { self.now.used ≤ self.now.slots }
    {
        self.world.slots_in_use()
    }

    /// How many slots are free.
    pub fn free_slots(&self) -> usize
        ensures { result + self.now.used ≡ self.now.slots }
    {
        self.world.free_slots()
    }

    /// How many places there are for readers.
    pub fn places(&self) -> usize
        ensures { result ≡ length self.now.readers }
    {
        self.readers.len()
    }

    /// How many places have no reader.
    pub fn free_places(&self) -> usize
        ensures { result ≡ sum_by gap self.now.readers }
    {
        self.free.len()
    }

    /// The number of the version that the reader of a place has; none where the place has no reader.
    pub fn number_at(&self, place: usize) -> Option<u64>
        requires { place < length self.now.readers }
        ensures { result ≡ option_map (λ (v : Version K V). v.number) (get_or self.now.readers place None) }
    {
        if !self.is_read(place) {
            return None;
        }
        Some(read_at(&self.world, &self.readers, place).number())
    }

    // Whether a place has a reader.
    fn is_read(&self, place: usize) -> bool
        requires { place < length self.now.readers }
        ensures yes { IsTrue result → (v : Version K V) × (slice_get self.now.readers place ≡ Some (Some v)) }
        ensures no { IsFalse result → slice_get self.now.readers place ≡ Some None }
    {
        self.readers[place].is_some()
    }

    // Ends the reader at a place, if there is one.
    fn free_place(&mut self, place: usize)
        requires { place < length self.old.readers }
        ensures { self.new ≡ record self.old { readers = slice_set self.old.readers place None } }
    {
        if self.is_read(place) {
            self.close(place);
        }
    }

    /// All readers go.
    pub fn close_all(&mut self)
        ensures none { All (λ r. r ≡ None) self.new.readers }
        ensures rest { self.new ≡ record self.old { readers = self.new.readers } }
    {
        for place in 0..self.places() {
            self.free_place(place);
        }
    }

    /// Ends a store that has no reader.
    pub fn end(self)
        requires { All (λ r. r ≡ None) self.readers }
    {
        let LocalStore {
            mut world,
            root,
            readers,
            free: _,
        } = self;
        atomic_shared::retire(&mut world, root, readers.len());
        end_all(readers);
        world.laws();
        match world.close() {
            Ok(()) => {},
            Err(_) => unreachable!(),
        }
    }
}

/// Why writes are refused whose version isn't placed. It is let go.
fn why<K: Ord + Drop, V: Drop, const S: usize>(refused: PlaceRefused<K, V, S>) -> WriteRefused
    ensures { result ≡ WriteRefused.NoSlot → IsForSlots refused }
{
    match refused {
        PlaceRefused::NoSlot(_) => WriteRefused::NoSlot,
        PlaceRefused::Memory(_) => WriteRefused::Memory,
    }
}

/// Ends a place in which no version is. Condition: no owner is outside, no cell is in use, and no guard is open.
fn end_unused<K: Ord + Drop, V: Drop, const S: usize>(w: World<Item<K, V, S>, NoJob>)
    requires rootless { IsRootless w }
    requires closed { NoneOpen w }
{
    match w.close() {
        Ok(()) => {},
        Err(_) => unreachable!(),
    }
}

/// The directory of the version that a root names.
fn present<'w, K: Ord, V, const S: usize>(
    w: &'w World<Item<K, V, S>, NoJob>,
    root: &AtomicShared<Item<K, V, S>>,
) -> &'w Directory<K, Group>
    requires { (readers : List (Option (Opened K V S))) × IsStore K.cmp w.now (shared_cell root.now) readers }
    ensures version { IsVersion K.cmp w.now.groups (value_at w.now) result.now }
    ensures is { directory_version w.now result.now ≡ version_in w.now (slot_kept (cell_at w.now (shared_cell root.now))) }
    ensures settled { IsSettled w.now }
    ensures there { IsNamedBy w.now (shared_cell root.now) result.now }
{
    match atomic_shared::as_ref(w, root) {
        Some(item) => match item.directory() {
            Some(directory) => directory,
            None => unreachable!(),
        },
        None => unreachable!(),
    }
}
