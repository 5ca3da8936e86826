//! The present version of a place, for the one who writes.

ghost use Rattle.std.specs.Prelude.{◌≡◌, ◌<◌, ◌+◌, [], IfNone, IfOk, IfSome, OnOk, OnErr, Some, map};
ghost use Rattle.std.specs.List.{All};
ghost use Rattle.sdd_domain.specs.CellSteps.{StepsOnNoCell};
ghost use Rattle.sdd_domain.specs.Cells.{cell_number};
ghost use Rattle.sdd_domain.specs.Tokens.{place_of, home_of, hand_of, cell_count, misses_of};
ghost use Rattle.shared_versions.specs.Placing.{HasPut, IsKeptRow, IsPlanned, IsPresent, IsOwnedIn, IsStill, IsStillButMisses, blocks_kept, item_owned, sight_in, sight_kept, version_owned};
ghost use Rattle.shared_versions.specs.Drafts.{IsPlaceable, nothing};
ghost use Rattle.shared_versions.specs.Readers.{HasWidth};

use crate::draft::Draft;
use crate::granting::grant_all;
use crate::keeping::{keep_all, release_new};
use crate::kept::{WriterOwner, release_kept};
use crate::lending::view_of;
use crate::node::{Node, Version};
use crate::owners::{let_go, place_two, take_back};
use crate::room::Room;
use crate::rows::hold_rows;
use sdd_domain::atomic_shared::AtomicShared;
use sdd_domain::domain::Domain;
use sdd_domain::holds::Holds;
use sdd_domain::local::Local;
use sdd_domain::shared::Shared;
use sdd_plain::refusal::NoSlot;
use sdd_plain::tag::Tag;
use std::alloc::Global;
use std::marker::Model;
use std::mem;
use version_views::{Directory, VersionView};

/// The present version, and one more owner of each of its rows that is an item, for the versions to come. It must be consumed by `end`.
///
/// Contracts see its place, and the version.
pub struct Present<K: Ord, V, const S: usize> {
    version: Shared<Node<K, V>>,
    rows: Vec<WriterOwner<K, V>>,
}

/// Invariant: specs/Placing.antt, IsPresent: the owner owns a version of segments of at most `S` pairs, and the others own its
/// rows, in order, in the same place.
impl<K: Ord, V, const S: usize> Model for Present<K, V, S> {
    ghost use Rattle.shared_versions.specs.Placing.{IsPresent, Placed, placed_of};

    ghost Value = { Placed K V };

    ghost view = { λ p. placed_of p.version };

    ghost invariant = { λ p. IsPresent S p.version p.rows.items };
}

impl<K: Ord + Drop, V: Drop, const S: usize> Present<K, V, S> {
    /// The version. No word of the place is read.
    pub fn version(&self) -> &Version<K, V>
        ensures version { result.now ≡ self.now.version }
        ensures width { result.now.width ≡ S }
    {
        version_of_owner::<K, V, S>(&self.version)
    }

    /// The version to be read: its look-ups, walks and counts.
    pub fn view(&self) -> VersionView<'_, K, V, Version<K, V>>
        ensures { result ≡ self.now.version.blocks }
    {
        view_of(self.version())
    }
}

impl<K: Ord + Drop, V: Drop, const S: usize> Present<K, V, S> {
    /// Places the empty list, with number 0: the present version, and an owner of it for a cell. Refused if no slot is
    /// free, which is one miss of the participant; then nothing is in use that wasn't before. It takes no memory.
    pub fn new(
        alloc: Global,
        domain: &Domain<Node<K, V>>,
        local: &mut Local<Node<K, V>>,
    ) -> Result<(Self, Shared<Node<K, V>>), NoSlot>
        requires home { home_of local.old ≡ place_of domain.now }
        requires hand { hand_of local.old ≡ [] }
        ensures place { IfOk result (λ made. made.0.place ≡ (place_of domain.now).0) }
        ensures version { IfOk result (λ made. made.0.version ≡ record { number = 0; width = S; own = []; blocks = []; rows = []; owners = [] }) }
        ensures root { IfOk result (λ made. IsOwnedIn (place_of domain.now).0 made.1 × (version_owned made.1 ≡ Some made.0.version)) }
        ensures hand { hand_of local.new ≡ [] }
        ensures hit { OnOk result (misses_of local.new ≡ misses_of local.old) }
        ensures missed { OnErr result (misses_of local.new ≡ misses_of local.old + 1) }
        ensures same { IsStillButMisses local.old local.new }
        ensures cells { StepsOnNoCell local.old local.new }
    {
        match place_two(domain, Node::Version(Version::empty(alloc, S)), local) {
            Ok((version, root)) => {
                let rows = Vec::new(alloc);
                Ok((Present { version, rows }, root))
            }
            Err(Some(node)) => {
                node.end();
                Err(NoSlot)
            }
            Err(None) => Err(NoSlot),
        }
    }

    /// Places a version that was built of no other one: the present version, and an owner of it for a cell. It is refused where
    /// too few slots are free, which is one miss of the participant; then what was placed before that is released again, and
    /// waits to be reclaimed. It takes no memory.
    pub fn holding(
        alloc: Global,
        domain: &Domain<Node<K, V>>,
        draft: Draft<K, V, S>,
        local: &mut Local<Node<K, V>>,
    ) -> Result<(Self, Shared<Node<K, V>>), NoSlot>
        requires home { home_of local.old ≡ place_of domain.now }
        requires hand { hand_of local.old ≡ [] }
        requires placeable { IsPlaceable K.cmp S nothing draft }
        ensures place { IfOk result (λ made. made.0.place ≡ (place_of domain.now).0) }
        ensures made { IfOk result (λ made. IsPlanned S nothing draft made.0.version) }
        ensures root { IfOk result (λ made. IsOwnedIn (place_of domain.now).0 made.1 × (version_owned made.1 ≡ Some made.0.version)) }
        ensures hand { hand_of local.new ≡ [] }
        ensures hit { OnOk result (misses_of local.new ≡ misses_of local.old) }
        ensures missed { OnErr result (misses_of local.new ≡ misses_of local.old + 1) }
        ensures same { IsStillButMisses local.old local.new }
        ensures cells { StepsOnNoCell local.old local.new }
    {
        let mut rows = Vec::new(alloc);
        match place_draft(domain, draft, &mut rows, local) {
            Some((version, root)) => Ok((Present { version, rows }, root)),
            None => {
                rows.destroy_empty();
                Err(NoSlot)
            }
        }
    }

    /// Places a version that was built of the present one, which becomes the present one, and gives an owner of it for a cell.
    /// It is refused where too few slots are free, or an item has as many owners as it can have, which is one miss of the
    /// participant. Then the present version is as it was, and what was placed before that is released again: it waits to be
    /// reclaimed. It takes no memory.
    pub fn place(
        &mut self,
        domain: &Domain<Node<K, V>>,
        draft: Draft<K, V, S>,
        local: &mut Local<Node<K, V>>,
    ) -> Result<Shared<Node<K, V>>, NoSlot>
        requires home { home_of local.old ≡ place_of domain.now }
        requires hand { hand_of local.old ≡ [] }
        requires mine { self.old.place ≡ (place_of domain.now).0 }
        requires placeable { IsPlaceable K.cmp S self.old.version draft }
        ensures place { self.new.place ≡ self.old.place }
        ensures made { OnOk result (IsPlanned S self.old.version draft self.new.version) }
        ensures root { IfOk result (λ root. IsOwnedIn (place_of domain.now).0 root × (version_owned root ≡ Some self.new.version)) }
        ensures refused { OnErr result (self.new ≡ self.old) }
        ensures hand { hand_of local.new ≡ [] }
        ensures hit { OnOk result (misses_of local.new ≡ misses_of local.old) }
        ensures missed { OnErr result (misses_of local.new ≡ misses_of local.old + 1) }
        ensures same { IsStillButMisses local.old local.new }
        ensures cells { StepsOnNoCell local.old local.new }
    {
        match place_draft(domain, draft, &mut self.rows, local) {
            Some((version, root)) => {
                let older = mem::replace(&mut self.version, version);
                let_go(domain, older, local);
                Ok(root)
            }
            None => Err(NoSlot),
        }
    }

    /// Releases the version and its rows: what no cell and no other version owns is retired.
    pub fn end(self, domain: &Domain<Node<K, V>>, local: &mut Local<Node<K, V>>)
        requires home { home_of local.old ≡ place_of domain.now }
        requires mine { self.place ≡ (place_of domain.now).0 }
        ensures hand { hand_of local.new ≡ hand_of local.old }
        ensures same { IsStill local.old local.new }
        ensures cells { StepsOnNoCell local.old local.new }
    {
        let Present { version, rows } = self;
        let_go(domain, version, local);
        release_kept(domain, rows, local);
    }
}

/// Places the version of a draft, and gives two owners of it. What is kept of an older version's rows becomes an owner of each of
/// the new one's. None where it is refused, which is a miss: then what is kept has the same pairs, and what was placed waits to be
/// reclaimed.
fn place_draft<K: Ord + Drop, V: Drop, const S: usize>(
    domain: &Domain<Node<K, V>>,
    draft: Draft<K, V, S>,
    kept: &mut Vec<WriterOwner<K, V>>,
    local: &mut Local<Node<K, V>>,
) -> Option<(Shared<Node<K, V>>, Shared<Node<K, V>>)>
    requires home { home_of local.old ≡ place_of domain.now }
    requires hand { hand_of local.old ≡ [] }
    requires kept { All (IsKeptRow (place_of domain.now).0) kept.old.items }
    requires placeable { IsPlaceable K.cmp S (sight_kept kept.old.items) draft }
    ensures here { IfSome result (λ both. IsOwnedIn (place_of domain.now).0 both.0 × IsOwnedIn (place_of domain.now).0 both.1) }
    ensures one { IfSome result (λ both. version_owned both.1 ≡ Some (sight_in (version_owned both.0))) }
    ensures made { IfSome result (λ both. IsPlanned S (sight_kept kept.old.items) draft (sight_in (version_owned both.0))) }
    ensures present { IfSome result (λ both. IsPresent S both.0 kept.new.items) }
    ensures kept { IfNone result (All (IsKeptRow (place_of domain.now).0) kept.new.items) }
    ensures still { IfNone result (map blocks_kept kept.new.items ≡ map blocks_kept kept.old.items) }
    ensures hand { hand_of local.new ≡ [] }
    ensures hit { IfSome result (λ _. misses_of local.new ≡ misses_of local.old) }
    ensures missed { IfNone result (misses_of local.new ≡ misses_of local.old + 1) }
    ensures same { IsStillButMisses local.old local.new }
    ensures cells { StepsOnNoCell local.old local.new }
{
    let (shelves, room) = draft.into_parts();
    let (number, length, planned, separators, ends) = shelves.into_parts();
    let Room {
        granted,
        rows,
        own,
        to_keep,
        kept: next,
    } = room;
    let Some((granted, to_keep)) = grant_all(domain, planned, granted, to_keep, kept, local) else {
        rows.destroy_empty();
        own.destroy_empty();
        next.destroy_empty();
        return None;
    };
    let (rows, own) = hold_rows(domain, granted, rows, own, local);
    let directory = Directory::new(number, length, rows, separators, ends);
    match place_two(
        domain,
        Node::Version(Version::new(directory, own, S)),
        local,
    ) {
        Ok(both) => {
            // only now are owners moved: nothing is refused any more
            keep_all(domain, to_keep, kept, next, local);
            Some(both)
        }
        Err(refused) => {
            release_new(domain, to_keep, local);
            next.destroy_empty();
            if let Some(node) = refused {
                take_back(domain, node, local);
            }
            None
        }
    }
}

/// The version that an owner owns. Condition: it owns one of segments of at most `S` pairs.
fn version_of_owner<K: Ord + Drop, V: Drop, const S: usize>(
    owner: &Shared<Node<K, V>>,
) -> &Version<K, V>
    requires { HasWidth S (version_owned owner.now) }
    ensures version { Some result.now ≡ version_owned owner.now }
    ensures width { result.now.width ≡ S }
{
    match node_of_owner(owner).version() {
        Some(version) => version,
        None => unreachable!(),
    }
}

/// What an owner owns.
fn node_of_owner<K: Ord + Drop, V: Drop>(owner: &Shared<Node<K, V>>) -> &Node<K, V>
    ensures { Some result.now ≡ item_owned owner.now }
{
    owner.as_ref()
}

/// Makes a placed version the one that a cell names, in one step, and releases the older one.
pub fn publish<K: Ord + Drop, V: Drop>(
    domain: &Domain<Node<K, V>>,
    root: &AtomicShared<Node<K, V>>,
    new: Shared<Node<K, V>>,
    local: &mut Local<Node<K, V>>,
)
    requires home { home_of local.old ≡ place_of domain.now }
    requires inside { cell_number root.now < cell_count domain.now }
    requires mine { IsOwnedIn (place_of domain.now).0 new }
    ensures put { HasPut local.old (cell_number root.now) new local.new }
    ensures hand { hand_of local.new ≡ hand_of local.old }
    ensures same { IsStill local.old local.new }
{
    if let (Some(older), _) = root.swap(domain, (Some(new), Tag::None), local) {
        let_go(domain, older, local);
    }
}
