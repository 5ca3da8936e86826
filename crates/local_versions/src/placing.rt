//! Placing versions, and publishing them.

ghost use Rattle.std.specs.Prelude.{◌≡◌, ◌↔◌, ◌<◌, ◌≤◌, ◌+◌, ◌-◌, ◌++◌, ◌∷◌, [], ℕ, List, Option, None, Some, IfOk, IfErr, IsErrAnd, OnErr, OnOk, get_or, length, sum_by, vec_capacity, map};
ghost use Rattle.sdd_world.specs.Frame.{Frame, OnlyParticipant};
ghost use Rattle.sdd_world.specs.Groups.{free_names, group_named, more_owned, name_of};
ghost use Rattle.sdd_world.specs.Place.{IsShared, IsSharedCell};
ghost use Rattle.sdd_world.specs.State.{IsFree, cell_at, placed, vacancy, value_at, with_groups};
ghost use Rattle.sdd_world.specs.Tokens.{kept_slot, loaded_slot, shared_cell, shared_slot};
ghost use Rattle.sdd_world.specs.Steps.{times};
ghost use Rattle.std.specs.List.{All};
ghost use Rattle.version_views.specs.Items.{names_of, row_keys};
ghost use Rattle.version_drafts.specs.Parts.{blocks_of_parts, made_in, makes, segments_in, segments_of};
ghost use Rattle.version_drafts.specs.Shelves.{LiesInRow, made_on, made_on_all, shelf_blocks};
ghost use Rattle.local_versions.specs.Rooms.{FitsIn, RoomsFit, new_size, new_sizes};
ghost use Rattle.local_versions.specs.Placing.{AreRowsOf, CanBeRaised, CanPlace, CanTakeOver, HasRows, IsForSlots, IsPlaceable, IsSettled, IsStretch, IsThere, KeepsPlaced, OnlyNamesCome, Places, Publishes, StandOn, StandsIn, StandsOn, blocks_at, ends_at, list_planned, names_at, number_of, older_slot, part_slots, refused_plan, slots_at, slots_for, taken_slots};

use crate::built::Built;
use crate::rooms::rooms_for;
use sdd_world::cell::AtomicShared;
use sdd_world::groups::{Group, GroupName};
use sdd_world::job::NoJob;
use sdd_world::owner::{Kept, Shared};
use sdd_world::pointer::Loaded;
use sdd_world::status::{Cell, Status};
use sdd_world::tag::Tag;
use sdd_world::world::{World, atomic_shared, group, shared};
use std::alloc::{AllocError, Global};
use version_drafts::draft::Part;
use version_drafts::shelves::Shelf;
use version_views::{Directory, Item, Row, Segment};

/// Why a version wasn't placed. It comes back.
#[derive(Drop)]
pub enum PlaceRefused<K: Ord, V, const S: usize> {
    /// Fewer slots are free than it takes.
    NoSlot(Built<K, V, S>),
    /// Room for its rows was refused.
    Memory(Built<K, V, S>),
}

/// Places a version: its rows, in order, and then its directory, which owns them. A row of the older version that `older` names is
/// taken over by one count. A new one has new segments, and others of the older version, each of which gets one owner more. It is
/// refused as `NoSlot` if and only if fewer slots are free than it takes, and as `Memory` if room for its rows is refused. Nothing
/// is placed then, and the version is returned. For want of slots nothing changes; for want of memory names for groups may come.
pub fn place<K: Ord + Drop, V: Drop, const S: usize>(
    alloc: Global,
    w: &mut World<Item<K, V, S>, NoJob>,
    built: Built<K, V, S>,
    older: Option<Loaded<Item<K, V, S>>>,
) -> Result<Shared<Item<K, V, S>>, PlaceRefused<K, V, S>>
    requires settled { IsSettled w.old }
    requires placeable { IsPlaceable K.cmp w.old (older_slot older) built }
    ensures placed { IfOk result (λ root. Places K.cmp (slots_for built) (number_of built) (list_planned (blocks_at w.old (older_slot older)) built) (shared_slot root) w.old w.new) }
    ensures full { IsErrAnd result IsForSlots ↔ sum_by vacancy w.old.states < slots_for built }
    ensures back { IfErr result (λ r. refused_plan r ≡ built) }
    ensures refused { OnErr result (OnlyNamesCome w.old w.new) }
    ensures same { IsErrAnd result IsForSlots → w.new ≡ w.old }
    ensures keeps { Frame w.old w.new }
{
    if w.free_slots() < built.slots() {
        return Err(PlaceRefused::NoSlot(built));
    }
    let (rows, rooms) = match room_for(alloc, w, built.rows()) {
        Ok(room) => room,
        Err(AllocError) => return Err(PlaceRefused::Memory(built)),
    };
    let (number, length, shelves, separators, ends) = built.into_shelves().into_parts();
    let rows = place_rows(w, shelves, older, rows, rooms);
    w.laws();
    let directory = Directory::new(number, length, rows, separators, ends);
    match shared::new(w, Item::Directory(directory)) {
        Ok(root) => Ok(root),
        Err(_) => unreachable!(),
    }
}

/// Room for these rows, and for the owners of each new one; and as many free names for groups. Fails only if an allocation fails.
fn room_for<K: Ord, V, const S: usize>(
    alloc: Global,
    w: &mut World<Item<K, V, S>, NoJob>,
    shelves: &[Row<K, Shelf<K, V>>],
) -> Result<(Vec<Row<K, Group>>, Vec<Vec<Kept>>), AllocError>
    ensures come { OnlyNamesCome w.old w.new }
    ensures names { OnOk result (length shelves.now ≤ free_names w.new.groups) }
    ensures rows { IfOk result (λ room. (room.0.items ≡ []) × (length shelves.now ≤ vec_capacity room.0)) }
    ensures rooms { IfOk result (λ room. RoomsFit room.1.items (new_sizes shelves.now)) }
    ensures keeps { Frame w.old w.new }
{
    name_groups(w, shelves.len())?;
    let rows = Vec::with_capacity(alloc, shelves.len())?;
    match rooms_for(alloc, shelves) {
        Ok(rooms) => Ok((rows, rooms)),
        Err(refused) => {
            rows.destroy_empty();
            Err(refused)
        }
    }
}

/// At least so many free names for groups. Fails only if an allocation fails.
fn name_groups<K: Ord, V, const S: usize>(
    w: &mut World<Item<K, V, S>, NoJob>,
    count: usize,
) -> Result<(), AllocError>
    ensures come { OnlyNamesCome w.old w.new }
    ensures names { OnOk result (count ≤ free_names w.new.groups) }
    ensures keeps { Frame w.old w.new }
{
    let mut free = group::free_count(w);
    while free < count {
        group::grow(w)?;
        free += 1;
    }
    Ok(())
}

/// Places rows, where there is room for the owners of each new one, that of the first last.
fn place_rows<K: Ord + Drop, V: Drop, const S: usize>(
    w: &mut World<Item<K, V, S>, NoJob>,
    shelves: Vec<Row<K, Shelf<K, V>>>,
    older: Option<Loaded<Item<K, V, S>>>,
    mut rows: Vec<Row<K, Group>>,
    mut rooms: Vec<Vec<Kept>>,
) -> Vec<Row<K, Group>>
    requires empty { rows.items ≡ [] }
    requires room { length shelves.items ≤ vec_capacity rows }
    requires rooms { RoomsFit rooms.items (new_sizes shelves.items) }
    requires free { made_on_all shelves.items ≤ sum_by vacancy w.old.states }
    requires names { length shelves.items ≤ free_names w.old.groups }
    requires settled { IsSettled w.old }
    requires rows { AreRowsOf K.cmp w.old (older_slot older) shelves.items }
    ensures placed { StandOn (made_on_all shelves.items) (names_of result.items) (map (λ r. shelf_blocks (blocks_at w.old (older_slot older)) r.segments) shelves.items) w.old w.new }
    ensures keys { map row_keys result.items ≡ map row_keys shelves.items }
{
    for shelf in shelves {
        let (segments, keys) = shelf.into_parts();
        w.laws();
        let group = place_row(w, segments, older, &mut rooms);
        rows.push_reserved(Row::new(group, keys));
    }
    rooms.destroy_empty();
    rows
}

/// Places a row: one of the older version has one owner more, and a new one becomes a group, in the last room.
fn place_row<K: Ord + Drop, V: Drop, const S: usize>(
    w: &mut World<Item<K, V, S>, NoJob>,
    segments: Shelf<K, V>,
    older: Option<Loaded<Item<K, V, S>>>,
    rooms: &mut Vec<Vec<Kept>>,
) -> Group
    requires fits { (more : List ℕ) × RoomsFit rooms.old.items (new_size segments ++ more) }
    requires free { made_on segments ≤ sum_by vacancy w.old.states }
    requires names { 1 ≤ free_names w.old.groups }
    requires there { CanPlace K.cmp w.old (older_slot older) segments }
    ensures stands { StandsOn (made_on segments) (name_of result) (shelf_blocks (blocks_at w.old (older_slot older)) segments) w.old w.new }
    ensures left { (more : List ℕ) → RoomsFit rooms.old.items (new_size segments ++ more) → RoomsFit rooms.new.items more }
{
    match segments {
        Shelf::Older {
            row,
            from: _,
            upto: _,
        } => match older {
            Some(at) => raise_row(w, &at, row),
            None => unreachable!(),
        },
        Shelf::New(parts) => match rooms.pop() {
            Some(room) => place_new(w, parts, older, room),
            None => unreachable!(),
        },
    }
}

/// Places a new row, in the room for its owners.
#[inline(never)]
fn place_new<K: Ord + Drop, V: Drop, const S: usize>(
    w: &mut World<Item<K, V, S>, NoJob>,
    parts: Vec<Part<K, V>>,
    older: Option<Loaded<Item<K, V, S>>>,
    room: Vec<Kept>,
) -> Group
    requires fits { FitsIn room (segments_in parts.items) }
    requires free { made_in parts.items ≤ sum_by vacancy w.old.states }
    requires names { 1 ≤ free_names w.old.groups }
    requires once { (i : ℕ) → times i (taken_slots (slots_at w.old (older_slot older)) parts.items) ≤ 1 }
    requires there { CanTakeOver w.old (older_slot older) parts.items }
    ensures { StandsOn (made_in parts.items) (name_of result) (blocks_of_parts (blocks_at w.old (older_slot older)) parts.items) w.old w.new }
{
    let owners = place_parts(w, parts, older, room);
    match group::make(w, owners) {
        Ok(group) => group,
        Err(_) => unreachable!(),
    }
}

/// One more owner of a row of the older version.
fn raise_row<K: Ord, V, const S: usize>(
    w: &mut World<Item<K, V, S>, NoJob>,
    older: &Loaded<Item<K, V, S>>,
    row: usize,
) -> Group
    requires there { HasRows w.old (loaded_slot older.now) }
    requires row { row < length (names_at w.old (loaded_slot older.now)) }
    requires raised { All (CanBeRaised w.old) (names_at w.old (loaded_slot older.now)) }
    ensures name { name_of result ≡ get_or (names_at w.old (loaded_slot older.now)) row 0 }
    ensures raised { w.new ≡ with_groups (more_owned (name_of result) w.old.groups) w.old }
    ensures keeps { Frame w.old w.new }
{
    let name = directory_at(w, older).rows()[row].owners().name();
    match group::raise(w, name) {
        Some(group) => group,
        None => unreachable!(),
    }
}

/// Places new segments of a row and takes the others over, and keeps the owners of all.
fn place_parts<K: Ord + Drop, V: Drop, const S: usize>(
    w: &mut World<Item<K, V, S>, NoJob>,
    parts: Vec<Part<K, V>>,
    older: Option<Loaded<Item<K, V, S>>>,
    mut owners: Vec<Kept>,
) -> Vec<Kept>
    requires empty { owners.items ≡ [] }
    requires room { segments_in parts.items ≤ vec_capacity owners }
    requires free { made_in parts.items ≤ sum_by vacancy w.old.states }
    requires once { (i : ℕ) → times i (taken_slots (slots_at w.old (older_slot older)) parts.items) ≤ 1 }
    requires there { CanTakeOver w.old (older_slot older) parts.items }
    ensures { StandsIn (made_in parts.items) (map kept_slot result.items) (blocks_of_parts (blocks_at w.old (older_slot older)) parts.items) w.old w.new }
{
    let mut near = 0;
    for part in parts {
        place_part(w, part, older, &mut owners, &mut near);
    }
    owners
}

/// Places a new segment, or takes a stretch of a row over, and keeps the owners. `near` is the row of the stretch before, where
/// this one is looked for first.
fn place_part<K: Ord + Drop, V: Drop, const S: usize>(
    w: &mut World<Item<K, V, S>, NoJob>,
    part: Part<K, V>,
    older: Option<Loaded<Item<K, V, S>>>,
    owners: &mut Vec<Kept>,
    near: &mut usize,
)
    requires room { length owners.old.items + segments_of part ≤ vec_capacity owners.old }
    requires free { makes part ≤ sum_by vacancy w.old.states }
    requires once { (i : ℕ) → times i (part_slots (slots_at w.old (older_slot older)) part) ≤ 1 }
    requires there { CanTakeOver w.old (older_slot older) (part ∷ []) }
    ensures placed { KeepsPlaced (slots_at w.old (older_slot older)) part (map kept_slot owners.old.items) (map kept_slot owners.new.items) w.old w.new }
    ensures long { length owners.new.items ≡ length owners.old.items + segments_of part }
    ensures room { vec_capacity owners.old ≤ vec_capacity owners.new }
{
    w.laws();
    match part {
        Part::Made(tree) => owners.push_reserved(place_segment(w, tree)),
        Part::Taken { from, upto } => match older {
            Some(at) => {
                let (row, first, number) = row_of(w, &at, from, *near);
                *near = number;
                group::keep_row(w, row, first, first + (upto - from), owners);
            }
            None => unreachable!(),
        },
    }
}

/// The row of the older version that has the segment at a place among all, its place there, and which row it is. No search is made
/// where that is the one named.
fn row_of<K: Ord, V, const S: usize>(
    w: &World<Item<K, V, S>, NoJob>,
    older: &Loaded<Item<K, V, S>>,
    place: usize,
    near: usize,
) -> (GroupName, usize, usize)
    requires there { HasRows w.now (loaded_slot older.now) }
    requires place { place < length (slots_at w.now (loaded_slot older.now)) }
    ensures stretch { (upto : ℕ) → LiesInRow (ends_at w.now (loaded_slot older.now)) place upto → IsStretch w.now (loaded_slot older.now) (group_named result.0) result.1 place upto }
    ensures within { result.1 ≤ place }
{
    let dir = directory_at(w, older);
    let spot = dir.spot_near(place, near);
    (dir.rows()[spot.row].owners().name(), spot.at, spot.row)
}

/// The directory of the older version.
fn directory_at<'w, K: Ord, V, const S: usize>(
    w: &'w World<Item<K, V, S>, NoJob>,
    older: &Loaded<Item<K, V, S>>,
) -> &'w Directory<K, Group>
    requires there { (i : ℕ) × (loaded_slot older.now ≡ Some i) × IsThere w.now i }
    ensures { (i : ℕ) → loaded_slot older.now ≡ Some i → value_at w.now i ≡ Some (Item.Directory result.now) }
{
    match w.read_loaded(older) {
        Some(item) => match item.directory() {
            Some(directory) => directory,
            None => unreachable!(),
        },
        None => unreachable!(),
    }
}

/// Places a segment where a slot is free. There are few of them, and the others are many: so it is a function of its own, and the loop
/// over all stays short.
#[inline(never)]
fn place_segment<K: Ord + Drop, V: Drop, const S: usize>(
    w: &mut World<Item<K, V, S>, NoJob>,
    tree: Segment<K, V>,
) -> Kept
    requires { 1 ≤ sum_by vacancy w.old.states }
    ensures free { IsFree w.old (kept_slot result) }
    ensures placed { w.new ≡ placed (kept_slot result) (Item.Segment tree) (Status.Shared 1) w.old }
    ensures keeps { Frame w.old w.new }
{
    match shared::new(w, Item::Segment(tree)) {
        Ok(owner) => Kept::of(owner),
        Err(_) => unreachable!(),
    }
}

/// Makes a placed version the one that the root names, in one exchange, and gives the owner of the older one back, by
/// participant `p`.
pub fn publish<K: Ord, V, const S: usize>(
    w: &mut World<Item<K, V, S>, NoJob>,
    root: &AtomicShared<Item<K, V, S>>,
    new: Shared<Item<K, V, S>>,
    p: usize,
)
    requires participant { p < length w.old.participants }
    requires root { IsSharedCell w.old (shared_cell root.now) }
    requires owned { (i : ℕ) (tag : Tag) → cell_at w.old (shared_cell root.now) ≡ Cell.OfShared (Some i) tag → IsShared w.old i }
    ensures published { Publishes p (shared_cell root.now) (shared_slot new) w.old w.new }
    ensures used { IsSharedCell w.new (shared_cell root.now) }
    ensures keeps { Frame w.old w.new }
    ensures only { OnlyParticipant p w.old w.new }
{
    let (older, _) = atomic_shared::swap(w, root, (Some(new), Tag::None));
    if let Some(older) = older {
        let _last = shared::release(w, older, p);
    }
}
