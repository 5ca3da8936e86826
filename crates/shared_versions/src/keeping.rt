//! What is to be kept of the rows of a version to be placed.

ghost use Rattle.std.specs.Prelude.{◌≡◌, ◌≤◌, [], length, map, reverse, vec_capacity};
ghost use Rattle.std.specs.List.{All, AllPairs};
ghost use Rattle.sdd_domain.specs.CellSteps.{StepsOnNoCell};
ghost use Rattle.sdd_domain.specs.Tokens.{place_of, home_of, hand_of};
ghost use Rattle.shared_versions.specs.Placing.{AreApart, IsKeptRow, IsNewIn, IsStill, IsToKeep, IsWithinKept, blocks_kept, blocks_to_keep, moved_from, owner_of, without};

use crate::kept::{WriterOwner, release_kept};
use crate::node::Node;
use crate::owners::let_go;
use sdd_domain::domain::Domain;
use sdd_domain::local::Local;
use sdd_domain::shared::Shared;
use std::mem;

/// What is to be kept of a row once its version is placed: an owner of a new one, or the owner that is kept already, which
/// stays at its place until then; nothing where the version has the row itself.
pub(crate) enum ToKeep<K: Ord, V> {
    New(Shared<Node<K, V>>),
    Old(usize),
    Nothing,
}

/// Keeps owners of the rows of a version that was placed, in the room for them: those of its new rows, and those that were kept of
/// the others, which are moved. The older ones that are left are released. Condition: no two are moved from one place, which is
/// empty then.
pub(crate) fn keep_all<K: Ord + Drop, V: Drop>(
    domain: &Domain<Node<K, V>>,
    mut to_keep: Vec<ToKeep<K, V>>,
    kept: &mut Vec<WriterOwner<K, V>>,
    room: Vec<WriterOwner<K, V>>,
    local: &mut Local<Node<K, V>>,
)
    requires home { home_of local.old ≡ place_of domain.now }
    requires to_keep { All (IsToKeep (place_of domain.now).0 (length kept.old.items)) to_keep.items }
    requires kept { All (IsKeptRow (place_of domain.now).0) kept.old.items }
    requires apart { AllPairs AreApart (reverse (map moved_from to_keep.items)) }
    requires none { room.items ≡ [] }
    requires room { length to_keep.items ≤ vec_capacity room }
    ensures kept { All (IsKeptRow (place_of domain.now).0) kept.new.items }
    ensures blocks { map blocks_kept kept.new.items ≡ reverse (map (blocks_to_keep (map blocks_kept kept.old.items)) to_keep.items) }
    ensures hand { hand_of local.new ≡ hand_of local.old }
    ensures same { IsStill local.old local.new }
    ensures cells { StepsOnNoCell local.old local.new }
{
    let mut older = mem::replace(kept, room);
    'moving: while let Some(one) = to_keep.pop() {
        kept.push_reserved(moved(one, &mut older));
    }
    to_keep.destroy_empty();
    release_kept(domain, older, local);
}

/// The owner to be kept, if there is one: an older one is moved out of its place.
fn moved<K: Ord, V>(to_keep: ToKeep<K, V>, older: &mut Vec<WriterOwner<K, V>>) -> WriterOwner<K, V>
    requires { IsWithinKept (length older.old.items) to_keep }
    ensures owner { result ≡ owner_of older.old.items to_keep }
    ensures left { older.new.items ≡ without to_keep older.old.items }
{
    match to_keep {
        ToKeep::New(owner) => Some(owner),
        ToKeep::Old(number) => mem::replace(&mut older[number], None),
        ToKeep::Nothing => None,
    }
}

/// Releases the owners of new rows, of which none is kept: their version wasn't placed.
pub(crate) fn release_new<K: Ord + Drop, V: Drop>(
    domain: &Domain<Node<K, V>>,
    mut to_keep: Vec<ToKeep<K, V>>,
    local: &mut Local<Node<K, V>>,
)
    requires home { home_of local.old ≡ place_of domain.now }
    requires new { All (IsNewIn (place_of domain.now).0) to_keep.items }
    ensures hand { hand_of local.new ≡ hand_of local.old }
    ensures same { IsStill local.old local.new }
    ensures cells { StepsOnNoCell local.old local.new }
{
    'releasing: while let Some(one) = to_keep.pop() {
        match one {
            ToKeep::New(owner) => {
                let_go(domain, owner, local);
            }
            ToKeep::Old(_) => {}
            ToKeep::Nothing => {}
        }
    }
    to_keep.destroy_empty();
}
