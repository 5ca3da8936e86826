//! Where a key is among the pairs of a tree.

ghost use Rattle.std.specs.Prelude.{◌≡◌, ◌<◌, length, slice_get};
ghost use Rattle.tree_nodes.specs.SplitPoints.{is_keyed};
ghost use Rattle.tree_index.specs.Proximity.{IsLocated};
ghost use Rattle.tree_nodes.specs.Content.{pairs_of, IsSound};
ghost use Rattle.tree_index.specs.Cursor.{whole};
ghost use Rattle.leaf_array.specs.Cells.{lesser};
ghost use Rattle.tree_index.specs.Ends.{IsEnd, end_position};
ghost use Rattle.tree_nodes.specs.Walk.{position, IsInsertionPoint, IsPosition};

use crate::cursor::{End, Ends};
use crate::iter::Iter;
use tree_nodes::{Arenas, Position};

/// What [`locate`](crate::TreeIndex::locate) finds around a key, with a cursor there.
/// (`scc`'s `tree_index::Proximity`.)
#[derive(Drop)]
pub enum Proximity<'t, K: Ord, V> {
    /// A pair has the key: the forward end is at it.
    Exact(Iter<'t, K, V>),
    /// None has it: the forward end is at the nearest smaller pair, the backward end at the nearest
    /// larger one.
    Between(Iter<'t, K, V>),
    /// All pairs are smaller: the backward end is at the last one.
    Smaller(Iter<'t, K, V>),
    /// All pairs are larger: the forward end is at the first one.
    Larger(Iter<'t, K, V>),
    /// There are no pairs.
    Empty,
}

/// Where a key is. It searches one path.
pub(crate) fn locate<'t, K: Ord, V>(arenas: &'t Arenas<K, V>, key: &K) -> Proximity<'t, K, V>
    requires { IsSound K.cmp arenas.now }
    ensures { IsLocated K.cmp key.now (pairs_of arenas.now) result }
{
    let Some(insertion_point) = arenas.insertion_point(key, false) else {
        return Proximity::Empty;
    };
    match arenas.first_at(insertion_point) {
        Some(larger) => locate_before(arenas, key, insertion_point, larger),
        None => match arenas.before(insertion_point) {
            Some(smaller) => {
                Proximity::Smaller(cursor(arenas, End::Unopened, End::At(smaller)))
            },
            None => Proximity::Empty,
        },
    }
}

/// Where a key is: at a pair whose key isn't less, or before it.
fn locate_before<'t, K: Ord, V>(
    arenas: &'t Arenas<K, V>,
    key: &K,
    insertion_point: Position<'t, K, V>,
    larger: Position<'t, K, V>,
) -> Proximity<'t, K, V>
    requires sound { IsSound K.cmp arenas.now }
    requires insertion_point { IsInsertionPoint arenas.now insertion_point }
    requires spot { IsPosition arenas.now larger }
    requires first { position arenas.now insertion_point ≡ lesser K.cmp key.now (pairs_of arenas.now) }
    requires same { position arenas.now larger ≡ position arenas.now insertion_point }
    ensures { IsLocated K.cmp key.now (pairs_of arenas.now) result }
{
    if has_key(&larger, key) {
        return Proximity::Exact(cursor(arenas, End::At(larger), End::Unopened));
    }
    match arenas.before(insertion_point) {
        Some(smaller) => Proximity::Between(cursor(arenas, End::At(smaller), End::At(larger))),
        None => Proximity::Larger(cursor(arenas, End::At(larger), End::Unopened)),
    }
}

/// A cursor with its ends at these places.
fn cursor<'t, K: Ord, V>(
    arenas: &'t Arenas<K, V>,
    forward: End<Position<'t, K, V>>,
    backward: End<Position<'t, K, V>>,
) -> Iter<'t, K, V>
    requires sound { IsSound K.cmp arenas.now }
    requires forward { IsEnd arenas.now forward }
    requires backward { IsEnd arenas.now backward }
    ensures { result ≡ whole (pairs_of arenas.now) (end_position arenas.now forward.entry) (end_position arenas.now backward.entry) }
{
    Iter {
        ends: Ends {
            arenas,
            forward,
            backward,
        },
    }
}

/// Whether the pair at a place has a key.
fn has_key<K: Ord, V>(spot: &Position<'_, K, V>, key: &K) -> bool
    requires { spot.now.place < length spot.now.leaf.now.array.pairs }
    ensures { result ≡ is_keyed K.cmp key.now (slice_get spot.now.leaf.now.array.pairs spot.now.place) }
{
    spot.pair().0.cmp(key).is_eq()
}
