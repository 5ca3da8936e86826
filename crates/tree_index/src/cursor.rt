//! A cursor: two ends that go along the pairs of a tree, one forward and one backward.

ghost use Rattle.std.specs.Prelude.{◌≡◌, ◌≤◌, ◌+◌, ◌++◌, [], IfSome, OnErr, OnOk, Some, None, length, nat_lt, slice_get, take};
ghost use Rattle.std.specs.declared.cmp.Ordering.TheVariants.{Less};
ghost use Rattle.std.specs.declared.ops.Bound.{Bound};
ghost use Rattle.leaf_array.specs.Lookups.{deref_bound};
ghost use Rattle.leaf_array.specs.Pairs.{IsAscending};
ghost use Rattle.leaf_array.specs.Values.{ClonesAreSame};
ghost use Rattle.tree_nodes.specs.Depth.{ascending_headroom};
ghost use Rattle.tree_nodes.specs.Shape.{AllKeys};
ghost use Rattle.tree_nodes.specs.Content.{pairs_of, IsSound};
ghost use Rattle.tree_index.specs.Cursor.{lies_before, pair_at, kept_below, kept_above, moved_forth, moved_back, pairs_from, passed, next_of, next_back_of, shown_back, can_turn, turned, deref_pair};
ghost use Rattle.tree_index.specs.declared.cursor.End.TheVariants.{Unopened, At};
ghost use Rattle.tree_index.specs.Ends.{IsEnd, IsReady, ahead, back_pair, cursor_between, cursor_of, end_position, front_pair, forth_of, back_of, given_pair};
ghost use Rattle.tree_nodes.specs.Walk.{position, IsPosition};

use std::alloc::AllocError;
use std::ops::Bound;
use tree_nodes::{Arenas, Position};

/// The position of an end of a cursor: not yet set, at a place, or past all of them for good.
#[derive(Clone, Copy)]
pub(crate) enum End<S> {
    Unopened,
    At(S),
    Done,
}

/// Two ends over the pairs of a tree. The bounds are its callers' to give, the same ones at every call.
#[derive_where(Clone, Copy)]
pub(crate) struct Ends<'t, K: Ord, V> {
    pub(crate) arenas: &'t Arenas<K, V>,
    pub(crate) forward: End<Position<'t, K, V>>,
    pub(crate) backward: End<Position<'t, K, V>>,
}

impl<'t, K: Ord, V> Ends<'t, K, V> {
    /// Two ends that haven't been asked.
    pub(crate) fn new(arenas: &'t Arenas<K, V>) -> Self
        requires { IsSound K.cmp arenas.now }
        ensures ready { IsReady K.cmp result }
        ensures tree { result.arenas.now ≡ arenas.now }
        ensures forward { result.forward ≡ Unopened }
        ensures backward { result.backward ≡ Unopened }
    {
        Ends {
            arenas,
            forward: End::Unopened,
            backward: End::Unopened,
        }
    }

    /// Moves the forward end, and gives its pair if it lies within the upper bound and before the
    /// backward end.
    #[inline(always)]
    pub(crate) fn next(
        &mut self,
        lower: Bound<&'t K>,
        upper: Bound<&'t K>,
    ) -> Option<(&'t K, &'t V)>
        requires { IsReady K.cmp self.old }
        ensures ready { IsReady K.cmp self.new }
        ensures moved { cursor_between lower.entry upper.entry self.new ≡ moved_forth K.cmp (cursor_between lower.entry upper.entry self.old) }
        ensures answer { deref_pair result ≡ next_of K.cmp (cursor_between lower.entry upper.entry self.old) }
    {
        // Most steps stay in their leaf: there one look at the place says whether a pair is there and finds it.
        if let Some((spot, pair)) = self.beside() {
            self.forward = End::At(spot);
            return given(self.arenas, spot, pair, self.backward, upper);
        }
        self.forward = self.forth(lower);
        match self.forward {
            End::At(spot) => given(self.arenas, spot, spot.pair(), self.backward, upper),
            _ => None,
        }
    }

    /// Moves the backward end, and gives its pair if it lies within the lower bound and behind the
    /// forward end.
    #[inline(always)]
    pub(crate) fn next_back(
        &mut self,
        lower: Bound<&'t K>,
        upper: Bound<&'t K>,
    ) -> Option<(&'t K, &'t V)>
        requires { IsReady K.cmp self.old }
        ensures ready { IsReady K.cmp self.new }
        ensures moved { cursor_between lower.entry upper.entry self.new ≡ moved_back K.cmp (cursor_between lower.entry upper.entry self.old) }
        ensures answer { deref_pair result ≡ next_back_of K.cmp (cursor_between lower.entry upper.entry self.old) }
    {
        self.backward = self.back(upper);
        if lies_before(self.arenas, self.forward, self.backward) {
            shown_back(self.arenas, self.backward, lower)
        } else {
            None
        }
    }

    /// How many pairs, from that of the forward end on, have keys below this one; all of them, where none is named.
    #[inline(always)]
    pub(crate) fn run(&self, upto: Option<&K>) -> usize
        requires { IsReady K.cmp self.now }
        ensures within { result ≤ length (ahead self.now) }
        ensures below { IfSome upto.entry (λ key. AllKeys (λ k. K.cmp k key.now ≡ Less) (take result (ahead self.now))) }
    {
        match self.forward {
            End::At(spot) => self.arenas.run_at(spot, upto),
            _ => 0,
        }
    }

    /// Appends clones of `count` pairs, from that of the forward end on, to a tree, and moves past them.
    #[inline(always)]
    pub(crate) fn push_run(
        &mut self,
        into: &mut Arenas<K, V>,
        count: usize,
    ) -> Result<(), AllocError>
    where
        K: Clone + Drop,
        V: Clone + Drop,
        requires keys { ClonesAreSame K.is_clone }
        requires values { ClonesAreSame V.is_clone }
        requires ready { IsReady K.cmp self.old }
        requires sound { IsSound K.cmp into.old }
        requires within { count ≤ length (ahead self.old) }
        requires rising { IsAscending K.cmp (pairs_of into.old ++ take count (ahead self.old)) }
        ensures ready { IsReady K.cmp self.new }
        ensures sound { IsSound K.cmp into.new }
        ensures pushed { OnOk result (pairs_of into.new ≡ pairs_of into.old ++ take count (ahead self.old)) }
        ensures passed { OnOk result ((lower upper : Bound K) → cursor_of self.new lower upper ≡ passed count (cursor_of self.old lower upper)) }
        ensures ascending { OnOk result (ascending_headroom K.cmp into.old ≤ ascending_headroom K.cmp into.new + count) }
        ensures refused { OnErr result (pairs_of into.new ≡ []) }
        ensures flat { OnErr result (into.new.height ≡ 0) }
        ensures still { OnErr result (self.new ≡ self.old) }
    {
        let End::At(spot) = self.forward else {
            return Ok(());
        };
        let next = into.push_run(self.arenas, Some(spot), count)?;
        self.forward = match next {
            Some(spot) => End::At(spot),
            None => End::Done,
        };
        Ok(())
    }

    /// The pair of the forward end, if it lies within the upper bound.
    #[inline(always)]
    pub(crate) fn get(&self, upper: Bound<&'t K>) -> Option<(&'t K, &'t V)>
        requires { IsReady K.cmp self.now }
        ensures { deref_pair result ≡ kept_below K.cmp (deref_bound upper.entry) (front_pair self.now) }
    {
        shown(self.arenas, self.forward, upper)
    }

    /// The pair of the backward end, if it lies within the lower bound.
    pub(crate) fn get_back(&self, lower: Bound<&'t K>) -> Option<(&'t K, &'t V)>
        requires { IsReady K.cmp self.now }
        ensures { deref_pair result ≡ kept_above K.cmp (deref_bound lower.entry) (back_pair self.now) }
    {
        shown_back(self.arenas, self.backward, lower)
    }

    /// Lets the ends change places, where one alone is open and shows a pair, or none is.
    pub(crate) fn flip(&mut self, lower: Bound<&'t K>, upper: Bound<&'t K>) -> bool
        requires { IsReady K.cmp self.old }
        ensures ready { IsReady K.cmp self.new }
        ensures answer { result ≡ can_turn K.cmp (cursor_between lower.entry upper.entry self.old) }
        ensures turned { cursor_between lower.entry upper.entry self.new ≡ turned K.cmp (cursor_between lower.entry upper.entry self.old) }
    {
        let turns = self.can_turn(lower, upper);
        if turns {
            let forward = self.forward;
            self.forward = self.backward;
            self.backward = forward;
        }
        turns
    }

    /// Whether one end alone is open and shows a pair, or none is.
    fn can_turn(&self, lower: Bound<&'t K>, upper: Bound<&'t K>) -> bool
        requires { IsReady K.cmp self.now }
        ensures { result ≡ can_turn K.cmp (cursor_between lower.entry upper.entry self.now) }
    {
        match (&self.forward, &self.backward) {
            (End::Unopened, End::Unopened) => true,
            (_, End::Unopened) => self.get(upper).is_some(),
            (End::Unopened, _) => self.get_back(lower).is_some(),
            _ => false,
        }
    }

    /// Where the forward end moves, and the pair there, if it stays in its leaf.
    #[inline(always)]
    fn beside(&self) -> Option<(Position<'t, K, V>, (&'t K, &'t V))>
        requires { IsReady K.cmp self.now }
        ensures end { IfSome result (λ n. IsEnd self.now.arenas.now (At n.0)) }
        ensures place { IfSome result (λ n. (lower : Bound K) → end_position self.now.arenas.now (At n.0) ≡ forth_of K.cmp lower self.now) }
        ensures pair { IfSome result (λ n. slice_get n.0.leaf.now.array.pairs n.0.place ≡ Some (n.1.0.now, n.1.1.now)) }
    {
        match self.forward {
            End::At(spot) => self.arenas.beside(spot),
            _ => None,
        }
    }

    /// Where the forward end moves.
    #[inline(always)]
    fn forth(&self, lower: Bound<&'t K>) -> End<Position<'t, K, V>>
        requires { IsReady K.cmp self.now }
        ensures end { IsEnd self.now.arenas.now result }
        ensures place { end_position self.now.arenas.now result ≡ forth_of K.cmp (deref_bound lower.entry) self.now }
    {
        match self.forward {
            End::Unopened => match self.arenas.first_within(lower) {
                Some(spot) => End::At(spot),
                None => End::Unopened,
            },
            End::At(spot) => match self.arenas.behind(spot) {
                Some(next) => End::At(next),
                None => End::Done,
            },
            End::Done => End::Done,
        }
    }

    /// Where the backward end moves.
    #[inline(always)]
    fn back(&self, upper: Bound<&'t K>) -> End<Position<'t, K, V>>
        requires { IsReady K.cmp self.now }
        ensures end { IsEnd self.now.arenas.now result }
        ensures place { end_position self.now.arenas.now result ≡ back_of K.cmp (deref_bound upper.entry) self.now }
    {
        match self.backward {
            End::Unopened => match self.arenas.last_within(upper) {
                Some(spot) => End::At(spot),
                None => End::Unopened,
            },
            End::At(spot) => match self.arenas.before(spot) {
                Some(next) => End::At(next),
                None => End::Done,
            },
            End::Done => End::Done,
        }
    }
}

/// The pair of a place, if it lies within the upper bound and before a backward end.
#[inline(always)]
fn given<'t, K: Ord, V>(
    arenas: &'t Arenas<K, V>,
    spot: Position<'t, K, V>,
    own: (&'t K, &'t V),
    backward: End<Position<'t, K, V>>,
    upper: Bound<&'t K>,
) -> Option<(&'t K, &'t V)>
    requires sound { IsSound K.cmp arenas.now }
    requires spot { IsPosition arenas.now spot }
    requires backward { IsEnd arenas.now backward }
    requires own { slice_get spot.leaf.now.array.pairs spot.place ≡ Some (own.0.now, own.1.now) }
    ensures { deref_pair result ≡ given_pair K.cmp (deref_bound upper.entry) arenas.now spot.entry backward.entry }
{
    if precedes(arenas, spot, own, backward) {
        below(own, upper)
    } else {
        None
    }
}

/// Whether a place lies before a backward end, provided that this is at a pair.
#[inline(always)]
fn precedes<'t, K: Ord, V>(
    arenas: &'t Arenas<K, V>,
    spot: Position<'t, K, V>,
    own: (&'t K, &'t V),
    backward: End<Position<'t, K, V>>,
) -> bool
    requires sound { IsSound K.cmp arenas.now }
    requires spot { IsPosition arenas.now spot }
    requires backward { IsEnd arenas.now backward }
    requires own { slice_get spot.leaf.now.array.pairs spot.place ≡ Some (own.0.now, own.1.now) }
    ensures { result ≡ lies_before (At (position arenas.now spot.entry)) (end_position arenas.now backward.entry) }
{
    match backward {
        End::Unopened => true,
        End::At(other) => comes_first(arenas, spot, own, other),
        End::Done => false,
    }
}

/// Whether a place lies before another.
// Out of line: most cursors have one end alone.
#[inline(never)]
fn comes_first<'t, K: Ord, V>(
    arenas: &'t Arenas<K, V>,
    spot: Position<'t, K, V>,
    own: (&'t K, &'t V),
    other: Position<'t, K, V>,
) -> bool
    requires sound { IsSound K.cmp arenas.now }
    requires spot { IsPosition arenas.now spot }
    requires other { IsPosition arenas.now other }
    requires own { slice_get spot.leaf.now.array.pairs spot.place ≡ Some (own.0.now, own.1.now) }
    ensures { result ≡ nat_lt (position arenas.now spot.entry) (position arenas.now other.entry) }
{
    let _ = spot;
    own.0.cmp(other.pair().0).is_lt()
}

/// Whether one end lies before another, provided that both are at pairs.
#[inline(always)]
fn lies_before<K: Ord, V>(
    arenas: &Arenas<K, V>,
    a: End<Position<'_, K, V>>,
    b: End<Position<'_, K, V>>,
) -> bool
    requires sound { IsSound K.cmp arenas.now }
    requires first { IsEnd arenas.now a }
    requires second { IsEnd arenas.now b }
    ensures { result ≡ lies_before (end_position arenas.now a.entry) (end_position arenas.now b.entry) }
{
    match (a, b) {
        (_, End::Unopened) => true,
        (End::Unopened, _) => true,
        (End::At(x), End::At(y)) => x.pair().0.cmp(y.pair().0).is_lt(),
        _ => false,
    }
}

/// The pair of an end, if it lies within the upper bound.
#[inline(always)]
fn shown<'t, K: Ord, V>(
    arenas: &'t Arenas<K, V>,
    end: End<Position<'t, K, V>>,
    upper: Bound<&'t K>,
) -> Option<(&'t K, &'t V)>
    requires sound { IsSound K.cmp arenas.now }
    requires end { IsEnd arenas.now end }
    ensures { deref_pair result ≡ kept_below K.cmp (deref_bound upper.entry) (pair_at (pairs_of arenas.now) (end_position arenas.now end.entry)) }
{
    match end {
        End::At(spot) => below(spot.pair(), upper),
        _ => None,
    }
}

/// The pair of an end, if it lies within the lower bound.
#[inline(always)]
fn shown_back<'t, K: Ord, V>(
    arenas: &'t Arenas<K, V>,
    end: End<Position<'t, K, V>>,
    lower: Bound<&'t K>,
) -> Option<(&'t K, &'t V)>
    requires sound { IsSound K.cmp arenas.now }
    requires end { IsEnd arenas.now end }
    ensures { deref_pair result ≡ kept_above K.cmp (deref_bound lower.entry) (pair_at (pairs_of arenas.now) (end_position arenas.now end.entry)) }
{
    match end {
        End::At(spot) => above(spot.pair(), lower),
        _ => None,
    }
}

/// A pair, if it lies within an upper bound.
#[inline(always)]
fn below<'t, K: Ord, V>(pair: (&'t K, &'t V), upper: Bound<&'t K>) -> Option<(&'t K, &'t V)>
    ensures { deref_pair result ≡ kept_below K.cmp (deref_bound upper.entry) (Some (pair.entry.0.now, pair.entry.1.now)) }
{
    let past = match upper {
        Bound::Included(high) => high.cmp(pair.0).is_lt(),
        Bound::Excluded(high) => high.cmp(pair.0).is_le(),
        Bound::Unbounded => false,
    };
    if past { None } else { Some(pair) }
}

/// A pair, if it lies within a lower bound.
#[inline(always)]
fn above<'t, K: Ord, V>(pair: (&'t K, &'t V), lower: Bound<&'t K>) -> Option<(&'t K, &'t V)>
    ensures { deref_pair result ≡ kept_above K.cmp (deref_bound lower.entry) (Some (pair.entry.0.now, pair.entry.1.now)) }
{
    let within = match lower {
        Bound::Included(low) => low.cmp(pair.0).is_le(),
        Bound::Excluded(low) => low.cmp(pair.0).is_lt(),
        Bound::Unbounded => true,
    };
    if within { Some(pair) } else { None }
}
