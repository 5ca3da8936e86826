//! Leaves that are appended with their pairs, without a descent and without a split.

ghost use Rattle.std.specs.Prelude.{◌≡◌, ◌≢◌, ◌<◌, ◌≤◌, ◌+◌, ◌++◌, ◌∷◌, [], IfOk, IfSome, IsSome, OnOk, length, take, drop};
ghost use Rattle.leaf_array.specs.Pairs.{IsAscending};
ghost use Rattle.leaf_array.specs.Results.{IsSuccess, given_back};
ghost use Rattle.leaf_array.specs.Values.{ClonesAreSame};
ghost use Rattle.slab.specs.Slab.{get, HasRoomFor};
ghost use Rattle.tree_nodes.specs.Content.{pairs_of, IsSound, leaf_on_way};
ghost use Rattle.tree_nodes.specs.Depth.{IsAbove, ascending_headroom};
ghost use Rattle.tree_nodes.specs.Push.{IsAdded, IsFullLast, IsLone};

use crate::arenas::Arenas;
use crate::leaf::Leaf;
use crate::node::InnerNode;
use crate::split::{CROWDED, set_next};
use leaf_array::{Array, InsertResult};
use slab::Slab;
use std::alloc::AllocError;

impl<K: Ord, V> Arenas<K, V> {
    /// Appends clones of pairs of another tree's leaf, from a place on, whose keys are greater than all here: `count` of them
    /// in a leaf of their own, or the first one alone. Returns how many.
    pub(crate) fn push_leaf(
        &mut self,
        source: &Leaf<K, V>,
        from: usize,
        count: usize,
    ) -> Result<usize, AllocError>
    where
        K: Clone + Drop,
        V: Clone + Drop,
        requires keys { ClonesAreSame K.is_clone }
        requires values { ClonesAreSame V.is_clone }
        requires sound { IsSound K.cmp self.old }
        requires some { 0 < count }
        requires within { from + count ≤ length source.now.array.pairs }
        requires rising { IsAscending K.cmp (pairs_of self.old ++ take count (drop from source.now.array.pairs)) }
        ensures some { IfOk result (λ n. 0 < n) }
        ensures most { IfOk result (λ n. n ≤ count) }
        ensures sound { OnOk result (IsSound K.cmp self.new) }
        ensures pairs { IfOk result (λ n. pairs_of self.new ≡ pairs_of self.old ++ take n (drop from source.now.array.pairs)) }
        ensures ascending { IfOk result (λ n. ascending_headroom K.cmp self.old ≤ ascending_headroom K.cmp self.new + n) }
    {
        let _ = source.len();
        if self.height == 0 {
            self.leaves.reserve(1)?;
            self.nodes.reserve(1)?;
            let first = insert_run(&mut self.leaves, None, source, from, count)?;
            self.plant(first, count);
            return Ok(count);
        }
        if let Some((last, separator)) = self.full_last()? {
            self.leaves.reserve(1)?;
            self.append(last, separator, source, from, count)?;
            return Ok(count);
        }
        let (key, val) = source.pair(from);
        match self.push(key.clone()?, val.clone()?) {
            InsertResult::Success => {},
            _ => return Err(AllocError),
        }
        Ok(1)
    }

    /// Appends a pair whose key is greater than all others, in a leaf of its own where nothing is planted, or where the last leaf
    /// is full and hangs on the root, which has room. Elsewhere it is inserted. It is full as an insertion is.
    // Out of line: most pairs go into a leaf that is there.
    #[inline(never)]
    pub(crate) fn push_apart(&mut self, key: K, val: V) -> InsertResult<K, V>
    where
        K: Clone + Drop,
        V: Drop,
        requires sound { IsSound K.cmp self.old }
        requires clones { ClonesAreSame K.is_clone }
        requires above { IsAbove K.cmp key (pairs_of self.old) }
        ensures sound { IsSound K.cmp self.new }
        ensures back { IfSome (given_back result) (λ p. p ≡ (key, val)) }
        ensures kept { IsSome (given_back result) → pairs_of self.new ≡ pairs_of self.old }
        ensures depth { IsSome (given_back result) → self.new.height ≡ self.old.height }
        ensures ascending_headroom { IsSome (given_back result) → ascending_headroom K.cmp self.new ≡ ascending_headroom K.cmp self.old }
        ensures done { IsSuccess result → pairs_of self.new ≡ pairs_of self.old ++ (key, val) ∷ [] }
        ensures ascending { IsSuccess result → ascending_headroom K.cmp self.old ≤ ascending_headroom K.cmp self.new + 1 }
    {
        if self.spare().is_err() {
            return InsertResult::Full(key, val);
        }
        if self.height == 0 {
            let first = insert_pair(&mut self.leaves, None, key, val);
            self.plant(first, 1);
            return InsertResult::Success;
        }
        match self.full_last() {
            Ok(Some((last, separator))) => {
                self.append_pair(last, separator, key, val);
                InsertResult::Success
            },
            Ok(None) => self.put::<true>(key, val),
            Err(AllocError) => InsertResult::Full(key, val),
        }
    }

    /// Makes room for one more leaf, and where nothing is planted for a node.
    fn spare(&mut self) -> Result<(), AllocError>
        requires { IsSound K.cmp self.old }
        ensures sound { IsSound K.cmp self.new }
        ensures pairs { pairs_of self.new ≡ pairs_of self.old }
        ensures height { self.new.height ≡ self.old.height }
        ensures ascending { ascending_headroom K.cmp self.new ≡ ascending_headroom K.cmp self.old }
        ensures leaf { OnOk result (HasRoomFor self.new.leaves 1) }
        ensures node { OnOk result (self.new.height ≡ 0 → HasRoomFor self.new.nodes 1) }
    {
        self.leaves.reserve(1)?;
        if self.height == 0 {
            self.nodes.reserve(1)?;
        }
        Ok(())
    }

    /// Plants a first leaf, which has `len` pairs, under a first node.
    pub(crate) fn plant(&mut self, first: usize, len: usize)
        requires room { HasRoomFor self.old.nodes 1 }
        requires lone { IsLone K.cmp self.old.leaves first len }
        ensures sound { IsSound K.cmp self.new }
        ensures pairs { IfSome (get self.old.leaves first) (λ l. pairs_of self.new ≡ l.array.pairs) }
        ensures height { self.new.height ≡ 1 }
        ensures leaves { self.new.leaves ≡ self.old.leaves }
        ensures on { (key : K) → first ≡ leaf_on_way K.cmp key self.new }
        ensures ascending { 241 ≤ ascending_headroom K.cmp self.new + len }
    {
        self.root = self.nodes.insert_reserved(InnerNode {
            children: Array::new(),
            last: first,
        });
        self.height = 1;
        self.len = len;
    }

    /// The last leaf with its greatest key, if it is full and has pairs, and hangs on the root, which has room.
    fn full_last(&self) -> Result<Option<(usize, K)>, AllocError>
    where
        K: Clone,
        requires clones { ClonesAreSame K.is_clone }
        requires sound { IsSound K.cmp self.now }
        requires planted { self.now.height ≢ 0 }
        ensures { IfOk result (λ r. IfSome r (λ p. IsFullLast self.now p.0 p.1)) }
    {
        if self.height > 1 || self.len > usize::MAX - 15 {
            return Ok(None);
        }
        let Some(root) = self.nodes.get(self.root) else {
            unreachable!()
        };
        if root.is_full() {
            return Ok(None);
        }
        let Some(leaf) = self.leaves.get(root.last) else {
            unreachable!()
        };
        let len = leaf.len();
        if len < CROWDED || !leaf.array.is_full() {
            return Ok(None);
        }
        Ok(Some((root.last, leaf.key(len - 1).clone()?)))
    }

    /// Appends a leaf with clones of `count` pairs of another one, from a place on, under the root, with the separator
    /// between it and the last one.
    fn append(
        &mut self,
        last: usize,
        separator: K,
        source: &Leaf<K, V>,
        from: usize,
        count: usize,
    ) -> Result<(), AllocError>
    where
        K: Clone + Drop,
        V: Clone + Drop,
        requires keys { ClonesAreSame K.is_clone }
        requires values { ClonesAreSame V.is_clone }
        requires sound { IsSound K.cmp self.old }
        requires last { IsFullLast self.old last separator }
        requires room { HasRoomFor self.old.leaves 1 }
        requires within { from + count ≤ length source.now.array.pairs }
        requires rising { IsAscending K.cmp (pairs_of self.old ++ take count (drop from source.now.array.pairs)) }
        ensures sound { OnOk result (IsSound K.cmp self.new) }
        ensures pairs { OnOk result (pairs_of self.new ≡ pairs_of self.old ++ take count (drop from source.now.array.pairs)) }
        ensures ascending { OnOk result (ascending_headroom K.cmp self.old ≤ ascending_headroom K.cmp self.new + count) }
    {
        let _ = source.len();
        let fresh = insert_run(&mut self.leaves, Some(last), source, from, count)?;
        set_next(&mut self.leaves, last, fresh);
        self.len += count;
        match self.nodes.get_mut(self.root) {
            Some(root) => root.append(separator, fresh),
            None => unreachable!(),
        }
        Ok(())
    }

    /// Appends a leaf with one pair under the root, with the separator between it and the last one.
    fn append_pair(&mut self, last: usize, separator: K, key: K, val: V)
        requires sound { IsSound K.cmp self.old }
        requires last { IsFullLast self.old last separator }
        requires room { HasRoomFor self.old.leaves 1 }
        requires rising { IsAscending K.cmp (pairs_of self.old ++ (key, val) ∷ []) }
        ensures sound { IsSound K.cmp self.new }
        ensures pairs { pairs_of self.new ≡ pairs_of self.old ++ (key, val) ∷ [] }
        ensures ascending { ascending_headroom K.cmp self.old ≤ ascending_headroom K.cmp self.new + 1 }
    {
        let added = insert_pair(&mut self.leaves, Some(last), key, val);
        set_next(&mut self.leaves, last, added);
        self.len += 1;
        match self.nodes.get_mut(self.root) {
            Some(root) => root.append(separator, added),
            None => unreachable!(),
        }
    }
}

/// Puts a leaf with clones of `count` pairs of another leaf, from a place on, into an arena, behind the leaf `prev`. Returns
/// its number.
// The leaf is filled where it stands: a leaf that goes from hand to hand is copied each time.
#[inline]
fn insert_run<K: Ord, V>(
    leaves: &mut Slab<Leaf<K, V>>,
    prev: Option<usize>,
    source: &Leaf<K, V>,
    from: usize,
    count: usize,
) -> Result<usize, AllocError>
where
    K: Clone + Drop,
    V: Clone + Drop,
    requires keys { ClonesAreSame K.is_clone }
    requires values { ClonesAreSame V.is_clone }
    requires room { HasRoomFor leaves.old 1 }
    requires within { from + count ≤ length source.now.array.pairs }
    requires rising { IsAscending K.cmp (take count (drop from source.now.array.pairs)) }
    ensures { IfOk result (λ n. IsAdded leaves.old leaves.new n prev (take count (drop from source.now.array.pairs))) }
{
    let _ = source.len();
    let fresh = leaves.insert_reserved(Leaf {
        array: Array::new(),
        prev,
        next: None,
    });
    match leaves.get_mut(fresh) {
        Some(leaf) => leaf.extend(source, from, count)?,
        None => unreachable!(),
    }
    Ok(fresh)
}

/// Puts a leaf with one pair into an arena, behind the leaf `before`. Returns its number.
#[inline]
fn insert_pair<K: Ord, V>(
    leaves: &mut Slab<Leaf<K, V>>,
    before: Option<usize>,
    key: K,
    val: V,
) -> usize
    requires { HasRoomFor leaves.old 1 }
    ensures { IsAdded leaves.old leaves.new result before ((key, val) ∷ []) }
{
    let fresh = leaves.insert_reserved(Leaf {
        array: Array::new(),
        prev: before,
        next: None,
    });
    match leaves.get_mut(fresh) {
        Some(leaf) => leaf.push(key, val),
        None => unreachable!(),
    }
    fresh
}
