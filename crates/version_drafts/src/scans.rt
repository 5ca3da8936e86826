//! The pairs of a tree that are yet to be read: all of them, or those that no range takes away.

ghost use Rattle.std.specs.Prelude.{◌≡◌, ◌≤◌, ◌+◌, ◌++◌, ℕ, IfOk, OnOk, drop, length, option_copied, slice_get, take};
ghost use Rattle.std.specs.Option.{option_map};
ghost use Rattle.leaf_array.specs.Pairs.{IsAscending};
ghost use Rattle.leaf_array.specs.Values.{ClonesAreSame};
ghost use Rattle.tree_index.specs.Cursor.{deref_pair};
ghost use Rattle.version_drafts.specs.Cutting.{LiesBelow};
ghost use Rattle.version_drafts.specs.Gone.{FirstIsLeft, without_gone};

use crate::gone::{Gone, is_gone};
use std::alloc::AllocError;
use std::marker::Model;
use tree_index::{Iter, TreeIndex};
use version_views::Segment;

/// The pairs of a tree by rising keys, without those that were passed.
#[derive(Drop)]
pub(crate) struct PairScan<'t, K: Ord, V> {
    cursor: Iter<'t, K, V>,
}

/// Invariant: specs/ChangeScans.antt of `version_views`, IsReading: the cursor walks over all pairs of the tree, and has
/// begun if there are some.
impl<'t, K: Ord, V> Model for PairScan<'t, K, V> {
    ghost use Rattle.std.specs.Prelude.{List};
    ghost use Rattle.version_views.specs.ChangeScans.{IsReading, unread};

    ghost Value = { List (K × V) };

    ghost view = { λ s. unread s.cursor };

    ghost invariant = { λ s. IsReading s.cursor };
}

impl<'t, K: Ord, V> PairScan<'t, K, V> {
    /// All pairs of a tree.
    pub(crate) fn new(tree: &'t TreeIndex<K, V>) -> Self
        ensures { result ≡ tree.now.pairs }
    {
        let mut cursor = tree.iter();
        let _ = cursor.next();
        PairScan { cursor }
    }

    /// How many of the first pairs that are left have keys below this one; all of them, where none is named.
    #[inline(always)]
    pub(crate) fn run(&self, upto: Option<&K>) -> usize
        ensures within { result ≤ length self.now }
        ensures below { LiesBelow K.cmp upto.entry (take result self.now) }
    {
        self.cursor.run(upto)
    }

    /// Appends clones of the first `count` pairs that are left to a segment, and passes them.
    #[inline(always)]
    pub(crate) fn push_run(
        &mut self,
        into: &mut Segment<K, V>,
        count: usize,
    ) -> Result<(), AllocError>
    where
        K: Clone + Drop,
        V: Clone + Drop,
        requires keys { ClonesAreSame K.is_clone }
        requires values { ClonesAreSame V.is_clone }
        requires within { count ≤ length self.old }
        requires rising { IsAscending K.cmp (into.old.pairs ++ take count self.old) }
        requires room { length into.old.pairs + count ≤ 225 }
        ensures pushed { OnOk result (into.new.pairs ≡ into.old.pairs ++ take count self.old) }
        ensures passed { OnOk result (self.new ≡ drop count self.old) }
    {
        match into.push_run(&mut self.cursor, count) {
            Ok(()) => Ok(()),
            Err(refused) => Err(refused),
        }
    }

    /// The first pair that is left.
    #[inline(always)]
    pub(crate) fn front(&self) -> Option<(&'t K, &'t V)>
        ensures { deref_pair result ≡ slice_get self.now 0 }
    {
        self.cursor.get()
    }

    /// Passes the first pair that is left.
    #[inline(always)]
    pub(crate) fn step(&mut self)
        ensures { self.new ≡ drop 1 self.old }
    {
        let _ = self.cursor.next();
    }
}

/// The pairs of a tree by rising keys that lie in no range that is gone, without those that were passed.
#[derive(Drop)]
pub(crate) struct Sieve<'t, 'g, K: Ord, V> {
    pairs: PairScan<'t, K, V>,
    gone: &'g [Gone<K>],
}

/// Invariant: specs/Gone.antt, FirstIsLeft: the first pair that is left isn't gone.
impl<'t, 'g, K: Ord, V> Model for Sieve<'t, 'g, K, V> {
    ghost use Rattle.std.specs.Prelude.{List};
    ghost use Rattle.version_drafts.specs.Gone.{FirstIsLeft, without_gone};

    ghost Value = { List (K × V) };

    ghost view = { λ s. without_gone K.cmp s.gone.now s.pairs };

    ghost invariant = { λ s. FirstIsLeft K.cmp s.gone.now s.pairs };
}

impl<'t, 'g, K: Ord, V> Sieve<'t, 'g, K, V> {
    /// All pairs of a tree that lie in none of these ranges.
    pub(crate) fn new(tree: &'t TreeIndex<K, V>, gone: &'g [Gone<K>]) -> Self
        ensures { result ≡ without_gone K.cmp gone.now tree.now.pairs }
    {
        let mut pairs = PairScan::new(tree);
        pass_gone(&mut pairs, gone);
        Sieve { pairs, gone }
    }

    /// The first pair that is left.
    #[inline(always)]
    pub(crate) fn front(&self) -> Option<(&'t K, &'t V)>
        ensures { deref_pair result ≡ slice_get self.now 0 }
    {
        self.pairs.front()
    }

    /// Passes the first pair that is left.
    #[inline(always)]
    pub(crate) fn step(&mut self)
        ensures { self.new ≡ drop 1 self.old }
    {
        self.pairs.step();
        pass_gone(&mut self.pairs, self.gone);
    }

    /// Puts clones of the first pairs that are left and have keys below this one, if one is named, behind those of a segment,
    /// passes them, and tells how many: up to a number, and none where ranges are gone, which have to be looked for pair by
    /// pair.
    #[inline(always)]
    pub(crate) fn push_run(
        &mut self,
        into: &mut Segment<K, V>,
        upto: Option<&K>,
        most: usize,
    ) -> Result<usize, AllocError>
    where
        K: Clone + Drop,
        V: Clone + Drop,
        requires keys { ClonesAreSame K.is_clone }
        requires values { ClonesAreSame V.is_clone }
        requires rising { (n : ℕ) → LiesBelow K.cmp upto (take n self.old) → IsAscending K.cmp (into.old.pairs ++ take n self.old) }
        requires room { length into.old.pairs + most ≤ 225 }
        ensures most { IfOk result (λ n. n ≤ most) }
        ensures within { IfOk result (λ n. n ≤ length self.old) }
        ensures below { IfOk result (λ n. LiesBelow K.cmp upto.entry (take n self.old)) }
        ensures pushed { IfOk result (λ n. into.new.pairs ≡ into.old.pairs ++ take n self.old) }
        ensures passed { IfOk result (λ n. self.new ≡ drop n self.old) }
    {
        if most == 0 {
            return Ok(0);
        }
        if !self.gone.is_empty() {
            return Ok(0);
        }
        let count = self.pairs.run(upto).min(most);
        if count == 0 {
            return Ok(0);
        }
        self.pairs.push_run(into, count)?;
        Ok(count)
    }
}

/// Passes the pairs up to the first one that isn't gone.
#[inline(always)]
fn pass_gone<K: Ord, V>(pairs: &mut PairScan<'_, K, V>, gone: &[Gone<K>])
    ensures same { without_gone K.cmp gone.now pairs.new ≡ without_gone K.cmp gone.now pairs.old }
    ensures left { FirstIsLeft K.cmp gone.now pairs.new }
{
    if gone.is_empty() {
        return;
    }
    while let Some((key, _)) = pairs.front() {
        if !is_gone(gone, key) {
            return;
        }
        pairs.step();
    }
}
