//! A sorted row of edits, and a walk along it.

ghost use Rattle.std.specs.Prelude.{◌≡◌, [], drop, length, not, option_copied, slice_get, IfErr, IfOk, OnOk};
ghost use Rattle.std.specs.BTreeMap.Range.{range_contains};
ghost use Rattle.std.specs.List.{filter};
ghost use Rattle.std.specs.Option.{is_some, option_map};
ghost use Rattle.leaf_array.specs.Edits.{upserted};
ghost use Rattle.leaf_array.specs.Pairs.{value_of_key, IsAscending};
ghost use Rattle.tree_index.specs.Cursor.{deref_pair};
ghost use Rattle.version_drafts.specs.Rows.{IsFoundAt, IsMissingAt};

use crate::scans::PairScan;
use std::alloc::{AllocError, Global};
use std::cmp::Ordering;
use std::marker::Model;
use std::ops::Bound;
use tree_index::TreeIndex;
use version_views::is_within;

/// What comes of a key: the value of the write that names it last, which isn't cloned, or none.
#[derive(Drop)]
pub(crate) struct Edit<'w, V> {
    to: Option<&'w V>,
}

impl<'w, V> Model for Edit<'w, V> {
    ghost use Rattle.std.specs.Prelude.{Option, option_copied};

    ghost Value = { Option V };

    ghost view = { λ e. option_copied e.to };
}

impl<'w, V> Edit<'w, V> {
    /// The key gets this value, or has no pair.
    pub(crate) fn new(to: Option<&'w V>) -> Self
        ensures { result ≡ option_copied to.entry }
    {
        Edit { to }
    }

    /// Whether the key has a pair.
    pub(crate) fn leaves_a_pair(&self) -> bool
        ensures { result ≡ is_some self.now }
    {
        match self.to {
            Some(_) => true,
            None => false,
        }
    }

    /// The value that the key gets, if it gets one.
    pub(crate) fn value(&self) -> Option<&V>
        ensures { option_copied result ≡ self.now }
    {
        match self.to {
            Some(value) => Some(value),
            None => None,
        }
    }
}

/// A key that a write names, which isn't cloned, and what comes of it.
#[derive(Drop)]
pub(crate) struct Noted<'w, K, V> {
    key: &'w K,
    edit: Edit<'w, V>,
}

impl<'w, K, V> Model for Noted<'w, K, V> {
    ghost use Rattle.std.specs.Prelude.{Option};

    ghost Value = { K × Option V };

    ghost view = { λ n. (n.key.now, n.edit) };
}

impl<'w, K, V> Noted<'w, K, V> {
    /// The key gets this value, or has no pair.
    pub(crate) fn new(key: &'w K, to: Option<&'w V>) -> Self
        ensures { result ≡ (key.now, option_copied to.entry) }
    {
        Noted {
            key,
            edit: Edit::new(to),
        }
    }

    /// The key.
    #[inline(always)]
    fn key(&self) -> &'w K
        ensures { result.now ≡ self.now.0 }
    {
        self.key
    }

    /// How its key compares with another.
    #[inline(always)]
    fn compare(&self, key: &K) -> Ordering
    where
        K: Ord,
        ensures { result ≡ K.cmp self.now.0 key.now }
    {
        self.key.cmp(key)
    }

    /// What comes of it.
    #[inline(always)]
    fn edit(&self) -> &Edit<'w, V>
        ensures { result.now ≡ self.now.1 }
    {
        &self.edit
    }
}

/// Edits by rising keys, in a row.
#[derive(Drop)]
pub(crate) struct EditRow<'w, K: Ord, V> {
    noted: Vec<Noted<'w, K, V>>,
}

/// Invariant: the keys rise.
impl<'w, K: Ord, V> Model for EditRow<'w, K, V> {
    ghost use Rattle.std.specs.Prelude.{List, Option};
    ghost use Rattle.leaf_array.specs.Pairs.{IsAscending};

    ghost Value = { List (K × Option V) };

    ghost view = { λ r. r.noted.items };

    ghost invariant = { λ r. IsAscending K.cmp r.noted.items };
}

impl<'w, K: Ord, V> EditRow<'w, K, V> {
    /// None yet, with room for `count` of them in one allocation. Fails only if that fails.
    pub(crate) fn with_room(alloc: Global, count: usize) -> Result<Self, AllocError>
        ensures { IfOk result (λ row. row ≡ []) }
    {
        Ok(EditRow {
            noted: Vec::with_capacity(alloc, count)?,
        })
    }

    /// Those of a tree. Fails only if an allocation fails.
    pub(crate) fn listed<'v>(
        alloc: Global,
        tree: &'w TreeIndex<K, Edit<'v, V>>,
    ) -> Result<Self, AllocError>
        ensures { IfOk result (λ row. row ≡ tree.now.pairs) }
    {
        let mut noted = Vec::with_capacity(alloc, tree.len())?;
        let mut left = PairScan::new(tree);
        while let Some((key, edit)) = left.front() {
            noted.push(Noted::new(key, edit.value()))?;
            left.step();
        }
        Ok(EditRow { noted })
    }

    /// How many there are.
    pub(crate) fn len(&self) -> usize
        ensures count { result ≡ length self.now }
        ensures rising { IsAscending K.cmp self.now }
    {
        self.noted.len()
    }

    /// What comes of a key, if it is there.
    pub(crate) fn peek(&self, key: &K) -> Option<&Edit<'w, V>>
        ensures { option_copied result ≡ value_of_key K.cmp key.now self.now }
    {
        match self.place_of(key) {
            Ok(place) => Some(self.noted[place].edit()),
            Err(_) => None,
        }
    }

    /// Puts a key and what comes of it in, over what is there of the key. Fails only if an allocation fails.
    pub(crate) fn upsert(&mut self, noted: Noted<'w, K, V>) -> Result<(), AllocError>
        ensures { OnOk result (self.new ≡ upserted K.cmp noted.entry.0 noted.entry.1 self.old) }
    {
        match self.place_of(noted.key()) {
            Ok(place) => self.noted[place] = noted,
            Err(place) => self.noted.insert(place, noted)?,
        }
        Ok(())
    }

    /// Removes those whose keys lie within two bounds.
    pub(crate) fn remove_range(&mut self, lower: &Bound<K>, upper: &Bound<K>)
        ensures { self.new ≡ filter (λ p. not (range_contains K.cmp lower.now upper.now p.0)) self.old }
    {
        self.noted
            .retain(|noted| !is_within(lower, upper, noted.key()));
    }

    /// A walk along them.
    pub(crate) fn scan(&self) -> ChangeScan<'_, 'w, K, V>
        ensures { result ≡ self.now }
    {
        ChangeScan { left: &self.noted }
    }

    /// The place of a key, found by halving, or the place where it would be put in.
    fn place_of(&self, key: &K) -> Result<usize, usize>
        ensures found { IfOk result (IsFoundAt K.cmp key.now self.now) }
        ensures missing { IfErr result (IsMissingAt K.cmp key.now self.now) }
    {
        self.noted.binary_search_by(|noted| noted.compare(key))
    }
}

/// The edits of a row by rising keys, without those that were passed.
#[derive(Drop)]
pub(crate) struct ChangeScan<'t, 'w, K, V> {
    left: &'t [Noted<'w, K, V>],
}

impl<'t, 'w, K, V> Model for ChangeScan<'t, 'w, K, V> {
    ghost use Rattle.std.specs.Prelude.{List, Option};

    ghost Value = { List (K × Option V) };

    ghost view = { λ s. s.left.now };
}

impl<'t, 'w, K, V> ChangeScan<'t, 'w, K, V> {
    /// The same edits.
    pub(crate) fn copy(&self) -> Self
        ensures { result ≡ self.now }
    {
        ChangeScan { left: self.left }
    }

    /// How many are left.
    pub(crate) fn count(&self) -> usize
        ensures { result ≡ length self.now }
    {
        self.left.len()
    }

    /// The key of the first edit that is left.
    #[inline(always)]
    pub(crate) fn key(&self) -> Option<&'w K>
        ensures { option_copied result ≡ option_map (λ p. p.0) (slice_get self.now 0) }
    {
        match self.front() {
            Some((key, _)) => Some(key),
            None => None,
        }
    }

    /// The first edit that is left.
    #[inline(always)]
    pub(crate) fn front(&self) -> Option<(&'w K, &'t Edit<'w, V>)>
        ensures { deref_pair result ≡ slice_get self.now 0 }
    {
        match self.left.first() {
            Some(noted) => Some((noted.key(), noted.edit())),
            None => None,
        }
    }

    /// Passes the first edit that is left.
    #[inline(always)]
    pub(crate) fn step(&mut self)
        ensures { self.new ≡ drop 1 self.old }
    {
        let left = self.left;
        self.left = &left[left.len().min(1)..];
    }
}
