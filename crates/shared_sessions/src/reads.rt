//! What a session answers from its list.

ghost use Rattle.std.specs.Prelude.{ℕ, ◌≡◌, ◌≤◌, ◌<◌, ◌+◌, ◌^◌, ◌++◌, ◌∷◌, [], IfOk, OnErr, length};
ghost use Rattle.std.specs.Option.{option_copied};
ghost use Rattle.leaf_array.specs.Pairs.{has_key, value_of_key};
ghost use Rattle.leaf_array.specs.Values.{ClonesAreSame};
ghost use Rattle.tree_index.specs.Cursor.{whole};
ghost use Rattle.tree_index.specs.Proximity.{IsLocated};
ghost use Rattle.tree_index.specs.declared.cursor.End.TheVariants.{Unopened};
ghost use Rattle.version_views.specs.Cuts.{pairs_in};
ghost use Rattle.version_views.specs.Nearby.{as_proximity};
ghost use Rattle.version_views.specs.Sizes.{segments_for};
ghost use Rattle.version_views.specs.Views.{cursor_within};
ghost use Rattle.serial_history.specs.Answers.{answer_to};
ghost use Rattle.serial_history.specs.Serial.{with_read};

use crate::session::SharedSession;
use serial_history::ordered_view::answer;
use serial_history::version_view::value_in_counted;
use serial_history::{Answer, Query};
use shared_versions::{Version, view_of};
use std::alloc::AllocError;
use std::ops::Bound;
use tree_index::Steps;
use version_views::{Nearby, VersionView, Walk};

/// A cursor over the list of a session, within two bounds or without any.
pub type SharedWalk<'a, K, V> = Walk<'a, K, V, Version<K, V>>;

/// Where a key is in the list of a session, with a cursor there.
pub type SharedNearby<'a, K, V> = Nearby<'a, K, V, Version<K, V>>;

impl<K: Clone + Ord, V: Clone + Eq, const S: usize> SharedSession<K, V, S> {
    /// The value of the pair with the key, as `BTreeMap::get` finds it. The read isn't recorded.
    pub fn get(&self, key: &K) -> Option<&V>
        ensures { option_copied result ≡ value_of_key K.cmp key.now self.now.list }
    {
        let mut steps = Steps::new();
        self.get_counted(key, &mut steps)
    }

    /// The same, with its comparisons of keys counted: at most thirty, and one more for each binary digit of
    /// the number of segments, in at most `2 * (n / (S + 1)) + 1` of which `n` pairs lie. An empty list makes none.
    pub fn get_counted(&self, key: &K, steps: &mut Steps) -> Option<&V>
        ensures value { option_copied result ≡ value_of_key K.cmp key.now self.now.list }
        ensures cost { (digits : ℕ) → segments_for S (length self.now.list) < 2 ^ digits → steps.new.count ≤ steps.old.count + 30 + digits }
        ensures raised { steps.old.count ≤ steps.new.count }
        ensures none { self.now.list ≡ [] → steps.new.count ≡ steps.old.count }
    {
        value_in_counted(&self.view(), key, steps)
    }

    /// Whether a pair has the key. The read isn't recorded.
    pub fn contains(&self, key: &K) -> bool
        ensures { result ≡ has_key K.cmp key.now self.now.list }
    {
        let mut steps = Steps::new();
        self.contains_counted(key, &mut steps)
    }

    /// The same, with its comparisons of keys counted: as many as those of
    /// [`get_counted`](SharedSession::get_counted) at most.
    pub fn contains_counted(&self, key: &K, steps: &mut Steps) -> bool
        ensures found { result ≡ has_key K.cmp key.now self.now.list }
        ensures cost { (digits : ℕ) → segments_for S (length self.now.list) < 2 ^ digits → steps.new.count ≤ steps.old.count + 30 + digits }
        ensures raised { steps.old.count ≤ steps.new.count }
        ensures none { self.now.list ≡ [] → steps.new.count ≡ steps.old.count }
    {
        self.get_counted(key, steps).is_some()
    }

    /// How many pairs the list has.
    pub fn len(&self) -> usize
        ensures { result ≡ length self.now.list }
    {
        self.view().len()
    }

    /// Where the key is in the list, with a cursor there (as `locate` of a `TreeIndex` gives it). The read isn't
    /// recorded.
    pub fn locate(&self, key: &K) -> SharedNearby<'_, K, V>
        ensures { IsLocated K.cmp key.now self.now.list (as_proximity result) }
    {
        self.view().locate(key)
    }

    /// A cursor over all pairs. What it gives isn't recorded.
    pub fn iter(&self) -> SharedWalk<'_, K, V>
        ensures { result ≡ whole self.now.list Unopened Unopened }
    {
        self.view().walk(Bound::Unbounded, Bound::Unbounded)
    }

    /// A cursor over the pairs within two bounds. What it gives isn't recorded.
    pub fn range<'a>(&'a self, lower: Bound<&'a K>, upper: Bound<&'a K>) -> SharedWalk<'a, K, V>
        ensures { result ≡ cursor_within self.now.list lower.entry upper.entry }
    {
        self.view().walk(lower, upper)
    }

    /// The answer to a query, which is also recorded as the last read of the receipt. Fails only if an allocation fails; then the
    /// receipt stays as it was.
    pub fn read(&mut self, query: Query<K>) -> Result<Answer<K, V>, AllocError>
        requires keys { ClonesAreSame K.is_clone }
        requires values { ClonesAreSame V.is_clone }
        ensures told { IfOk result (λ answer. answer ≡ answer_to K.cmp query self.old.list) }
        ensures recorded { IfOk result (λ answer. self.new ≡ record self.old { receipt = with_read query answer self.old.receipt }) }
        ensures refused { OnErr result (self.new ≡ self.old) }
    {
        let told = answer(self.alloc, &self.view(), &query)?;
        self.receipt.note(query, &told)?;
        Ok(told)
    }

    // The version that it reads.
    fn view(&self) -> VersionView<'_, K, V, Version<K, V>>
        ensures list { pairs_in result ≡ self.now.list }
        ensures few { length result ≤ segments_for S (length self.now.list) }
    {
        let version = self.session.version();
        version.laws();
        view_of(version)
    }
}
