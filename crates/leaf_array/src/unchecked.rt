//! Insertions and removals for a caller that knows already where a pair belongs.

ghost use Rattle.std.specs.Prelude.{◌≡◌, ◌≢◌, ◌<◌, ◌≤◌, ◌+◌, ◌++◌, ◌∷◌, ◌&&◌, [], not, true, false, cond, length, take, drop};
ghost use Rattle.leaf_array.specs.Cells.{slot_of, rank_in, lesser, array_has_key, is_nil, standing, array_extended, array_inserted, appended, removed_at};
ghost use Rattle.leaf_array.specs.Pairs.{IsAscending};
ghost use Rattle.leaf_array.specs.Values.{ClonesAreSame};
ghost use Rattle.leaf_array.specs.Words.{word};
ghost use Rattle.leaf_array.specs.declared.result.RemoveResult.TheVariants.{Success, Retired};

use crate::array::Array;
use crate::result::RemoveResult;
use leaf_slots::slot_of;

impl<K: Ord, V> Array<K, V> {
    /// The bitmap place that a new pair with this key would take, and the word that the array would have then. No array with a pair is retired.
    pub fn insert_dry(&self, key: &K) -> (u8, usize)
        requires { self.now.used < 15 }
        ensures place { result.0 ≡ self.now.used }
        ensures word { (val : V) → result.1 ≡ word (array_inserted K.cmp key.now val self.now) }
    {
        let at = self.lower_bound(key).0;
        (self.used(), self.word_beside(at))
    }

    /// Inserts a new pair at a bitmap place, and gives its slot.
    ///
    /// Place and word are those that [`Array::insert_dry`] gives now. In a frozen array whose
    /// reachable keys are all less, the word may be 0: then the new pair's rank is one above its
    /// bitmap place. A retired array takes the pair, and is retired no more.
    pub fn insert_unchecked(&mut self, key: K, val: V, place: u8, metadata: usize) -> u8
        requires room { self.old.used < 15 }
        requires absent { array_has_key K.cmp key self.old ≡ false }
        requires place { place ≡ self.old.used }
        requires dry { metadata ≢ 0 → metadata ≡ word (array_inserted K.cmp key val self.old) }
        requires last { metadata ≡ 0 → (self.old.frozen ≡ true) × (lesser K.cmp key self.old.pairs ≡ length self.old.pairs) }
        ensures slot { result ≡ slot_of place }
        ensures inserted { metadata ≢ 0 → self.new ≡ array_inserted K.cmp key val self.old }
        ensures appended { metadata ≡ 0 → self.new ≡ appended key val self.old }
    {
        if metadata == 0 {
            self.append(key, val);
        } else {
            let at = self.lower_bound(&key).0;
            self.place(at, key, val);
        }
        slot_of(place)
    }

    /// Inserts a new pair behind all others, without a search. A retired array takes it, and is retired no more.
    pub fn push_last(&mut self, key: K, val: V)
        requires room { self.old.used < 15 }
        requires last { lesser K.cmp key self.old.pairs ≡ length self.old.pairs }
        ensures cells { self.new ≡ array_inserted K.cmp key val self.old }
        ensures pairs { self.new.pairs ≡ self.old.pairs ++ (key, val) ∷ [] }
    {
        let at = self.len();
        self.place(at, key, val);
    }

    /// Appends clones of `count` pairs of another array, from the one at `from` on, without a search. Answers how many:
    /// fewer if an allocation fails. All used places have reachable pairs.
    pub fn extend_last(&mut self, source: &Self, from: usize, count: usize) -> usize
    where
        K: Clone + Drop,
        V: Clone + Drop,
        requires keys { ClonesAreSame K.is_clone }
        requires values { ClonesAreSame V.is_clone }
        requires living { self.old.retired ≡ false }
        requires packed { self.old.used ≡ length self.old.pairs }
        requires room { self.old.used + count ≤ 15 }
        requires within { from + count ≤ length source.now.pairs }
        requires rising { IsAscending K.cmp (self.old.pairs ++ take count (drop from source.now.pairs)) }
        ensures most { result ≤ count }
        ensures cells { self.new ≡ array_extended K.cmp (take result (drop from source.now.pairs)) self.old }
        ensures pairs { self.new.pairs ≡ self.old.pairs ++ take result (drop from source.now.pairs) }
        ensures used { self.new.used ≡ self.old.used + result }
        ensures frozen { self.new.frozen ≡ self.old.frozen }
    {
        let _ = source.len();
        let at = usize::from(self.len);
        let done = self.slots.extend(at, &source.slots, from, count);
        self.len += done as u8;
        self.used += done as u8;
        done
    }

    /// Removes the reachable pair in a slot, of a frozen array too.
    ///
    /// An array that isn't frozen and so loses its last pair retires.
    pub fn remove_unchecked(&mut self, slot: u8) -> RemoveResult
        requires { 0 < rank_in slot self.old.labels }
        ensures removed { self.new ≡ removed_at (standing slot self.old.labels) self.old }
        ensures last { result ≡ cond (is_nil self.new.pairs && not self.new.frozen) Retired Success }
    {
        let at = self.position(slot);
        self.bury(at);
        if self.is_empty() && !self.is_frozen() {
            RemoveResult::Retired
        } else {
            RemoveResult::Success
        }
    }
}
