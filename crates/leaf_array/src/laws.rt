//! What the definitions of lists and writes promise of each other.

ghost use Rattle.std.specs.Prelude.{◌≡◌, List, Some};
ghost use Rattle.std.specs.BTreeMap.{is_at};
ghost use Rattle.std.specs.Map.{lookup, lookup_entry, remove_entry};
ghost use Rattle.std.specs.Option.{is_some, option_map};
ghost use Rattle.leaf_array.specs.Edits.{removed, upserted, EnteringIsInserting, ExchangingIsUpserting};
ghost use Rattle.leaf_array.specs.Pairs.{IsAscending, has_key, value_of_key};

/// An ascending list stays ascending when a pair is put at its place, so also where an insert adds
/// one.
pub fn replacing_keeps_ascending<K: Ord, V>()
    ensures { (key : K) (value : V) (pairs : List (K × V)) → IsAscending K.cmp pairs → IsAscending K.cmp (upserted K.cmp key value pairs) }
{}

/// An ascending list stays ascending when a key is removed.
pub fn removing_keeps_ascending<K: Ord, V>()
    ensures { (key : K) (pairs : List (K × V)) → IsAscending K.cmp pairs → IsAscending K.cmp (removed K.cmp key pairs) }
{}

/// A pair that was put at its place is what its key finds.
pub fn upserting_is_found<K: Ord, V>()
    ensures { (key : K) (value : V) (pairs : List (K × V)) → value_of_key K.cmp key (upserted K.cmp key value pairs) ≡ Some value }
{}

/// An entry put into an ascending list that doesn't have its key, in the words of std's maps, is an insert.
pub fn entering_is_inserting<K: Ord, V>()
    ensures { EnteringIsInserting V K.cmp }
{}

/// An entry put into an ascending list in the place of any with its key is an upsert.
pub fn exchanging_is_upserting<K: Ord, V>()
    ensures { ExchangingIsUpserting V K.cmp }
{}

/// An entry taken out of an ascending list is a removal.
pub fn taking_out_is_removing<K: Ord, V>()
    ensures { (key : K) (pairs : List (K × V)) → IsAscending K.cmp pairs → remove_entry (is_at (K.cmp key)) pairs ≡ removed K.cmp key pairs }
{}

/// A list has a key if and only if std's look-up finds something, and its value is that of the entry found.
pub fn finding_is_looking_up<K: Ord, V>()
    ensures has { (key : K) (pairs : List (K × V)) → has_key K.cmp key pairs ≡ is_some (lookup (is_at (K.cmp key)) pairs) }
    ensures value { (key : K) (pairs : List (K × V)) → value_of_key K.cmp key pairs ≡ option_map (λ e. e.1) (lookup_entry (is_at (K.cmp key)) pairs) }
{}
