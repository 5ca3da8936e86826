//! What the definitions of cuts promise. Nothing here runs.

ghost use Rattle.std.specs.Prelude.{ℕ, ◌+◌, ◌*◌, ◌/◌, ◌≤◌, List, length};
ghost use Rattle.version_views.specs.Cuts.{IsTight, pairs_in};
ghost use Rattle.local_versions.specs.Reclaiming.{PassesLeaveOne, SweepsLeaveNone};
ghost use Rattle.local_versions.specs.Staying.{VersionsStay};

/// The segments of a list are few, where two neighbours together hold more than `s` pairs.
pub fn segments_are_few<K, V>()
    ensures { (s : ℕ) (blocks : List (List (K × V))) → IsTight s blocks → length blocks ≤ 2 * (length (pairs_in blocks) / (s + 1)) + 1 }
{}

/// A version owns its segments while it is there. It stays whole while it has an owner, over every call; and one that has
/// an owner while a guard is open stays whole until that guard closes, whatever is published and reclaimed meanwhile.
pub fn versions_stay<K: Ord, V, const S: usize>()
    ensures { VersionsStay K V S K.cmp }
{}

/// What waits is reclaimed: where a root keeps the one owner that is outside, and items wait for one participant alone,
/// eight accelerated guards of that participant, opened and closed one by one where no other guard is open, leave the
/// version that the root names, its directory and its segments, and no other item.
pub fn passes_leave_one<K: Ord, V, const S: usize>()
    ensures { PassesLeaveOne K V S }
{}

/// What is left is reclaimed: where no owner is outside and no cell is in use, rotations after which nothing waits leave
/// no item, so the place can be closed.
pub fn sweeps_leave_none<K: Ord, V, const S: usize>()
    ensures { SweepsLeaveNone K V S }
{}
