//! How many guards reclaim what nobody has.

ghost use Rattle.std.specs.Prelude.{◌≡◌, ℕ, List, Option, length};
ghost use Rattle.sdd_world.specs.Passing.{passed_times};
ghost use Rattle.version_views.specs.Items.{held_by};
ghost use Rattle.local_versions.specs.Store.{IsStore};
ghost use Rattle.local_versions.specs.declared.store.readers.Opened.{Opened};

use sdd_world::job::NoJob;
use sdd_world::world::{World, guard};
use version_views::Item;

/// How many accelerated guards of the writer reclaim a version that nobody has, and its segments: four for each level.
/// That eight suffice is the law [`passes_leave_one`](crate::passes_leave_one).
pub(crate) const PASSES: usize = 8;

/// Opens and closes a number of accelerated guards of the writer of a store.
pub(crate) fn run_passes<K: Ord + Drop, V: Drop, const S: usize>(
    w: &mut World<Item<K, V, S>, NoJob>,
    writer: usize,
    passes: usize,
)
    requires { (root : ℕ) × (readers : List (Option (Opened K V S))) × IsStore K.cmp w.old root readers × (writer ≡ length readers) }
    ensures { w.new ≡ passed_times held_by writer passes w.old }
{
    for _ in 0..passes {
        match guard::new(w, writer) {
            Ok(guard) => {
                guard::accelerate(w, &guard);
                guard::close(w, guard);
            },
            Err(_) => unreachable!(),
        }
    }
}
