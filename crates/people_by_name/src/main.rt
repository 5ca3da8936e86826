//! People by number, and by name too: two orders in one index, by keys that say which order they belong to.
#![tactic(auto)]

mod people;

use ordered_index::ScopedIndex;
use people::{Failure, People, add, find, rename};
use std::alloc::Global;

fn tour<R: Print>(rt: &R, alloc: Global, people: &mut People) -> Result<(), Failure> {
    for (number, name) in [(1u64, "Noether"), (2, "Hopper"), (3, "Noether")] {
        add(alloc, people, number, name)?;
    }
    find(rt, alloc, people, "Noether")?;
    let renamed = rename(alloc, people, 3, "Lovelace")?;
    println!(rt; "renamed: {renamed}")?;
    find(rt, alloc, people, "Noether")?;
    find(rt, alloc, people, "Lovelace")
}

fn main(rt: HostRuntime) -> Result<(), Failure> {
    let mut scope = ScopedIndex::new(rt.alloc(), 4, 1024)?;
    tour(&rt, rt.alloc(), &mut scope.index)
}
