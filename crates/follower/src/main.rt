//! A follower: an index that begins with the base of another one, and follows its feed of transactions.
#![tactic(auto)]

mod follower;

use follower::{Failure, Prices, Scope, begin, follow, put, show};
use ordered_index::ScopedIndex;
use std::alloc::Global;

fn tour<R: Print>(rt: &R, alloc: Global, leader: &mut Prices) -> Result<(), Failure> {
    put(alloc, leader, 1, 100)?;
    put(alloc, leader, 2, 250)?;
    leader.checkpoint(2)?; // what came before is no part of the feed
    put(alloc, leader, 1, 120)?;
    let mut scope: Scope = begin(alloc, leader)?;
    let made = follow(rt, alloc, leader, &mut scope.index)?;
    println!(rt; "followed {made}")?;
    put(alloc, leader, 3, 75)?;
    put(alloc, leader, 2, 240)?;
    let made = follow(rt, alloc, leader, &mut scope.index)?;
    println!(rt; "followed {made}")?;
    show(rt, "leader", leader)?;
    show(rt, "follower", &mut scope.index)
}

fn main(rt: HostRuntime) -> Result<(), Failure> {
    let mut scope = ScopedIndex::new(rt.alloc(), 4, 1024)?;
    tour(&rt, rt.alloc(), &mut scope.index)
}
