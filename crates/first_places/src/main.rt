//! An item in each kind of place: one that threads share, seen under a guard, and one of one thread.
#![tactic(auto)]

use sdd_base::{AtomicShared, Domain, Guard, NoJob, Shared, Sizes, World, world};
use std::alloc::{AllocError, Global};
use std::process::ExitCode;
use std::sync::Wait;

const SIZES: Sizes = Sizes {
    participants: 4,
    slots: 64,
    cells: 8,
    jobs: 0,
};

// What a guard sees of a cell that owns an item with this number. None where there was no room.
fn seen(domain: &Domain<u64>, number: u64) -> Option<u64> {
    let Ok(mut local) = domain.register() else {
        return None;
    };
    let mut found = None;
    if let Ok(owner) = Shared::new(domain, number, &mut local) {
        match AtomicShared::from(domain, owner, &mut local) {
            Ok(cell) => {
                if let Ok(guard) = Guard::new(domain, &mut local) {
                    let pointer = cell.load(domain, &guard, &mut local);
                    found = pointer.as_ref().copied(); // as long as the guard is borrowed
                    guard.close(domain, &mut local);
                }
                cell.retire(domain, &mut local); // it had the last owner: the item waits to be reclaimed
            }
            Err(owner) => {
                let _was_last = owner.release(domain, &mut local);
            }
        }
    }
    local.end(domain);
    found
}

// Waits until nobody is registered, and ends the place.
fn end<R: Wait>(rt: &R, mut domain: Domain<u64>) {
    for _ in rt.forever() {
        match domain.close() {
            Ok(()) => return,
            Err(back) => domain = back,
        }
    }
    unreachable!()
}

// The number again, by an item of a place of one thread, whose calls name the participant.
fn kept<R: Wait>(rt: &R, alloc: Global, number: u64) -> Result<Option<u64>, AllocError> {
    let mut w = World::<u64, NoJob>::new(alloc, SIZES)?;
    let found = match world::shared::new(&mut w, number) {
        Ok(owner) => {
            let found = *world::shared::as_ref(&w, &owner);
            let _was_last = world::shared::release(&mut w, owner, 0);
            Some(found)
        }
        Err(_) => None,
    };
    end_world(rt, w);
    Ok(found)
}

// Ends a place of one thread: at once, since no owner is out and no guard is open.
fn end_world<R: Wait>(rt: &R, mut w: World<u64, NoJob>) {
    for _ in rt.forever() {
        match w.close() {
            Ok(()) => return,
            Err(back) => w = back,
        }
    }
    unreachable!()
}

fn main(rt: HostRuntime) -> ExitCode {
    let Ok(domain) = Domain::new(rt.alloc(), SIZES) else {
        return ExitCode::FAILURE;
    };
    let shared = seen(&domain, 7);
    end(&rt, domain);
    let Ok(alone) = kept(&rt, rt.alloc(), 8) else {
        return ExitCode::FAILURE;
    };
    match println!(rt; "{shared:?} {alone:?}") {
        Ok(()) => ExitCode::SUCCESS,
        Err(_) => ExitCode::FAILURE,
    }
}
