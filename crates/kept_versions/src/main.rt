//! Versions of a list in a place of one thread: a reader keeps the version that it opened, while a write publishes another.
#![tactic(auto)]

ghost use Rattle.std.specs.Prelude.{◌<◌, ◌-◌, ◌^◌};

use std::alloc::{AllocError, Global};
use std::process::ExitCode;
use versions::Write;
use versions::world::{LocalStore, LocalView};

type Store = LocalStore<u64, u64, 64>;

// The value of key 1 in a version.
fn value(version: &LocalView<'_, u64, u64, 64>) -> Option<u64> {
    match version.get(&1) {
        Some((_, value)) => Some(*value),
        None => None,
    }
}

// What a reader that opened before a write finds, and what the present version has. None where the write was refused.
fn before_and_after(alloc: Global, store: &mut Store) -> Option<(Option<u64>, Option<u64>)>
    requires { store.old.present.number < 2 ^ 64 - 1 }
{
    let _place = store.open()?; // keeps version 1
    let written = store.write(alloc, &[Write::Upsert(1, 20)]);
    let before = match store.latest_at(1) {
        Some((_number, version)) => value(&version),
        None => None,
    };
    let after = value(&store.present());
    match written {
        Ok(_replies) => Some((before, after)),
        Err(_) => None,
    }
}

fn both(alloc: Global) -> Result<Option<(Option<u64>, Option<u64>)>, AllocError> {
    let mut store = Store::new(alloc, 4, 256)?; // 4 readers at a time, 256 slots
    let found = match store.write(alloc, &[Write::Insert(1, 10)]) {
        Ok(_replies) => before_and_after(alloc, &mut store),
        Err(_) => None,
    };
    store.close_all(); // so the version that nobody reads any more can be reclaimed
    store.reclaim();
    store.end();
    Ok(found)
}

fn main(rt: HostRuntime) -> ExitCode {
    match both(rt.alloc()) {
        Ok(Some((before, after))) => match println!(rt; "{before:?} before, {after:?} after") {
            Ok(()) => ExitCode::SUCCESS,
            Err(_) => ExitCode::FAILURE,
        },
        _ => ExitCode::FAILURE,
    }
}
