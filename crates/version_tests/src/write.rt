//! Writes and replies as values.

use local_versions::{Reply, Write};
use std::alloc::{AllocError, Global};
use std::fmt;
use std::ops::Bound;
use std::process::Abort;
use std::test::Fail;

// Whether a value is printed like this.
fn prints<T: fmt::Debug>(alloc: Global, value: &T, wanted: &str) -> Result<bool, AllocError> {
    Ok(format!(in alloc; "{value:?}")?.as_str() == wanted)
}

#[test]
fn writes_and_replies_are_cloned_compared_and_printed(rt: HostRuntime) -> Result<(), Fail> {
    let alloc = rt.alloc();
    let write: Write<u64, u64> = Write::RemoveRange(Bound::Included(1), Bound::Unbounded);
    let compared = write.clone()? == write && write != Write::Clear;
    let range = prints(alloc, &write, "RemoveRange(Included(1), Unbounded)")?;
    let insert: Write<u64, u64> = Write::Insert(1, 10);
    let pair = prints(alloc, &insert, "Insert(1, 10)")?;
    let replies = [Reply::Inserted, Reply::Duplicate];
    let list = prints(alloc, &replies, "[Inserted, Duplicate]")?;
    assert_eq!(rt; [compared, range, pair, list], [true; 4]);
    Ok(())
}
