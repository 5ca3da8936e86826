//! Lists of older numbers, and histories that are cut behind commits.

use crate::scene::Numbers;
use local_index::SinceRefused::{Ahead, TooOld};
use local_index::{Accepted, Cause, PastRefused, Receipt, Refused, ScopedIndex, Write};
use std::alloc::{AllocError, Global};

pub(crate) type Scope = ScopedIndex<u64, u64, 2>;

const ROOM: &str = "memory";

// Makes a commit, behind which this many transactions are kept at least, or all.
fn commit(
    index: &mut Numbers,
    none: &Receipt<u64, u64>,
    writes: Vec<Write<u64, u64>>,
    kept: Option<u64>,
) -> Result<Accepted, Refused<u64, u64>> {
    match kept {
        Some(count) => index.commit_keeping(none, writes, count),
        None => index.commit(none, writes),
    }
}

/// Gives the key 1 the value, by such a commit of the same number, made again where memory was refused.
pub(crate) fn put(
    alloc: Global,
    index: &mut Numbers,
    value: u64,
    kept: Option<u64>,
    met: &mut bool,
) -> Result<bool, AllocError> {
    let writes = Vec::from_clones(alloc, &[Write::Upsert(1, value)])?;
    let none = Receipt::blank(alloc);
    match commit(index, &none, writes, kept) {
        Ok(accepted) => Ok(accepted.number == value),
        Err(Refused { cause, writes }) => {
            *met = true;
            Ok(cause == Cause::Memory && commit(index, &none, writes, kept).is_ok())
        }
    }
}

// The same of each value from the first to the last, where all transactions are kept.
fn put_all(
    alloc: Global,
    index: &mut Numbers,
    values: (u64, u64),
    met: &mut bool,
) -> Result<bool, AllocError> {
    let mut right = true;
    for value in values.0..=values.1 {
        right = put(alloc, index, value, None, met)? && right;
    }
    Ok(right)
}

// How many pairs the list of a number has, and the value of the key 1 there; or why there is no such list.
fn past(index: &Numbers, number: u64) -> Result<(usize, Option<u64>), PastRefused> {
    match index.past(number) {
        Ok(list) => Ok((list.len(), list.peek(&1).copied())),
        Err(refused) => Err(refused),
    }
}

// The list of the key 1 with this value.
fn one(value: u64) -> Result<(usize, Option<u64>), PastRefused> {
    Ok((1, Some(value)))
}

#[test]
fn older_lists_are_rebuilt(rt: HostRuntime) {
    let mut met = false;
    let mut scope = Scope::new(rt.alloc(), 1, 256).expect(&rt, ROOM);
    let index = &mut scope.index;
    assert!(rt; put_all(rt.alloc(), index, (1, 5), &mut met) == Ok(true));
    let before = [
        past(index, 0),
        past(index, 1),
        past(index, 3),
        past(index, 5),
    ];
    assert!(rt; before == [Ok((0, None)), one(1), one(3), one(5)]);
    assert!(rt; past(index, 6) == Err(PastRefused::Outside(Ahead(5))));
    assert!(rt; index.checkpoint(2).is_ok());
    let behind = [past(index, 2), past(index, 4), past(index, 5)];
    assert!(rt; past(index, 1) == Err(PastRefused::Outside(TooOld(2))));
    assert!(rt; behind == [one(2), one(4), one(5)]);
}

#[test]
fn a_history_is_cut_when_it_is_more_than_twice_as_long(rt: HostRuntime) {
    let mut met = false;
    let mut scope = Scope::new(rt.alloc(), 1, 256).expect(&rt, ROOM);
    let index = &mut scope.index;
    assert!(rt; put_all(rt.alloc(), index, (1, 4), &mut met) == Ok(true));
    assert!(rt; index.keep_last(2).is_ok() && index.base() == (0, &[][..]));
    assert!(rt; put(rt.alloc(), index, 5, None, &mut met) == Ok(true));
    assert!(rt; index.keep_last(u64::MAX).is_ok() && index.keep_last(3).is_ok());
    assert!(rt; index.base() == (0, &[][..]));
    assert!(rt; index.keep_last(2).is_ok() && index.base() == (3, &[(1, 3)][..]));
    assert!(rt; past(index, 4) == one(4));
    assert!(rt; past(index, 2) == Err(PastRefused::Outside(TooOld(3))));
    assert!(rt; index.keep_last(0).is_ok() && index.base() == (5, &[(1, 5)][..]));
}

// The number of the base after the first commit, the second, and so on, where two transactions are kept at least.
const BASES: &[u64] = &[0, 0, 0, 0, 3, 3, 3, 6, 6, 6, 9, 9];

#[test]
fn commits_keep_the_last_transactions(rt: HostRuntime) {
    let mut met = false;
    let mut scope = Scope::new(rt.alloc(), 1, 256).expect(&rt, ROOM);
    let index = &mut scope.index;
    let mut value = 0u64;
    for base in BASES {
        value = value.saturating_add(1);
        assert!(rt; put(rt.alloc(), index, value, Some(2), &mut met) == Ok(true));
        assert_eq!(rt; index.base().0, *base);
    }
    assert!(rt; past(index, 9) == one(9) && past(index, 12) == one(12));
}

// Whether a history of three transactions is cut, again where memory was refused; the base is then as it was.
fn is_cut(index: &mut Numbers, met: &mut bool) -> bool {
    if index.keep_last(1).is_ok() {
        return index.base() == (2, &[(1, 2)][..]);
    }
    *met = true;
    let kept = index.base() == (0, &[][..]);
    kept && index.keep_last(1).is_ok() && index.base() == (2, &[(1, 2)][..])
}

// Whether an older list is rebuilt, again where memory was refused.
fn is_rebuilt(index: &Numbers, met: &mut bool) -> bool {
    let list = past(index, 2);
    if list != Err(PastRefused::Memory) {
        return list == one(2);
    }
    *met = true;
    past(index, 2) == one(2)
}

/// Whether an older list is rebuilt, and a history cut by itself and behind commits, each again where memory was refused.
pub(crate) fn is_kept(alloc: Global, met: &mut bool) -> Result<bool, AllocError> {
    let mut scope = Scope::new(alloc, 1, 256)?;
    let index = &mut scope.index;
    let begun = put_all(alloc, index, (1, 3), met)?;
    let cut = is_rebuilt(index, met) && is_cut(index, met);
    let more = put_all(alloc, index, (4, 6), met)?;
    let kept = put(alloc, index, 7, Some(2), met)?;
    let right = begun && cut && more && kept;
    if index.base().0 == 5 {
        return Ok(right);
    }
    // a cut that is refused memory refuses no commit, and the next one cuts
    *met = true;
    let refused = index.base().0 == 2;
    let again = put(alloc, index, 8, Some(2), met)?;
    Ok(right && refused && again && index.base().0 == 6)
}
