//! Shares of an index, which count the accepted commits that were made with them.

ghost use Rattle.std.specs.Prelude.{◌≡◌, ◌<◌, ◌≤◌, ◌+◌, ◌-◌, ◌^◌, ◌∷◌, ◌++◌, [], length, replicate, vec_capacity, IfNone, IfSome};
ghost use Rattle.std.specs.List.{sum};

use crate::naming::Naming;
use std::marker::Model;
use std::sync::ledger;

/// A share of an index. Who has it commits, and it counts the accepted commits that were made with it. The first share of an
/// index that begins with a list counts those before it, too: it begins at the number of the list.
///
/// Contracts see that count. A share must be consumed by [`SharedIndex::close`](crate::SharedIndex::close) or
/// [`Book::end`](crate::Book::end), with all others.
pub struct Share<L: Naming> {
    count: u64,
    mark: ledger::Share<L>,
}

/// Invariant: it is one part of the ledger, in which its count is the amount.
impl<L: Naming> Model for Share<L> {
    ghost use Rattle.std.specs.Prelude.{◌≡◌, ℕ};

    ghost Value = { ℕ };

    ghost view = { λ s. s.count };

    ghost invariant = { λ s. (s.mark.parts ≡ 1) × (s.mark.amount ≡ s.count) };
}

impl<L: Naming> Share<L> {
    /// How many accepted commits were made with it. The first share of an index that began with a list counts that list's
    /// number, too.
    pub fn count(&self) -> u64
        ensures { result ≡ self.now }
    {
        self.count
    }

    /// Counts an accepted commit, here and in the book.
    pub(crate) fn raise(&mut self, book: &mut ledger::Book<L>)
        requires { book.old.total < 2 ^ 64 - 1 }
        ensures count { self.new ≡ self.old + 1 }
        ensures total { book.new.total ≡ book.old.total + 1 }
    {
        let Share { count, mark } = self;
        book.audit(mark);
        book.add(mark, 1);
        *count += 1;
    }

    /// Cuts one part off a mark without an amount.
    fn cut_one(mark: &mut ledger::Share<L>) -> Self
        requires parts { 0 < mark.old.parts }
        requires amount { mark.old.amount ≡ 0 }
        ensures none { result ≡ 0 }
        ensures parts { mark.new.parts + 1 ≡ mark.old.parts }
        ensures amount { mark.new.amount ≡ 0 }
    {
        Share {
            count: 0,
            mark: mark.split_off(1, 0),
        }
    }

    /// Puts it to others, in one mark.
    fn merge_into(self, all: &mut ledger::Share<L>)
        ensures parts { all.new.parts ≡ all.old.parts + 1 }
        ensures amount { all.new.amount ≡ all.old.amount + self }
    {
        let Share { count: _, mark } = self;
        all.merge(mark);
    }
}

/// Cuts a mark into as many shares as it has parts, behind others, where room was made for them.
pub(crate) fn cut<L: Naming>(
    mark: ledger::Share<L>,
    count: usize,
    mut room: Vec<Share<L>>,
) -> Vec<Share<L>>
    requires parts { mark.parts ≡ count }
    requires amount { mark.amount ≡ 0 }
    requires fits { length room.items + count ≤ vec_capacity room }
    ensures { result.items ≡ room.items ++ replicate count 0 }
{
    let mut mark = mark;
    for _i in 0..count {
        room.push_reserved(Share::cut_one(&mut mark));
    }
    room
}

/// Cuts a mark into as many shares as it has parts, at least one, where room was made for them. The first counts a number, here
/// and in the book, and the others nothing.
pub(crate) fn cut_counting<L: Naming>(
    book: &mut ledger::Book<L>,
    mut mark: ledger::Share<L>,
    count: usize,
    number: u64,
    mut room: Vec<Share<L>>,
) -> Vec<Share<L>>
    requires parts { mark.parts ≡ count }
    requires some { 0 < count }
    requires amount { mark.amount ≡ 0 }
    requires empty { room.items ≡ [] }
    requires fits { count ≤ vec_capacity room }
    ensures shares { result.items ≡ number ∷ replicate (count - 1) 0 }
    ensures total { book.new.total ≡ book.old.total + number }
{
    book.add(&mut mark, number);
    let first = Share {
        count: number,
        mark: mark.split_off(1, number),
    };
    room.push_reserved(first);
    cut(mark, count - 1, room)
}

/// Puts shares to others, in one mark.
fn merge_all<L: Naming>(mut shares: Vec<Share<L>>, all: &mut ledger::Share<L>)
    ensures parts { all.new.parts ≡ all.old.parts + length shares.items }
    ensures amount { all.new.amount ≡ all.old.amount + sum shares.items }
{
    while let Some(share) = shares.pop() {
        share.merge_into(all);
    }
    shares.destroy_empty();
}

/// Ends shares of a ledger that ends.
pub(crate) fn end_all<L: Naming>(mut shares: Vec<Share<L>>) {
    while let Some(share) = shares.pop() {
        let Share { count: _, mark: _ } = share;
    }
    shares.destroy_empty();
}

/// Puts all shares together, in one mark. None where there is none.
pub(crate) fn merged<L: Naming>(shares: Vec<Share<L>>) -> Option<ledger::Share<L>>
    ensures none { IfNone result (shares.items ≡ []) }
    ensures parts { IfSome result (λ all. all.parts ≡ length shares.items) }
    ensures amount { IfSome result (λ all. all.amount ≡ sum shares.items) }
{
    let mut shares = shares;
    let Some(Share { count: _, mark }) = shares.pop() else {
        shares.destroy_empty();
        return None;
    };
    let mut all = mark;
    merge_all(shares, &mut all);
    Some(all)
}
