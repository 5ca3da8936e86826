//! One item that a participant has leased: its parts of it, one of which is lent to the life of its open guards.

ghost use Rattle.std.specs.Prelude.{◌≡◌, ◌+◌, ◌-◌, ◌^◌, ◌<◌, ◌≤◌, IsSome, IsNone};
ghost use Rattle.std.specs.Option.{ForNone, ForSome};

use crate::board::Stored;
use parted::{Ended, Lent, Life, One, Part};

/// An item that is leased.
pub struct Row<T> {
    pub slot: usize,
    /// One part, by which open guards read the item.
    pub lent: Lent<Stored<T>>,
    /// The participant's other parts of it.
    pub rest: Option<Part<Stored<T>>>,
    /// How many parts these are together.
    pub count: u64,
    ghost low: { slot < 2 ^ 32 },
    ghost one: { (lent.pledge.count ≡ 1) × IsSome lent.seen.value },
    ghost alone: { ForNone rest (count ≡ 1) },
    ghost others: { ForSome rest (λ p. (p.life.id ≡ lent.pledge.id) × (p.life.count + 1 ≡ count) × (0 < p.life.count)) },
    ghost seen: { ForSome rest (λ p. IsSome p.seen.value) },
    ghost small: { count ≤ 2 ^ 63 },
}

/// There are no other parts.
fn none_there<T>(rest: Option<Part<T>>)
    requires { IsNone rest }
{
    match rest {
        Some(_) => unreachable!(),
        None => {}
    }
}

impl<T> Row<T> {
    ghost use Rattle.domain_table.specs.Leases.{row_told};

    /// The row of the item in `slot`, of which these are the participant's parts, `count` of them.
    pub(crate) fn new(slot: usize, parts: Part<Stored<T>>, count: u64, life: &Life) -> Row<T>
        requires low { slot < 2 ^ 32 }
        requires parts { (parts.life.count ≡ count) × (0 < count) × (count ≤ 2 ^ 63) × IsSome parts.seen.value }
        ensures { row_told result ≡ (slot, parts.life.id, count, life.now.id) }
    {
        let mut one = parts;
        let rest = if count > 1 {
            Some(one.split(count - 1))
        } else {
            None
        };
        Row {
            slot,
            lent: one.lend(life),
            rest,
            count,
        }
    }

    /// Puts an owner's part to these.
    pub(crate) fn take_in(&mut self, owner: One<Stored<T>>)
        requires { (owner.part.life.id ≡ self.old.lent.pledge.id) × (self.old.count < 2 ^ 63) × IsSome owner.part.seen.value }
        ensures { row_told self.new ≡ (self.old.slot, self.old.lent.pledge.id, self.old.count + 1, self.old.lent.pledge.until) }
    {
        let part = owner.into_part();
        let all = match self.rest.take() {
            Some(mut rest) => {
                rest.join(part);
                rest
            }
            None => part,
        };
        none_there(self.rest.replace(all));
        self.count += 1;
    }

    /// Takes one of the parts for an owner.
    pub(crate) fn give_one(&mut self) -> One<Stored<T>>
        requires { 1 < self.old.count }
        ensures row { row_told self.new ≡ (self.old.slot, self.old.lent.pledge.id, self.old.count - 1, self.old.lent.pledge.until) }
        ensures part { result.part.life.id ≡ self.old.lent.pledge.id }
        ensures there { IsSome result.part.seen.value }
    {
        let Some(mut rest) = self.rest.take() else {
            unreachable!()
        };
        self.count -= 1;
        if self.count == 1 {
            return One::from_part(rest);
        }
        let one = rest.split_one();
        none_there(self.rest.replace(rest));
        One::from_part(one)
    }

    /// All the parts, once the life is over.
    pub(crate) fn into_parts(self, ended: &Ended) -> Part<Stored<T>>
        requires { ended.now.id ≡ self.lent.pledge.until }
        ensures { (result.life.id ≡ self.lent.pledge.id) × (result.life.count ≡ self.count) × (0 < self.count) × IsSome result.seen.value }
    {
        let Row {
            slot: _,
            lent,
            rest,
            count: _,
        } = self;
        let mut all = lent.recover(ended);
        if let Some(others) = rest {
            all.join(others);
        }
        all
    }
}
