//! Texts of words and refusals.

use sdd_world::status::{Cell, Status};
use sdd_world::{GuardsOpen, Nested, NoSlot, NotLent, Plain, Sizes, Tag};
use std::test::Fail;

const WRITTEN: &str = "NoSlot Nested GuardsOpen GuardsOpen NotSole, \
    Sizes { participants: 1, slots: 2, cells: 3, jobs: 4 }, \
    Shared(2) OfOwned(Some(1), First) Plain { value: 5 }";

#[test]
fn refusals_and_words_are_written_with_their_parts(rt: HostRuntime) -> Result<(), Fail> {
    let (full, deep, open) = (NoSlot, Nested, GuardsOpen);
    let (guarded, beside) = (NotLent::GuardsOpen, NotLent::NotSole);
    let sizes = Sizes {
        participants: 1,
        slots: 2,
        cells: 3,
        jobs: 4,
    };
    let (status, cell) = (Status::Shared(2), Cell::OfOwned(Some(1), Tag::First));
    let plain = Plain { value: 5u8 };
    let text = format!(in rt.alloc();
        "{full:?} {deep:?} {open:?} {guarded:?} {beside:?}, {sizes:?}, {status:?} {cell:?} {plain:?}"
    )?;
    assert_eq!(rt; text.as_str(), WRITTEN);
    Ok(())
}

const SAID: &str = "no slot, cell or job place is free; the place is as it was\
    |the participant has as many guards open as are counted; it has them still\
    |a guard is open; the place is as it was\
    |a guard is open; the item is as it was\
    |the item has other owners; it is as it was";

#[test]
fn refusals_say_what_stands_after_them(rt: HostRuntime) -> Result<(), Fail> {
    let (guarded, beside) = (NotLent::GuardsOpen, NotLent::NotSole);
    let text = format!(in rt.alloc(); "{NoSlot}|{Nested}|{GuardsOpen}|{guarded}|{beside}")?;
    assert_eq!(rt; text.as_str(), SAID);
    Ok(())
}
