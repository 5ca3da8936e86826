//! A state of many participants, cells and items, and the texts of its parts.

use crate::common::{Move, Row, plays, started, takes};
use sdd_steps::{Cell, ItemState};
use std::test::Fail;

const MANY: usize = 1_000;

const LAST: usize = MANY / 4 - 1;

const AT_THE_ENDS: &[Row] = &[
    Row::Sizes(MANY, MANY, MANY / 4),
    Row::Does(&[
        Move::SwapCell(LAST, 0, Some(LAST)),
        Move::ReadEpoch(MANY - 1),
        Move::Publish(MANY - 1),
        Move::LoadCell(MANY - 1, 0),
    ]),
    Row::Cell(0, None, Some(LAST)),
    Row::Refuses(&[
        Move::LoadCell(MANY - 1, MANY),
        Move::ReadEpoch(MANY),
        Move::Release(0, MANY),
    ]),
];

#[test]
fn a_state_of_many_parts_takes_steps(rt: HostRuntime) {
    let mut state = started(&rt, rt.alloc(), MANY, MANY);
    let mut placed = true;
    for p in 0..=LAST {
        placed = takes(
            &rt,
            rt.alloc(),
            &mut state,
            &[Move::Place(p, 7, None, None)],
        ) && placed;
    }
    assert!(rt; placed);
    plays(&rt, rt.alloc(), state, AT_THE_ENDS);
}

#[test]
fn parts_are_written_by_their_names(rt: HostRuntime) -> Result<(), Fail> {
    let alloc = rt.alloc();
    let state = ItemState::Retired(1, 2);
    let cell = Cell {
        holder: None,
        names: Some(3),
    };
    let text = format!(in alloc; "{state:?} {cell:?}")?;
    assert_eq!(rt;
        text.as_str(),
        "Retired(1, 2) Cell { holder: None, names: Some(3) }"
    );
    Ok(())
}
