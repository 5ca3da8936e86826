//! Plays tables of steps.

use crate::stage::Stage;
use crate::steps::{Part, Row, Table};
use sdd_world::Deferred;
use std::alloc::Global;
use std::process::Abort;

/// How many rows have been played, and the number of the first that found something else.
#[derive(Drop)]
struct Count {
    played: usize,
    wrong: Option<usize>,
}

const NONE: Count = Count {
    played: 0,
    wrong: None,
};

fn rows<R: Abort, J: Deferred>(stage: &mut Stage<'_, R, J>, rows: &[Row], count: &mut Count) {
    for (at, step, wanted) in rows {
        if stage.step(*at, *step) != *wanted && count.wrong.is_none() {
            count.wrong = Some(count.played);
        }
        count.played = count.played.saturating_add(1);
    }
}

/// Whether each row is right.
pub(crate) fn are_right<R: Abort, J: Deferred>(stage: &mut Stage<'_, R, J>, each: &[Row]) -> bool {
    let mut count = NONE;
    rows(stage, each, &mut count);
    count.wrong.is_none()
}

/// Plays a table in a new place: the number of the first row that isn't right.
fn play<R: Abort, J: Deferred>(stage: Stage<'_, R, J>, parts: &[Part]) -> Option<usize> {
    let mut stage = stage;
    let mut count = NONE;
    for part in parts {
        match part {
            Part::Once(each) => rows(&mut stage, each, &mut count),
            Part::Times(number, each) => {
                for _ in 0..*number {
                    rows(&mut stage, each, &mut count);
                }
            }
            Part::HandBack => stage = stage.handed_back(),
        }
    }
    stage.end();
    count.wrong
}

/// Plays tables, of which each row is right.
pub(crate) fn plays<R: Abort, J: Deferred>(rt: &R, alloc: Global, tables: &[Table]) {
    for table in tables {
        let wrong = play(Stage::<'_, R, J>::new(rt, alloc, table.sizes), table.parts);
        let about = table.about;
        assert_eq!(rt; wrong, None, "{about}");
    }
}
