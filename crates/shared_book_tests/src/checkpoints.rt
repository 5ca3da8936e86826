//! Checkpoints: a number's list becomes the base, in whose place the transactions up to it go.

use crate::table::on_books;
use index_rows::{CHECKPOINTS, CUT_AT_THE_LAST_NUMBER, FED};

#[test]
fn the_list_of_a_number_becomes_the_base(rt: HostRuntime) {
    on_books(&rt, rt.alloc(), CHECKPOINTS);
}

#[test]
fn a_book_tells_what_came_behind_a_number(rt: HostRuntime) {
    on_books(&rt, rt.alloc(), &[FED]);
}

#[test]
fn a_checkpoint_keeps_the_last_number(rt: HostRuntime) {
    on_books(&rt, rt.alloc(), &[CUT_AT_THE_LAST_NUMBER]);
}
