//! Commits of a book, one after the other.

use crate::table::on_books;
use index_rows::COMMITS;

#[test]
fn each_write_is_told_what_it_did_and_read_by_the_next_commit(rt: HostRuntime) {
    on_books(&rt, rt.alloc(), COMMITS);
}
