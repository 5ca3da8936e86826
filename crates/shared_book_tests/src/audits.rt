//! Audits of receipts, of the present list and of older ones.

use crate::table::on_books;
use index_rows::AUDITS;

#[test]
fn receipts_are_audited_by_their_numbers_and_each_kind_of_read(rt: HostRuntime) {
    on_books(&rt, rt.alloc(), AUDITS);
}
