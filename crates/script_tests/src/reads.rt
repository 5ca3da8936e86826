//! Scripts that read and record, delete, discard and audit.

use crate::streams::{Row, output_of, text_of, write_what_is_wanted};
use index_script::reply::write_reply;
use local_index::{Audit, DeskReply};
use std::test::Fail;

// Sessions that read ranges and neighbours, a commit that conflicts, and lines at fault.
pub(crate) const READS: &[u8] =
    b"upsert 2 a b\nupsert 4 c\ncommit -\nopen 1\nrange 1 !2 *\nnear 1 3\nremove 4\ncommit -\nremove 9\ncommit 1\ndiscard\naudit 1\nlen 1\nopen 1\nget 1 007\nrange 1 2 *\n";

pub(crate) const READS_OUTPUT: &str =
    "staged 1\nstaged 2\nok 1 upserted upserted\nopen 1 at 1\npairs 1\n4 c\nbetween\n2 a b\n4 c\nstaged 1\nok 2 removed\nstaged 1\nconflict 0\ndiscarded 1\naudit yes\nlen 2\nline 14: busy\nline 15: number\nline 16: bound\n";

// How many bytes the reply to each line has.
pub(crate) const REPLIES: &[usize] = &[9, 9, 23, 12, 12, 18, 9, 13, 9, 11, 12, 10, 6, 14, 16, 15];

const SCRIPTS: &[Row] = &[
    // a script reads, conflicts and audits
    (READS, READS_OUTPUT),
    // the list of number 2 becomes the base, while a session reads that of number 1
    (
        b"upsert 1 a\ncommit -\nopen 5\nupsert 1 b\ncommit -\ncheckpoint 3\ncheckpoint 2\ncheckpoint 1\nget 5 1\naudit 5\ncommit 5\ncheckpoint x\n",
        "staged 1\nok 1 upserted\nopen 5 at 1\nstaged 1\nok 2 upserted\nahead 2\ncheckpoint 2\nbehind 2\nsome a\naudit old\nconflict 0\nline 12: number\n",
    ),
    (
        b"upsert 1 a\ncommit -\ncheckpoint 1\ncheckpoint 1\nopen 5\nget 5 1\naudit 5\nslots\ncommit 5\ncheckpoint 2\naudit 5\n",
        "staged 1\nok 1 upserted\ncheckpoint 1\ncheckpoint 1\nopen 5 at 1\nsome a\naudit yes\nslots 3\nok 2\ncheckpoint 2\naudit old\n",
    ),
    // a key is there or not
    (
        b"insert 1 a\ncommit -\nopen 7\nhas 7 1\nhas 7 2\nhas 9 1\n",
        "staged 1\nok 1 inserted\nopen 7 at 1\nyes\nno\nline 6: session\n",
    ),
    // the nearest pairs are told by rising keys
    (
        b"open 0\nnear 0 4\nupsert 3 x\nupsert 5 y z\ncommit -\nopen 1\nnear 1 3\nnear 1 4\nnear 1 9\nnear 1 0\nnear 0 3\n",
        "open 0 at 0\nempty\nstaged 1\nstaged 2\nok 1 upserted upserted\nopen 1 at 1\nexact\n3 x\nbetween\n3 x\n5 y z\nsmaller\n5 y z\nlarger\n3 x\nempty\n",
    ),
    // a deletion leaves the pairs outside its bounds
    (
        b"insert 1 a\ninsert 2 b\ninsert 3 c\ninsert 4 d\ncommit -\ndelete =2 !4\ndelete =4 =1\ncommit -\nopen 7\nrange 7 * *\ndelete * *\ncommit -\nopen 8\nlen 8\n",
        "staged 1\nstaged 2\nstaged 3\nstaged 4\nok 1 inserted inserted inserted inserted\nstaged 1\nstaged 2\nok 2 deleted deleted\nopen 7 at 2\npairs 2\n1 a\n4 d\nstaged 1\nok 3 deleted\nopen 8 at 3\nlen 0\n",
    ),
    // a commit conflicts with the first read that no longer holds
    (
        b"open 1\nget 1 5\nhas 1 6\nrange 1 =6 *\nnear 1 6\nupsert 5 a\ncommit 1\nget 1 5\ncommit 1\n",
        "open 1 at 0\nnone\nno\npairs 0\nempty\nstaged 1\nok 1 upserted\nnone\nconflict 0\n",
    ),
    (
        b"open 1\nget 1 5\nhas 1 6\nrange 1 * *\nnear 1 6\nupsert 6 a\ncommit -\ncommit 1\nopen 2\nnear 2 6\nupsert 6 b\ncommit -\nremove 6\ncommit 2\n",
        "open 1 at 0\nnone\nno\npairs 0\nempty\nstaged 1\nok 1 upserted\nconflict 1\nopen 2 at 1\nexact\n6 a\nstaged 1\nok 2 upserted\nstaged 1\nconflict 0\n",
    ),
    // a read that holds again is no conflict
    (
        b"upsert 1 a\ncommit -\nopen 7\nget 7 1\nget 9 2\nupsert 1 b\ncommit -\nupsert 1 a\ncommit -\nupsert 2 c\ncommit 7\n",
        "staged 1\nok 1 upserted\nopen 7 at 1\nsome a\nline 5: session\nstaged 1\nok 2 upserted\nstaged 1\nok 3 upserted\nstaged 1\nok 4 upserted\n",
    ),
    // what is discarded is not committed
    (
        b"discard\ninsert 1 a\ndelete * *\ndiscard\ncommit -\ninsert 1 b\ncommit -\ndiscard\n",
        "discarded 0\nstaged 1\nstaged 2\ndiscarded 2\nok 1\nstaged 1\nok 2 inserted\ndiscarded 0\n",
    ),
    // a session audits what it read
    (
        b"open 7\naudit 7\nget 7 1\nhas 7 1\nrange 7 * *\nnear 7 1\ninsert 1 a\ncommit 7\naudit 7\naudit 9\nclose 7\naudit 7\n",
        "open 7 at 0\naudit yes\nnone\nno\npairs 0\nempty\nstaged 1\nok 1 inserted\naudit yes\nline 10: session\nclosed 7\nline 12: session\n",
    ),
];

#[test]
fn scripts_read_delete_discard_and_audit(rt: HostRuntime) {
    write_what_is_wanted(&rt, rt.alloc(), SCRIPTS);
}

// Inserts three pairs, and asks for a range of them.
const ASKS: &[u8] = b"insert 2 b\ninsert 1 a\ninsert 3 c\ncommit -\nopen 7\nrange 7 ";

const BEFORE: &str = "staged 1\nstaged 2\nstaged 3\nok 1 inserted inserted inserted\nopen 7 at 1\n";

// Bounds, and what is answered of the range.
const RANGES: [Row; 8] = [
    (b"* *", "pairs 3\n1 a\n2 b\n3 c\n"),
    (b"=2 =2", "pairs 1\n2 b\n"),
    (b"!1 !3", "pairs 1\n2 b\n"),
    (b"=3 =1", "pairs 0\n"),
    (b"* !2", "pairs 1\n1 a\n"),
    (b"=2 *", "pairs 2\n2 b\n3 c\n"),
    (b"!3 *", "pairs 0\n"),
    (b"!1 =18446744073709551615", "pairs 2\n2 b\n3 c\n"),
];

#[test]
fn a_range_has_the_pairs_within_its_bounds(rt: HostRuntime) {
    for (bounds, told) in RANGES {
        let out = output_of(rt.alloc(), &[ASKS, bounds]).expect(&rt, "a run to its end");
        assert_eq!(rt;
            text_of(&out).strip_prefix(BEFORE),
            Some(told),
            "{bounds:?}"
        );
    }
}

// No script meets the second and the third of them.
const FINDINGS: [(Audit, &str); 3] = [
    (Audit::Yes, "audit yes\n"),
    (Audit::No(12), "audit no 12\n"),
    (Audit::Unknown, "audit unknown\n"),
];

#[test]
fn each_finding_of_an_audit_has_a_text(rt: HostRuntime) -> Result<(), Fail> {
    for (found, told) in FINDINGS {
        let reply = DeskReply::Audit(found);
        let mut text = String::new(rt.alloc());
        write_reply(&mut text, 1, 7, &reply)?;
        assert_eq!(rt; text.as_str(), told);
    }
    Ok(())
}

const ARGUMENTS: &[Row] = &[
    (b"range\n", "line 1: words\n"),
    (b"range 1 *\n", "line 1: words\n"),
    (b"range 1 * * *\n", "line 1: words\n"),
    (b"range x 2 *\n", "line 1: number\n"),
    (b"range * * *\n", "line 1: number\n"),
    (b"range 1 2 x\n", "line 1: bound\n"),
    (b"range 1 = *\n", "line 1: bound\n"),
    (b"range 1 * !01\n", "line 1: bound\n"),
    (b"range 1 ** *\n", "line 1: bound\n"),
    (b"range 1  *\n", "line 1: bound\n"),
    (b"range 1 =1 !2\n", "line 1: session\n"),
    (b"delete\n", "line 1: words\n"),
    (b"delete *\n", "line 1: words\n"),
    (b"delete * * *\n", "line 1: words\n"),
    (b"delete 1 2\n", "line 1: bound\n"),
    (b"delete * \n", "line 1: bound\n"),
    (b"delete * =x\n", "line 1: bound\n"),
    (b"delete =+1 *\n", "line 1: bound\n"),
    (b"delete =!1 *\n", "line 1: bound\n"),
    (b"delete =18446744073709551616 *\n", "line 1: bound\n"),
    (b"delete =18446744073709551615 !0\n", "staged 1\n"),
    (b"discard 1\n", "line 1: words\n"),
    (b"discard \n", "line 1: words\n"),
    (b"audit\n", "line 1: words\n"),
    (b"audit 1 2\n", "line 1: words\n"),
    (b"audit -\n", "line 1: number\n"),
    (b"audit 1\n", "line 1: session\n"),
    (b"has 1\n", "line 1: words\n"),
    (b"has 1 2 3\n", "line 1: words\n"),
    (b"has x y\n", "line 1: number\n"),
    (b"has 1 2\n", "line 1: session\n"),
    (b"near\n", "line 1: words\n"),
    (b"near 1 =2\n", "line 1: number\n"),
    (b"near 1 2\n", "line 1: session\n"),
    (b"nears 1 2\n", "line 1: command\n"),
];

#[test]
fn arguments_are_read_from_left_to_right(rt: HostRuntime) {
    write_what_is_wanted(&rt, rt.alloc(), ARGUMENTS);
}
