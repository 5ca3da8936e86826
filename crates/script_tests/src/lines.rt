//! Lines and their replies, lines at fault, and what is written where a read or a write fails.

ghost use Rattle.std.specs.Prelude.{◌≡◌, ◌<◌, ◌+◌};

use crate::reads::{READS, READS_OUTPUT, REPLIES};
use crate::streams::{
    Fails, Row, fails_anywhere, falters_anywhere, is_cut_anywhere, output_of, read_from, text_of,
    write_what_is_wanted,
};
use index_script::line::LONGEST;
use index_script::reply::{LONGEST_FAULT, write_fault, write_reply};
use index_script::request::Fault::{
    self, Bound, Busy, Command, Long, Number, Session, Text, Words,
};
use index_script::run::{RunError, outcome, run};
use index_script::script::Script;
use local_index::{Accepted, Cause, DeskReply, Refused, Reply};
use std::alloc::Global;
use std::io;
use std::process::Abort;
use std::test::Fail;

// The last line has no LF.
const SECOND: &[u8] = b"insert 1 ten\ninsert 1 x\ncommit -\nopen 7\nget 7 1\nget 9 1\nclose 7";

const SECOND_OUTPUT: &str =
    "staged 1\nstaged 2\nok 1 inserted duplicate\nopen 7 at 1\nsome ten\nline 6: session\nclosed 7\n";

const SCRIPTS: &[Row] = &[
    // no input gives no output
    (b"", ""),
    // a script inserts, commits and reads
    (
        b"insert 1 ten\ncommit -\nopen 7\nget 7 1\nclose 7\n",
        "staged 1\nok 1 inserted\nopen 7 at 1\nsome ten\nclosed 7\n",
    ),
    // lines are numbered, bad ones too
    (
        b"x\n\ncommit -\nopen 1\nopen 1\nget 2 1\nclose 2",
        "line 1: command\nline 2: command\nok 1\nopen 1 at 1\nline 5: busy\nline 6: session\nline 7: session\n",
    ),
    // a session reads the list at its opening
    (
        b"open 1\ninsert 5 \xc3\xa9 x\ncommit 1\nget 1 5\nopen 2\nget 2 5\nopen 3\nopen 1\nclose 1\nopen 3\n",
        "open 1 at 0\nstaged 1\nok 1 inserted\nnone\nopen 2 at 1\nsome \u{e9} x\nnoplace\nline 8: busy\nclosed 1\nopen 3 at 1\n",
    ),
    // slots of former lists are reclaimed
    (
        b"slots\ncommit -\nreclaim\nslots\n",
        "slots 1\nok 1\nreclaimed\nslots 1\n",
    ),
    (
        b"insert 1 a\ncommit -\ninsert 2 b\ncommit -\nslots\nreclaim\nslots\n",
        "staged 1\nok 1 inserted\nstaged 1\nok 2 inserted\nslots 5\nreclaimed\nslots 2\n",
    ),
    // a session tells its number and its length
    (
        b"insert 1 a\ninsert 2 b\ncommit -\nopen 7\nclear\ncommit 7\nopen 8\nlen 7\nnumber 7\nlen 8\nnumber 8\nlen 9\nnumber 9\n",
        "staged 1\nstaged 2\nok 1 inserted inserted\nopen 7 at 1\nstaged 1\nok 2 cleared\nopen 8 at 2\nlen 2\nnumber 1\nlen 0\nnumber 2\nline 12: session\nline 13: session\n",
    ),
    // writes of each kind are staged
    (
        b"upsert 2 a b\nupsert 2 c\nremove 4\ncommit -\nopen 1\nget 1 2\nremove 2\ncommit 1\nclear\ncommit -\n",
        "staged 1\nstaged 2\nstaged 3\nok 1 upserted upserted absent\nopen 1 at 1\nsome c\nstaged 1\nok 2 removed\nstaged 1\nok 3 cleared\n",
    ),
    // an accepted commit takes the staged writes and no other
    (
        b"insert 1 a\ncommit 9\ninsert 2 b\ncommit -\ncommit -\ninsert 1 c\ncommit -\n",
        "staged 1\nline 2: session\nstaged 2\nok 1 inserted inserted\nok 2\nstaged 1\nok 3 duplicate\n",
    ),
];

#[test]
fn scripts_stage_commit_and_read(rt: HostRuntime) {
    write_what_is_wanted(&rt, rt.alloc(), SCRIPTS);
}

#[test]
fn the_cut_of_the_input_changes_nothing(rt: HostRuntime) {
    is_cut_anywhere(&rt, rt.alloc(), (SECOND, SECOND_OUTPUT));
    is_cut_anywhere(&rt, rt.alloc(), (READS, READS_OUTPUT));
}

#[test]
fn bytes_come_one_by_one(rt: HostRuntime) {
    let reader = Fails {
        input: SECOND,
        given: 0,
        at: usize::MAX,
        kind: io::ErrorKind::Other,
    };
    let (ended, out) = read_from(rt.alloc(), reader);
    assert_eq!(rt; (ended, text_of(&out)), (Ok(()), SECOND_OUTPUT));
}

const FAULTS: &[Row] = &[
    (b"\n", "line 1: command\n"),
    (b"upserts 1 a\n", "line 1: command\n"),
    (b"upsert\n", "line 1: words\n"),
    (b"upsert 1\n", "line 1: words\n"),
    (b"upsert x a\n", "line 1: number\n"),
    (b"upsert 1  a \n", "staged 1\n"),
    (b"remove\n", "line 1: words\n"),
    (b"remove 1 2\n", "line 1: words\n"),
    (b"remove x\n", "line 1: number\n"),
    (b"remove 1\n", "staged 1\n"),
    (b"clear\n", "staged 1\n"),
    (b"clear \n", "line 1: words\n"),
    (b"reclaim 1\n", "line 1: words\n"),
    (b"slots 1\n", "line 1: words\n"),
    (b"len\n", "line 1: words\n"),
    (b"len 7 1\n", "line 1: words\n"),
    (b"len x\n", "line 1: number\n"),
    (b"number 07\n", "line 1: number\n"),
    (b"number 7 \n", "line 1: words\n"),
    (b"checkpoint\n", "line 1: words\n"),
    (b"checkpoint 1 2\n", "line 1: words\n"),
    (b"checkpoint -\n", "line 1: number\n"),
    (b"checkpoint 00\n", "line 1: number\n"),
    (b"checkpoints 1\n", "line 1: command\n"),
    (b"checkpoint 0\n", "checkpoint 0\n"),
    (b"checkpoint 18446744073709551615\n", "ahead 0\n"),
    (b"checkpoint 18446744073709551616\n", "line 1: number\n"),
    (b" insert 1 a\n", "line 1: command\n"),
    (b"Insert 1 a\n", "line 1: command\n"),
    (b"commit -\r\n", "line 1: number\n"),
    (b"insert\n", "line 1: words\n"),
    (b"insert 1\n", "line 1: words\n"),
    (b"insert 1 \n", "staged 1\n"),
    (b"insert 1  a \n", "staged 1\n"),
    (b"insert  1 a\n", "line 1: number\n"),
    (b"commit\n", "line 1: words\n"),
    (b"commit \n", "line 1: number\n"),
    (b"commit - -\n", "line 1: words\n"),
    (b"commit 1\n", "line 1: session\n"),
    (b"open 7 \n", "line 1: words\n"),
    (b"open  7\n", "line 1: words\n"),
    (b"get 7\n", "line 1: words\n"),
    (b"get 7 1 2\n", "line 1: words\n"),
    (b"get x 1\n", "line 1: number\n"),
    (b"get 7 x\n", "line 1: number\n"),
    (b"close x\n", "line 1: number\n"),
    (b"open 007\n", "line 1: number\n"),
    (b"open +7\n", "line 1: number\n"),
    (b"open 0\n", "open 0 at 0\n"),
    (
        b"open 18446744073709551615\n",
        "open 18446744073709551615 at 0\n",
    ),
    (b"open 18446744073709551616\n", "line 1: number\n"),
    (b"insert 1 \xff\n", "line 1: text\n"),
    (b"open 1\r", "line 1: number\n"),
];

#[test]
fn lines_at_fault_are_told_and_counted(rt: HostRuntime) {
    write_what_is_wanted(&rt, rt.alloc(), FAULTS);
}

const EACH_FAULT: [Fault; 8] = [Long, Text, Command, Words, Number, Bound, Session, Busy];

#[test]
fn the_longest_reply_to_a_line_at_fault_has_35_bytes(rt: HostRuntime) -> Result<(), Fail> {
    let mut longest = 0;
    for fault in EACH_FAULT {
        let mut text = String::new(rt.alloc());
        write_fault(&mut text, u64::MAX, fault)?;
        longest = longest.max(text.len());
    }
    assert_eq!(rt; (longest, LONGEST_FAULT), (35, 35));
    Ok(())
}

// A script, and the text of its last reply.
struct Answering {
    script: Script<1>,
    text: String,
}

impl Answering {
    // A line has this reply. A text that grows would show that memory was taken.
    fn tells<R: Abort>(&mut self, rt: &R, line: Option<&[u8]>, reply: &str)
        requires { self.old.script.line < 10 }
        ensures { self.new.script.line ≡ self.old.script.line + 1 }
    {
        match self.script.act(line, &mut self.text) {
            Ok(()) => {
                assert!(rt; self.text.as_str() == reply && self.text.capacity() == LONGEST_FAULT);
            }
            Err(_) => panic!(rt; "memory was refused"),
        }
    }
}

#[test]
fn lines_at_fault_are_answered_in_the_memory_that_is_there(rt: HostRuntime) -> Result<(), Fail> {
    let text = String::with_capacity(rt.alloc(), LONGEST_FAULT)?;
    let script = Script::<1>::new(rt.alloc(), 1, 1)?;
    let mut answering = Answering { script, text };
    answering.tells(&rt, None, "line 1: long\n");
    answering.tells(&rt, Some(b"\xff"), "line 2: text\n");
    answering.tells(&rt, Some(b"other"), "line 3: command\n");
    answering.tells(&rt, Some(b"insert 1"), "line 4: words\n");
    answering.tells(&rt, Some(b"remove x"), "line 5: number\n");
    answering.tells(&rt, Some(b"get 7 1"), "line 6: session\n");
    answering.tells(&rt, Some(b"open 3"), "open 3 at 0\n");
    answering.tells(&rt, Some(b"open 3"), "line 8: busy\n");
    let Answering { script, text: _ } = answering;
    script.end();
    Ok(())
}

const FIVE: &[u8] =
    b"insert 1 a\ninsert 2 b\ninsert 3 c\ninsert 4 d\ninsert 5 e\ncommit -\ncommit -\nopen 1\n";

const FIVE_STAGED: &str = "staged 1\nstaged 2\nstaged 3\nstaged 4\nstaged 5\n";

// Slots, and what is answered then: five pairs take three segments of two pairs at most, and a directory.
const BY_SLOTS: [(usize, &str); 2] = [
    (4, "noslot\nnoslot\nopen 1 at 0\n"),
    (
        5,
        "ok 1 inserted inserted inserted inserted inserted\nnoslot\nopen 1 at 1\n",
    ),
];

#[test]
fn a_commit_without_slots_keeps_what_is_staged(rt: HostRuntime) {
    for (slots, told) in BY_SLOTS {
        let mut reader = FIVE;
        let mut out = Vec::new(rt.alloc());
        let ended = run::<2, _, _>(rt.alloc(), &mut reader, &mut out, 1, slots);
        assert_eq!(rt;
            (ended, text_of(&out).strip_prefix(FIVE_STAGED)),
            (Ok(()), Some(told))
        );
    }
}

const EACH_REPLY: &[Reply] = &[
    Reply::Inserted,
    Reply::Duplicate,
    Reply::Upserted,
    Reply::Removed,
    Reply::Absent,
    Reply::RangeRemoved,
    Reply::Cleared,
];

#[test]
fn each_reply_to_a_write_has_a_word(rt: HostRuntime) -> Result<(), Fail> {
    let replies = Vec::from_slice(rt.alloc(), EACH_REPLY)?;
    let accepted = DeskReply::Accepted(Accepted { number: 3, replies });
    let mut text = String::from_str(rt.alloc(), "before ")?;
    write_reply(&mut text, 1, 0, &accepted)?;
    assert_eq!(rt;
        text.as_str(),
        "before ok 3 inserted duplicate upserted removed absent deleted cleared\n"
    );
    Ok(())
}

const CAUSES: [(Cause, &str); 3] = [
    (Cause::Conflict(7), "conflict 7\n"),
    (Cause::Exhausted, "exhausted\n"),
    (Cause::NoSlot, "noslot\n"),
];

#[test]
fn each_cause_of_a_refusal_has_a_word(rt: HostRuntime) -> Result<(), Fail> {
    for (cause, told) in CAUSES {
        let writes = Vec::new(rt.alloc());
        let refused = DeskReply::Refused(Refused { cause, writes });
        let mut text = String::new(rt.alloc());
        write_reply(&mut text, 1, 0, &refused)?;
        assert_eq!(rt; text.as_str(), told);
    }
    Ok(())
}

// How many bytes the value of an insert has, and what is answered then, and to a commit behind it: with ten bytes more, the line
// is too long from the second one on.
const LONG: [(usize, &str); 3] = [
    (65_527, "staged 1\nok 1 inserted\n"),
    (65_528, "line 1: long\nok 1\n"),
    (300_000, "line 1: long\nok 1\n"),
];

#[test]
fn a_line_has_at_most_65_536_bytes(rt: HostRuntime) {
    for (value, told) in LONG {
        let value = Vec::from_elem(rt.alloc(), b'v', value).expect(&rt, "memory");
        let parts = [b"insert 1 ".as_slice(), value.as_slice(), b"\ncommit -\n"];
        let out = output_of(rt.alloc(), &parts).expect(&rt, "a run to its end");
        assert_eq!(rt; text_of(&out), told);
    }
    assert_eq!(rt; LONGEST, 65_536);
}

// How many bytes the reply to each line of the second script has.
const SECOND_REPLIES: &[usize] = &[9, 9, 24, 12, 9, 16, 9];

#[test]
fn a_failed_read_drops_the_begun_line(rt: HostRuntime) {
    let second = (SECOND, SECOND_OUTPUT);
    for kind in [io::ErrorKind::Other, io::ErrorKind::Interrupted] {
        fails_anywhere(&rt, rt.alloc(), second, SECOND_REPLIES, kind);
    }
    let reads = (READS, READS_OUTPUT);
    fails_anywhere(&rt, rt.alloc(), reads, REPLIES, io::ErrorKind::Other);
}

// Scripts, and whether a write fails, or takes nothing.
const FALTERS: &[(Row, bool)] = &[
    ((SECOND, SECOND_OUTPUT), false),
    ((SECOND, SECOND_OUTPUT), true),
    ((READS, READS_OUTPUT), true),
];

#[test]
fn a_failed_write_leaves_a_beginning_of_the_output(rt: HostRuntime) {
    for (row, is_error) in FALTERS {
        falters_anywhere(&rt, rt.alloc(), *row, *is_error);
    }
}

// How a run ended, its status, and its complaint.
const OUTCOMES: [(Result<(), RunError>, (u8, &str)); 4] = [
    (Ok(()), (0, "")),
    (Err(RunError::Read), (1, "index_run: read\n")),
    (Err(RunError::Write), (1, "index_run: write\n")),
    (Err(RunError::Memory), (2, "index_run: memory\n")),
];

#[test]
fn a_run_has_a_status_and_a_complaint(rt: HostRuntime) {
    for (ended, told) in OUTCOMES {
        assert_eq!(rt; outcome(&ended), told);
    }
}

const WORDS: [(RunError, &str); 3] = [
    (RunError::Read, "read"),
    (RunError::Write, "write"),
    (RunError::Memory, "memory"),
];

#[test]
fn errors_are_told_by_one_word(rt: HostRuntime) -> Result<(), Fail> {
    for (error, word) in WORDS {
        assert_eq!(rt; error.to_string(rt.alloc())?.as_str(), word);
    }
    Ok(())
}
