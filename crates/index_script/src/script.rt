//! A script's index, desk and staged writes.

ghost use Rattle.std.specs.Prelude.{◌≡◌, ◌+◌, ◌<◌, ◌^◌, [], ℕ, List, IfOk, OnOk};
ghost use Rattle.std.specs.Option.{option_copied};
ghost use Rattle.std.specs.String.{string_bytes};
ghost use Rattle.std.specs.Ordering.{nat_cmp};
ghost use Rattle.local_index.specs.Desk.{Step, CommitStep};
ghost use Rattle.version_views.specs.Sizes.{IsStoreSized};
ghost use Rattle.local_index.specs.State.{HasNoSession};
ghost use Rattle.index_script.specs.Lines.{kept};
ghost use Rattle.index_script.specs.Inside.{IsNoCommit, writes_given_back};
ghost use Rattle.index_script.specs.Script.{Script, ActsOnLine, Discards, Meets, Plays, Stages, fresh_script};

use crate::reply::{write_discarded, write_fault, write_reply, write_staged};
use crate::request::{Request, read_line};
use local_index::{Desk, DeskCall, DeskReply, LocalIndex, ReadSet, Text, Write, play_one};
use std::alloc::{AllocError, Global};
use std::marker::Model;
use std::mem;

/// What the lines of a script act on: an index, the sessions that they opened, by label, and the
/// writes that they staged. It must be consumed by [`end`](Script::end).
pub struct Script<const S: usize> {
    alloc: Global,
    index: LocalIndex<u64, Text, S>,
    desk: Desk<u64, Text>,
    staged: Vec<Write<u64, Text>>,
    line: u64,
}

/// Invariant: `local_index`'s specs/Desk.antt, Serves and KeepsAll: each session of the desk is open, and each open one is
/// at the desk.
impl<const S: usize> Model for Script<S> {
    ghost use Rattle.local_index.specs.Desk.{Serves, KeepsAll};
    ghost use Rattle.index_script.specs.Script.{Script};

    ghost Value = { Script };

    ghost view = { λ s. record { machine = record { index = s.index; desk = s.desk }; staged = s.staged.items; line = s.line } };

    ghost invariant = { λ s. Serves (record { index = s.index; desk = s.desk }) × KeepsAll (record { index = s.index; desk = s.desk }) };
}

impl<const S: usize> Script<S> {
    /// A script before its first line, on an empty index. Fails only if an allocation fails.
    pub fn new(alloc: Global, places: usize, slots: usize) -> Result<Self, AllocError>
        requires { IsStoreSized places slots S }
        ensures { IfOk result (λ script. script ≡ fresh_script places slots) }
    {
        let index = LocalIndex::new(alloc, places, slots)?;
        match Desk::new(alloc, places) {
            Ok(desk) => Ok(Script {
                alloc,
                index,
                desk,
                staged: Vec::new(alloc),
                line: 0,
            }),
            Err(refused) => {
                end_index(index);
                Err(refused)
            }
        }
    }

    /// Acts on the next line, given by its bytes, or by none where it is longer than it may be, and
    /// leaves its reply as the text. Fails only if an allocation fails; a line at fault allocates nothing
    /// if the text has room for [`LONGEST_FAULT`](crate::reply::LONGEST_FAULT) bytes.
    pub fn act(&mut self, line: Option<&[u8]>, text: &mut String) -> Result<(), AllocError>
        requires { self.old.line + 1 < 2 ^ 64 }
        ensures ok { OnOk result ((whole : List ℕ) → option_copied line.entry ≡ kept whole → ActsOnLine S self.old whole (string_bytes text.new) self.new) }
        ensures counted { OnOk result (self.new.line ≡ self.old.line + 1) }
    {
        text.clear();
        let request = read_line(self.alloc, line)?;
        self.line += 1;
        self.meet(request, text)
    }

    /// Closes what the script opened, and ends its index.
    pub fn end(self) {
        let Script {
            alloc: _,
            mut index,
            desk,
            staged: _,
            line: _,
        } = self;
        desk.end(&mut index);
        end_index(index);
    }

    // Does what a line asks for.
    fn meet(&mut self, request: Request, text: &mut String) -> Result<(), AllocError>
        requires { string_bytes text.old ≡ [] }
        ensures ok { OnOk result (Meets S self.old request (string_bytes text.new) self.new) }
        ensures line { self.new.line ≡ self.old.line }
    {
        match request {
            Request::Insert(key, value) => self.stage(Write::Insert(key, value), text),
            Request::Upsert(key, value) => self.stage(Write::Upsert(key, value), text),
            Request::Remove(key) => self.stage(Write::Remove(key), text),
            Request::Delete(lower, upper) => self.stage(Write::RemoveRange(lower, upper), text),
            Request::Clear => self.stage(Write::Clear, text),
            Request::Discard => self.discard(text),
            Request::Commit(None) => self.commit(ReadSet::Empty, text),
            Request::Commit(Some(label)) => self.commit(ReadSet::Session(label), text),
            Request::Open(label) => self.call(label, DeskCall::Open(label), text),
            Request::Get(label, key) => self.call(label, DeskCall::Get(label, key), text),
            Request::Has(label, key) => self.call(label, DeskCall::Contains(label, key), text),
            Request::Range(label, lower, upper) => {
                self.call(label, DeskCall::Range(label, lower, upper), text)
            }
            Request::Near(label, key) => self.call(label, DeskCall::Locate(label, key), text),
            Request::Audit(label) => self.call(
                label,
                DeskCall::Audit(ReadSet::Session(label)),
                text,
            ),
            Request::Close(label) => self.call(label, DeskCall::Close(label), text),
            Request::Len(label) => self.call(label, DeskCall::Len(label), text),
            Request::Number(label) => self.call(label, DeskCall::Number(label), text),
            Request::Reclaim => self.call(0, DeskCall::Reclaim, text),
            Request::Slots => self.call(0, DeskCall::Slots, text),
            Request::Checkpoint(upto) => self.call(0, DeskCall::Checkpoint(upto), text),
            Request::Faulty(fault) => write_fault(text, self.line, fault),
        }
    }

    fn stage(&mut self, write: Write<u64, Text>, text: &mut String) -> Result<(), AllocError>
        requires { string_bytes text.old ≡ [] }
        ensures ok { OnOk result (Stages self.old write (string_bytes text.new) self.new) }
        ensures line { self.new.line ≡ self.old.line }
    {
        self.staged.push(write)?;
        write_staged(text, self.staged.len())
    }

    fn discard(&mut self, text: &mut String) -> Result<(), AllocError>
        requires { string_bytes text.old ≡ [] }
        ensures ok { OnOk result (Discards self.old (string_bytes text.new) self.new) }
        ensures line { self.new.line ≡ self.old.line }
    {
        write_discarded(text, self.staged.len())?;
        self.staged.clear();
        Ok(())
    }

    // Makes a call that isn't a commit.
    fn call(
        &mut self,
        label: u64,
        call: DeskCall<u64, Text>,
        text: &mut String,
    ) -> Result<(), AllocError>
        requires call { IsNoCommit call }
        requires empty { string_bytes text.old ≡ [] }
        ensures ok { OnOk result (Plays self.old label (Step nat_cmp S self.old.machine call) (string_bytes text.new) self.new) }
        ensures line { self.new.line ≡ self.old.line }
    {
        let reply = self.play(call)?;
        write_reply(text, self.line, label, &reply)?;
        Ok(())
    }

    // Commits what is staged.
    fn commit(&mut self, on: ReadSet<u64, Text>, text: &mut String) -> Result<(), AllocError>
        requires { string_bytes text.old ≡ [] }
        ensures ok { OnOk result (Plays self.old 0 (CommitStep nat_cmp S self.old.machine on self.old.staged) (string_bytes text.new) self.new) }
        ensures line { self.new.line ≡ self.old.line }
    {
        let writes = mem::replace(&mut self.staged, Vec::new(self.alloc));
        let reply = self.play(DeskCall::Commit(on, writes))?;
        write_reply(text, self.line, 0, &reply)?;
        self.take_back(reply);
        Ok(())
    }

    // Makes one call.
    fn play(&mut self, call: DeskCall<u64, Text>) -> Result<DeskReply<u64, Text>, AllocError>
        ensures step { IfOk result (λ reply. Step nat_cmp S self.old.machine call reply self.new.machine) }
        ensures staged { self.new.staged ≡ self.old.staged }
        ensures line { self.new.line ≡ self.old.line }
    {
        play_one(self.alloc, &mut self.index, &mut self.desk, call)
    }

    // Stages again what a refused commit gives back.
    fn take_back(&mut self, reply: DeskReply<u64, Text>)
        ensures machine { self.new.machine ≡ self.old.machine }
        ensures staged { self.new.staged ≡ writes_given_back reply self.old.staged }
        ensures line { self.new.line ≡ self.old.line }
    {
        match reply {
            DeskReply::Refused(refused) => self.staged = refused.writes,
            DeskReply::NoSession(writes) => self.staged = writes,
            _ => {}
        }
    }
}

// Ends an index without sessions.
fn end_index<const S: usize>(index: LocalIndex<u64, Text, S>)
    requires { HasNoSession index }
{
    match index.close() {
        Ok(()) => {}
        Err(_index) => unreachable!(),
    }
}
