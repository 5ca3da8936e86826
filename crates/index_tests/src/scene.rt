//! An index of numbers and a desk that keeps its sessions.

ghost use Rattle.std.specs.Prelude.{◌≡◌, None, replicate, IfSome};
ghost use Rattle.version_views.specs.Sizes.{IsStoreSized};
ghost use Rattle.local_index.specs.Desk.{Serves};
ghost use Rattle.local_index.specs.State.{IsSessionOf};

use crate::table::{Call, Told, desk_call, is_told};
use index_rows::is_fed;
use local_index::{Desk, DeskCall, DeskReply, LocalIndex, Reading, Session, play_all, play_one};
use std::alloc::{AllocError, Global};
use std::process::Abort;

/// An index of numbers, with two pairs in a segment.
pub(crate) type Numbers = LocalIndex<u64, u64, 2>;

pub(crate) type Reader<'a> = Reading<'a, u64, u64, 2>;

/// What a look-up finds: the number and the length of a session's list, the value of a key there, and whether a pair has it.
pub(crate) type Seen = (u64, usize, Option<u64>, bool);

// A label under which the present list is looked at.
const LOOKOUT: u64 = u64::MAX;

pub(crate) struct Scene<const S: usize> {
    pub(crate) alloc: Global,
    /// Whether memory was refused.
    pub(crate) met: bool,
    pub(crate) index: LocalIndex<u64, u64, S>,
    pub(crate) desk: Desk<u64, u64>,
    ghost serves: { Serves (record { index = index; desk = desk }) },
}

// A new index, whose making is tried again where memory was refused.
fn index_of<R: Abort, const S: usize>(
    rt: &R,
    alloc: Global,
    sizes: (usize, usize, u64),
    met: &mut bool,
) -> LocalIndex<u64, u64, S>
    requires { IsStoreSized sizes.0 sizes.1 S }
    ensures { result.places ≡ replicate sizes.0 None }
{
    let (places, slots, last) = sizes;
    match LocalIndex::with_last(alloc, places, slots, last) {
        Ok(index) => index,
        Err(AllocError) => {
            *met = true;
            match LocalIndex::with_last(alloc, places, slots, last) {
                Ok(index) => index,
                Err(AllocError) => panic!(rt; "memory was refused twice"),
            }
        }
    }
}

// A desk for this many sessions, tried again likewise.
fn desk_of<R: Abort>(rt: &R, alloc: Global, places: usize, met: &mut bool) -> Desk<u64, u64>
    ensures { result ≡ replicate places None }
{
    match Desk::new(alloc, places) {
        Ok(desk) => desk,
        Err(AllocError) => {
            *met = true;
            match Desk::new(alloc, places) {
                Ok(desk) => desk,
                Err(AllocError) => panic!(rt; "memory was refused twice"),
            }
        }
    }
}

impl<const S: usize> Scene<S> {
    /// A new index with this many places and slots, up to a last number.
    pub(crate) fn new<R: Abort>(
        rt: &R,
        alloc: Global,
        places: usize,
        slots: usize,
        last: u64,
    ) -> Self {
        if places > 8 || slots == 0 || slots > 10_000 || S == 0 || S > 225 {
            panic!(rt; "a small index");
        }
        let mut met = false;
        let index = index_of(rt, alloc, (places, slots, last), &mut met);
        Scene::of(rt, alloc, index, (places, met))
    }

    /// An index that begins with the list of a number, with this many places and slots.
    pub(crate) fn holding<R: Abort>(
        rt: &R,
        alloc: Global,
        sizes: (usize, usize),
        number: u64,
        pairs: &[(u64, u64)],
    ) -> Self {
        let (places, slots) = sizes;
        if places > 8 || slots == 0 || slots > 10_000 || S == 0 || S > 225 {
            panic!(rt; "a small index");
        }
        let pairs = Vec::from_clones(alloc, pairs).expect(rt, "memory");
        match LocalIndex::from_base(alloc, number, pairs, places, slots) {
            Ok(index) => Scene::of(rt, alloc, index, (places, false)),
            Err(_) => panic!(rt; "memory is there, and room for the list"),
        }
    }

    /// An index with this many places, of which none has a session, and a desk for it. Memory may have been refused before.
    pub(crate) fn of<R: Abort>(
        rt: &R,
        alloc: Global,
        index: LocalIndex<u64, u64, S>,
        made: (usize, bool),
    ) -> Self
        requires { index.places ≡ replicate made.0 None }
    {
        let (places, refused) = made;
        let mut met = refused;
        let desk = desk_of(rt, alloc, places, &mut met);
        Scene {
            alloc,
            met,
            index,
            desk,
        }
    }

    /// Makes a call.
    pub(crate) fn reply(
        &mut self,
        call: DeskCall<u64, u64>,
    ) -> Result<DeskReply<u64, u64>, AllocError> {
        play_one(self.alloc, &mut self.index, &mut self.desk, call)
    }

    /// Makes calls, as one list of them.
    pub(crate) fn replies(
        &mut self,
        calls: Vec<DeskCall<u64, u64>>,
    ) -> Result<Vec<DeskReply<u64, u64>>, (Vec<DeskReply<u64, u64>>, AllocError)> {
        play_all(self.alloc, &mut self.index, &mut self.desk, calls)
    }

    /// The session with the label.
    pub(crate) fn session(&self, label: u64) -> Option<&Session<u64, u64>>
        ensures { IfSome result (λ session. IsSessionOf self.now.index session.now) }
    {
        match self.desk.session(label) {
            Some(session) => Some(session),
            None => None,
        }
    }

    /// What the session with the label finds of a key, by calls that aren't recorded.
    pub(crate) fn looked_up(&self, label: u64, key: u64) -> Option<Seen> {
        let Some(session) = self.session(label) else {
            return None;
        };
        let value = self.index.get(session, &key).copied();
        Some((
            self.index.number(session),
            self.index.len(session),
            value,
            self.index.contains(session, &key),
        ))
    }

    /// What the present list has at a key, by a session of its own, where a place is free.
    pub(crate) fn present(&mut self, key: u64) -> Option<Seen> {
        let _opened = self.reply(DeskCall::Open(LOOKOUT));
        let seen = self.looked_up(LOOKOUT, key);
        let _closed = self.reply(DeskCall::Close(LOOKOUT));
        seen
    }

    // Whether the present list has this number, and so many pairs, if that is asked.
    fn is_present(&mut self, number: u64, pairs: Option<usize>) -> bool {
        match self.present(0) {
            Some((present, len, _, _)) => present == number && len == pairs.unwrap_or(len),
            None => false,
        }
    }

    // Makes rounds of a reclaim, and returns whether so many slots are in use then, if that is asked.
    fn goes_round(&mut self, count: u64, told: Told) -> bool {
        for _ in 0..count {
            self.index.reclaim_once();
        }
        match told {
            Told::Slots(used) => self.index.slots_in_use() == used,
            Told::Done => true,
            _ => false,
        }
    }

    fn is_played(&mut self, call: Call, told: Told) -> Result<bool, AllocError> {
        let made = desk_call(self.alloc, call)?;
        let reply = self.reply(made)?;
        is_told(self.alloc, &reply, call, told)
    }

    /// Makes a call, and returns whether it answers what is wanted. Where memory is refused, it doesn't.
    pub(crate) fn answers(&mut self, call: Call, told: Told) -> bool {
        match (call, told) {
            (Call::Look(label, key), Told::Seen(number, len, value)) => {
                self.looked_up(label, key) == Some((number, len, value, value.is_some()))
            }
            (Call::Rounds(count), _) => self.goes_round(count, told),
            (Call::Counts, Told::Counted(number, pairs)) => self.is_present(number, Some(pairs)),
            (Call::Numbers, Told::Numbered(first, last)) => {
                self.index.base().0 == first && self.is_present(last, None)
            }
            (Call::Base, Told::Based(number, pairs)) => self.index.base() == (number, pairs),
            (Call::Since(number), Told::Fed(entries)) => match self.index.since(number) {
                Ok(fed) => is_fed(&fed, entries),
                Err(_) => false,
            },
            (Call::Since(number), Told::Unfed(why)) => self.index.since(number) == Err(why),
            _ => self.is_played(call, told).unwrap_or(false),
        }
    }

    /// Ends the index, with the sessions that the desk keeps; there are no others.
    pub(crate) fn end<R: Abort>(self, rt: &R) {
        let Scene {
            alloc: _,
            met: _,
            mut index,
            desk,
        } = self;
        desk.end(&mut index);
        match index.close() {
            Ok(()) => {}
            Err(_open) => panic!(rt; "a session is open"),
        }
    }
}
