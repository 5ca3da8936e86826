//! A place with two participants and what they hold, who play steps that are data.

ghost use Rattle.std.specs.Prelude.{◌≡◌, IfSome};
ghost use Rattle.std.specs.Option.{ForSome};
ghost use Rattle.sdd_domain.specs.Tokens.{place_of, home_of, hand_of, own_of};
ghost use Rattle.domain_tests.specs.Steps.{IsHome, Rests, Stays, IsOpen, IsOurs, IsMine, IsInside};

use crate::cells::{read, reclaim_all};
use crate::collectors::{collected, handed_over};
use crate::crowd::{Work, four};
use crate::domain::member;
use crate::guard::{pass, passes, raised};
use crate::hands::{self, Hand, told};
use crate::steps::{Act, Found, Task};
use crate::threads::Scene;
use sdd_domain::atomic_shared::AtomicShared;
use sdd_domain::domain::Domain;
use sdd_domain::guard::Guard;
use sdd_domain::local::Local;
use sdd_domain::pointer::Ptr;
use sdd_domain::private_collector::PrivateCollector;
use sdd_domain::refusal::RegisterRefused;
use sdd_domain::shared::Shared;
use std::mem;
use std::process::Abort;
use std::thread::Threads;

/// Ends a participant, if there is one.
fn ended(domain: &Domain<u64>, other: Option<Local<u64>>)
    requires { ForSome other (λ l. Rests domain.now l) }
{
    if let Some(local) = other {
        local.end(domain);
    }
}

/// A participant that rested, if there is one.
fn acting(domain: &Domain<u64>, other: Option<Local<u64>>) -> Option<Local<u64>>
    requires { ForSome other (λ l. Rests domain.now l) }
    ensures { IfSome result (λ l. IsHome domain.now l × ((own_of l).nesting ≡ 0)) }
{
    match other {
        Some(local) => Some(local),
        None => None,
    }
}

/// A participant that is to rest.
fn resting(domain: &Domain<u64>, local: Local<u64>) -> Option<Local<u64>>
    requires home { IsHome domain.now local }
    requires closed { (own_of local).nesting ≡ 0 }
    ensures { ForSome result (λ l. Rests domain.now l) }
{
    Some(local)
}

/// How often threads do what they are to do with this cell and this owner; 0 if one finds something wrong.
fn crowded<R: Threads + Sync>(
    rt: &R,
    domain: &Domain<u64>,
    cell: &Option<AtomicShared<u64>>,
    hand: &Hand,
    tasks: [Task; 4],
) -> u32
    requires { IsInside domain.now cell.now }
{
    let lent = hands::lent(hand);
    let work = Work::Items(Scene { domain, cell, lent });
    four(rt, &work, tasks).unwrap_or(0)
}

/// A participant that acts, one beside it, three places for owners, and two for cells.
pub(crate) struct Stage<'d> {
    pub(crate) domain: &'d Domain<u64>,
    pub(crate) here: Local<u64>,
    there: Option<Local<u64>>,
    pub(crate) hand: Option<Shared<u64>>,
    second: Option<Shared<u64>>,
    third: Option<Shared<u64>>,
    pub(crate) cell: Option<AtomicShared<u64>>,
    pub(crate) spare: Option<AtomicShared<u64>>,
    collector: Option<PrivateCollector>,
    /// How often threads did what they were to do when that was done last.
    pub(crate) sum: u32,
    ghost home: { IsHome domain.now here },
    ghost rests: { ForSome there (λ l. Rests domain.now l) },
    ghost first: { IsOurs domain.now hand },
    ghost middle: { IsOurs domain.now second },
    ghost last: { IsOurs domain.now third },
    ghost inside: { IsInside domain.now cell },
    ghost spared: { IsInside domain.now spare },
    ghost collects: { IsMine domain.now collector },
}

impl<'d> Stage<'d> {
    /// A participant of the place, which has one that is free.
    pub(crate) fn new<R: Abort>(rt: &R, domain: &'d Domain<u64>) -> Self
        ensures { (own_of result.here).nesting ≡ 0 }
    {
        Stage {
            domain,
            here: member(rt, domain),
            there: None,
            hand: None,
            second: None,
            third: None,
            cell: None,
            spare: None,
            collector: None,
            sum: 0,
        }
    }

    /// Has this owner in hand. One that was there is released.
    pub(crate) fn put(&mut self, owner: Hand)
        requires { IsOurs self.old.domain.now owner }
        ensures stays { Stays self.old.here self.new.here }
    {
        let older = mem::replace(&mut self.hand, owner);
        hands::release(self.domain, &mut self.here, older);
    }

    /// Has this cell. One that was there is given back.
    pub(crate) fn put_cell(&mut self, cell: Option<AtomicShared<u64>>)
        requires { IsInside self.old.domain.now cell }
        ensures stays { Stays self.old.here self.new.here }
    {
        let older = mem::replace(&mut self.cell, cell);
        hands::retire(self.domain, &mut self.here, older);
    }

    fn place(&mut self, item: u64) -> Found
        ensures stays { Stays self.old.here self.new.here }
    {
        match Shared::new(self.domain, item, &mut self.here) {
            Ok(owner) => {
                self.put(Some(owner));
                Found::Nothing
            }
            Err(item) => Found::Is(item),
        }
    }

    fn place_with(&mut self, item: u64) -> Found
        ensures stays { Stays self.old.here self.new.here }
    {
        let (placed, found) = hands::place_with(self.domain, &mut self.here, item);
        if let Some(owner) = placed {
            self.put(Some(owner));
        }
        found
    }

    /// Makes two owners of the one in hand: whether there are parts. One that was in the second place is released.
    fn clone(&mut self) -> Found
        ensures stays { Stays self.old.here self.new.here }
    {
        let hand = self.hand.take();
        let (one, other, found) = hands::clone(self.domain, &mut self.here, hand);
        let older = mem::replace(&mut self.second, one);
        hands::release(self.domain, &mut self.here, older);
        self.put(other);
        found
    }

    /// A step with the owner in hand and the cell.
    fn handle(&mut self, act: Act) -> Found
        ensures stays { Stays self.old.here self.new.here }
    {
        let hand = self.hand.take();
        let cell = self.cell.take();
        let (hand, cell, found) = hands::handled(self.domain, &mut self.here, hand, cell, act);
        self.put(hand);
        self.put_cell(cell);
        found
    }

    /// Has threads at work: whether none finds anything wrong, and something is done.
    pub(crate) fn watch<R: Threads + Sync>(&mut self, rt: &R, tasks: [Task; 4]) -> bool
        ensures stays { Stays self.old.here self.new.here }
    {
        self.sum = crowded(rt, self.domain, &self.cell, &self.hand, tasks);
        self.sum > 0
    }

    /// What is answered of the cell.
    fn ask(&mut self, act: Act) -> Found
        ensures stays { Stays self.old.here self.new.here }
    {
        let Some(cell) = &self.cell else {
            return Found::Nothing;
        };
        match act {
            Act::IsNull => told(cell.is_null(self.domain, &mut self.here)),
            _ => Found::Tagged(cell.tag(self.domain, &mut self.here)),
        }
    }

    /// A step that needs no guard and that none need be closed for.
    pub(crate) fn act(&mut self, act: Act) -> Found
        ensures stays { Stays self.old.here self.new.here }
    {
        match act {
            Act::Place(item) => self.place(item),
            Act::PlaceWith(item) => self.place_with(item),
            Act::Read => hands::read(&self.hand),
            Act::Clone => self.clone(),
            Act::Second => {
                mem::swap(&mut self.hand, &mut self.second);
                Found::Nothing
            }
            Act::Third => {
                mem::swap(&mut self.hand, &mut self.third);
                Found::Nothing
            }
            Act::Change => {
                mem::swap(&mut self.cell, &mut self.spare);
                Found::Nothing
            }
            Act::IsNull | Act::Tag => self.ask(act),
            Act::Slots => hands::count(self.domain),
            Act::Number => Found::Is(hands::number(&self.here)),
            Act::Sum => Found::Is(u64::from(self.sum)),
            _ => self.handle(act),
        }
    }

    /// A step while no guard is open.
    pub(crate) fn apart(&mut self, act: Act) -> Found
        requires { (own_of self.old.here).nesting ≡ 0 }
        ensures closed { (own_of self.new.here).nesting ≡ 0 }
        ensures home { home_of self.new.here ≡ home_of self.old.here }
    {
        match act {
            Act::Pass(accelerated) => Found::Is(u64::from(pass(
                self.domain,
                &mut self.here,
                accelerated,
            ))),
            Act::Passes(accelerated, count) => {
                passes(self.domain, &mut self.here, accelerated, count);
                Found::Nothing
            }
            Act::Raise => raised(self.domain, &mut self.here),
            Act::Sweep(participants) => {
                reclaim_all(self.domain, u32::from(participants));
                Found::Nothing
            }
            Act::Peek => self.peek(),
            Act::IsSum => told(self.peek() == Found::Is(u64::from(self.sum))),
            Act::Gather => self.gather(),
            Act::Collect(accelerated) => self.collect(accelerated),
            Act::HandOver => {
                self.put_collector(None);
                Found::Nothing
            }
            Act::Join => self.join(),
            Act::Leave => {
                self.put_beside(None);
                Found::Nothing
            }
            Act::Alternate => self.alternate(),
            _ => self.act(act),
        }
    }

    fn peek(&mut self) -> Found
        requires { (own_of self.old.here).nesting ≡ 0 }
        ensures closed { (own_of self.new.here).nesting ≡ 0 }
        ensures home { home_of self.new.here ≡ home_of self.old.here }
    {
        match &self.cell {
            Some(cell) => hands::item(read(self.domain, &mut self.here, cell).as_ref()),
            None => Found::Nothing,
        }
    }

    /// Has this private collector. One that was there is handed over.
    fn put_collector(&mut self, collector: Option<PrivateCollector>)
        requires { IsMine self.old.domain.now collector }
        ensures stays { Stays self.old.here self.new.here }
    {
        let older = mem::replace(&mut self.collector, collector);
        handed_over(self.domain, &mut self.here, older);
    }

    /// Makes a private collector: whether memory was there.
    fn gather(&mut self) -> Found
        ensures stays { Stays self.old.here self.new.here }
    {
        match PrivateCollector::new(self.domain) {
            Ok(collector) => {
                self.put_collector(Some(collector));
                Found::Yes
            }
            Err(_) => Found::No,
        }
    }

    /// Collects the owner in hand under a guard of its own.
    fn collect(&mut self, accelerated: bool) -> Found
        requires { (own_of self.old.here).nesting ≡ 0 }
        ensures closed { (own_of self.new.here).nesting ≡ 0 }
        ensures home { home_of self.new.here ≡ home_of self.old.here }
    {
        let Some(owner) = self.hand.take() else {
            return Found::Nothing;
        };
        let Some(collector) = self.collector.take() else {
            self.put(Some(owner));
            return Found::Nothing;
        };
        let (domain, local) = (self.domain, &mut self.here);
        let (collector, last) = collected(domain, local, collector, owner, accelerated);
        self.put_collector(Some(collector));
        told(last)
    }

    /// Has this participant beside the one that acts. One that was there is ended.
    fn put_beside(&mut self, other: Option<Local<u64>>)
        requires { ForSome other (λ l. Rests self.old.domain.now l) }
        ensures { self.new.here ≡ self.old.here }
    {
        let older = mem::replace(&mut self.there, other);
        ended(self.domain, older);
    }

    /// Registers another participant: its number.
    fn join(&mut self) -> Found
        ensures same { self.new.here ≡ self.old.here }
    {
        match self.domain.register() {
            Ok(local) => {
                let found = Found::Is(hands::number(&local));
                self.put_beside(resting(self.domain, local));
                found
            }
            Err(RegisterRefused::Full) => Found::No,
            Err(RegisterRefused::Memory) => Found::Nothing,
        }
    }

    /// Changes the two participants for one another.
    fn alternate(&mut self) -> Found
        requires { (own_of self.old.here).nesting ≡ 0 }
        ensures closed { (own_of self.new.here).nesting ≡ 0 }
        ensures home { home_of self.new.here ≡ home_of self.old.here }
    {
        let Some(other) = acting(self.domain, self.there.take()) else {
            return Found::No;
        };
        let own = mem::replace(&mut self.here, other);
        self.put_beside(resting(self.domain, own));
        Found::Nothing
    }

    /// A step of the other participant, while this one may have a guard open.
    pub(crate) fn beside(&mut self, act: Act) -> Found
        ensures same { self.new.here ≡ self.old.here }
    {
        let Some(other) = acting(self.domain, self.there.take()) else {
            return Found::No;
        };
        let own = mem::replace(&mut self.here, other);
        let found = self.apart(act);
        let other = mem::replace(&mut self.here, own);
        self.put_beside(resting(self.domain, other));
        found
    }

    /// Whether the participant beside gives what a pointer is to, without the pointer's borrow.
    pub(crate) fn reloads_beside(&self, pointer: Ptr<u64>) -> Found {
        match &self.there {
            Some(local) => told(pointer.loaded(local).is_some()),
            None => Found::Nothing,
        }
    }

    /// Ends the participant that acts, and registers one in its place. In between threads are at work.
    pub(crate) fn renewed<R: Threads + Abort + Sync>(self, rt: &R, tasks: [Task; 4]) -> Self
        requires { (own_of self.here).nesting ≡ 0 }
        ensures { (own_of result.here).nesting ≡ 0 }
    {
        let Stage {
            domain,
            here,
            there,
            hand,
            second,
            third,
            cell,
            spare,
            collector,
            sum: _,
        } = self;
        here.end(domain);
        let sum = crowded(rt, domain, &cell, &hand, tasks);
        Stage {
            domain,
            here: member(rt, domain),
            there,
            hand,
            second,
            third,
            cell,
            spare,
            collector,
            sum,
        }
    }

    /// Ends both participants, and whatever is left: whether nothing was.
    pub(crate) fn end(self) -> bool
        requires { (own_of self.here).nesting ≡ 0 }
    {
        let Stage {
            domain,
            here,
            there,
            hand,
            second,
            third,
            cell,
            spare,
            collector,
            sum: _,
        } = self;
        let mut here = here;
        let owners = [
            hands::release(domain, &mut here, hand),
            hands::release(domain, &mut here, second),
            hands::release(domain, &mut here, third),
        ];
        let cells = [
            hands::retire(domain, &mut here, cell),
            hands::retire(domain, &mut here, spare),
        ];
        handed_over(domain, &mut here, collector);
        ended(domain, there);
        here.end(domain);
        owners == [Found::Nothing; 3] && cells == [Found::Nothing; 2]
    }
}
