//! Steps of the place, of guards, of what is seen under them, and of collectors.

ghost use Rattle.std.specs.Prelude.{◌<◌, length};
ghost use Rattle.sdd_world.specs.Tokens.{guard_participant};

use crate::stage::{Stage, Thing, count, told, value};
use crate::steps::{END, Found, G, Step};
use crate::worlds::pass;
use sdd_world::{Deferred, PrivateCollector, Ptr, WorldGuard, world};
use std::process::Abort;

impl<'r, R: Abort, J: Deferred> Stage<'r, R, J> {
    /// A step by which a guard is open, if its nesting isn't at its end, or there is a collector; or one of the whole place.
    pub(crate) fn step_of_all(&mut self, step: Step) -> (Thing, Found) {
        let rt = self.rt;
        let found = match step {
            Step::Open(p) => return self.open(p),
            Step::Collector => match world::private_collector::new(self.alloc, &self.w) {
                Ok(collector) => return (Thing::Collector(collector), Found::Done),
                Err(_) => panic!(rt; "memory is ample"),
            },
            Step::OpenEach => self.open_each(),
            Step::Pass(p, times) => count(pass(rt, &mut self.w, p, times)),
            Step::GiveRest => self.give_rest(),
            Step::Slots => count(self.w.slots_in_use()),
            Step::FreeSlots => count(self.w.free_slots()),
            Step::IsGuarded => told(self.w.has_open_guard()),
            _ => Found::Nothing,
        };
        (Thing::Nothing, found)
    }

    fn open(&mut self, p: usize) -> (Thing, Found) {
        let rt = self.rt;
        if p >= self.w.participants() {
            panic!(rt; "there is such a participant");
        }
        match world::guard::new(&mut self.w, p) {
            Ok(guard) => (Thing::Guard(guard), Found::Done),
            Err(_) => (Thing::Nothing, Found::No),
        }
    }

    fn open_each(&mut self) -> Found {
        let mut open = 0usize;
        for p in 0..self.w.participants() {
            let (guard, found) = self.open(p);
            self.put(END, guard);
            if found == Found::Done {
                open = open.saturating_add(1);
            }
        }
        count(open)
    }

    /// Defers a job under the guard at `G`, or runs it where there is no place for it: whether it waits.
    pub(crate) fn defer(&mut self, job: J) -> bool {
        let guard = self.guard(G);
        let outcome = world::guard::defer_execute(&mut self.w, &guard, job);
        self.put(G, Thing::Guard(guard));
        match outcome {
            Ok(()) => true,
            Err(job) => {
                job.run();
                false
            }
        }
    }

    /// A step with a guard.
    pub(crate) fn with_guard(&mut self, guard: WorldGuard, step: Step) -> (Thing, Found)
        requires { guard_participant guard < length self.old.w.participants }
    {
        let w = &mut self.w;
        let found = match step {
            Step::Accelerate => {
                world::guard::accelerate(w, &guard);
                Found::Done
            }
            Step::Participant => count(guard.participant()),
            Step::Epoch => Found::Is(u64::from(u8::from(world::guard::epoch(w, &guard)))),
            Step::HasGarbage => told(world::guard::has_garbage(w, &guard)),
            Step::See(owner, to) => self.see(owner, &guard, to),
            _ => Found::Nothing,
        };
        (Thing::Guard(guard), found)
    }

    /// What an owner names is seen under a guard.
    fn see(&mut self, owner: usize, guard: &WorldGuard, to: usize) -> Found {
        let rt = self.rt;
        let thing = self.take(owner);
        let seen = match &thing {
            Thing::Owned(owned) => world::owned::get_guarded_ptr(owned, guard),
            Thing::Shared(shared) => world::shared::get_guarded_ptr(shared, guard),
            _ => panic!(rt; "an owner is there"),
        };
        self.put(owner, thing);
        self.put(to, Thing::Seen(seen));
        Found::Done
    }

    /// A step with what is seen.
    pub(crate) fn with_seen(&mut self, mut seen: Ptr<'static, u64>, step: Step) -> (Thing, Found) {
        let rt = self.rt;
        match step {
            Step::Look if self.w.is_readable(&seen) => {
                let found = value(self.w.read(&seen).copied());
                (Thing::Seen(seen), found)
            }
            Step::Retag(tag) => {
                seen.set_tag(tag);
                (Thing::Seen(seen), Found::Done)
            }
            Step::Claim(to) => match world::ptr::get_shared(&mut self.w, seen) {
                Some(owner) => {
                    self.put(to, Thing::Shared(owner));
                    (Thing::Nothing, Found::Done)
                }
                None => (Thing::Nothing, Found::No),
            },
            Step::TryClaim(to) => match world::shared::try_from(&mut self.w, seen) {
                Ok(owner) => {
                    self.put(to, Thing::Shared(owner));
                    (Thing::Nothing, Found::Done)
                }
                Err(back) => (Thing::Seen(back), Found::No),
            },
            _ => panic!(rt; "a guard is open"),
        }
    }

    /// A step with a collector, under a guard.
    pub(crate) fn with_collector(
        &mut self,
        mut collector: PrivateCollector<u64>,
        step: Step,
    ) -> (Thing, Found) {
        let rt = self.rt;
        let Step::Collect(owner, at) = step else {
            return (Thing::Collector(collector), Found::Nothing);
        };
        let thing = self.take(owner);
        let guard = self.guard(at);
        let w = &mut self.w;
        let found = match thing {
            Thing::Owned(owned) if world::owned::is_here(w, &owned) => {
                world::private_collector::collect_owned(w, &mut collector, owned, &guard);
                Found::Done
            }
            Thing::Shared(shared) if world::shared::is_here(w, &shared) => told(
                world::private_collector::collect_shared(w, &mut collector, shared, &guard),
            ),
            _ => panic!(rt; "an owner is there"),
        };
        self.put(at, Thing::Guard(guard));
        (Thing::Collector(collector), found)
    }
}
