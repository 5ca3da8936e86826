//! Walks along the items of a stack or a queue, and through those of a bag that is taken apart.

ghost use Rattle.std.specs.Prelude.{◌≡◌, ◌+◌, IfNone, IfSome, OnSome};
ghost use Rattle.sdd_domain.specs.Sharing.{kept_in};
ghost use Rattle.sdd_domain.specs.Tokens.{place_of};
ghost use Rattle.shared_containers.specs.Containers.{AreLinksOf, IsBagOf, IsAsBefore, IsReady, IsOpenIn, IsStill};
ghost use Rattle.shared_containers.specs.Taken.{HasPoppedOf};

use crate::bag::Bag;
use sdd_domain::domain::Domain;
use sdd_domain::guard::Guard;
use sdd_domain::holds::Holds;
use sdd_domain::local::Local;
use sdd_domain::pointer::Ptr;
use sdd_domain::shared::Shared;
use shared_lists::Links;

/// A walk along the items of a stack or a queue, from the first one on, under one guard. It borrows that guard alone: the
/// place, its links and the participant are lent to each step, so pushes and pops may be made in between.
///
/// `walks` in `crates/shared_container_tests/src/walks.rt` walks while items are popped.
#[derive(Drop)]
pub struct Iter<'g, T> {
    /// What it gives next.
    pub(crate) at: Ptr<'g, T>,
    /// How many items it gives at most.
    pub(crate) left: usize,
}

impl<'g, T: Holds> Iter<'g, T> {
    ghost use Rattle.shared_containers.specs.Walks.{left_of};

    /// The next item, which is read as long as the guard is borrowed. None behind the last one, where the item that it is at
    /// was popped meanwhile, and from then on. It gives as many items as the place has slots at most.
    pub fn next(
        &mut self,
        domain: &Domain<T>,
        links: &Links<T>,
        guard: &'g Guard,
        local: &mut Local<T>,
    ) -> Option<&'g T>
        requires open { IsOpenIn guard.now local.old domain.now }
        requires links { AreLinksOf links.now domain.now }
        ensures shorter { OnSome result (left_of self.new + 1 ≡ left_of self.old) }
        ensures ended { IfNone result (self.new ≡ self.old) }
        ensures same { IsStill local.old local.new }
    {
        if self.left == 0 {
            return None;
        }
        let item = self.at.as_ref()?;
        self.at = links.after(domain, self.at, guard, local);
        self.left -= 1;
        Some(item)
    }
}

/// A bag that nobody else has any more, whose items are popped one by one. It must be consumed by `end`.
pub struct IntoIter<T, const ARRAY_LEN: usize> {
    pub(crate) bag: Bag<T, ARRAY_LEN>,
}

impl<T: Holds, const ARRAY_LEN: usize> IntoIter<T, ARRAY_LEN> {
    /// Pops an item, as the bag's `pop` does, and gives its owner, which must be released. None once the bag is empty.
    pub fn next(
        &mut self,
        domain: &Domain<T>,
        links: &Links<T>,
        local: &mut Local<T>,
    ) -> Option<Shared<T>>
        requires ready { IsReady local.old domain.now }
        requires bag { IsBagOf self.old.bag domain.now × AreLinksOf links.now domain.now }
        ensures home { IfSome result (λ s. kept_in s ≡ (place_of domain.now).0) }
        ensures bag { self.new ≡ self.old }
        ensures same { IsAsBefore local.old local.new }
        ensures taken { IfSome result (λ s. HasPoppedOf local.old self.old.bag s local.new) }
    {
        self.bag.pop(domain, links, local)
    }

    /// Releases what is left, and gives the bag's cells back.
    pub fn end(self, domain: &Domain<T>, links: &Links<T>, local: &mut Local<T>)
        requires ready { IsReady local.old domain.now }
        requires bag { IsBagOf self.bag domain.now × AreLinksOf links.now domain.now }
        ensures same { IsAsBefore local.old local.new }
    {
        let IntoIter { bag } = self;
        bag.end(domain, links, local);
    }
}
