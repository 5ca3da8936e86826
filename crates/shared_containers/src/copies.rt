//! Copies of a stack, and of the front of a queue, in one that nobody else has yet.

ghost use Rattle.std.specs.Prelude.{◌≡◌, ◌<◌, [], IfOk, IfErr};
ghost use Rattle.sdd_domain.specs.Cells.{cell_number};
ghost use Rattle.sdd_domain.specs.Tokens.{place_of, home_of, hand_of, cell_count};
ghost use Rattle.shared_containers.specs.Containers.{AreLinksOf, IsStackOf, IsAsBefore, IsReady, IsOpenIn};
ghost use Rattle.shared_containers.specs.Outcomes.{IsNotCloned, IsRefused};

use crate::moves::place;
use crate::outcome::{NotCloned, PushRefused};
use crate::stack::Stack;
use sdd_domain::atomic_shared::AtomicShared;
use sdd_domain::domain::Domain;
use sdd_domain::guard::Guard;
use sdd_domain::holds::Holds;
use sdd_domain::local::Local;
use shared_lists::Links;
use shared_lists::moves::follow;

impl<T: Holds> Stack<T> {
    /// Puts clones of the items that `for_each` finds into another stack, in their order. Conditions: that one is empty, and
    /// nobody else has it.
    pub(crate) fn copy_into(
        &self,
        domain: &Domain<T>,
        copy: &Stack<T>,
        links: &Links<T>,
        local: &mut Local<T>,
    ) -> Result<(), NotCloned<T>>
    where
        T: Clone,
        requires ready { IsReady local.old domain.now }
        requires stack { IsStackOf self.now domain.now × IsStackOf copy.now domain.now × AreLinksOf links.now domain.now }
        requires holds { (x y : T) → T.is_clone x y → T.holds y ≡ [] }
        ensures refused { IfErr result (λ why. IsNotCloned why T.is_clone T.is_infallible (place_of domain.now).0) }
        ensures same { IsAsBefore local.old local.new }
    {
        let Ok(guard) = Guard::new(domain, local) else {
            unreachable!();
        };
        let copied = self.copy_under(domain, copy, links, &guard, local);
        guard.close(domain, local);
        copied
    }

    /// The same under a guard.
    fn copy_under(
        &self,
        domain: &Domain<T>,
        copy: &Stack<T>,
        links: &Links<T>,
        guard: &Guard,
        local: &mut Local<T>,
    ) -> Result<(), NotCloned<T>>
    where
        T: Clone,
        requires open { IsOpenIn guard.now local.old domain.now × (hand_of local.old ≡ []) }
        requires stack { IsStackOf self.now domain.now × IsStackOf copy.now domain.now × AreLinksOf links.now domain.now }
        requires holds { (x y : T) → T.is_clone x y → T.holds y ≡ [] }
        ensures refused { IfErr result (λ why. IsNotCloned why T.is_clone T.is_infallible (place_of domain.now).0) }
        ensures same { IsAsBefore local.old local.new }
    {
        let mut at = self.first_item(domain, links, guard, local);
        let mut end = &copy.first;
        for _i in 0..domain.slots() {
            let Some(item) = at.as_ref() else {
                break;
            };
            let Ok(value) = item.clone() else {
                return Err(NotCloned::Memory);
            };
            match put_last(domain, end, value, links, local) {
                Ok(link) => end = link,
                Err(refused) => return Err(NotCloned::Refused(refused)),
            }
            at = links.after(domain, at, guard, local);
        }
        Ok(())
    }
}

/// Has a cell own a new item, behind which nothing follows, and gives the item's link: the cell is the end of a list that
/// nobody else has.
fn put_last<'l, T: Holds>(
    domain: &Domain<T>,
    end: &AtomicShared<T>,
    value: T,
    links: &'l Links<T>,
    local: &mut Local<T>,
) -> Result<&'l AtomicShared<T>, PushRefused<T>>
    requires home { (home_of local.old ≡ place_of domain.now) × (hand_of local.old ≡ []) }
    requires inside { (cell_number end.now < cell_count domain.now) × AreLinksOf links.now domain.now }
    requires holds { T.holds value ≡ [] }
    ensures link { IfOk result (λ c. cell_number c.now < cell_count domain.now) }
    ensures refused { IfErr result (λ r. IsRefused r value (place_of domain.now).0 ⊥ ⊥) }
    ensures same { IsAsBefore local.old local.new }
{
    let owner = place(domain, value, local)?;
    let Some(link) = links.at(owner.slot()) else {
        return Err(PushRefused::Busy(owner));
    };
    // The link may still have the tag of the item that was in the slot before.
    follow(domain, link, None, local);
    follow(domain, end, Some(owner), local);
    Ok(link)
}
