//! Items that are placed with two owners, items that aren't placed, and owners that are released.

ghost use Rattle.std.specs.Prelude.{◌≡◌, ◌+◌, [], IfOk, IfErr, IfSome, MatchOption, OnOk, OnErr};
ghost use Rattle.sdd_domain.specs.CellSteps.{StepsOnNoCell};
ghost use Rattle.sdd_domain.specs.Sharing.{IsOwnerOf};
ghost use Rattle.sdd_domain.specs.Tokens.{place_of, home_of, hand_of, misses_of};
ghost use Rattle.shared_versions.specs.Placing.{IsOwnedIn, IsStill, IsStillButMisses};

use crate::node::Node;
use sdd_domain::domain::Domain;
use sdd_domain::holds::Holds;
use sdd_domain::local::Local;
use sdd_domain::shared::Shared;

/// Places an item, and gives two owners of it. If no slot was free, it returns the item, and what that holds is in
/// hand. If the item couldn't have a second owner, it was placed and released, and nothing is returned. Both are one miss.
pub(crate) fn place_two<T: Holds>(
    domain: &Domain<T>,
    item: T,
    local: &mut Local<T>,
) -> Result<(Shared<T>, Shared<T>), Option<T>>
    requires home { home_of local.old ≡ place_of domain.now }
    requires holds { T.holds item ≡ hand_of local.old }
    ensures home { IfOk result (λ both. IsOwnedIn (place_of domain.now).0 both.0 × IsOwnedIn (place_of domain.now).0 both.1) }
    ensures item { IfOk result (λ both. IsOwnerOf both.0 item × IsOwnerOf both.1 item) }
    ensures back { IfErr result (λ back. IfSome back (λ x. x ≡ item)) }
    ensures hand { OnOk result (hand_of local.new ≡ []) }
    ensures left { IfErr result (λ back. MatchOption back (hand_of local.new ≡ []) (λ x. hand_of local.new ≡ hand_of local.old)) }
    ensures hit { OnOk result (misses_of local.new ≡ misses_of local.old) }
    ensures missed { OnErr result (misses_of local.new ≡ misses_of local.old + 1) }
    ensures same { IsStillButMisses local.old local.new }
    ensures cells { StepsOnNoCell local.old local.new }
{
    match Shared::new(domain, item, local) {
        Ok(owner) => match owner.clone(domain, local) {
            Ok(both) => Ok(both),
            Err(owner) => {
                let _last = owner.release(domain, local);
                Err(None)
            }
        },
        Err(item) => Err(Some(item)),
    }
}

/// Ends an item that wasn't placed: what it holds comes out of the participant's hand, and is released.
pub(crate) fn take_back<T: Holds>(domain: &Domain<T>, mut item: T, local: &mut Local<T>)
    requires home { home_of local.old ≡ place_of domain.now }
    requires hand { hand_of local.old ≡ T.holds item }
    ensures hand { hand_of local.new ≡ [] }
    ensures same { IsStill local.old local.new }
    ensures cells { StepsOnNoCell local.old local.new }
{
    'releasing: while let Some(owner) = item.give_up() {
        let _last = owner.own(domain, local).release(domain, local);
    }
    item.end();
}

/// Releases an owner of a node: where it was the last one, the node waits to be reclaimed. Other functions release owners by
/// this one, since the proof of a call of `Shared::release` at a node takes longer than all else that they do.
pub(crate) fn let_go<K: Ord + Drop, V: Drop>(
    domain: &Domain<Node<K, V>>,
    owner: Shared<Node<K, V>>,
    local: &mut Local<Node<K, V>>,
)
    requires home { home_of local.old ≡ place_of domain.now }
    requires mine { IsOwnedIn (place_of domain.now).0 owner }
    ensures hand { hand_of local.new ≡ hand_of local.old }
    ensures same { IsStill local.old local.new }
    ensures cells { StepsOnNoCell local.old local.new }
{
    let _last = owner.release(domain, local);
}
