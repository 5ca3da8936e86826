//! Owners that the writer keeps of the rows of its version, for the versions to come.

ghost use Rattle.std.specs.Prelude.{◌≡◌, ◌≤◌, ◌+◌, [], IfSome, IfNone, length, map, get_or};
ghost use Rattle.std.specs.List.{All};
ghost use Rattle.sdd_domain.specs.CellSteps.{StepsOnNoCell};
ghost use Rattle.sdd_domain.specs.Tokens.{place_of, home_of, hand_of, misses_of};
ghost use Rattle.shared_versions.specs.Placing.{IsKeptRow, IsRowOf, IsStill, IsStillButMisses, blocks_kept, blocks_owned};

use crate::node::Node;
use crate::owners::let_go;
use sdd_domain::domain::Domain;
use sdd_domain::local::Local;
use sdd_domain::shared::Shared;
use std::mem;

/// An owner of a row. There is none where the version has the row itself. It is out while it is being cloned, and once it was
/// moved.
pub(crate) type WriterOwner<K, V> = Option<Shared<Node<K, V>>>;

/// One more owner of the row of this number; none where it can't have one more, which is a miss. Condition: it is an item.
pub(crate) fn clone_at<K: Ord + Drop, V: Drop>(
    domain: &Domain<Node<K, V>>,
    kept: &mut Vec<WriterOwner<K, V>>,
    number: usize,
    local: &mut Local<Node<K, V>>,
) -> Option<Shared<Node<K, V>>>
    requires home { home_of local.old ≡ place_of domain.now }
    requires some { 1 ≤ length (get_or (map blocks_kept kept.old.items) number []) }
    requires kept { All (IsKeptRow (place_of domain.now).0) kept.old.items }
    ensures one { IfSome result (λ s. IsRowOf (place_of domain.now).0 s × (blocks_owned s ≡ get_or (map blocks_kept kept.old.items) number [])) }
    ensures kept { All (IsKeptRow (place_of domain.now).0) kept.new.items }
    ensures blocks { map blocks_kept kept.new.items ≡ map blocks_kept kept.old.items }
    ensures hand { hand_of local.new ≡ hand_of local.old }
    ensures hit { IfSome result (λ _. misses_of local.new ≡ misses_of local.old) }
    ensures missed { IfNone result (misses_of local.new ≡ misses_of local.old + 1) }
    ensures same { IsStillButMisses local.old local.new }
    ensures cells { StepsOnNoCell local.old local.new }
{
    let Some(owner) = mem::replace(&mut kept[number], None) else {
        unreachable!();
    };
    let (owner, other) = clone_row(domain, owner, local);
    match mem::replace(&mut kept[number], Some(owner)) {
        None => {}
        Some(_) => unreachable!(),
    }
    other
}

/// Clones an owner of a row. Only the given one is returned if there can't be one more, which is a miss.
fn clone_row<K: Ord + Drop, V: Drop>(
    domain: &Domain<Node<K, V>>,
    owner: Shared<Node<K, V>>,
    local: &mut Local<Node<K, V>>,
) -> (Shared<Node<K, V>>, Option<Shared<Node<K, V>>>)
    requires home { home_of local.old ≡ place_of domain.now }
    requires mine { IsRowOf (place_of domain.now).0 owner }
    ensures own { IsRowOf (place_of domain.now).0 result.0 × (blocks_owned result.0 ≡ blocks_owned owner) }
    ensures other { IfSome result.1 (λ s. IsRowOf (place_of domain.now).0 s × (blocks_owned s ≡ blocks_owned owner)) }
    ensures hand { hand_of local.new ≡ hand_of local.old }
    ensures hit { IfSome result.1 (λ _. misses_of local.new ≡ misses_of local.old) }
    ensures missed { IfNone result.1 (misses_of local.new ≡ misses_of local.old + 1) }
    ensures same { IsStillButMisses local.old local.new }
    ensures cells { StepsOnNoCell local.old local.new }
{
    match owner.clone(domain, local) {
        Ok((own, other)) => (own, Some(other)),
        Err(own) => (own, None),
    }
}

/// Releases the owners of rows that are left.
pub(crate) fn release_kept<K: Ord + Drop, V: Drop>(
    domain: &Domain<Node<K, V>>,
    mut kept: Vec<WriterOwner<K, V>>,
    local: &mut Local<Node<K, V>>,
)
    requires home { home_of local.old ≡ place_of domain.now }
    requires left { All (IsKeptRow (place_of domain.now).0) kept.items }
    ensures hand { hand_of local.new ≡ hand_of local.old }
    ensures same { IsStill local.old local.new }
    ensures cells { StepsOnNoCell local.old local.new }
{
    'releasing: while let Some(owner) = kept.pop() {
        match owner {
            Some(owner) => {
                let_go(domain, owner, local);
            }
            None => {}
        }
    }
    kept.destroy_empty();
}
