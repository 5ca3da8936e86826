//! The rows of a version to be placed, by what it was granted: owners of items, and rows that it is to have itself.

ghost use Rattle.std.specs.Prelude.{◌≡◌, ◌≤◌, ◌<◌, ◌+◌, ◌++◌, [], length, map, reverse, vec_capacity};
ghost use Rattle.std.specs.List.{All};
ghost use Rattle.sdd_domain.specs.CellSteps.{StepsOnNoCell};
ghost use Rattle.sdd_domain.specs.Holding.{all_told};
ghost use Rattle.sdd_domain.specs.Tokens.{place_of, home_of, hand_of};
ghost use Rattle.shared_versions.specs.Nodes.{OwnsRow, holds_in, own_segments, row_holds};
ghost use Rattle.shared_versions.specs.Placing.{Continues, IsGrantedIn, IsStill, granted_face, owner_face, row_face};

use crate::granting::Granted;
use crate::node::{Node, OwnRow, RowOwner};
use sdd_domain::domain::Domain;
use sdd_domain::local::Local;
use version_views::Row;

/// Takes the owners of rows into the participant's hand, from the last one on, for the version to hold; and beside them the rows
/// that it has itself.
pub(crate) fn hold_rows<K: Ord + Drop, V: Drop>(
    domain: &Domain<Node<K, V>>,
    mut granted: Vec<Row<K, Granted<K, V>>>,
    mut rows: Vec<Row<K, RowOwner<K, V>>>,
    mut own: Vec<OwnRow<K, V>>,
    local: &mut Local<Node<K, V>>,
) -> (Vec<Row<K, RowOwner<K, V>>>, Vec<OwnRow<K, V>>)
    requires home { home_of local.old ≡ place_of domain.now }
    requires hand { hand_of local.old ≡ [] }
    requires owners { All (λ r. IsGrantedIn (place_of domain.now).0 r.segments) granted.items }
    requires none { (rows.items ≡ []) × (own.items ≡ []) }
    requires room { (length granted.items ≤ vec_capacity rows) × (length granted.items ≤ vec_capacity own) }
    ensures owned { All (λ r. OwnsRow (own_segments result.1.items) r.segments) result.0.items }
    ensures faces { map (row_face (owner_face (own_segments result.1.items))) result.0.items ≡ reverse (map (row_face granted_face) granted.items) }
    ensures hand { hand_of local.new ≡ all_told (holds_in result.0.items) }
    ensures same { IsStill local.old local.new }
    ensures cells { StepsOnNoCell local.old local.new }
{
    'holding: while let Some(row) = granted.pop() {
        let (segments, keys) = row.into_parts();
        let owner = held(domain, segments, &mut own, local);
        rows.push_reserved(Row::new(owner, keys));
    }
    granted.destroy_empty();
    (rows, own)
}

/// Takes the owner of a row into the participant's hand, if it is an item; else the version has it behind the others that aren't.
fn held<K: Ord + Drop, V: Drop>(
    domain: &Domain<Node<K, V>>,
    granted: Granted<K, V>,
    own: &mut Vec<OwnRow<K, V>>,
    local: &mut Local<Node<K, V>>,
) -> RowOwner<K, V>
    requires home { home_of local.old ≡ place_of domain.now }
    requires mine { IsGrantedIn (place_of domain.now).0 granted }
    requires room { length own.old.items < vec_capacity own.old }
    ensures owned { OwnsRow (own_segments own.new.items) result }
    ensures face { owner_face (own_segments own.new.items) result ≡ granted_face granted }
    ensures more { Continues (own_segments own.old.items) (own_segments own.new.items) }
    ensures few { length own.new.items ≤ length own.old.items + 1 }
    ensures room { vec_capacity own.new ≡ vec_capacity own.old }
    ensures hand { hand_of local.new ≡ all_told (row_holds result) ++ hand_of local.old }
    ensures same { IsStill local.old local.new }
    ensures cells { StepsOnNoCell local.old local.new }
{
    match granted {
        Granted::Item(owner) => RowOwner::Item(owner.hold(domain, local)),
        Granted::Own(segments) => {
            let at = own.len();
            own.push_reserved(segments);
            RowOwner::Own(at)
        }
    }
}
