//! The version that the writes of a commit leave.

ghost use Rattle.std.specs.Prelude.{◌≡◌, ◌≤◌, ◌<◌, ◌+◌, ◌-◌, ◌^◌, [], IfOk, IfErr, OnOk, OnErr};
ghost use Rattle.leaf_array.specs.Pairs.{IsAscending};
ghost use Rattle.leaf_array.specs.Values.{ClonesAreSame};
ghost use Rattle.sdd_domain.specs.Cells.{cell_number};
ghost use Rattle.sdd_domain.specs.CellSteps.{StepsOnNoCell};
ghost use Rattle.sdd_domain.specs.Tokens.{place_of, home_of, hand_of, misses_of, cell_count};
ghost use Rattle.shared_versions.specs.Drafts.{list_of};
ghost use Rattle.shared_versions.specs.Placing.{HasPublished, IsOwnedIn, IsStillButMisses};
ghost use Rattle.shared_index.specs.Books.{misses_told, misses_without};
ghost use Rattle.version_views.specs.Writes.{after_writes, replies_to};

use crate::book::NewRefused;
use sdd_domain::atomic_shared::AtomicShared;
use sdd_domain::domain::Domain;
use sdd_domain::local::Local;
use sdd_domain::shared::Shared;
use sdd_plain::refusal::NoSlot;
use shared_versions::{Node, Present, build, build_list, publish};
use std::alloc::Global;
use version_views::{Reply, Write, WriteRefused};

/// Builds the version that writes make of the present one, places it, and has the cell name it. It returns the reply to
/// each write. A refusal leaves the present version as it was; for want of a slot, it is one miss of the participant.
pub(crate) fn install<K: Clone + Ord, V: Clone, const S: usize>(
    alloc: Global,
    domain: &Domain<Node<K, V>>,
    root: &AtomicShared<Node<K, V>>,
    local: &mut Local<Node<K, V>>,
    present: &mut Present<K, V, S>,
    writes: &[Write<K, V>],
) -> Result<Vec<Reply>, WriteRefused>
    requires home { home_of local.old ≡ place_of domain.now }
    requires hand { hand_of local.old ≡ [] }
    requires inside { cell_number root.now < cell_count domain.now }
    requires mine { present.old.place ≡ (place_of domain.now).0 }
    requires size { (1 ≤ S) × (S ≤ 225) }
    requires last { present.old.version.number < 2 ^ 64 - 1 }
    requires keys { ClonesAreSame K.is_clone }
    requires values { ClonesAreSame V.is_clone }
    ensures place { present.new.place ≡ present.old.place }
    ensures number { OnOk result (present.new.version.number ≡ present.old.version.number + 1) }
    ensures list { OnOk result (list_of present.new.version ≡ after_writes K.cmp writes.now (list_of present.old.version)) }
    ensures told { IfOk result (λ told. told.items ≡ replies_to K.cmp writes.now (list_of present.old.version)) }
    ensures published { OnOk result (HasPublished local.old (cell_number root.now) present.new.version local.new) }
    ensures refused { OnErr result (present.new ≡ present.old) }
    ensures cells { OnErr result (StepsOnNoCell local.old local.new) }
    ensures hand { hand_of local.new ≡ [] }
    ensures hit { OnOk result (misses_of local.new ≡ misses_of local.old) }
    ensures missed { IfErr result (λ cause. misses_of local.new ≡ misses_told cause (misses_of local.old)) }
    ensures same { IsStillButMisses local.old local.new }
{
    let Ok((draft, told)) = build::<K, V, S>(alloc, present.version(), writes) else {
        return Err(WriteRefused::Memory);
    };
    match present.place(domain, draft, local) {
        Ok(new) => {
            publish(domain, root, new, local);
            Ok(told)
        }
        Err(_) => Err(WriteRefused::NoSlot),
    }
}

/// Places the empty version, and has a cell of its own name it. Refused if no slot or no cell is free, which is one miss of
/// the participant; then what was placed waits to be reclaimed.
pub(crate) fn begin<K: Clone + Ord, V: Clone, const S: usize>(
    alloc: Global,
    domain: &Domain<Node<K, V>>,
    local: &mut Local<Node<K, V>>,
) -> Result<(Present<K, V, S>, AtomicShared<Node<K, V>>), NoSlot>
    requires home { home_of local.old ≡ place_of domain.now }
    requires hand { hand_of local.old ≡ [] }
    ensures place { IfOk result (λ made. made.0.place ≡ (place_of domain.now).0) }
    ensures number { IfOk result (λ made. made.0.version.number ≡ 0) }
    ensures list { IfOk result (λ made. list_of made.0.version ≡ []) }
    ensures inside { IfOk result (λ made. cell_number made.1 < cell_count domain.now) }
    ensures hand { hand_of local.new ≡ [] }
    ensures hit { OnOk result (misses_of local.new ≡ misses_of local.old) }
    ensures missed { OnErr result (misses_of local.new ≡ misses_of local.old + 1) }
    ensures same { IsStillButMisses local.old local.new }
{
    let (present, owner) = Present::new(alloc, domain, local)?;
    named(domain, present, owner, local)
}

/// Places the version of clones of these pairs, whose keys rise, under a number, and has a cell of its own name it. Refused for
/// want of memory, nothing was placed; else no slot or no cell was free, which is one miss of the participant, and what was
/// placed waits to be reclaimed.
pub(crate) fn begin_with<K: Clone + Ord, V: Clone, const S: usize>(
    alloc: Global,
    domain: &Domain<Node<K, V>>,
    local: &mut Local<Node<K, V>>,
    number: u64,
    pairs: &[(K, V)],
) -> Result<(Present<K, V, S>, AtomicShared<Node<K, V>>), NewRefused>
    requires home { home_of local.old ≡ place_of domain.now }
    requires hand { hand_of local.old ≡ [] }
    requires size { (1 ≤ S) × (S ≤ 225) }
    requires keys { ClonesAreSame K.is_clone }
    requires values { ClonesAreSame V.is_clone }
    requires rising { IsAscending K.cmp pairs.now }
    ensures place { IfOk result (λ made. made.0.place ≡ (place_of domain.now).0) }
    ensures number { IfOk result (λ made. made.0.version.number ≡ number) }
    ensures list { IfOk result (λ made. list_of made.0.version ≡ pairs.now) }
    ensures inside { IfOk result (λ made. cell_number made.1 < cell_count domain.now) }
    ensures hand { hand_of local.new ≡ [] }
    ensures hit { OnOk result (misses_of local.new ≡ misses_of local.old) }
    ensures missed { IfErr result (λ why. misses_of local.new ≡ misses_without why (misses_of local.old)) }
    ensures same { IsStillButMisses local.old local.new }
{
    let Ok(draft) = build_list::<K, V, S>(alloc, number, pairs) else {
        return Err(NewRefused::Memory);
    };
    let Ok((present, owner)) = Present::holding(alloc, domain, draft, local) else {
        return Err(NewRefused::NoSlot);
    };
    match named(domain, present, owner, local) {
        Ok(made) => Ok(made),
        Err(NoSlot) => Err(NewRefused::NoSlot),
    }
}

/// Has a cell of its own name the present version. Where no cell is free, which is one miss of the participant, the version is
/// released, and waits to be reclaimed.
fn named<K: Clone + Ord, V: Clone, const S: usize>(
    domain: &Domain<Node<K, V>>,
    present: Present<K, V, S>,
    owner: Shared<Node<K, V>>,
    local: &mut Local<Node<K, V>>,
) -> Result<(Present<K, V, S>, AtomicShared<Node<K, V>>), NoSlot>
    requires home { home_of local.old ≡ place_of domain.now }
    requires hand { hand_of local.old ≡ [] }
    requires mine { present.place ≡ (place_of domain.now).0 }
    requires owner { IsOwnedIn (place_of domain.now).0 owner }
    ensures same_version { IfOk result (λ made. made.0 ≡ present) }
    ensures inside { IfOk result (λ made. cell_number made.1 < cell_count domain.now) }
    ensures hand { hand_of local.new ≡ [] }
    ensures hit { OnOk result (misses_of local.new ≡ misses_of local.old) }
    ensures missed { OnErr result (misses_of local.new ≡ misses_of local.old + 1) }
    ensures same { IsStillButMisses local.old local.new }
{
    match AtomicShared::from(domain, owner, local) {
        Ok(root) => Ok((present, root)),
        Err(owner) => {
            owner.release(domain, local);
            present.end(domain, local);
            Err(NoSlot)
        }
    }
}
