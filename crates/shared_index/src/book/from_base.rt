//! A book that begins with a list, as another index left it.

ghost use Rattle.std.specs.Prelude.{◌≡◌, ◌≤◌, ◌<◌, ◌-◌, ◌∷◌, [], IfErr, IfOk, OnOk, replicate, vec_capacity};
ghost use Rattle.leaf_array.specs.Pairs.{IsAscending};
ghost use Rattle.leaf_array.specs.Values.{ClonesAreSame};
ghost use Rattle.sdd_domain.specs.Cells.{cell_number};
ghost use Rattle.sdd_domain.specs.Tokens.{place_of, home_of, hand_of, misses_of, cell_count};
ghost use Rattle.shared_versions.specs.Drafts.{list_of};
ghost use Rattle.shared_versions.specs.Placing.{IsStillButMisses};
ghost use Rattle.shared_index.specs.Books.{IsFreshBook, misses_without};
ghost use Rattle.shared_index.specs.SharedBase.{MayRefuseBase, misses_unbegun};
ghost use Rattle.shared_index.specs.SharedInvariant.{IsUnengaged};

use crate::book::{Book, NewRefused};
use crate::commit::begin_with;
use crate::naming::Naming;
use crate::share::{Share, cut_counting};
use sdd_domain::atomic_shared::AtomicShared;
use sdd_domain::domain::Domain;
use sdd_domain::local::Local;
use serial_history::{Base, History};
use shared_versions::{Node, Present, rising_until};
use std::alloc::{AllocError, Global};
use std::sync::ledger::Blank;
use thiserror::Error;

/// A list that an index is to begin with, or began with, and its number.
#[derive(Clone, Debug, PartialEq, Eq, Drop)]
pub struct BaseList<K, V> {
    /// The number of the list.
    pub number: u64,
    /// Its pairs, by rising keys.
    pub pairs: Vec<(K, V)>,
}

/// Why no index that threads share begins with a list.
#[derive(Clone, Copy, Debug, PartialEq, Eq, Error)]
pub enum SharedBaseCause {
    /// The key of the pair at this place isn't above the key before it, and no earlier one is so.
    #[error("the key at place {0} isn't above the key before it; there is no index")]
    NotAscending(usize),
    /// The memory of the index was refused.
    #[error("memory was refused; there is no index")]
    Memory,
    /// Too few slots are free for the list, or no cell to name its version.
    #[error("too few slots are free for the list, or no cell to name it; there is no index")]
    NoSlot,
}

/// A list that no index begins with: why, and the pairs, as they were handed in.
#[derive(Clone, Debug, PartialEq, Eq, Drop, Error)]
#[error("{cause}")]
pub struct SharedBaseRefused<K, V> {
    /// Why there is no index.
    pub cause: SharedBaseCause,
    /// The pairs, as they were handed in.
    pub pairs: Vec<(K, V)>,
}

impl<L: Naming, K: Clone + Ord, V: Clone + Eq, const S: usize> Book<L, K, V, S> {
    /// A book whose base is this list, without transactions; a cell that names its version; and as many shares as the ledger has
    /// parts, at least one. Its last number is `2^64 - 1`. So an index continues, in another process too, from
    /// what [`base`](Self::base) of an older one returned.
    ///
    /// The first share begins at the number of the list, which it counts for the commits before it, and the others at 0: so
    /// the counts of all shares sum to the number, as those of a book that began empty do.
    ///
    /// The causes are decided in this order, and each returns the participant, the blank ledger and the pairs:
    /// `NotAscending`, before any memory is requested; `Memory`, before anything is placed; `NoSlot`, where the participant
    /// missed a slot or a cell, once, and what was placed until then waits to be reclaimed.
    pub fn from_base(
        alloc: Global,
        domain: &Domain<Node<K, V>>,
        local: Local<Node<K, V>>,
        blank: Blank,
        shares: usize,
        base: BaseList<K, V>,
    ) -> Result<
        (Self, AtomicShared<Node<K, V>>, Vec<Share<L>>),
        (Local<Node<K, V>>, Blank, SharedBaseRefused<K, V>),
    >
        requires place { place_of domain.now ≡ L.place }
        requires rest { IsUnengaged L.place local }
        requires size { (1 ≤ S) × (S ≤ 225) }
        requires name { blank.name ≡ L.name }
        requires parts { (blank.parts ≡ L.parts) × (blank.parts ≡ shares) × (0 < shares) }
        requires last { L.last ≡ 18446744073709551615 }
        requires keys { ClonesAreSame K.is_clone }
        requires values { ClonesAreSame V.is_clone }
        ensures book { IfOk result (λ made. IsFreshBook (record { number = base.number; pairs = base.pairs.items }) 18446744073709551615 (misses_of local) made.0) }
        ensures root { IfOk result (λ made. cell_number made.1 < cell_count domain.now) }
        ensures shares { IfOk result (λ made. made.2.items ≡ base.number ∷ replicate (shares - 1) 0) }
        ensures cause { IfErr result (λ back. MayRefuseBase K.cmp base.pairs.items back.2.cause) }
        ensures pairs { IfErr result (λ back. back.2.pairs.items ≡ base.pairs.items) }
        ensures local { IfErr result (λ back. IsUnengaged L.place back.0) }
        ensures missed { IfErr result (λ back. misses_of back.0 ≡ misses_unbegun back.2.cause (misses_of local)) }
        ensures blank { IfErr result (λ back. back.1 ≡ blank) }
    {
        let BaseList { number, pairs } = base;
        let rising = rising_until(&pairs);
        if rising < pairs.len() {
            let cause = SharedBaseCause::NotAscending(rising);
            return Err((local, blank, SharedBaseRefused { cause, pairs }));
        }
        let mut local = local;
        match begun::<L, K, V, S>(alloc, domain, &mut local, shares, number, &pairs) {
            Ok((present, root, room)) => {
                let (mut ledger, mark) = blank.open::<L>();
                let cut = cut_counting(&mut ledger, mark, shares, number, room);
                let book = Book {
                    alloc,
                    local,
                    present,
                    history: History::beginning_with(alloc, Base::new(number, pairs)),
                    ledger,
                };
                Ok((book, root, cut))
            }
            Err(NewRefused::Memory) => {
                let cause = SharedBaseCause::Memory;
                Err((local, blank, SharedBaseRefused { cause, pairs }))
            }
            Err(NewRefused::NoSlot) => {
                let cause = SharedBaseCause::NoSlot;
                Err((local, blank, SharedBaseRefused { cause, pairs }))
            }
        }
    }

    /// The number of the base, and copies of the pairs of its list. Fails only if an allocation fails.
    pub fn base_list(&self) -> Result<BaseList<K, V>, AllocError>
        requires keys { ClonesAreSame K.is_clone }
        requires values { ClonesAreSame V.is_clone }
        ensures number { IfOk result (λ list. list.number ≡ self.now.base.number) }
        ensures pairs { IfOk result (λ list. list.pairs.items ≡ self.now.base.pairs) }
        ensures rising { IfOk result (λ list. IsAscending K.cmp list.pairs.items) }
        ensures last { IfOk result (λ list. list.number ≤ L.last) }
    {
        // what is asked here shows the proof that the number is at most the last one
        let _number = self.number();
        let (number, pairs) = self.history.base();
        let pairs = copied(self.alloc, pairs)?;
        Ok(BaseList { number, pairs })
    }
}

/// The version of a list in a place, a cell that names it, and room for shares.
type Begun<L, K, V, const S: usize> = (Present<K, V, S>, AtomicShared<Node<K, V>>, Vec<Share<L>>);

/// Places the version of clones of these pairs, whose keys ascend, has a cell of its own name it, and makes room for
/// `shares` shares. Where memory is refused, nothing was placed. Else the participant missed a slot or a cell, once, and
/// what was placed waits to be reclaimed.
fn begun<L: Naming, K: Clone + Ord, V: Clone, const S: usize>(
    alloc: Global,
    domain: &Domain<Node<K, V>>,
    local: &mut Local<Node<K, V>>,
    shares: usize,
    number: u64,
    pairs: &[(K, V)],
) -> Result<Begun<L, K, V, S>, NewRefused>
    requires home { home_of local.old ≡ place_of domain.now }
    requires hand { hand_of local.old ≡ [] }
    requires size { (1 ≤ S) × (S ≤ 225) }
    requires keys { ClonesAreSame K.is_clone }
    requires values { ClonesAreSame V.is_clone }
    requires rising { IsAscending K.cmp pairs.now }
    ensures place { IfOk result (λ made. made.0.place ≡ (place_of domain.now).0) }
    ensures number { IfOk result (λ made. made.0.version.number ≡ number) }
    ensures list { IfOk result (λ made. list_of made.0.version ≡ pairs.now) }
    ensures inside { IfOk result (λ made. cell_number made.1 < cell_count domain.now) }
    ensures none { IfOk result (λ made. made.2.items ≡ []) }
    ensures room { IfOk result (λ made. shares ≤ vec_capacity made.2) }
    ensures hand { hand_of local.new ≡ [] }
    ensures hit { OnOk result (misses_of local.new ≡ misses_of local.old) }
    ensures missed { IfErr result (λ why. misses_of local.new ≡ misses_without why (misses_of local.old)) }
    ensures same { IsStillButMisses local.old local.new }
{
    let Ok(room) = Vec::with_capacity(alloc, shares) else {
        return Err(NewRefused::Memory);
    };
    match begin_with::<K, V, S>(alloc, domain, local, number, pairs) {
        Ok((present, root)) => Ok((present, root, room)),
        Err(why) => {
            room.destroy_empty();
            Err(why)
        }
    }
}

/// Copies of pairs. Fails only if an allocation fails.
fn copied<K: Clone, V: Clone>(alloc: Global, pairs: &[(K, V)]) -> Result<Vec<(K, V)>, AllocError>
    requires keys { ClonesAreSame K.is_clone }
    requires values { ClonesAreSame V.is_clone }
    ensures { IfOk result (λ copy. copy.items ≡ pairs.now) }
{
    let mut copy = Vec::with_capacity(alloc, pairs.len())?;
    for pair in pairs {
        copy.push(copied_pair(&pair.0, &pair.1)?)?;
    }
    Ok(copy)
}

/// A copy of a pair. Fails only if an allocation fails.
fn copied_pair<K: Clone, V: Clone>(key: &K, value: &V) -> Result<(K, V), AllocError>
    requires keys { ClonesAreSame K.is_clone }
    requires values { ClonesAreSame V.is_clone }
    ensures { IfOk result (λ copy. copy ≡ (key.now, value.now)) }
{
    Ok((key.clone()?, value.clone()?))
}
