//! What came before the present list: it is cut off by checkpoints, lent as a feed, and rebuilt.

ghost use Rattle.std.specs.Prelude.{◌≡◌, ◌≤◌, ◌+◌, ◌*◌, ◌<◌, IfErr, IfOk, OnErr, OnOk, length};
ghost use Rattle.leaf_array.specs.Pairs.{IsAscending};
ghost use Rattle.leaf_array.specs.Values.{ClonesAreSame, EqualsAreSame};
ghost use Rattle.serial_history.specs.Serial.{RefusesSince, history_behind};
ghost use Rattle.local_index.specs.State.{Has, Checkpoints, Rebases, list_at};
ghost use Rattle.local_index.specs.Past.{CommitsKeeping, RefusesPast, Trims};

use crate::index::LocalIndex;
use serial_history::{Accepted, CheckpointRefused, Receipt, Refused, SinceRefused, Transaction};
use std::alloc::AllocError;
use thiserror::Error;
use tree_index::TreeIndex;
use version_views::Write;

/// Why there is no list of an older number. The index is as it was.
#[derive(Clone, Copy, Debug, PartialEq, Eq, Error)]
pub enum PastRefused {
    /// The number is below that of the base, or above the present one.
    #[error(transparent)]
    Outside(#[from] SinceRefused),
    /// A growth or a clone was refused.
    #[error("memory was refused; the index is as it was")]
    Memory,
}

impl<K: Clone + Ord, V: Clone + Eq, const S: usize> LocalIndex<K, V, S> {
    /// Makes the list of a number the base, in whose place the transactions up to it go: audits of lower numbers are
    /// `TooOld` then. Sessions and slots stay as they are. What it keeps is one copy of each pair of that list.
    ///
    /// It is refused as `Behind` where the number is below the base's, as `Ahead` where it is above the present one,
    /// and as `Memory`; each changes nothing. The base's own number is accepted without memory, and changes nothing.
    pub fn checkpoint(&mut self, upto: u64) -> Result<(), CheckpointRefused>
        requires keys { ClonesAreSame K.is_clone }
        requires values { ClonesAreSame V.is_clone }
        ensures { Checkpoints K.cmp self.old upto result self.new }
    {
        if !self.history.can_begin_at(upto)? {
            return Ok(());
        }
        match self.rebase_at(upto) {
            Ok(()) => Ok(()),
            Err(AllocError) => Err(CheckpointRefused::Memory),
        }
    }

    /// Cuts a long history: if more than twice `count` transactions are kept, the list of the number `count` below the
    /// present one becomes the base, as by [`checkpoint`](Self::checkpoint), so that `count` transactions are kept. Else
    /// nothing changes. So a history that is cut behind each commit costs a commit the copy of `n / count` pairs, for a
    /// list of `n`, on the average.
    ///
    /// Fails only if an allocation fails; the index is then as it was.
    pub fn keep_last(&mut self, count: u64) -> Result<(), AllocError>
        requires keys { ClonesAreSame K.is_clone }
        requires values { ClonesAreSame V.is_clone }
        ensures trims { OnOk result (Trims K.cmp count self.old self.new) }
        ensures refused { OnErr result (self.new ≡ self.old) }
    {
        let kept = self.history.len() as u64;
        if kept <= count || kept - count <= count {
            return Ok(());
        }
        let upto = self.present_number() - count;
        self.rebase_at(upto)
    }

    /// A [`commit`](Self::commit), behind which the history is cut by [`keep_last`](Self::keep_last): a policy of
    /// checkpoints, by which an index takes memory for its list and some `2 * count + 1` transactions, however long it is
    /// in use. If an allocation fails for the cut, the commit is still accepted, and the next one tries again.
    pub fn commit_keeping(
        &mut self,
        receipt: &Receipt<K, V>,
        writes: Vec<Write<K, V>>,
        count: u64,
    ) -> Result<Accepted, Refused<K, V>>
        requires keys { ClonesAreSame K.is_clone }
        requires values { ClonesAreSame V.is_clone }
        requires equal_keys { EqualsAreSame K.eq }
        requires equal_values { EqualsAreSame V.eq }
        ensures commits { CommitsKeeping K.cmp S self.old receipt.now.reads writes.items count result self.new }
        ensures sessions { self.new.places ≡ self.old.places }
        ensures few { OnOk result (self.new.used ≤ self.old.used + (2 * length writes.items + 1)) }
    {
        let accepted = self.commit(receipt, writes)?;
        // refused memory refuses nothing here
        let _cut = self.keep_last(count);
        Ok(accepted)
    }

    /// The number of the base, and the pairs of its list by rising keys. It takes no memory.
    pub fn base(&self) -> (u64, &[(K, V)])
        ensures number { result.0 ≡ self.now.base.number }
        ensures pairs { result.1.now ≡ self.now.base.pairs }
        ensures rising { IsAscending K.cmp result.1.now }
    {
        self.history.base()
    }

    /// The transactions behind a number, in order: those that lead from its list to the present one, with their writes and
    /// replies. What they read, contracts alone see. It takes no memory.
    ///
    /// It is refused as `TooOld` where the number is below the base's, since some of them were dropped, and as `Ahead` where it is
    /// above the present one. Whoever keeps a copy of the list asks for what came since, by the number of its copy.
    pub fn since(&self, number: u64) -> Result<&[Transaction<K, V>], SinceRefused>
        ensures told { IfOk result (λ rest. rest.now ≡ history_behind self.now.base self.now.history number) }
        ensures has { IfOk result (λ _. Has self.now number) }
        ensures refused { IfErr result (RefusesSince self.now.base self.now.history number) }
    {
        self.history.since(number)
    }

    /// The list of an older number, or of the present one, rebuilt as an audit does: a copy that takes no slot, and stays as
    /// it is. A query of it is answered by [`answer`](crate::ordered_view::answer), and all else by the tree's own calls.
    ///
    /// It is refused as `Outside` where the history has no such list, before any memory is asked for, and as `Memory`.
    pub fn past(&self, number: u64) -> Result<TreeIndex<K, V>, PastRefused>
        requires keys { ClonesAreSame K.is_clone }
        requires values { ClonesAreSame V.is_clone }
        ensures list { IfOk result (λ list. list.pairs ≡ list_at K.cmp self.now number) }
        ensures has { IfOk result (λ _. Has self.now number) }
        ensures refused { IfErr result (RefusesPast self.now number) }
    {
        if let Err(why) = self.since(number) {
            return Err(PastRefused::Outside(why));
        }
        match self.rebuild_at(number) {
            Ok(list) => Ok(list),
            Err(AllocError) => Err(PastRefused::Memory),
        }
    }

    // Makes the list of a number the base. All memory is had before anything changes.
    fn rebase_at(&mut self, upto: u64) -> Result<(), AllocError>
        requires number { Has self.old upto }
        requires keys { ClonesAreSame K.is_clone }
        requires values { ClonesAreSame V.is_clone }
        ensures rebases { OnOk result (Rebases K.cmp self.old upto self.new) }
        ensures refused { OnErr result (self.new ≡ self.old) }
    {
        let list = self.rebuild_at(upto)?;
        self.history.begin_at(self.alloc, upto, &list)
    }
}
