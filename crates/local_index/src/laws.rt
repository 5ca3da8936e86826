//! Laws of the model, which users of an index may rest on.

ghost use Rattle.local_index.specs.Receipts.{CheckpointsKeepReceipts, CheckpointsKeepSessions, CommitsKeepReceipts, CommitsKeepSessions, OpeningsAreOwn, OthersKeepReceipts, OthersKeepSessions, OwnReceiptsAuditYes, ReadsKeepSessions};
ghost use Rattle.local_index.specs.Conflicts.{ChangedRangeDiffers, FirstPairsHold, HeldIsNoConflict, LastPairsHold, WrittenBackHolds};
ghost use Rattle.local_index.specs.Feeds.{FeedLeadsToPresent};

/// A receipt of an index's own session audits `Yes`, memory aside, whatever is committed
/// meanwhile, or `TooOld` where a checkpoint has passed its number: a session is the index's own when it opens, and each
/// read keeps it so, and so do a commit, a checkpoint, and every call that leaves base, history and its place.
pub fn own_receipts_audit_yes<K: Ord, V>()
    ensures opens { OpeningsAreOwn V K.cmp }
    ensures reads { ReadsKeepSessions V K.cmp }
    ensures commits { CommitsKeepSessions V K.cmp }
    ensures commits_receipts { CommitsKeepReceipts V K.cmp }
    ensures checkpoints { CheckpointsKeepSessions V K.cmp }
    ensures checkpoints_receipts { CheckpointsKeepReceipts V K.cmp }
    ensures others { OthersKeepSessions V K.cmp }
    ensures others_receipts { OthersKeepReceipts V K.cmp }
    ensures audits { OwnReceiptsAuditYes V K.cmp }
{}

/// Reads that hold of the present list are no conflict, whatever was committed since they were made:
/// so a value that was changed and changed back is none.
pub fn reads_that_hold_are_no_conflict<K: Ord, V>()
    ensures written_back { WrittenBackHolds V K.cmp }
    ensures no_conflict { HeldIsNoConflict V K.cmp }
{}

/// A pair that entered a recorded range is a conflict, and so is one that left it: where one of two
/// lists has a key within the bounds and the other hasn't, what one answers doesn't hold of the other.
pub fn a_changed_range_is_a_conflict<K: Ord, V>()
    ensures { ChangedRangeDiffers V K.cmp }
{}

/// Whatever is written behind the first pairs of a recorded range, or before its last ones, is no conflict: the answer of a list is
/// that of each that begins, or ends, with the same pairs, if these pairs have that many of the range.
pub fn pairs_beyond_a_part_are_no_conflict<K: Ord, V>()
    ensures first { FirstPairsHold V K.cmp }
    ensures last { LastPairsHold V K.cmp }
{}

/// The transactions behind a number lead from its list to the present one, so who has that list and makes their writes, one
/// transaction after the other, has the present list.
pub fn a_feed_leads_to_the_present_list<K: Ord, V>()
    ensures { FeedLeadsToPresent V K.cmp }
{}
