//! Refusals of a desk as errors.

ghost use Rattle.std.specs.Prelude.{◌≡◌, ◌↔◌, IfOk, IfErr, IsErr};
ghost use Rattle.local_index.specs.Desk.{IsRefusal, reply_of};

use crate::play::DeskReply;
use local_versions::Write;
use serial_history::Refused;
use thiserror::Error;

/// Why a desk did nothing.
#[derive(Clone, Debug, PartialEq, Eq, Drop, Error)]
pub enum DeskRefused<K, V> {
    /// No place is free for the session.
    #[error("no place is free for a session; the index is as it was")]
    NoPlace,
    /// The label has a session already.
    #[error("the label has a session already; the index is as it was")]
    Busy,
    /// The label has no session. It has the writes of a commit.
    #[error("the label has no session; the index is as it was")]
    NoSession(Vec<Write<K, V>>),
    /// The commit was refused.
    #[error(transparent)]
    Commit(#[from] Refused<K, V>),
    /// The number of the checkpoint is below that of the base, which this is.
    #[error("the history begins at number {0}; the index is as it was")]
    Behind(u64),
    /// The number of the checkpoint is above the present one, which this is.
    #[error("the present number is {0}; the index is as it was")]
    Ahead(u64),
}

impl<K, V> DeskReply<K, V> {
    /// The reply where something was done, and else the refusal as an error, which `?` passes on.
    pub fn into_result(self) -> Result<Self, DeskRefused<K, V>>
        ensures done { IfOk result (λ reply. reply ≡ self) }
        ensures refused { IfErr result (λ e. reply_of e ≡ self) }
        ensures which { IsErr result ↔ IsRefusal self }
    {
        match self {
            DeskReply::NoPlace => Err(DeskRefused::NoPlace),
            DeskReply::Busy => Err(DeskRefused::Busy),
            DeskReply::NoSession(writes) => Err(DeskRefused::NoSession(writes)),
            DeskReply::Refused(refused) => Err(DeskRefused::Commit(refused)),
            DeskReply::Behind(number) => Err(DeskRefused::Behind(number)),
            DeskReply::Ahead(number) => Err(DeskRefused::Ahead(number)),
            done => Ok(done),
        }
    }
}
