//! Private bags: what is retired into one is reclaimed by its owner, and by nobody else.

use sdd_table::PrivateBag;
use std::marker::PhantomData;

/// Items that wait beside the bags of the participants, with the count at which each was collected. It must be consumed,
/// by `world::private_collector::hand_over`.
pub struct PrivateCollector<T> {
    pub(crate) waiting: PrivateBag,
    pub(crate) of: PhantomData<T>,
}
