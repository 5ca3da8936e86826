//! What the places, cells and participants of a `World` are used for, as clauses see it.

ghost use Rattle.std.specs.Prelude.{◌≡◌, ◌↔◌, IsTrue};
ghost use Rattle.sdd_table.specs.State.{is_used};

pub use sdd_plain::local_state::LocalState;
use sdd_plain::tag::Tag;

/// The use of a place: an item slot or a job place.
#[derive(Clone, Copy, PartialEq, Eq, Drop, Debug)]
pub enum Status {
    /// A slot without an item.
    Free,
    /// An item with one owner.
    Owned,
    /// An item with this many owners.
    Shared(u32),
    /// An item out as a raw pointer.
    Raw,
    /// An item that waits in a private bag since the count had this value, and the slot of what came into the bag behind it,
    /// 0 while nothing has.
    Collected(u64, u32),
    /// An item that waits in a bag of a participant.
    Retired,
    /// A job place without a job.
    Idle,
    /// A job that waits in a bag of a participant.
    Deferred,
}

impl Status {
    /// Whether an item is in the slot.
    pub(crate) fn has_item(self) -> bool
        ensures { result ≡ is_used self }
    {
        match self {
            Status::Free | Status::Idle | Status::Deferred => false,
            Status::Owned | Status::Shared(_) | Status::Raw => true,
            Status::Collected(_, _) | Status::Retired => true,
        }
    }
}

/// Whether a count of owners or of open guards is at its end, `2^32 - 1`: no more are counted, and the calls that would
/// add one refuse.
pub fn is_last(count: u32) -> bool
    ensures { IsTrue result ↔ (count ≡ 4294967295) }
{
    count == u32::MAX
}

/// The use of a cell: the slot of an item or none, and a tag.
#[derive(Clone, Copy, PartialEq, Eq, Drop, Debug)]
pub enum Cell {
    Free,
    /// Keeps the owner of an `Owned` item.
    OfOwned(Option<usize>, Tag),
    /// Keeps an owner of a `Shared` item.
    OfShared(Option<usize>, Tag),
    /// Names an item without owning it.
    OfRaw(Option<usize>, Tag),
}
