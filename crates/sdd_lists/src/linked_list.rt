//! What can be in a linked list.

ghost use Rattle.std.specs.Prelude.{◌≡◌, ℕ, Option, Some, IsSome};
ghost use Rattle.sdd_world.specs.Tokens.{shared_cell};

use sdd_world::cell::AtomicShared;

/// An item with a link: a cell that keeps the next item of a list, with a tag for the item itself.
///
/// The tag is `None` for a clear item, `First` for a marked one, and `Second` or `Both` for one that was deleted.
pub trait LinkedList: Sized {
    /// The cell of the link, while the item has it.
    ghost link: { Self → Option ℕ };

    /// The link of an item that still has it: always the same cell.
    fn link_ref(&self) -> &AtomicShared<Self>
        requires { IsSome (link self.now) }
        ensures { link self.now ≡ Some (shared_cell result.now) };
}
