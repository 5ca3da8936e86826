//! What the tag of a link says of its entry.

ghost use Rattle.std.specs.Prelude.{◌≡◌, ◌≤◌, ◌↔◌, IsTrue};
ghost use Rattle.sdd_plain.specs.Epochs.{tag_number};
ghost use Rattle.shared_lists.specs.Entries.{mark_number};

use sdd_plain::tag::Tag;

/// Whether the entry is clear.
pub(crate) fn tells_clear(tag: Tag) -> bool
    ensures { IsTrue result ↔ (tag_number tag ≡ 0) }
{
    matches!(tag, Tag::None)
}

/// Whether it is marked.
pub(crate) fn tells_marked(tag: Tag) -> bool
    ensures { IsTrue result ↔ (tag_number tag ≡ 1) }
{
    matches!(tag, Tag::First)
}

/// Whether it was deleted.
pub(crate) fn tells_deleted(tag: Tag) -> bool
    ensures { IsTrue result ↔ (2 ≤ tag_number tag) }
{
    matches!(tag, Tag::Second | Tag::Both)
}

/// The tag that a push leaves in the link of the entry that it pushes behind.
pub(crate) fn tag_of(mark: bool) -> Tag
    ensures { tag_number result ≡ mark_number mark }
{
    if mark { Tag::First } else { Tag::None }
}
