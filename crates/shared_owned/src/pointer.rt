//! Pointers to items with one owner alone.

ghost use Rattle.std.specs.Prelude.{◌≡◌, None, option_copied, IsTrue, ◌↔◌};

use sdd_domain::pointer::Ptr;
use sdd_plain::tag::Tag;

/// A pointer to an item with one owner alone, or to nothing, with a tag, for as long as the guard is borrowed under which it
/// was loaded. It gives no owner. Pointers are equal where they are to the item in one slot, or both to nothing, and their
/// tags are equal.
#[derive_where(Clone, Copy, PartialEq, Eq)]
pub struct OwnedPtr<'g, T> {
    pub(crate) of: Ptr<'g, T>,
}

/// The pointer to nothing, without a tag.
impl<'g, T> Default for OwnedPtr<'g, T> {
    ghost use Rattle.sdd_plain.specs.declared.tag.Tag.TheVariants as tags;
    ghost use Rattle.shared_owned.specs.Alone.{pointer_slot, pointer_tag};

    ghost is_default = { λ r. (pointer_slot r ≡ None) × (pointer_tag r ≡ tags.None) };

    fn default() -> OwnedPtr<'g, T> {
        OwnedPtr::null()
    }
}

impl<'g, T> OwnedPtr<'g, T> {
    ghost use Rattle.shared_owned.specs.Alone.{pointer_slot, pointer_tag, pointer_item};

    /// The pointer to nothing, without a tag.
    pub fn null() -> OwnedPtr<'g, T>
        ensures slot { pointer_slot result ≡ None }
        ensures item { pointer_item result ≡ None }
        ensures tag { pointer_tag result ≡ Tag.None }
    {
        OwnedPtr { of: Ptr::null() }
    }

    /// Whether it is to nothing, whatever its tag.
    pub fn is_null(self) -> bool
        ensures { IsTrue result ↔ (pointer_slot self.entry ≡ None) }
    {
        self.of.is_null()
    }

    /// The slot of the item, below the place's count of them. No other item is in it while the pointer is there.
    pub fn slot(self) -> Option<usize>
        ensures { result ≡ pointer_slot self.entry }
    {
        self.of.slot()
    }

    /// The item.
    pub fn as_ref(self) -> Option<&'g T>
        ensures { option_copied result ≡ pointer_item self.entry }
    {
        self.of.as_ref()
    }

    /// Its tag.
    pub fn tag(self) -> Tag
        ensures { result ≡ pointer_tag self.entry }
    {
        self.of.tag()
    }

    /// Replaces the tag; the pointee is unchanged.
    pub fn set_tag(&mut self, tag: Tag)
        ensures slot { pointer_slot self.new ≡ pointer_slot self.old }
        ensures item { pointer_item self.new ≡ pointer_item self.old }
        ensures tag { pointer_tag self.new ≡ tag }
    {
        self.of.set_tag(tag);
    }

    /// Removes the tag; the pointee is unchanged.
    pub fn unset_tag(&mut self)
        ensures slot { pointer_slot self.new ≡ pointer_slot self.old }
        ensures item { pointer_item self.new ≡ pointer_item self.old }
        ensures tag { pointer_tag self.new ≡ Tag.None }
    {
        self.of.unset_tag();
    }

    /// The same pointer with another tag.
    pub fn with_tag(self, tag: Tag) -> OwnedPtr<'g, T>
        ensures slot { pointer_slot result ≡ pointer_slot self.entry }
        ensures item { pointer_item result ≡ pointer_item self.entry }
        ensures tag { pointer_tag result ≡ tag }
    {
        OwnedPtr {
            of: self.of.with_tag(tag),
        }
    }

    /// The same pointer without a tag.
    pub fn without_tag(self) -> OwnedPtr<'g, T>
        ensures slot { pointer_slot result ≡ pointer_slot self.entry }
        ensures item { pointer_item result ≡ pointer_item self.entry }
        ensures tag { pointer_tag result ≡ Tag.None }
    {
        self.with_tag(Tag::None)
    }
}
