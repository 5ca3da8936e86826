//! Pointers to items: plain data, a slot or none, and a tag.

ghost use Rattle.std.specs.Prelude.{◌≡◌, ℕ, Option, IsTrue, None, ◌↔◌};
ghost use Rattle.sdd_world.specs.Tokens.{ptr_slot, ptr_tag, raw_slot, raw_tag};

use crate::tag::Tag;
pub use sdd_table::loaded::Loaded;
use std::marker::PhantomData;

/// Where an item was found, or null, with a tag. Pointers are equal where slot and tag both are.
#[derive_where(Clone, Copy, PartialEq, Eq)]
pub struct Ptr<'g, T> {
    pub(crate) slot: Option<usize>,
    pub(crate) tag: Tag,
    pub(crate) of: PhantomData<&'g T>,
}

/// Where an item is that is out as a raw pointer, or null, with a tag. They are equal where slot and tag both are.
#[derive_where(Clone, Copy, PartialEq, Eq)]
pub struct RawPtr<T> {
    pub(crate) slot: Option<usize>,
    pub(crate) tag: Tag,
    pub(crate) of: PhantomData<T>,
}

/// What only this crate has: with it alone a pointer is made of a slot.
pub struct Finder {
    pub(crate) own: (),
}

mod sealed {
    /// Implemented in this crate alone, so that `Ptr` stays the one type that is made of what was found.
    pub trait Sealed {}
}

impl<'g, T> sealed::Sealed for Ptr<'g, T> {}

/// Pointers that a call makes of what it found, to lend them to a closure. `Ptr` alone is one, and only the calls of this
/// crate make them: nobody else has a `Finder`.
pub trait Found<T>: Sized + sealed::Sealed {
    ghost use Rattle.sdd_table.specs.declared.tag.Tag.{Tag};

    /// The slot that it names, or none, and its tag.
    ghost names: { Self → Option ℕ };

    ghost tagged: { Self → Tag };

    /// The pointer to what a call found. A user can't call it.
    fn found(slot: Option<usize>, tag: Tag, finder: Finder) -> Self
        ensures names { names result ≡ slot }
        ensures tagged { tagged result ≡ tag };
}

impl<'g, T> Found<T> for Ptr<'g, T> {
    ghost names = { λ r. ptr_slot r };

    ghost tagged = { λ r. ptr_tag r };

    fn found(slot: Option<usize>, tag: Tag, finder: Finder) -> Ptr<'g, T> {
        let Finder { own: () } = finder;
        Ptr {
            slot,
            tag,
            of: PhantomData,
        }
    }
}

/// The pointer to nothing, without a tag.
impl<'g, T> Default for Ptr<'g, T> {
    ghost use Rattle.sdd_table.specs.declared.tag.Tag.TheVariants as tags;

    ghost is_default = { λ r. (ptr_slot r ≡ None) × (ptr_tag r ≡ tags.None) };

    fn default() -> Ptr<'g, T> {
        Ptr::null()
    }
}

/// The pointer to nothing, without a tag.
impl<T> Default for RawPtr<T> {
    ghost use Rattle.sdd_table.specs.declared.tag.Tag.TheVariants as tags;

    ghost is_default = { λ r. (raw_slot r ≡ None) × (raw_tag r ≡ tags.None) };

    fn default() -> RawPtr<T> {
        RawPtr::null()
    }
}

impl<'g, T> Ptr<'g, T> {
    /// The pointer to nothing, without a tag.
    pub fn null() -> Ptr<'g, T>
        ensures slot { ptr_slot result ≡ None }
        ensures tag { ptr_tag result ≡ Tag.None }
    {
        Ptr {
            slot: None,
            tag: Tag::None,
            of: PhantomData,
        }
    }

    /// Whether it points to nothing, whatever its tag.
    pub fn is_null(self) -> bool
        ensures { IsTrue result ↔ (ptr_slot self.entry ≡ None) }
    {
        self.slot.is_none()
    }

    pub fn tag(self) -> Tag
        ensures { result ≡ ptr_tag self.entry }
    {
        self.tag
    }

    pub fn set_tag(&mut self, tag: Tag)
        ensures slot { ptr_slot self.new ≡ ptr_slot self.old }
        ensures tag { ptr_tag self.new ≡ tag }
    {
        self.tag = tag;
    }

    pub fn unset_tag(&mut self)
        ensures slot { ptr_slot self.new ≡ ptr_slot self.old }
        ensures tag { ptr_tag self.new ≡ Tag.None }
    {
        self.tag = Tag::None;
    }

    /// The same pointer with another tag.
    pub fn with_tag(self, tag: Tag) -> Ptr<'g, T>
        ensures slot { ptr_slot result ≡ ptr_slot self.entry }
        ensures tag { ptr_tag result ≡ tag }
    {
        Ptr {
            slot: self.slot,
            tag,
            of: PhantomData,
        }
    }

    /// The same pointer without a tag.
    pub fn without_tag(self) -> Ptr<'g, T>
        ensures slot { ptr_slot result ≡ ptr_slot self.entry }
        ensures tag { ptr_tag result ≡ Tag.None }
    {
        self.with_tag(Tag::None)
    }
}

impl<T> RawPtr<T> {
    /// The pointer to nothing, without a tag.
    pub fn null() -> RawPtr<T>
        ensures slot { raw_slot result ≡ None }
        ensures tag { raw_tag result ≡ Tag.None }
    {
        RawPtr {
            slot: None,
            tag: Tag::None,
            of: PhantomData,
        }
    }

    /// Whether it points to nothing, whatever its tag.
    pub fn is_null(self) -> bool
        ensures { IsTrue result ↔ (raw_slot self ≡ None) }
    {
        self.slot.is_none()
    }

    pub fn tag(self) -> Tag
        ensures { result ≡ raw_tag self }
    {
        self.tag
    }

    pub fn set_tag(&mut self, tag: Tag)
        ensures slot { raw_slot self.new ≡ raw_slot self.old }
        ensures tag { raw_tag self.new ≡ tag }
    {
        self.tag = tag;
    }

    pub fn unset_tag(&mut self)
        ensures slot { raw_slot self.new ≡ raw_slot self.old }
        ensures tag { raw_tag self.new ≡ Tag.None }
    {
        self.tag = Tag::None;
    }

    /// The same pointer with another tag.
    pub fn with_tag(self, tag: Tag) -> RawPtr<T>
        ensures slot { raw_slot result ≡ raw_slot self }
        ensures tag { raw_tag result ≡ tag }
    {
        RawPtr {
            slot: self.slot,
            tag,
            of: PhantomData,
        }
    }

    /// The same pointer without a tag.
    pub fn without_tag(self) -> RawPtr<T>
        ensures slot { raw_slot result ≡ raw_slot self }
        ensures tag { raw_tag result ≡ Tag.None }
    {
        self.with_tag(Tag::None)
    }
}
