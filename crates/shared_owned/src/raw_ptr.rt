//! Pointers to items that are handed out as raw ones.

ghost use Rattle.std.specs.Prelude.{◌≡◌, None, IsTrue, ◌↔◌};

use sdd_plain::tag::Tag;
use std::marker::PhantomData;

/// A pointer to an item that is handed out as a raw one, or to nothing, with a tag. It is plain data: it names a slot, and
/// doesn't keep the item there. Pointers are equal if their slots and their tags are.
#[derive_where(Clone, Copy, PartialEq, Eq, Debug)]
pub struct RawPtr<T> {
    pub(crate) slot: Option<u32>,
    pub(crate) tag: Tag,
    of: PhantomData<T>,
}

/// The pointer to nothing, without a tag.
impl<T> Default for RawPtr<T> {
    ghost use Rattle.sdd_plain.specs.declared.tag.Tag.TheVariants as tags;
    ghost use Rattle.shared_owned.specs.Raw.{raw_slot, raw_tag};

    ghost is_default = { λ r. (raw_slot r ≡ None) × (raw_tag r ≡ tags.None) };

    fn default() -> RawPtr<T> {
        RawPtr::null()
    }
}

impl<T> RawPtr<T> {
    ghost use Rattle.shared_owned.specs.declared.raw_ptr.RawPtr.{RawPtr};
    ghost use Rattle.shared_owned.specs.Raw.{raw_slot, raw_tag, raw_word, IsWithin};

    /// A pointer to the item in this slot, or to nothing.
    pub(crate) fn to_slot(slot: Option<u32>, tag: Tag) -> RawPtr<T>
        ensures slot { raw_slot result ≡ slot }
        ensures tag { raw_tag result ≡ tag }
    {
        RawPtr {
            slot,
            tag,
            of: PhantomData,
        }
    }

    /// The pointer to nothing, without a tag.
    pub fn null() -> RawPtr<T>
        ensures slot { raw_slot result ≡ None }
        ensures tag { raw_tag result ≡ Tag.None }
    {
        RawPtr::to_slot(None, Tag::None)
    }

    /// Whether it is to nothing, whatever its tag.
    pub fn is_null(self) -> bool
        ensures { IsTrue result ↔ (raw_slot self ≡ None) }
    {
        self.slot.is_none()
    }

    /// Its tag.
    pub fn tag(self) -> Tag
        ensures { result ≡ raw_tag self }
    {
        self.tag
    }

    /// Replaces the tag; the pointee is unchanged.
    pub fn set_tag(&mut self, tag: Tag)
        ensures slot { raw_slot self.new ≡ raw_slot self.old }
        ensures tag { raw_tag self.new ≡ tag }
    {
        self.tag = tag;
    }

    /// Removes the tag; the pointee is unchanged.
    pub fn unset_tag(&mut self)
        ensures slot { raw_slot self.new ≡ raw_slot self.old }
        ensures tag { raw_tag self.new ≡ Tag.None }
    {
        self.tag = Tag::None;
    }

    /// The same pointer with another tag.
    pub fn with_tag(self, tag: Tag) -> RawPtr<T>
        ensures slot { raw_slot result ≡ raw_slot self }
        ensures tag { raw_tag result ≡ tag }
    {
        RawPtr::to_slot(self.slot, tag)
    }

    /// The same pointer without a tag.
    pub fn without_tag(self) -> RawPtr<T>
        ensures slot { raw_slot result ≡ raw_slot self }
        ensures tag { raw_tag result ≡ Tag.None }
    {
        self.with_tag(Tag::None)
    }

    /// The word of an `AtomicRaw` with this pointer.
    pub(crate) fn to_word(self) -> u64
        ensures { result ≡ raw_word self }
    {
        let code = match self.slot {
            Some(slot) => slot as u64 + 1,
            None => 0,
        };
        4 * code + u8::from(self.tag) as u64
    }

    /// The pointer that a word tells.
    pub(crate) fn of_word(word: u64) -> RawPtr<T>
        ensures { (p : RawPtr T) → IsWithin p → raw_word p ≡ word → result ≡ p }
    {
        let tag = match word % 4 {
            0 => Tag::None,
            1 => Tag::First,
            2 => Tag::Second,
            _ => Tag::Both,
        };
        let slot = match word / 4 {
            0 => None,
            code => u32::try_from(code - 1).ok(),
        };
        RawPtr::to_slot(slot, tag)
    }
}
