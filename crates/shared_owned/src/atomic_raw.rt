//! Words with a raw pointer.

ghost use Rattle.std.specs.Prelude.{◌≡◌, IfOk, Some, Bool, IsTrue};
ghost use Rattle.shared_owned.specs.declared.raw_ptr.RawPtr.{RawPtr};

use crate::raw_ptr::RawPtr;
use sdd_plain::tag::Tag;
use std::marker::PhantomData;
use std::sync::atomic::{AtomicU64, Ordering};

/// How often a call tries again: each time others were faster.
const TRIES: u64 = u64::MAX;

/// A word with a raw pointer, which threads read and write by `&`. It owns nothing. What another thread wrote is known to no
/// clause.
pub struct AtomicRaw<T> {
    word: AtomicU64,
    of: PhantomData<T>,
}

/// A word owns nothing.
impl<T> Drop for AtomicRaw<T> {
    fn drop(self) {
        let AtomicRaw { word: _, of: _ } = self;
    }
}

impl<T> AtomicRaw<T> {
    /// A word with this pointer.
    pub fn new(pointer: RawPtr<T>) -> AtomicRaw<T> {
        AtomicRaw {
            word: AtomicU64::new(pointer.to_word()),
            of: PhantomData,
        }
    }

    /// A word with the pointer to nothing, without a tag.
    pub fn null() -> AtomicRaw<T> {
        AtomicRaw::new(RawPtr::null())
    }

    /// Whether it is to nothing, whatever its tag.
    pub fn is_null(&self) -> bool {
        self.load().is_null()
    }

    /// The tag.
    pub fn tag(&self) -> Tag {
        self.load().tag()
    }

    /// The pointer.
    pub fn load(&self) -> RawPtr<T> {
        RawPtr::of_word(self.word.load(Ordering::SeqCst))
    }

    /// Writes a pointer.
    pub fn store(&self, pointer: RawPtr<T>) {
        self.word.store(pointer.to_word(), Ordering::SeqCst);
    }

    /// Writes a pointer, and gives the one before, in one step.
    pub fn swap(&self, pointer: RawPtr<T>) -> RawPtr<T> {
        RawPtr::of_word(self.word.swap(pointer.to_word(), Ordering::SeqCst))
    }

    /// Writes `new` where the word has `current`, slot and tag, in one step: `current`. Else the pointer that was found.
    pub fn compare_exchange(
        &self,
        current: RawPtr<T>,
        new: RawPtr<T>,
    ) -> Result<RawPtr<T>, RawPtr<T>>
        ensures { IfOk result (λ old. old ≡ current) }
    {
        let (from, to) = (current.to_word(), new.to_word());
        let tried = self
            .word
            .compare_exchange(from, to, Ordering::SeqCst, Ordering::SeqCst);
        match tried {
            Ok(_) => Ok(current),
            Err(found) => Err(RawPtr::of_word(found)),
        }
    }

    /// As `compare_exchange`: it fails for no other reason.
    pub fn compare_exchange_weak(
        &self,
        current: RawPtr<T>,
        new: RawPtr<T>,
    ) -> Result<RawPtr<T>, RawPtr<T>>
        ensures { IfOk result (λ old. old ≡ current) }
    {
        self.compare_exchange(current, new)
    }

    /// Writes what `f` answers to the pointer that is found, and gives that, in one step. Where `f` answers none, the pointer
    /// that it was asked of is refused; so is the last one that was found, after `2^64 - 1` tries at each of which others
    /// were faster.
    pub fn fetch_update<F: Fn(RawPtr<T>) -> Option<RawPtr<T>>>(
        &self,
        f: F,
    ) -> Result<RawPtr<T>, RawPtr<T>>
        requires callable { F.IsAlwaysCallable f }
        ensures asked { IfOk result (λ old. (new : RawPtr T) × F.post f old (Some new)) }
    {
        let mut found = self.load();
        for _ in 0..TRIES {
            let Some(new) = f(found) else {
                return Err(found);
            };
            match self.compare_exchange(found, new) {
                Ok(old) => return Ok(old),
                Err(now) => found = now,
            }
        }
        Err(found)
    }

    /// Sets the tag, in one step, where `f` answers true of the pointer that is found: whether it did. The slot stays.
    pub fn update_tag_if<F: Fn(RawPtr<T>) -> bool>(&self, tag: Tag, f: F) -> bool
        requires callable { F.IsAlwaysCallable f }
        ensures asked { (r : RawPtr T) × (b : Bool) × F.post f r b × (IsTrue result → IsTrue b) }
    {
        let mut found = self.load();
        for _ in 0..TRIES {
            if !f(found) {
                return false;
            }
            match self.compare_exchange(found, found.with_tag(tag)) {
                Ok(_) => return true,
                Err(now) => found = now,
            }
        }
        f(found) && self.compare_exchange(found, found.with_tag(tag)).is_ok()
    }
}
