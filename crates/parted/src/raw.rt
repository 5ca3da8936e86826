//! The raw pointers of this crate: all that makes, moves or follows an address. `raw/README.md` says what allows each step.
ghost use Rattle.std.specs.Prelude.{◌≡◌, ℕ, [], ◌∷◌};
ghost use Rattle.parted.specs.Owned.{deed_owned, seen_owned};

use crate::life::{Ended, Life, Pledge};
use std::alloc::Allocator;
use std::marker::Model;

/// A value that is read while life `life` is running. It can be copied, and dropped.
#[derive(Drop)]
pub struct Seen<T> {
    ptr: *const T,
    pub ghost value: { T },
    pub ghost life: { ℕ },
}

impl<T> Model for Seen<T> {
    ghost also_owns = { λ s. seen_owned T.row s.ptr s.value s.life };

    ghost also_shares = { λ s _ _. seen_owned T.row s.ptr s.value s.life };
}

/// The right to have a box back once life `life` is over, under which its value is read. It can't be dropped.
pub struct Deed<T, A: Allocator> {
    ptr: *mut T,
    alloc: A,
    pub ghost value: { T },
    pub ghost life: { ℕ },
}

impl<T, A: Allocator> Model for Deed<T, A> {
    ghost also_owns = { λ d. deed_owned (A.dealloc_token d.alloc) T.row d.ptr d.value d.life };
}

/// Lends the value of a box to a life, until it is over: whoever has a token of that life reads it. Takes no memory.
pub fn share<T: Drop, A: Allocator>(whole: Box<T, A>, life: &Life) -> (Deed<T, A>, Seen<T>)
    ensures deed { (result.0.value ≡ whole.value) × (result.0.life ≡ life.now.id) }
    ensures seen { (result.1.value ≡ whole.value) × (result.1.life ≡ life.now.id) }
{
    let (ptr, alloc) = Box::into_raw_with_allocator(whole);
    (Deed { ptr, alloc }, Seen { ptr })
}

impl<T, A: Allocator> Deed<T, A> {
    /// The box, once the life is over that its value was lent to.
    pub fn reclaim(self, ended: &Ended) -> Box<T, A>
        requires { ended.now.id ≡ self.life }
        ensures { result.value ≡ self.value }
    {
        let Deed { ptr, alloc } = self;
        unsafe { Box::from_raw(alloc, ptr) }
    }
}

impl<T> Seen<T> {
    /// The value, for as long as a token of the life is borrowed.
    pub fn get<'g>(&self, life: &'g Life) -> &'g T
        requires { self.now.life ≡ life.now.id }
        ensures { result.now ≡ self.now.value }
    {
        unsafe { &*self.ptr }
    }

    /// The same once more.
    pub fn copy(&self) -> Seen<T>
        ensures { result ≡ self.now }
    {
        Seen { ptr: self.ptr }
    }

    /// The same value under the life that the tokens of its own were pledged to.
    pub fn under(self, pledge: &Pledge) -> Seen<T>
        requires { self.life ≡ pledge.now.id }
        ensures value { result.value ≡ self.value }
        ensures life { result.life ≡ pledge.now.until }
    {
        let Seen { ptr } = self;
        Seen { ptr }
    }
}

unsafe impl<T: Sync> Send for Seen<T> {}

unsafe impl<T: Sync> Sync for Seen<T> {}

unsafe impl<T: Send, A: Allocator + Send> Send for Deed<T, A> {}
