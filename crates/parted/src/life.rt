//! Lives: lifetimes that begin and end by calls, and the tokens that show that one is still running.
//!
//! Nothing here has bytes: lives, their ends and pledges cost nothing when they run.
ghost use Rattle.std.specs.Prelude.{◌≡◌, ℕ, ◌+◌, ◌-◌, ◌^◌, ◌<◌, ◌≤◌, [], ◌∷◌};
ghost use Rattle.parted.specs.Owned.{tokens, over, life_shared, pledge_owned};

use std::marker::Model;

/// Tokens of one life. A life has `2^63` of them, and ends by all of them: while one is held it can't end.
///
/// Tokens can't be dropped. `id` is the number of the life, and `count` how many tokens these are.
pub struct Life {
    pub ghost id: { ℕ },
    pub ghost count: { ℕ },
}

impl Model for Life {
    ghost also_owns = { λ l. tokens l.id l.count };

    ghost also_shares = { λ l _ κ. life_shared l.id κ };
}

/// The knowledge that a life is over, the one whose number is `id`.
#[derive(Drop)]
pub struct Ended {
    pub ghost id: { ℕ },
}

impl Model for Ended {
    ghost also_owns = { λ e. over e.id };

    ghost also_shares = { λ e _ _. over e.id };
}

/// `count` tokens of life `id`, which are away until life `until` is over. They can't be dropped.
pub struct Pledge {
    pub ghost id: { ℕ },
    pub ghost count: { ℕ },
    pub ghost until: { ℕ },
}

impl Model for Pledge {
    ghost also_owns = { λ p. pledge_owned p.id p.count p.until };

    ghost also_shares = { λ p _ _. life_shared p.id (p.until ∷ []) };
}

impl Life {
    /// Begins a life, with all of its tokens.
    pub fn begin() -> Life
        ensures { result.count ≡ 2 ^ 63 }
    {
        Life {}
    }

    /// Takes `n` tokens out of these. At least one is taken, and one stays.
    pub fn split(&mut self, n: u64) -> Life
        requires { (0 < n) × (n < self.old.count) × (self.old.count ≤ 2 ^ 63) }
        ensures rest { self.new ≡ record self.old { count = self.old.count - n } }
        ensures taken { result ≡ record self.old { count = n } }
    {
        let _ = n;
        Life {}
    }

    /// Takes one token out of these.
    pub fn split_one(&mut self) -> Life
        requires { (1 < self.old.count) × (self.old.count ≤ 2 ^ 63) }
        ensures rest { self.new ≡ record self.old { count = self.old.count - 1 } }
        ensures taken { result ≡ record self.old { count = 1 } }
    {
        self.split(1)
    }

    /// Puts other tokens of the same life to these.
    pub fn join(&mut self, other: Life)
        requires { (other.id ≡ self.old.id) × (0 < self.old.count) × (self.old.count + other.count ≤ 2 ^ 63) }
        ensures { self.new ≡ record self.old { count = self.old.count + other.count } }
    {
        let Life {} = other;
    }

    /// Ends the life, by all of its tokens.
    pub fn end(self) -> Ended
        requires { self.count ≡ 2 ^ 63 }
        ensures { result.id ≡ self.id }
    {
        let Life {} = self;
        Ended {}
    }

    /// Gives these tokens away until another life is over. Until then theirs lasts.
    pub fn pledge(self, until: &Life) -> Pledge
        ensures kept { (result.id ≡ self.id) × (result.count ≡ self.count) }
        ensures until { result.until ≡ until.now.id }
    {
        let Life {} = self;
        Pledge {}
    }
}

impl Pledge {
    /// The tokens, once the other life is over.
    pub fn recover(self, ended: &Ended) -> Life
        requires { ended.now.id ≡ self.until }
        ensures { (result.id ≡ self.id) × (result.count ≡ self.count) }
    {
        let Pledge {} = self;
        Life {}
    }
}

unsafe impl Send for Life {}

unsafe impl Sync for Life {}

unsafe impl Send for Ended {}

unsafe impl Sync for Ended {}

unsafe impl Send for Pledge {}

unsafe impl Sync for Pledge {}
