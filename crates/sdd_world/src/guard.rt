//! Guards of a place of one thread.

ghost use Rattle.std.specs.Prelude.{◌≡◌};
ghost use Rattle.sdd_world.specs.Tokens.{guard_participant};

/// An open guard of a participant. It must be consumed by `world::guard::close`.
pub struct WorldGuard {
    pub(crate) participant: usize,
}

impl WorldGuard {
    /// The participant whose guard it is.
    pub fn participant(&self) -> usize
        ensures { result ≡ guard_participant self.now }
    {
        self.participant
    }
}
