//! A guard, and the version that was loaded under it.

ghost use Rattle.std.specs.Prelude.{◌≡◌, ◌↔◌, IfOk, IfErr, IsOk, Some};
ghost use Rattle.sdd_domain.specs.Pointers.{IsUnder};
ghost use Rattle.sdd_domain.specs.Tokens.{nest_of};
ghost use Rattle.shared_versions.specs.Readers.{HasWidth, blocks_in, loaded_version, reading_of};

use crate::lending::view_of;
use crate::node::{Node, Version};
use crate::reader::Reader;
use sdd_domain::guard::Guard;
use sdd_domain::pointer::Loaded;
use std::marker::Model;
use version_views::VersionView;

/// Reads the version that was loaded under its guard, whatever is published meanwhile.
///
/// Contracts see the nest of its guard, and the version. It must be consumed by `into_guard`.
pub struct Session<K: Ord, V, const S: usize> {
    guard: Guard,
    reader: Reader<K, V, S>,
}

/// Invariant: what the reader reads is read under the guard.
impl<K: Ord, V, const S: usize> Model for Session<K, V, S> {
    ghost use Rattle.sdd_domain.specs.Pointers.{IsUnder};
    ghost use Rattle.shared_versions.specs.Readers.{Reading, reading_of};

    ghost Value = { Reading K V };

    ghost view = { λ s. reading_of s.guard s.reader };

    ghost invariant = { λ s. IsUnder s.reader s.guard };
}

impl<K: Ord, V, const S: usize> Session<K, V, S> {
    /// A session of what was loaded under the guard, by one look at it; both are returned if it is no version whose segments
    /// have at most `S` pairs.
    pub fn open(guard: Guard, root: Loaded<Node<K, V>>) -> Result<Self, (Guard, Loaded<Node<K, V>>)>
        requires { IsUnder root guard }
        ensures session { IfOk result (λ s. s ≡ reading_of guard root) }
        ensures back { IfErr result (λ b. (b.0 ≡ guard) × (b.1 ≡ root)) }
        ensures when { IsOk result ↔ HasWidth S (loaded_version root) }
    {
        match Reader::open(&guard, root) {
            Ok(reader) => Ok(Session { guard, reader }),
            Err(root) => Err((guard, root)),
        }
    }

    /// The version.
    pub fn version(&self) -> &Version<K, V>
        ensures version { Some result.now ≡ self.now.version }
        ensures width { result.now.width ≡ S }
    {
        self.reader.version(&self.guard)
    }

    /// The version to be read: its look-ups, walks and counts.
    pub fn view(&self) -> VersionView<'_, K, V, Version<K, V>>
        ensures { result ≡ blocks_in self.now.version }
    {
        view_of(self.version())
    }

    /// The guard, to be closed.
    pub fn into_guard(self) -> Guard
        ensures { nest_of result ≡ self.nest }
    {
        let Session { guard, reader: _ } = self;
        guard
    }
}
