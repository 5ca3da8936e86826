//! Reading what was loaded under a guard.

ghost use Rattle.std.specs.Prelude.{◌≡◌, ◌↔◌, IfOk, IfErr, IsOk, Some, option_copied};
ghost use Rattle.sdd_domain.specs.Pointers.{IsUnder};
ghost use Rattle.shared_versions.specs.Readers.{HasWidth, blocks_in, loaded_item, loaded_version};

use crate::lending::view_of;
use crate::node::{Node, Version};
use sdd_domain::guard::Guard;
use sdd_domain::pointer::Loaded;
use std::marker::Model;
use version_views::VersionView;

/// The version that a cell was found to name under a guard, for as long as the guard is borrowed; none where it named
/// nothing or no version.
pub fn version_at<'g, K: Ord, V>(
    guard: &'g Guard,
    at: &Loaded<Node<K, V>>,
) -> Option<&'g Version<K, V>>
    requires { IsUnder at.now guard.now }
    ensures { option_copied result ≡ loaded_version at.now }
{
    match node_at(guard, at) {
        Some(node) => node.version(),
        None => None,
    }
}

/// What a cell was found to name.
fn node_at<'g, K: Ord, V>(guard: &'g Guard, at: &Loaded<Node<K, V>>) -> Option<&'g Node<K, V>>
    requires { IsUnder at.now guard.now }
    ensures { option_copied result ≡ loaded_item at.now }
{
    at.as_ref(guard)
}

/// What was loaded under a guard and found to be a version whose segments have at most `S` pairs.
///
/// Contracts see what was loaded. It has no borrow of its own: a session keeps it beside the guard, and reads the same
/// version until the guard closes, whatever is published meanwhile.
#[derive(Drop)]
pub struct Reader<K: Ord, V, const S: usize> {
    root: Loaded<Node<K, V>>,
}

/// Invariant: specs/Readers.antt, HasWidth: it names a version of segments of at most `S` pairs.
impl<K: Ord, V, const S: usize> Model for Reader<K, V, S> {
    ghost use Rattle.sdd_domain.specs.declared.pointer.Loaded.{Loaded};
    ghost use Rattle.shared_versions.specs.declared.node.Node.{Node};
    ghost use Rattle.shared_versions.specs.Readers.{HasWidth, loaded_version};

    ghost Value = { Loaded (Node K V) };

    ghost view = { λ r. r.root };

    ghost invariant = { λ r. HasWidth S (loaded_version r.root) };
}

impl<K: Ord, V, const S: usize> Reader<K, V, S> {
    /// A reader of what was loaded under the guard, by one look at it; back where it is no such version.
    pub fn open(guard: &Guard, root: Loaded<Node<K, V>>) -> Result<Self, Loaded<Node<K, V>>>
        requires { IsUnder root guard.now }
        ensures reader { IfOk result (λ r. r ≡ root) }
        ensures back { IfErr result (λ r. r ≡ root) }
        ensures when { IsOk result ↔ HasWidth S (loaded_version root) }
    {
        match version_at(guard, &root) {
            Some(version) if version.width() == S => Ok(Reader { root }),
            _ => Err(root),
        }
    }

    /// The version.
    pub fn version<'g>(&self, guard: &'g Guard) -> &'g Version<K, V>
        requires { IsUnder self.now guard.now }
        ensures version { Some result.now ≡ loaded_version self.now }
        ensures width { result.now.width ≡ S }
    {
        match version_at(guard, &self.root) {
            Some(version) => version,
            None => unreachable!(),
        }
    }

    /// The version to be read: its look-ups, walks and counts.
    pub fn view<'g>(&self, guard: &'g Guard) -> VersionView<'g, K, V, Version<K, V>>
        requires { IsUnder self.now guard.now }
        ensures { result ≡ blocks_in (loaded_version self.now) }
    {
        view_of(self.version(guard))
    }

    /// What was loaded.
    pub fn into_loaded(self) -> Loaded<Node<K, V>>
        ensures { result ≡ self }
    {
        let Reader { root } = self;
        root
    }
}
