//! Opening a session, and why none is opened.

ghost use Rattle.std.specs.Prelude.{◌≡◌, ◌+◌, ◌≤◌, ◌<◌, ◌↔◌, [], IfOk, IfErr, IfSome, IfNone, IsNone, OnOk, OnErr, IsErrOf};
ghost use Rattle.sdd_domain.specs.Tokens.{place_of, home_of, own_of, born_of, cell_count, nest_of, nest_in, IsSame};
ghost use Rattle.shared_sessions.specs.Openings.{IsBelow, root_number};

use crate::root::Root;
use crate::session::SharedSession;
use sdd_domain::domain::Domain;
use sdd_domain::guard::Guard;
use sdd_domain::holds::Holds;
use sdd_domain::local::Local;
use shared_versions::Node;
use std::alloc::Global;
use thiserror::Error;

/// Why no session was opened. The participant has the same guards open as before.
#[derive(Clone, Copy, Debug, PartialEq, Eq, Error)]
pub enum OpenRefused {
    /// The participant has `2^32 - 1` guards open, as many as are counted. Nothing was loaded.
    #[error("the participant has as many guards open as are counted; no session is open")]
    Nested,
    /// The version that was loaded has this number, which is below the one that was asked for.
    #[error("the list has number {0}, below the one that was asked for; no session is open")]
    Earlier(u64),
    /// The root was found to name no version of segments of at most `S` pairs.
    #[error("the root names no version of such segments; no session is open")]
    NoVersion,
}

impl<K: Clone + Ord, V: Clone + Eq, const S: usize> SharedSession<K, V, S> {
    /// Opens a session of the participant: a guard, and the version that the root is found to name under it, by one load.
    /// It takes no memory.
    ///
    /// It is refused as `Nested` if and only if no more guards of the participant can be counted; as `NoVersion` where
    /// the root named no version of segments of at most `S` pairs; and as `Earlier` if and only if the number of the
    /// version that it loaded is below `at_least`, so 0 asks for nothing. Refused, the participant has as many guards
    /// open as before.
    pub fn open(
        alloc: Global,
        domain: &Domain<Node<K, V>>,
        root: Root<'_, Node<K, V>>,
        at_least: u64,
        local: &mut Local<Node<K, V>>,
    ) -> Result<Self, OpenRefused>
        requires home { home_of local.old ≡ place_of domain.now }
        requires inside { root_number root < cell_count domain.now }
        ensures number { IfOk result (λ s. at_least ≤ s.number) }
        ensures receipt { IfOk result (λ s. s.receipt ≡ record { number = s.number; reads = [] }) }
        ensures nest { IfOk result (λ s. s.nest ≡ nest_in local.new) }
        ensures opened { OnOk result ((own_of local.new).nesting ≡ (own_of local.old).nesting + 1) }
        ensures nested { IsErrOf result OpenRefused.Nested ↔ ((own_of local.old).nesting ≡ 4294967295) }
        ensures earlier { IfErr result (IsBelow at_least) }
        ensures closed { OnErr result ((own_of local.new).nesting ≡ (own_of local.old).nesting) }
        ensures inner { 0 < (own_of local.old).nesting → (born_of local.new ≡ born_of local.old) × (nest_in local.new ≡ nest_in local.old) }
        ensures same { IsSame local.old local.new }
    {
        let Some(guard) = one_more(domain, local) else {
            return Err(OpenRefused::Nested);
        };
        let loaded = root.cell.loaded(domain, &guard, local);
        match Self::of_loaded(guard, loaded, alloc, at_least) {
            Ok(session) => Ok(session),
            Err((guard, refused)) => {
                guard.close(domain, local);
                Err(refused)
            }
        }
    }
}

/// One more guard of the participant, where it can be counted.
fn one_more<T: Holds>(domain: &Domain<T>, local: &mut Local<T>) -> Option<Guard>
    requires home { home_of local.old ≡ place_of domain.now }
    ensures guard { IfSome result (λ g. nest_of g ≡ nest_in local.new) }
    ensures counted { IfSome result (λ _. (own_of local.new).nesting ≡ (own_of local.old).nesting + 1) }
    ensures when { IsNone result ↔ ((own_of local.old).nesting ≡ 4294967295) }
    ensures refused { IfNone result ((own_of local.new).nesting ≡ (own_of local.old).nesting) }
    ensures inner { 0 < (own_of local.old).nesting → (born_of local.new ≡ born_of local.old) × (nest_in local.new ≡ nest_in local.old) }
    ensures same { IsSame local.old local.new }
{
    match Guard::new(domain, local) {
        Ok(guard) => Some(guard),
        Err(_) => None,
    }
}
