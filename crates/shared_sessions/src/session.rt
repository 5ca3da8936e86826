//! A session, and the receipt that it keeps.

ghost use Rattle.std.specs.Prelude.{◌≡◌, ◌≤◌, ◌<◌, ◌↔◌, IfOk, IfErr, IsOk};
ghost use Rattle.sdd_domain.specs.Pointers.{IsUnder};
ghost use Rattle.sdd_domain.specs.Tokens.{place_of, home_of, own_of, born_of, nest_in, closed, IsSame};
ghost use Rattle.shared_versions.specs.Readers.{HasWidth, loaded_version, reading_of};
ghost use Rattle.shared_sessions.specs.Sessions.{number_in, opened_on};
ghost use Rattle.shared_sessions.specs.Openings.{RefusedFor};

use crate::opening::OpenRefused;
use sdd_domain::domain::Domain;
use sdd_domain::guard::Guard;
use sdd_domain::local::Local;
use sdd_domain::pointer::Loaded;
use serial_history::{Receipt, Seq};
use shared_versions::{Node, Session};
use std::alloc::Global;
use std::marker::Model;

/// An open session: it reads the list of the version that it loaded, until it is closed, and keeps what it recorded.
///
/// Contracts see the nest of its guard, the number and the list of its version, and its receipt. It must be consumed by
/// `close`, with the participant that opened it.
pub struct SharedSession<K: Ord, V, const S: usize> {
    pub(crate) session: Session<K, V, S>,
    pub(crate) receipt: Receipt<K, V>,
    // where the answers and the receipt have their memory from
    pub(crate) alloc: Global,
}

/// Invariant: the receipt has the number of the version.
impl<K: Ord, V, const S: usize> Model for SharedSession<K, V, S> {
    ghost use Rattle.std.specs.Prelude.{◌≡◌};
    ghost use Rattle.shared_sessions.specs.Sessions.{OpenedSession, number_in, session_of};

    ghost Value = { OpenedSession K V };

    ghost view = { λ s. session_of s.session s.receipt };

    ghost invariant = { λ s. s.receipt.number ≡ number_in s.session.version };
}

impl<K: Clone + Ord, V: Clone + Eq, const S: usize> SharedSession<K, V, S> {
    /// A session of what was loaded under the guard, by one look at it. It is refused if that is no version with segments of
    /// at most `S` pairs, and else if its number is below `at_least`. A refusal returns the guard.
    pub fn of_loaded(
        guard: Guard,
        root: Loaded<Node<K, V>>,
        alloc: Global,
        at_least: u64,
    ) -> Result<Self, (Guard, OpenRefused)>
        requires { IsUnder root guard }
        ensures session { IfOk result (λ s. s ≡ opened_on (reading_of guard root)) }
        ensures when { IsOk result ↔ (HasWidth S (loaded_version root) × (at_least ≤ number_in (loaded_version root))) }
        ensures back { IfErr result (λ b. b.0 ≡ guard) }
        ensures refused { IfErr result (λ b. RefusedFor S at_least (loaded_version root) b.1) }
    {
        let session = match Session::open(guard, root) {
            Ok(session) => session,
            Err((guard, _)) => return Err((guard, OpenRefused::NoVersion)),
        };
        let number = session.version().number();
        if number < at_least {
            return Err((session.into_guard(), OpenRefused::Earlier(number)));
        }
        let receipt = Receipt {
            number,
            reads: Seq::new(alloc),
        };
        Ok(SharedSession {
            session,
            receipt,
            alloc,
        })
    }

    /// The number of its version.
    pub fn number(&self) -> u64
        ensures { result ≡ self.now.number }
    {
        self.receipt.number
    }

    /// What the session recorded, and its number.
    pub fn receipt(&self) -> &Receipt<K, V>
        ensures receipt { result.now ≡ self.now.receipt }
        ensures number { result.now.number ≡ self.now.number }
    {
        &self.receipt
    }

    /// Closes the session's guard, and gives what it recorded.
    pub fn close(self, domain: &Domain<Node<K, V>>, local: &mut Local<Node<K, V>>) -> Receipt<K, V>
        requires home { home_of local.old ≡ place_of domain.now }
        requires mine { self.nest ≡ nest_in local.old }
        requires open { 0 < (own_of local.old).nesting }
        ensures receipt { result ≡ self.receipt }
        ensures number { result.number ≡ self.number }
        ensures closed { own_of local.new ≡ closed (own_of local.old) }
        ensures inner { 1 < (own_of local.old).nesting → (born_of local.new ≡ born_of local.old) × (nest_in local.new ≡ nest_in local.old) }
        ensures same { IsSame local.old local.new }
    {
        let SharedSession {
            session,
            receipt,
            alloc: _,
        } = self;
        session.into_guard().close(domain, local);
        receipt
    }
}
