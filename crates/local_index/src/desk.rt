//! Sessions of one index, by labels.

ghost use Rattle.std.specs.Prelude.{◌≡◌, ◌≢◌, None, Some, IfOk, IsTrue, IsFalse, IfSome, IfNone, MatchOption, ℕ, replicate, slice_get, slice_set};
ghost use Rattle.local_index.specs.State.{IsSessionOf, Closes};
ghost use Rattle.local_index.specs.Desk.{machine, Clears, Serves, IsTicketAt, IsUnknown};

use crate::index::LocalIndex;
use crate::session::Session;
use std::alloc::{AllocError, Global};
use std::marker::Model;
use std::mem;

// A session, and the label that it is kept under.
pub(crate) struct Ticket<K, V> {
    pub(crate) label: u64,
    pub(crate) session: Session<K, V>,
}

/// Sessions of one index, each under a label of its own.
///
/// Contracts see it as a list of tickets: at each place that of the session that is open there, if
/// the desk has it. All its room is taken by `new`. It must be consumed by [`end`](Desk::end).
pub struct Desk<K, V> {
    tickets: Vec<Option<Ticket<K, V>>>,
}

impl<K, V> Model for Desk<K, V> {
    ghost use Rattle.std.specs.Prelude.{List, Option};
    ghost use Rattle.local_index.specs.declared.desk.Ticket.{Ticket};

    ghost Value = { List (Option (Ticket K V)) };

    ghost view = { λ d. d.tickets.items };
}

impl<K, V> Desk<K, V> {
    /// A desk for an index with `places` places. Fails only if an allocation fails.
    pub fn new(alloc: Global, places: usize) -> Result<Self, AllocError>
        ensures { IfOk result (λ desk. desk ≡ replicate places None) }
    {
        let mut tickets = Vec::with_capacity(alloc, places)?;
        for _ in 0..places {
            tickets.push(None).unwrap();
        }
        Ok(Desk { tickets })
    }

    /// The session with the label, to read by: none where the label has no session.
    pub fn session(&self, label: u64) -> Option<&Session<K, V>>
        ensures some { IfSome result (λ session. (place : ℕ) × IsTicketAt self.now label place (record { label = label; session = session.now })) }
        ensures none { IfNone result (IsUnknown self.now label) }
    {
        match self.ticket(label) {
            Some(ticket) => Some(&ticket.session),
            None => None,
        }
    }

    // The ticket with the label.
    pub(crate) fn ticket(&self, label: u64) -> Option<&Ticket<K, V>>
        ensures some { IfSome result (λ ticket. (place : ℕ) × IsTicketAt self.now label place ticket.now) }
        ensures none { IfNone result (IsUnknown self.now label) }
    {
        ticket_of(&self.tickets, label)
    }

    // Takes the session with the label away.
    pub(crate) fn leave(&mut self, label: u64) -> Option<Ticket<K, V>>
        ensures some { IfSome result (λ ticket. (place : ℕ) × IsTicketAt self.old label place ticket × (self.new ≡ slice_set self.old place None)) }
        ensures none { IfNone result (IsUnknown self.old label × (self.new ≡ self.old)) }
    {
        let place = place_of(&self.tickets, label)?;
        mem::replace(&mut self.tickets[place], None)
    }

    // Keeps a session at its place, under this label.
    pub(crate) fn keep(&mut self, label: u64, session: Session<K, V>)
        requires { slice_get self.old session.place ≡ Some None }
        ensures { self.new ≡ slice_set self.old session.place (Some (record { label = label; session = session })) }
    {
        let place = session.place();
        let ticket = Ticket { label, session };
        match mem::replace(&mut self.tickets[place], Some(ticket)) {
            None => {}
            Some(_ticket) => unreachable!(),
        }
    }
}

impl<K: Clone + Ord, V: Clone + Eq> Desk<K, V> {
    /// Closes the sessions that the desk keeps. Other sessions of the index stay open.
    pub fn end<const S: usize>(self, index: &mut LocalIndex<K, V, S>)
        requires { Serves (machine index.old self) }
        ensures { Clears index.old self index.new }
    {
        let Desk { mut tickets } = self;
        'closing: while let Some(ticket) = tickets.pop() {
            close_ticket(index, ticket);
        }
        tickets.destroy_empty();
    }
}

// Closes the session of a ticket, if it has one.
fn close_ticket<K: Clone + Ord, V: Clone + Eq, const S: usize>(
    index: &mut LocalIndex<K, V, S>,
    ticket: Option<Ticket<K, V>>,
)
    requires { IfSome ticket (λ s. IsSessionOf index.old s.session) }
    ensures { MatchOption ticket (index.new ≡ index.old) (λ s. Closes index.old s.session.place index.new) }
{
    match ticket {
        Some(Ticket { label: _, session }) => {
            let _receipt = index.close_session(session);
        }
        None => {}
    }
}

// Whether there is a ticket, and it has the label.
fn is_under<K, V>(ticket: &Option<Ticket<K, V>>, label: u64) -> bool
    ensures taken { IsTrue result → (s : _) × (ticket.now ≡ Some s) × (s.label ≡ label) }
    ensures not { IsFalse result → (s : _) → ticket.now ≡ Some s → s.label ≢ label }
{
    match ticket {
        Some(ticket) => ticket.label == label,
        None => false,
    }
}

// The place of the ticket with the label.
fn place_of<K, V>(tickets: &[Option<Ticket<K, V>>], label: u64) -> Option<usize>
    ensures some { IfSome result (λ place. (ticket : _) × IsTicketAt tickets.now label place ticket) }
    ensures none { IfNone result (IsUnknown tickets.now label) }
{
    for place in 0..tickets.len() {
        if is_under(&tickets[place], label) {
            return Some(place);
        }
    }
    None
}

fn ticket_of<K, V>(tickets: &[Option<Ticket<K, V>>], label: u64) -> Option<&Ticket<K, V>>
    ensures some { IfSome result (λ ticket. (place : ℕ) × IsTicketAt tickets.now label place ticket.now) }
    ensures none { IfNone result (IsUnknown tickets.now label) }
{
    let place = place_of(tickets, label)?;
    tickets[place].as_ref()
}
