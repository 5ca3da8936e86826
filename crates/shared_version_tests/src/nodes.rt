//! Nodes by example, outside of a place.

ghost use Rattle.std.specs.Prelude.{◌≡◌, []};
ghost use Rattle.shared_versions.specs.Nodes.{held_by};

use sdd_domain::holds::Holds;
use sdd_domain::local::Local;
use sdd_domain::shared::Shared;
use shared_versions::{Node, Present, Reader, Session, Version, view_of};
use std::ops::Bound;
use std::process::Abort;
use std::sync::Arc;
use std::test::Fail;
use version_views::Segment;

/// The number, the width, how many segments and pairs a version has, and whether it has no pair of a key, and none at all.
fn shown(version: &Version<u64, u64>, key: u64) -> (u64, usize, usize, usize, bool, bool) {
    let view = view_of(version);
    (
        version.number(),
        version.width(),
        version.directory().segments(),
        view.len(),
        view.get(&key).is_none(),
        view.walk(Bound::Unbounded, Bound::Unbounded)
            .next()
            .is_none(),
    )
}

#[test]
fn the_empty_version_has_no_pair(rt: HostRuntime) {
    let version = Version::<u64, u64>::empty(rt.alloc(), 64);
    let found = shown(&version, 5);
    end(Node::Version(version));
    assert_eq!(rt; found, (0, 64, 0, 0, true, true));
}

#[test]
fn a_row_holds_nothing(rt: HostRuntime) -> Result<(), Fail> {
    let alloc = rt.alloc();
    let mut segment = Segment::<u64, u64>::new(alloc);
    match segment.push(3, 30) {
        Ok(()) => {},
        Err(_) => panic!(rt; "no memory"),
    }
    let mut segments = Vec::new(alloc);
    segments.push(Arc::new(alloc, segment)?)?;
    let mut node = Node::Row(segments);
    let no_version = node.version().is_none();
    match node.give_up() {
        None => {},
        Some(_) => unreachable!(),
    }
    end(node);
    assert!(rt; no_version);
    Ok(())
}

/// The width of the version that a node is.
fn width(node: &Node<u64, u64>) -> Option<usize> {
    match node.version() {
        Some(version) => Some(version.width()),
        None => None,
    }
}

#[test]
fn the_empty_version_gives_nothing_up(rt: HostRuntime) {
    let mut node = Node::Version(Version::<u64, u64>::empty(rt.alloc(), 4));
    let before = width(&node);
    match node.give_up() {
        None => {},
        Some(_) => unreachable!(),
    }
    // what is left of it is no version
    let after = width(&node);
    end(node);
    assert_eq!(rt; (before, after), (Some(4), None));
}

// Spends a node that holds nothing.
fn end(node: Node<u64, u64>)
    requires { held_by node ≡ [] }
{
    node.end();
}

// Threads share nodes, readers and sessions, and hand over nodes, their owners, participants, and the present version.
fn are_shared(
    node: &Node<u64, u64>,
    reader: &Reader<u64, u64, 64>,
    session: &Session<u64, u64, 64>,
) {
    is_sync(node);
    is_sync(reader);
    is_sync(session);
}

fn node_is_handed_over(node: Node<u64, u64>) -> Node<u64, u64> {
    is_send(node)
}

fn owner_is_handed_over(owner: Shared<Node<u64, u64>>) -> Shared<Node<u64, u64>> {
    is_send(owner)
}

fn present_version_is_handed_over(present: Present<u64, u64, 64>) -> Present<u64, u64, 64> {
    is_send(present)
}

fn participant_is_handed_over(local: Local<Node<u64, u64>>) -> Local<Node<u64, u64>> {
    is_send(local)
}

fn is_sync<T: Sync>(_x: &T) {}

fn is_send<T: Send>(x: T) -> T {
    x
}
