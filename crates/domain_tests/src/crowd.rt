//! Threads that are at work side by side.

use crate::jobs::{self, deferring};
use crate::nested::{Node, sum};
use crate::steps::Task;
use crate::threads::{self, Scene};
use std::thread::{Threads, join};

/// What threads share.
#[derive(Drop)]
pub(crate) enum Work<'a> {
    Items(Scene<'a>),
    Jobs(jobs::Scene<'a>),
    Leaves(&'a Node),
}

/// How often a thread did what it was to do. None where something was wrong.
fn done(work: &Work, task: Task) -> Option<u32> {
    match work {
        Work::Items(scene) => threads::done(scene, task),
        Work::Jobs(scene) => deferring(scene),
        Work::Leaves(node) => sum(node, task),
    }
}

/// The sum of what both answer, if both do.
fn both(told: (Option<u32>, Option<u32>)) -> Option<u32> {
    Some(told.0?.saturating_add(told.1?))
}

fn two<R: Threads + Sync>(rt: &R, work: &Work, one: Task, other: Task) -> Option<u32> {
    both(join(rt, || done(work, one), || done(work, other)))
}

/// How often four threads did what they were to do. None where something was wrong.
pub(crate) fn four<R: Threads + Sync>(rt: &R, work: &Work, tasks: [Task; 4]) -> Option<u32> {
    let [a, b, c, d] = tasks;
    both(join(rt, || two(rt, work, a, b), || two(rt, work, c, d)))
}
