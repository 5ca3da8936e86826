//! Tests of `shared_lists`, apart from it so that its proofs aren't made twice: entries and lists, by one thread and by two.
#![tactic(auto)]

#[cfg(test)]
mod entries;
#[cfg(test)]
mod lists;
#[cfg(test)]
mod scene;
#[cfg(test)]
mod threads;
