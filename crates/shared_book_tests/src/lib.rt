//! Tests of the book of `shared_index`, which keeps its versions and its history behind a lock.
#![tactic(auto)]

#[cfg(test)]
mod audits;
#[cfg(test)]
mod causes;
#[cfg(test)]
mod checkpoints;
#[cfg(test)]
mod commits;
#[cfg(test)]
mod from_base;
#[cfg(test)]
mod refusals;
#[cfg(test)]
mod scene;
#[cfg(test)]
mod table;
