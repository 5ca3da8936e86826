//! Tests of `sdd_steps`, apart from it so that its proofs aren't made twice.
#![tactic(auto)]

#[cfg(test)]
mod common;
#[cfg(test)]
mod large;
#[cfg(test)]
mod random_steps;
#[cfg(test)]
mod refusals;
#[cfg(test)]
mod refused_steps;
#[cfg(test)]
mod schedules;
