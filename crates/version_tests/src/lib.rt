//! Tests of `local_versions`, apart from it so that its proofs aren't made twice.
#![tactic(auto)]

#[cfg(test)]
mod draft;
#[cfg(test)]
mod forms;
#[cfg(test)]
mod listed;
#[cfg(test)]
mod look_up;
#[cfg(test)]
mod places;
#[cfg(test)]
mod placing;
#[cfg(test)]
mod plain;
#[cfg(test)]
mod refusals;
#[cfg(test)]
mod schedule;
#[cfg(test)]
mod single_steps;
#[cfg(test)]
mod walk;
#[cfg(test)]
mod write;
