//! Tests of `world_containers`, apart from it so that its proofs aren't made twice.
#![tactic(auto)]

#[cfg(test)]
mod bags;
#[cfg(test)]
mod each_call;
#[cfg(test)]
mod entries;
#[cfg(test)]
mod filled;
#[cfg(test)]
mod fillings;
pub mod lines;
#[cfg(test)]
mod lists;
#[cfg(test)]
mod places;
#[cfg(test)]
mod random_calls;
#[cfg(test)]
mod refusals;
#[cfg(test)]
mod replies;
#[cfg(test)]
mod stacks;
#[cfg(test)]
mod texts;
#[cfg(test)]
mod walks;
#[cfg(test)]
mod without_jobs;
#[cfg(test)]
mod writing_walks;
