//! Tests of stacks, queues and bags, apart from them so that their proofs aren't made twice.
#![tactic(auto)]

#[cfg(test)]
mod bags;
#[cfg(test)]
mod conditions;
pub mod kinds;
#[cfg(test)]
mod lists;
#[cfg(test)]
mod making;
#[cfg(test)]
mod refusals;
#[cfg(test)]
mod scene;
#[cfg(test)]
mod threads;
#[cfg(test)]
mod walks;
