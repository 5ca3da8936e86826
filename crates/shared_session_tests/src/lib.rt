//! Tests of `shared_sessions`, apart from it so that its proofs aren't made twice.
#![tactic(auto)]

#[cfg(test)]
mod calls;
#[cfg(test)]
mod memory;
#[cfg(test)]
mod opening;
#[cfg(test)]
mod place;
#[cfg(test)]
mod play;
#[cfg(test)]
mod publishing;
#[cfg(test)]
mod reads;
#[cfg(test)]
mod threads;
