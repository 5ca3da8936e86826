//! Tests of the index of `shared_index`, which threads share.
#![tactic(auto)]

#[cfg(test)]
mod calls;
#[cfg(test)]
mod crowd;
#[cfg(test)]
mod from_base;
#[cfg(test)]
mod index;
#[cfg(test)]
mod joined;
#[cfg(test)]
mod large;
#[cfg(test)]
mod participants;
#[cfg(test)]
mod place;
#[cfg(test)]
mod receipts;
#[cfg(test)]
mod refusals;
#[cfg(test)]
mod scene;
#[cfg(test)]
mod sharing;
pub mod stage;
#[cfg(test)]
mod steps;
#[cfg(test)]
mod tasks;
#[cfg(test)]
mod texts;
#[cfg(test)]
mod transact;
#[cfg(test)]
mod walks;
