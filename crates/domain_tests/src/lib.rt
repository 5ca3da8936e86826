//! Tests of the place that threads share, apart from it so that its proofs aren't made twice.
#![tactic(auto)]

#[cfg(test)]
mod cells;
#[cfg(test)]
mod collectors;
#[cfg(test)]
mod crowd;
#[cfg(test)]
mod domain;
#[cfg(test)]
mod guard;
#[cfg(test)]
mod hands;
#[cfg(test)]
mod items;
#[cfg(test)]
mod jobs;
#[cfg(test)]
mod left;
#[cfg(test)]
mod nested;
#[cfg(test)]
mod play;
#[cfg(test)]
mod refusals;
#[cfg(test)]
mod shares;
#[cfg(test)]
mod stage;
#[cfg(test)]
mod steps;
#[cfg(test)]
mod threads;
#[cfg(test)]
mod views;
