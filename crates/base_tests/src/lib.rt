//! Tests of `sdd_world`, apart from it so that its proofs aren't made twice.
#![tactic(auto)]

#[cfg(test)]
mod cells;
#[cfg(test)]
mod guards;
#[cfg(test)]
mod items;
#[cfg(test)]
mod kept;
#[cfg(test)]
mod large;
#[cfg(test)]
mod nested;
#[cfg(test)]
mod owners;
#[cfg(test)]
mod plain;
#[cfg(test)]
mod play;
#[cfg(test)]
mod random_calls;
#[cfg(test)]
mod raw;
#[cfg(test)]
mod reclaiming;
#[cfg(test)]
mod refusals;
#[cfg(test)]
mod rows;
#[cfg(test)]
mod stage;
#[cfg(test)]
mod steps;
#[cfg(test)]
mod texts;
#[cfg(test)]
mod words;
#[cfg(test)]
mod worlds;
