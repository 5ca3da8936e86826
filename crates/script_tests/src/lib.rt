//! Tests of the script engine, apart from it so that its proofs aren't made twice.
#![tactic(auto)]

#[cfg(test)]
mod lines;
#[cfg(test)]
mod reads;
#[cfg(test)]
mod refusals;
#[cfg(test)]
mod streams;
