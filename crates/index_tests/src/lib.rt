//! Tests of the index of one thread and of lists of its calls, apart from `local_index` so that its proofs
//! aren't made twice.
#![tactic(auto)]

#[cfg(test)]
mod checkpoints;
#[cfg(test)]
mod comparisons;
#[cfg(test)]
mod dice;
#[cfg(test)]
mod ends;
#[cfg(test)]
mod errors;
#[cfg(test)]
mod from_base;
#[cfg(test)]
mod history;
#[cfg(test)]
mod large;
#[cfg(test)]
mod lists;
#[cfg(test)]
mod met;
#[cfg(test)]
mod past;
#[cfg(test)]
mod plain;
#[cfg(test)]
mod play;
#[cfg(test)]
mod random_calls;
#[cfg(test)]
mod reading;
#[cfg(test)]
mod reads;
#[cfg(test)]
mod refusals;
#[cfg(test)]
mod room;
#[cfg(test)]
mod scene;
#[cfg(test)]
mod session;
#[cfg(test)]
mod slots;
#[cfg(test)]
mod table;
#[cfg(test)]
mod text;
#[cfg(test)]
mod values;
