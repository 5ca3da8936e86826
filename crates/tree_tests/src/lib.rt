//! Tests of `leaf_array` and `tree_index`, by a module for each thing tested.
//!
//! They are in a crate of their own, so that what they test isn't proved once more with them.
#![tactic(auto)]

#[cfg(test)]
mod array;
#[cfg(test)]
mod numbers;
#[cfg(test)]
mod tree;
