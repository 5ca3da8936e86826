//! Tests of `shared_versions`, apart from it so that its proofs aren't made twice.
#![tactic(auto)]

#[cfg(test)]
mod calls;
#[cfg(test)]
mod drafts;
#[cfg(test)]
mod nodes;
#[cfg(test)]
mod place;
#[cfg(test)]
mod placing;
#[cfg(test)]
mod scene;
#[cfg(test)]
mod sessions;
