//! Stores of versions: the present one, which a root names, and those that readers have open.

pub(crate) mod local;
pub(crate) mod readers;
pub(crate) mod reclaiming;
