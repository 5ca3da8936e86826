//! Where a call on links acts.

use crate::links::Links;
use sdd_domain::domain::Domain;
use sdd_domain::guard::Guard;
use sdd_domain::holds::Holds;

/// A place, its links, and a guard that is open there.
#[derive(Drop)]
pub struct Section<'a, T: Holds> {
    pub domain: &'a Domain<T>,
    pub links: &'a Links<T>,
    pub guard: &'a Guard,
}
