//! The life of the guards that a participant has open: each guard has a token of it, and the participant has the others.
//!
//! A life has no bytes. A branch that is never taken handles lives alone, so neither branch has code, and no guard tests
//! which one it takes.

ghost use Rattle.std.specs.Prelude.{◌≡◌, ◌+◌, ◌^◌, IsSomeAnd, IsNone};

use parted::{Ended, Life};

/// Begins a life, and takes the first token of it.
#[inline(always)]
pub(crate) fn first_token(life: &mut Option<Life>) -> Life
    requires { IsNone life.old }
    ensures { (result.count ≡ 1) × IsSomeAnd life.new (λ f. (f.count + 1 ≡ 2 ^ 63) × (f.id ≡ result.id)) }
{
    let mut all = Life::begin();
    let first = all.split_one();
    no_token(life.replace(all));
    first
}

/// Ends the life, with its last token that was out.
#[inline(always)]
pub(crate) fn last_token(life: &mut Option<Life>, token: Life) -> Ended
    requires { IsSomeAnd life.old (λ f. (f.count + 1 ≡ 2 ^ 63) × (f.id ≡ token.id)) × (token.count ≡ 1) }
    ensures { IsNone life.new × (result.id ≡ token.id) }
{
    match life.take() {
        Some(mut all) => {
            all.join(token);
            all.end()
        }
        None => token.end(),
    }
}

/// No life is running.
#[inline(always)]
pub(crate) fn no_token(life: Option<Life>)
    requires { IsNone life }
{
    match life {
        Some(life) => drop(life.end()),
        None => {}
    }
}
