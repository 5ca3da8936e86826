//! Functions of numbers that tests of arrays and of trees share.

ghost use Rattle.std.specs.Prelude.{◌≤◌};

/// The next of a fixed row of numbers in no order, as in Knuth's MMIX.
pub(crate) fn stirred(seed: u64) -> u64 {
    seed.wrapping_mul(6364136223846793005)
        .wrapping_add(1442695040888963407)
}

/// A pair that is lent, copied.
pub(crate) fn read(pair: Option<(&u64, &u64)>) -> Option<(u64, u64)> {
    let (key, val) = pair?;
    Some((*key, *val))
}

/// A condition that may be asked of numbers up to 5 alone.
pub(crate) fn lacks_three(val: &u64) -> bool
    requires { val.now ≤ 5 }
{
    5 - *val > 2
}

/// A condition that holds of each number.
pub(crate) fn always(_val: &u64) -> bool {
    true
}
