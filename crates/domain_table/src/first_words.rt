//! The words of a new place, and which of its cells are taken.

ghost use Rattle.std.specs.Prelude.{◌≡◌, ◌^◌, ◌≤◌, ◌++◌, replicate, vec_len, IfOk, OnOk};
ghost use Rattle.domain_table.specs.Layout.{IsSized};
ghost use Rattle.domain_table.specs.Rule.{numbers, first_eights, first_words};

use crate::board::Plan;
use std::alloc::{AllocError, Global};
use std::sync::atomic::AtomicBool;

/// Appends `count` words 0.
fn push_zeros(words: &mut Vec<u64>, count: usize) -> Result<(), AllocError>
    ensures { OnOk result (words.new.items ≡ words.old.items ++ replicate count 0) }
{
    for _i in 0..count {
        words.push(0)?;
    }
    Ok(())
}

/// The numbers below this one behind these.
fn push_numbers(words: &mut Vec<u64>, count: usize) -> Result<(), AllocError>
    ensures { OnOk result (words.new.items ≡ words.old.items ++ numbers count) }
{
    for number in 0..count {
        words.push(number as u64)?;
    }
    Ok(())
}

/// Appends the words of `count` participants, for `cells` cells: each is closed, and nobody acts for it. Its spare
/// slot is behind those of the cells and of the participants before it.
fn push_participants(words: &mut Vec<u64>, cells: usize, count: usize) -> Result<(), AllocError>
    requires { (cells ≤ 2 ^ 30) × (count ≤ 2 ^ 30) }
    ensures { OnOk result (words.new.items ≡ words.old.items ++ first_eights cells count) }
{
    for number in 0..count {
        words.push(0)?;
        words.push((cells + number + 1) as u64)?;
        push_zeros(words, 6)?;
    }
    Ok(())
}

/// The words of a new place: the count of raises, those of participants, those of cells, each of which has the spare
/// slot of its own number, and 0 for each slot.
pub fn words_from(alloc: Global, plan: &Plan) -> Result<Vec<u64>, AllocError>
    requires { IsSized plan.now.sizes }
    ensures { IfOk result (λ words. words.items ≡ first_words plan.now) }
{
    let mut words = Vec::new(alloc);
    words.push(plan.first)?;
    push_zeros(&mut words, 15)?;
    push_participants(&mut words, plan.sizes.cells, plan.sizes.participants)?;
    push_numbers(&mut words, plan.sizes.cells)?;
    push_zeros(&mut words, plan.sizes.slots + plan.sizes.slots)?;
    Ok(words)
}

/// `count` cells that nobody has.
pub fn free_cells(alloc: Global, count: usize) -> Result<Vec<AtomicBool>, AllocError>
    ensures { IfOk result (λ taken. vec_len taken ≡ count) }
{
    let mut taken = Vec::with_capacity(alloc, count)?;
    for _i in 0..count {
        taken.push(AtomicBool::new(false))?;
    }
    Ok(taken)
}
