//! Making entries.

ghost use Rattle.std.specs.Prelude.{◌≡◌, ◌≤◌, length, IfOk, IfErr, OnErr, IsErrOf, []};
ghost use Rattle.sdd_world.specs.State.{NoCellFree, status_at};
ghost use Rattle.sdd_world.specs.Tokens.{shared_slot};
ghost use Rattle.sdd_lists.specs.Chain.{Leaves, Stays};
ghost use Rattle.sdd_lists.specs.Copies.{ClonesAreSame};
ghost use Rattle.sdd_lists.specs.Entries.{entry_value};
ghost use Rattle.sdd_lists.specs.Making.{IsMade};
ghost use Rattle.sdd_lists.specs.Calls.{MakesEntry, NoRoom};

use crate::linked_entry::LinkedEntry;
use crate::refusal::NotMade;
use crate::world::entries;
use sdd_world::job::Deferred;
use sdd_world::owner::Shared;
use sdd_world::status::{Cell, Status};
use sdd_world::tag::Tag;
use sdd_world::world::World;

/// An entry of `value` that is clear and has no next one, if and only if a cell is free; else `value` is returned.
pub fn new<T, J: Deferred>(w: &mut World<LinkedEntry<T>, J>, value: T) -> Result<LinkedEntry<T>, T>
    ensures made { IfOk result (λ e. MakesEntry w.old w.new e value) }
    ensures refused { IfErr result (λ v. (v ≡ value) × (w.new ≡ w.old) × NoCellFree w.old) }
    ensures leaves { Leaves [] [] w.old w.new }
    ensures stays { Stays w.old w.new }
{
    entries::link(w, value)
}

/// An entry of a clone of the value, which is clear and has no next one. Fails only if the value's clone fails or no
/// cell is free; then nothing has changed. Condition: a clone is the value itself.
pub fn clone<T: Clone, J: Deferred>(
    w: &mut World<LinkedEntry<T>, J>,
    entry: &LinkedEntry<T>,
) -> Result<LinkedEntry<T>, NotMade>
    requires { ClonesAreSame T.is_clone }
    ensures made { IfOk result (λ e. MakesEntry w.old w.new e (entry_value entry.now)) }
    ensures back { OnErr result (w.new ≡ w.old) }
    ensures full { IsErrOf result NotMade.NoSlot → NoCellFree w.old }
    ensures memory { IsErrOf result NotMade.Memory → ¬ T.is_infallible (entry_value entry.now) }
    ensures leaves { Leaves [] [] w.old w.new }
    ensures stays { Stays w.old w.new }
{
    match entry.as_ref().clone() {
        Err(_) => Err(NotMade::Memory),
        Ok(value) => match entries::link(w, value) {
            Ok(copy) => Ok(copy),
            Err(_) => Err(NotMade::NoSlot),
        },
    }
}

/// Makes an item of a clear entry of `value`, which is in no list and has one owner, if and only if a slot and a cell
/// are free; else `value` is returned and nothing changes.
pub fn place<T, J: Deferred>(
    w: &mut World<LinkedEntry<T>, J>,
    value: T,
) -> Result<Shared<LinkedEntry<T>>, T>
    requires { 0 ≤ length w.old.cells }
    ensures made { IfOk result (λ s. IsMade w.old w.new value (shared_slot s)) }
    ensures one { IfOk result (λ s. status_at w.new (shared_slot s) ≡ Status.Shared 1) }
    ensures refused { IfErr result (λ v. (v ≡ value) × (w.new ≡ w.old) × NoRoom w.old) }
    ensures leaves { Leaves [] [] w.old w.new }
    ensures participants { w.new.participants ≡ w.old.participants }
    ensures stays { Stays w.old w.new }
{
    entries::make_one(w, value)
}
