//! Texts of refusals.

use std::test::Fail;
use world_containers::{NotMade, PushRefused};

#[test]
fn refusals_are_written_with_what_they_hand_back(rt: HostRuntime) -> Result<(), Fail> {
    let alloc = rt.alloc();
    let (memory, full) = (NotMade::Memory, NotMade::NoSlot);
    let condition = PushRefused::Condition(5u8);
    let slot = PushRefused::NoSlot(6u8);
    let text = format!(in alloc; "{memory:?} {full:?} {condition:?} {slot:?}")?;
    assert_eq!(rt; text.as_str(), "Memory NoSlot Condition(5) NoSlot(6)");
    Ok(())
}

/// What refused pushes say.
const SAID: &str = "the condition answered false; the container is as it was\
    |no slot or no cell is free; the container is as it was";

#[test]
fn a_refused_push_says_what_stands_after_it_and_hands_its_value_back(
    rt: HostRuntime,
) -> Result<(), Fail> {
    let condition = PushRefused::Condition(5u8);
    let slot = PushRefused::NoSlot(6u8);
    let text = format!(in rt.alloc(); "{condition}|{slot}")?;
    assert_eq!(rt; text.as_str(), SAID);
    assert_eq!(rt; (condition.into_value(), slot.into_value()), (5, 6));
    Ok(())
}
