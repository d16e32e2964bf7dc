// Nodes given up, and taken again.
use crate::calls::{Call, finish, turns};
use crate::fresh::fresh;
use crate::print::{Out, show, show_keys};
use std::fmt;

// A slow contains stands on the one node that is removed, so the node is not used again before it has gone on.
pub fn stood_on(out: &mut Out) -> fmt::Result {
    let mut arena: [u16; 39] = fresh(2, 3);
    let add_5 = Call::add(5).of(1);
    let add_7 = Call::add(7).of(1);
    let slow = Call::contains(5).by(1);
    show(out, "slow: add 5", add_5.run(&mut arena))?;
    show(out, "slow: contains 5 begins", slow.begin(&mut arena, 4))?;
    show(out, "slow: remove 5", Call::remove(5).run(&mut arena))?;
    show(out, "slow: add 7", add_7.run(&mut arena))?;
    show(out, "slow: contains 5 goes on", finish(&mut arena, 1))?;
    show(out, "slow: add 7", add_7.run(&mut arena))?;
    keys(out, "slow: snapshot", &arena)
}

// Only a removed node that a contains stands on leads to another removed node: neither is free before it goes on.
pub fn led_to(out: &mut Out) -> fmt::Result {
    let mut arena: [u16; 44] = fresh(2, 4);
    let add_7 = Call::add(7).of(1);
    let add_8 = Call::add(8).of(1);
    let slow = Call::contains(9).by(1);
    show(out, "led: add 5", Call::add(5).of(1).run(&mut arena))?;
    show(out, "led: add 6", Call::add(6).of(1).run(&mut arena))?;
    show(out, "led: contains 9 begins", slow.begin(&mut arena, 4))?;
    show(out, "led: remove 5", Call::remove(5).run(&mut arena))?;
    show(out, "led: remove 6", Call::remove(6).run(&mut arena))?;
    show(out, "led: add 7", add_7.run(&mut arena))?;
    show(out, "led: contains 9 goes on", turns(&mut arena, 1, 1))?;
    show(out, "led: add 7", add_7.run(&mut arena))?;
    show(out, "led: add 8", add_8.run(&mut arena))?;
    show(out, "led: contains 9 ends", finish(&mut arena, 1))?;
    show(out, "led: add 8", add_8.run(&mut arena))?;
    keys(out, "led: snapshot", &arena)
}

// A snapshot into two words.
pub fn keys(out: &mut Out, text: &str, arena: &[u16]) -> fmt::Result {
    let mut keys = [0; 2];
    let count = arena::snapshot(arena, &mut keys);
    show_keys(out, text, count, &keys)
}
