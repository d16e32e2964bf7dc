// A node has a length, which an add carries.
use crate::calls::{Call, turns};
use crate::fresh::{fresh, rewritten};
use crate::print::{Out, show, show_part};
use crate::reuse::keys;
use crate::starts::one_worker;
use std::fmt;
use worker::Worker;

// A start of worker 0, and its record then.
pub fn lengths(out: &mut Out) -> fmt::Result {
    for (text, call) in [
        ("add 5 of 0", Call::add(5)),
        ("add 5 of 1", Call::add(5).of(1)),
        ("add 1 of 65534", Call::add(1).of(65534)),
        ("add 1 of 65535", Call::add(1).of(65535)),
        ("add 2 of 65534", Call::add(2).of(65534)),
        ("add 65534 of 1", Call::add(65534).of(1)),
        ("add 65534 of 2", Call::add(65534).of(2)),
        ("add 65534 of 65534", Call::add(65534).of(65534)),
        ("remove 5 of 1", Call::remove(5).of(1)),
        ("contains 5 of 65535", Call::contains(5).of(65535)),
    ] {
        let mut arena = one_worker();
        show(out, text, call.start(&mut arena))?;
        show_part(out, "  worker", &arena, 8..16)?;
    }
    Ok(())
}

// The worker carries the length until its add finishes.
pub fn carried(out: &mut Out) -> fmt::Result {
    let mut arena = one_worker();
    show(
        out,
        "carried: add 5 of 3 begins",
        Call::add(5).of(3).begin(&mut arena, 10),
    )?;
    show_worker_and_node(out, &arena)?;
    show(out, "carried: add 6 of 0", Call::add(6).start(&mut arena))?;
    show(out, "carried: add 5 of 3 ends", turns(&mut arena, 0, 4))?;
    show_worker_and_node(out, &arena)
}

fn show_worker_and_node(out: &mut Out, arena: &[u16; 31]) -> fmt::Result {
    show_part(out, "  worker", arena, 8..16)?;
    show_part(out, "  node 2", arena, 26..31)
}

// A removed node keeps its length until it is taken again.
pub fn taken_again(out: &mut Out) -> fmt::Result {
    let mut arena = one_worker();
    show(out, "taken: add 5 of 3", Call::add(5).of(3).run(&mut arena))?;
    show_part(out, "  node 2", &arena, 26..31)?;
    show(out, "taken: add 5 of 9", Call::add(5).of(9).run(&mut arena))?;
    show_part(out, "  node 2", &arena, 26..31)?;
    show(out, "taken: contains 5", Call::contains(5).run(&mut arena))?;
    show(out, "taken: remove 5", Call::remove(5).run(&mut arena))?;
    show_part(out, "  node 2", &arena, 26..31)?;
    show(out, "taken: add 5 of 2", Call::add(5).of(2).run(&mut arena))?;
    show_part(out, "  node 2", &arena, 26..31)
}

// Two nodes besides Head and Tail, the later one first on the chain.
pub fn chained(out: &mut Out) -> fmt::Result {
    let mut arena: [u16; 36] = fresh(1, 4);
    show(
        out,
        "chained: add 9 of 65526",
        Call::add(9).of(65526).run(&mut arena),
    )?;
    show(
        out,
        "chained: add 5 of 4",
        Call::add(5).of(4).run(&mut arena),
    )?;
    show(
        out,
        "chained: add 7 of 1",
        Call::add(7).of(1).run(&mut arena),
    )?;
    show_part(out, "  nodes", &arena, 16..36)?;
    keys(out, "chained: snapshot", &arena)
}

// Stage 14 writes the length as it stands in the worker's record.
pub fn written(out: &mut Out) -> fmt::Result {
    let record = [
        (8, 14),
        (9, Worker::ADD),
        (10, 5),
        (11, 0),
        (12, 1),
        (15, 65535),
    ];
    let mut arena = rewritten(one_worker(), &record);
    show(out, "written", turns(&mut arena, 0, 1))?;
    show_worker_and_node(out, &arena)
}
