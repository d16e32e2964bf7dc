// Links that lead in circles, out of range, or on from Tail.
use crate::calls::{Call, turns};
use crate::fresh::{first, fresh, rewritten};
use crate::print::{Out, show, show_part, show_words};
use crate::starts::one_worker;
use std::fmt;
use worker::Worker;

// Head, nodes 2 and 3 with keys 3 and 4, and back to node 2: no search ends.
pub fn searches(out: &mut Out) -> fmt::Result {
    for (text, call) in [
        ("circle: add 5", Call::add(5).of(1)),
        ("circle: contains 5", Call::contains(5)),
        ("circle: add 4", Call::add(4).of(1)),
        ("circle: contains 2", Call::contains(2)),
    ] {
        let links = [(17, 2), (26, 3), (27, 3), (31, 4), (32, 2)];
        let mut arena: [u16; 36] = rewritten(fresh(1, 4), &links);
        show(out, text, call.run(&mut arena))?;
    }
    Ok(())
}

// The search for a free node among five, with links written anew.
pub fn hunts(out: &mut Out) -> fmt::Result {
    for (text, links) in [
        ("free: fresh links", [(27, 1), (37, 0)]),
        ("free: 2 leads to itself", [(27, 2), (37, 0)]),
        ("free: 2 and 3 in a circle", [(27, 3), (32, 2)]),
        ("free: 2 leads out of range", [(27, 9), (37, 0)]),
        ("free: 2 leads to 3, 3 to 4", [(27, 3), (32, 4)]),
        ("free: Tail leads to 3", [(22, 3), (27, 1)]),
        ("free: Head leads to 4, 4 to 65535", [(17, 4), (37, 65535)]),
        ("free: spare is 3, which leads to 4", [(13, 3), (32, 4)]),
        ("free: pred is 3, spare is none", [(11, 3), (13, 65535)]),
    ] {
        hunt(out, text, rewritten(at_the_hunt(), &links))?;
    }
    Ok(())
}

// A worker at stage 14 of add 5, with pred 0 and curr 2.
fn at_the_hunt() -> [u16; 41] {
    let record = [(8, 14), (9, Worker::ADD), (10, 5), (11, 0), (12, 2)];
    rewritten(fresh(1, 5), &record)
}

fn hunt(out: &mut Out, text: &str, mut arena: [u16; 41]) -> fmt::Result {
    let found = lazy::find_free(&arena);
    show(out, text, turns(&mut arena, 0, 1))?;
    show_part(out, "  worker", &arena, 8..16)?;
    show(out, "  find_free", found)
}

// What stands in the way of a turn on an arena, too few words, an odd header, no such worker; and of the search alone.
pub fn arenas(out: &mut Out) -> fmt::Result {
    let mut arena = one_worker();
    show(out, "turn of worker 1", turns(&mut arena, 1, 1))?;
    show(out, "turn, 30 words", turns(first(&mut arena, 30), 0, 1))?;
    show(
        out,
        "turn, 7 words, worker 9",
        turns(first(&mut arena, 7), 9, 1),
    )?;
    show(
        out,
        "find_free, 30 words",
        lazy::find_free(first(&mut arena, 30)),
    )?;
    arena[7] = 1;
    show(
        out,
        "turn, header word 7 is 1, worker 9",
        turns(&mut arena, 9, 1),
    )?;
    show(
        out,
        "find_free, header word 7 is 1",
        lazy::find_free(&arena),
    )?;
    show_words(out, "  they stay:", &arena)
}
