// Fresh arenas, and starts on arenas that are short, or whose header or record is damaged.
use crate::calls::Call;
use crate::fresh::{first, fresh, rewritten};
use crate::print::{Out, Reply, show, show_part, show_words};
use std::fmt;
use std::fmt::Write;

pub fn inits(out: &mut Out) -> fmt::Result {
    let mut large = [7; 5192];
    for (text, room, workers, nodes) in [
        ("init 8 1024, 5192 words", 5192, 8, 1024),
        ("init 8 1024, 5191 words", 5191, 8, 1024),
        ("init 8 1025", 5192, 8, 1025),
        ("init 0 3", 5192, 0, 3),
    ] {
        show(
            out,
            text,
            arena::init(first(&mut large, room), workers, nodes),
        )?;
    }
    let mut few = [7; 3];
    show(out, "init 9 2, 3 words", arena::init(&mut few, 9, 2))?;
    show(out, "init 1 3, 3 words", arena::init(&mut few, 1, 3))?;
    show_words(out, "they stay:", &few)?;
    let mut more = [7; 33];
    show(out, "init 1 3, 33 words", arena::init(&mut more, 1, 3))?;
    show_words(out, "they are:", &more)
}

// Starts on a fresh arena with one header word written anew, and on the first words of one.
pub fn headers(out: &mut Out) -> fmt::Result {
    let call = Call::add(5).of(1);
    for (at, word) in [
        (0, 0),
        (0, 1),
        (0, 3),
        (1, 2),
        (2, 4),
        (3, 9),
        (4, 17),
        (5, 28),
        (5, 30),
        (5, 32),
        (6, 2),
        (7, 1),
    ] {
        let mut arena = rewritten(one_worker(), &[(at, word)]);
        let started = call.start(&mut arena);
        writeln!(out, "start, header word {at} is {word}: {}", Reply(started))?;
    }
    let mut arena = one_worker();
    for (text, room) in [
        ("start, 30 words", 30),
        ("start, 7 words", 7),
        ("start, no words", 0),
    ] {
        show(out, text, call.start(first(&mut arena, room)))?;
    }
    Ok(())
}

// A start where worker 0 stands at a stage; then its record.
pub fn records(out: &mut Out) -> fmt::Result {
    let no_key = Call::add(0).of(1);
    for (text, stage, call) in [
        ("start of worker 1", 0, Call::add(5).of(1).by(1)),
        ("start of worker 65535 with key 0", 0, no_key.by(65535)),
        ("start at stage 26 with key 0", 26, no_key),
        ("start at stage 25 with key 0", 25, no_key),
        ("start of operation 0", 0, Call::new(0, 5)),
        ("start of operation 4", 0, Call::new(4, 5)),
        ("start remove 1", 0, Call::remove(1)),
        ("start contains 65534", 0, Call::contains(65534)),
    ] {
        let mut arena = rewritten(one_worker(), &[(8, stage)]);
        show(out, text, call.start(&mut arena))?;
        show_part(out, "  record of worker 0:", &arena, 8..16)?;
    }
    Ok(())
}

// One worker and three nodes.
pub fn one_worker() -> [u16; 31] {
    fresh(1, 3)
}
