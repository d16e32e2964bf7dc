// Snapshots of whole and of broken chains, and of chains with marked nodes.
use crate::calls::{Call, turns};
use crate::fresh::{first, fresh, rewritten};
use crate::print::{Out, show, show_keys};
use crate::reuse::keys;
use crate::starts::one_worker;
use std::fmt;

pub fn chains(out: &mut Out) -> fmt::Result {
    snapshot(out, "snapshot, empty", &one_worker(), &mut [9; 2], 2)?;
    for (text, at, word, room) in [
        ("snapshot, key 5", 28, 0, 2),
        ("snapshot, key 5, no room", 28, 0, 0),
        ("snapshot, key 5, Head's key 4", 16, 4, 2),
        ("snapshot, key 5, Tail's key 0", 21, 0, 2),
    ] {
        snapshot(out, text, &one(0, at, word), &mut [9; 2], room)?;
    }
    Ok(())
}

pub fn breaks(out: &mut Out) -> fmt::Result {
    for (text, at, word, room) in [
        ("snapshot, Head's link 3", 17, 3, 2),
        ("snapshot, Head's link 65535", 17, 65535, 2),
        ("snapshot, Head's link 0", 17, 0, 2),
        ("snapshot, Head's key 5", 16, 5, 2),
        ("snapshot, key 0", 26, 0, 2),
        ("snapshot, node 2 leads to itself", 27, 2, 2),
        ("snapshot, node 2 leads to Head", 27, 0, 2),
        ("snapshot, node 2 leads to itself, no room", 27, 2, 0),
    ] {
        snapshot(out, text, &one(0, at, word), &mut [9; 2], room)?;
    }
    Ok(())
}

pub fn longer(out: &mut Out) -> fmt::Result {
    let rows = [
        ("snapshot, 10 20 30", 30, 4),
        ("snapshot, 10 20 30, room for 2", 30, 2),
        ("snapshot, 10 20 20, room for 2", 20, 2),
    ];
    snapshots_of_three(out, 0, &rows)
}

// A marked node is not listed and needs no room, and is tested like the others.
pub fn marks(out: &mut Out) -> fmt::Result {
    for (text, at, word) in [
        ("snapshot, key 5 marked", 28, 1),
        ("snapshot, key 5, mark 65535", 28, 65535),
        ("snapshot, key 0 marked", 26, 0),
        ("snapshot, key 5 marked, node 2 leads to 3", 27, 3),
    ] {
        snapshot(out, text, &one(1, at, word), &mut [9; 2], 2)?;
    }
    let rows = [
        ("snapshot, 10 20 30, 20 marked, room for 2", 30, 2),
        ("snapshot, 10 20 30, 20 marked, room for 1", 30, 1),
        ("snapshot, 10 20 15, 20 marked", 15, 4),
    ];
    snapshots_of_three(out, 1, &rows)
}

// Of five nodes, with the mark of key 20: for each row the last key and the room.
fn snapshots_of_three(out: &mut Out, mark: u16, rows: &[(&str, u16, usize)]) -> fmt::Result {
    for (text, last, room) in rows {
        snapshot(out, text, &three(mark, *last), &mut [9; 4], *room)?;
    }
    Ok(())
}

// Node 2 with key 5 between Head and Tail, with a mark, and then one word written anew.
fn one(mark: u16, at: usize, word: u16) -> [u16; 31] {
    rewritten(
        one_worker(),
        &[(17, 2), (26, 5), (27, 1), (28, mark), (at, word)],
    )
}

// Five nodes, chained 0, 4, 2, 3, 1, with the mark of key 20 and the last key of choice.
fn three(mark: u16, last: u16) -> [u16; 41] {
    let nodes = [
        (17, 4),
        (36, 10),
        (37, 2),
        (26, 20),
        (27, 3),
        (28, mark),
        (31, last),
        (32, 1),
    ];
    rewritten(fresh(1, 5), &nodes)
}

// Into the first of the lent words.
fn snapshot(
    out: &mut Out,
    text: &str,
    arena: &[u16],
    lent: &mut [u16],
    room: usize,
) -> fmt::Result {
    let count = arena::snapshot(arena, first(lent, room));
    show_keys(out, text, count, lent)
}

// Key 5 between its marking, in the tenth turn of its remove, and its unlinking, in the twelfth: a look-up says no, and it is not listed.
pub fn half_removed(out: &mut Out) -> fmt::Result {
    let mut arena: [u16; 39] = fresh(2, 3);
    let add = Call::add(5).of(1);
    let remove = Call::remove(5);
    show(out, "half removed: add 5", add.run(&mut arena))?;
    show(
        out,
        "half removed: remove 5 is about to mark",
        remove.begin(&mut arena, 9),
    )?;
    look(out, &mut arena)?;
    show(out, "half removed: remove 5 marks", turns(&mut arena, 0, 1))?;
    look(out, &mut arena)?;
    show(
        out,
        "half removed: remove 5 unlinks",
        turns(&mut arena, 0, 2),
    )?;
    look(out, &mut arena)
}

fn look(out: &mut Out, arena: &mut [u16]) -> fmt::Result {
    keys(out, "half removed: snapshot", arena)?;
    show(
        out,
        "half removed: contains 5",
        Call::contains(5).by(1).run(arena),
    )
}
