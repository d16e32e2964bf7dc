// Old boards to new and back.
use crate::calls::Call;
use crate::counts::stored;
use crate::fresh::{first, fresh, rewritten};
use crate::print::{Out, show, show_part};
use std::fmt;
use words::layout::STORED_AT;

// For Head, Tail, and nodes 2 to 4.
const LENGTHS: [u16; 5] = [11, 12, 3, 4, 2];

// To layout 2: the words, with two behind that stay; and calls that go on.
pub fn renewed(out: &mut Out) -> fmt::Result {
    let mut target = [77; 43];
    let source = rewritten(old_arena(), &[(9, 3), (15, 44)]);
    let done = convert::to_layout_2(&source, &LENGTHS, &mut target);
    show(out, "to layout 2", done)?;
    show_part(out, "  header", &target, 0..8)?;
    show_part(out, "  worker", &target, 8..16)?;
    show_part(out, "  Head, Tail", &target, 16..26)?;
    show_part(out, "  nodes 2 to 4", &target, 26..41)?;
    show_part(out, "  behind", &target, 41..43)?;
    show(out, "  then", stored(&target))?;
    let cells = free_cells::longest_free_run(&target, 12);
    show(out, "  free up to 12", cells)?;
    for (text, call) in [
        ("  add 7", Call::add(7).of(9)),
        ("  remove 5", Call::remove(5)),
        ("  add 9", Call::add(9).of(1)),
        ("  contains 5", Call::contains(5)),
    ] {
        show(out, text, call.run(&mut target))?;
    }
    show(out, "  then", stored(&target))
}

// To layout 2 with every length 1, and back; with a length of 2, not back.
pub fn there_and_back(out: &mut Out) -> fmt::Result {
    let source = old_arena();
    let mut between = [0; 41];
    let mut back = [77; 38];
    let there = convert::to_layout_2(&source, &[1; 5], &mut between);
    show(out, "to layout 2, lengths 1", there)?;
    let done = convert::to_layout_1(&between, &mut back);
    show(out, "and back", done)?;
    show_part(out, "  header", &back, 0..8)?;
    show_part(out, "  worker", &back, 8..16)?;
    show_part(out, "  nodes", &back, 16..36)?;
    show_part(out, "  behind", &back, 36..38)?;
    for (text, at, word) in [
        ("back, node 4 has length 2", 40, 2),
        ("back, node 4 has length 0", 40, 0),
        ("back, the removed node has length 2", 35, 2),
        ("back, key 65535", 36, 65535),
        ("back, a count of 3", STORED_AT, 3),
        ("back, a count of 4", STORED_AT, 4),
    ] {
        let changed = rewritten(between, &[(at, word)]);
        let reply = convert::to_layout_1(&changed, &mut back);
        show(out, text, reply)?;
    }
    let narrow = convert::to_layout_1(&between, first(&mut back, 35));
    show(out, "back, 35 words", narrow)?;
    show(
        out,
        "back, from layout 1",
        convert::to_layout_1(&source, &mut back),
    )
}

// To layout 2, what is refused, in order.
pub fn refusals(out: &mut Out) -> fmt::Result {
    let mut short = old_arena();
    refused(
        out,
        "to layout 2: 35 words",
        first(&mut short, 35),
        &LENGTHS,
        41,
    )?;
    let new: [u16; 41] = fresh(1, 5);
    refused(out, "to layout 2: from layout 2", &new, &LENGTHS, 41)?;
    for (text, at, word, room) in [
        ("to layout 2: word 6 is 1", STORED_AT, 1, 41),
        ("to layout 2: word 7 is 1", 7, 1, 41),
        ("to layout 2: stage 26", 8, 26, 41),
        ("to layout 2: stage 25, a broken chain", 8, 25, 41),
        ("to layout 2: Head's link is 5, no room", 17, 5, 40),
        ("to layout 2: key 7 below 5", 24, 8, 41),
        ("to layout 2: key 65535, no room", 32, 65535, 40),
        ("to layout 2: key 65535", 32, 65535, 41),
        ("to layout 2: the removed node's link is 9", 29, 9, 41),
        ("to layout 2: Head's owner is 1", 19, 1, 41),
    ] {
        let mut source = rewritten(old_arena(), &[(at, word)]);
        if word == 25 {
            source = rewritten(source, &[(17, 5)]);
        }
        refused(out, text, &source, &LENGTHS, room)?;
    }
    lengths(out)
}

// And what lengths may be.
fn lengths(out: &mut Out) -> fmt::Result {
    let source = old_arena();
    refused(out, "lengths: four", &source, &[11, 12, 0, 4], 41)?;
    for (text, lent) in [
        ("lengths: of 5 it is 0", [1, 1, 0, 1, 1]),
        ("lengths: of 5 it is 65530", [1, 1, 65530, 1, 1]),
        ("lengths: of 5 it is 65531", [1, 1, 65531, 1, 1]),
        ("lengths: of 7 it is 65535", [1, 1, 1, 1, 65535]),
        ("lengths: of the removed node it is 0", [0, 0, 1, 0, 1]),
    ] {
        refused(out, text, &source, &lent, 41)?;
    }
    refused(out, "lengths: six", &source, &[0, 0, 1, 0, 1, 0], 41)
}

// What is replied, and whether the target's words stay.
fn refused(out: &mut Out, text: &str, source: &[u16], lent: &[u16], room: usize) -> fmt::Result {
    let mut target = [77; 41];
    let reply = convert::to_layout_2(source, lent, first(&mut target, room));
    show(out, text, reply)?;
    show_part(out, "  header", &target, 0..8)
}

// Of layout 1, at rest: 5 and 7 are stored in nodes 2 and 4, and 9 was removed from node 3, which leads to Tail. No arena is laid in that layout,
// so this one is converted.
pub fn old_arena() -> [u16; 36] {
    let mut new: [u16; 41] = fresh(1, 5);
    for call in [
        Call::add(5).of(1),
        Call::add(9).of(1),
        Call::add(7).of(1),
        Call::remove(9),
    ] {
        let _ = call.run(&mut new);
    }
    let mut old = [0; 36];
    let _ = convert::to_layout_1(&new, &mut old);
    old
}
