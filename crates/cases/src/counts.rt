// The count of stored labels in the header: kept by calls, refused at its ends, and told.
use crate::calls::{Call, turns};
use crate::fresh::{first, fresh, rewritten};
use crate::print::{Given, Out, show, show_part};
use crate::reuse::keys;
use std::fmt;
use words::layout::STORED_AT;
use worker::Refusal;

// Calls that find room for two labels, and use a node again, and the count behind each.
pub fn kept(out: &mut Out) -> fmt::Result {
    let mut arena = four_nodes();
    show(out, "count: fresh", stored(&arena))?;
    for (text, call) in [
        ("count: add 5", Call::add(5).of(3)),
        ("count: add 9", Call::add(9).of(1)),
        ("count: add 11", Call::add(11).of(1)),
        ("count: add 5 again", Call::add(5).of(2)),
        ("count: contains 5", Call::contains(5)),
        ("count: remove 5", Call::remove(5)),
        ("count: remove 5 again", Call::remove(5)),
        ("count: add 11", Call::add(11).of(1)),
        ("count: remove 9", Call::remove(9)),
    ] {
        show(out, text, call.run(&mut arena))?;
        show(out, "  then", stored(&arena))?;
    }
    keys(out, "count: snapshot", &arena)
}

// The turns at 14 to 16 and 18, on counts at both ends and past them.
pub fn ends(out: &mut Out) -> fmt::Result {
    let add = Call::add(5).of(3);
    let mut filled = four_nodes();
    show(out, "count: add 5 to 14", add.begin(&mut filled, 9))?;
    turn_on(out, "count: 14 on 2", filled, 2)?;
    let mut linked = four_nodes();
    show(out, "count: add 5 to 15", add.begin(&mut linked, 10))?;
    for (text, stored) in [
        ("count: 15 on 0", 0),
        ("count: 15 on 1", 1),
        ("count: 15 on 2", 2),
        ("count: 15 on 3", 3),
    ] {
        turn_on(out, text, linked, stored)?;
    }
    let mut marked = four_nodes();
    show(out, "count: add 5", add.run(&mut marked))?;
    let remove = Call::remove(5);
    show(out, "count: remove 5 to 16", remove.begin(&mut marked, 9))?;
    for (text, stored) in [
        ("count: 16 on 0", 0),
        ("count: 16 on 1", 1),
        ("count: 16 on 2", 2),
        ("count: 16 on 65535", 65535),
    ] {
        turn_on(out, text, marked, stored)?;
    }
    show(out, "count: remove 5 to 18", turns(&mut marked, 0, 2))?;
    turn_on(out, "count: 18 on 0", marked, 0)
}

// A turn on another count: its report, and the header that it leaves.
fn turn_on(out: &mut Out, text: &str, arena: [u16; 36], stored: u16) -> fmt::Result {
    let mut arena = rewritten(arena, &[(STORED_AT, stored)]);
    show(out, text, lazy::turn(&mut arena, 0))?;
    show_part(out, "  header", &arena, 0..8)
}

// What stored answers. No chain is walked and no record looked at, so it answers on broken ones too.
pub fn told(out: &mut Out) -> fmt::Result {
    for (text, at, word) in [
        ("count: it is 2", STORED_AT, 2),
        ("count: it is 3", STORED_AT, 3),
        ("count: word 7 is 1", 7, 1),
        ("count: Head's link is 4", 17, 4),
        ("count: stage 26", 8, 26),
    ] {
        let arena = rewritten(four_nodes(), &[(at, word)]);
        show(out, text, stored(&arena))?;
    }
    let mut short = four_nodes();
    show(out, "count: 35 words", stored(first(&mut short, 35)))
}

// One worker.
fn four_nodes() -> [u16; 36] {
    fresh(1, 4)
}

// How many labels are stored.
#[derive(Clone, Copy)]
pub struct Count(u16);

impl Given for Count {
    fn print<W: fmt::Write>(&self, f: &mut fmt::Formatter<W>) -> fmt::Result {
        write!(f, "stored {}", self.0)
    }
}

pub fn stored(arena: &[u16]) -> Result<Count, Refusal> {
    Ok(Count(arena::stored(arena)?))
}
