// Old arenas, of layout 1: all but the converters refuse them.
use crate::calls::Call;
use crate::conversions::old_arena;
use crate::counts::stored;
use crate::fresh::{first, rewritten};
use crate::print::{Out, Reply, show, show_keys, show_words};
use std::fmt;
use std::fmt::Write;

// A whole one; one with more that is wrong, for which there are other numbers; one with an odd header; and one that a word is missing from.
pub fn refused(out: &mut Out) -> fmt::Result {
    each(out, "old arena", &mut old_arena(), (0, 5), 9)?;
    for (text, changes, room) in [
        ("old arena, stage 26, Head's link 5", [(8, 26), (17, 5)], 36),
        ("old arena, word 6 is 1", [(6, 1), (7, 0)], 36),
        ("old arena, 35 words", [(6, 0), (7, 0)], 35),
    ] {
        let mut arena = rewritten(old_arena(), &changes);
        each(out, text, first(&mut arena, room), (9, 0), 0)?;
    }
    Ok(())
}

// What each entry point replies, for a worker and a key, and up to a last cell; then the words.
fn each(
    out: &mut Out,
    text: &str,
    arena: &mut [u16],
    (worker, key): (u16, u16),
    last: u16,
) -> fmt::Result {
    writeln!(out, "{text}: worker {worker}, key {key}, up to {last}")?;
    let call = Call::contains(key).by(worker);
    show(out, "  start", call.start(arena))?;
    show(out, "  turn", lazy::turn(arena, worker))?;
    let mut keys = [9; 1];
    let listed = arena::snapshot(arena, &mut keys);
    show_keys(out, "  snapshot", listed, &keys)?;
    show(out, "  find_free", lazy::find_free(arena))?;
    let cells = free_cells::longest_free_run(arena, last);
    show(out, "  free run", cells)?;
    show(out, "  count", stored(arena))?;
    show_words(out, "  they stay:", arena)
}

// The header alone tells an old arena: all words behind it are 0.
pub fn counts(out: &mut Out) -> fmt::Result {
    let mut arena = [0; 4168];
    for (workers, nodes, from, total) in [
        (1, 3, 16, 28),
        (8, 1024, 72, 4168),
        (0, 3, 8, 20),
        (9, 3, 80, 92),
        (1, 2, 16, 24),
        (1, 1025, 16, 4116),
    ] {
        let header = [1, workers, nodes, 8, from, total, 0, 0];
        words::write(&mut arena, 0, &header);
        let reply = Reply(stored(&arena));
        writeln!(out, "old header, {workers} {nodes}: {reply}")?;
    }
    Ok(())
}

// And any other word in it makes it odd.
pub fn headers(out: &mut Out) -> fmt::Result {
    for (at, word) in [
        (0, 0),
        (0, 2),
        (0, 3),
        (1, 2),
        (2, 6),
        (3, 9),
        (4, 17),
        (5, 35),
        (5, 37),
        (6, 2),
        (7, 1),
    ] {
        let reply = Reply(stored(&rewritten(old_arena(), &[(at, word)])));
        writeln!(out, "old header, word {at} is {word}: {reply}")?;
    }
    Ok(())
}
