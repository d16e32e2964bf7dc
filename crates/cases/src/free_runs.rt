// The longest run of cells that lie in no label, on arenas of any words: labels that overlap, or lie inside one another, or end past all cells.
use crate::fresh::{first, fresh, rewritten};
use crate::print::{Out, show};
use free_cells::longest_free_run;
use std::fmt;

pub fn one_label(out: &mut Out) -> fmt::Result {
    run(out, "free run: no label, up to 9", &[], 9)?;
    run(out, "free run: no label, up to 1", &[], 1)?;
    run(out, "free run: no label, up to 65534", &[], 65534)?;
    run(out, "free run: 1 of 9, up to 9", &[(1, 9)], 9)?;
    run(out, "free run: 1 of 9, up to 10", &[(1, 9)], 10)?;
    run(out, "free run: 1 of 1, up to 2", &[(1, 1)], 2)?;
    run(out, "free run: 9 of 1, up to 9", &[(9, 1)], 9)?;
    run(out, "free run: 5 of 10, up to 9", &[(5, 10)], 9)?;
    run(out, "free run: 20 of 1, up to 9", &[(20, 1)], 9)?;
    let all = [(1, 65535)];
    run(out, "free run: 1 of 65535, up to 65534", &all, 65534)?;
    let past = [(60000, 65535)];
    run(out, "free run: 60000 of 65535, up to 65534", &past, 65534)?;
    let highest = [(65535, 5)];
    run(out, "free run: 65535 of 5, up to 65534", &highest, 65534)
}

pub fn more_labels(out: &mut Out) -> fmt::Result {
    let overlap = [(3, 5), (6, 4)];
    run(out, "free run: 3 of 5, 6 of 4, up to 12", &overlap, 12)?;
    let inside = [(2, 10), (4, 2)];
    run(out, "free run: 2 of 10, 4 of 2, up to 16", &inside, 16)?;
    let adjacent = [(3, 2), (5, 2)];
    run(out, "free run: 3 of 2, 5 of 2, up to 9", &adjacent, 9)?;
    let two_equal = [(4, 3), (10, 9)];
    run(out, "free run: 4 of 3, 10 of 9, up to 12", &two_equal, 12)?;
    let three_equal = [(3, 1), (7, 1), (11, 1)];
    run(out, "free run: 3, 7, 11 of 1, up to 14", &three_equal, 14)?;
    let one_past = [(5, 1), (20, 1)];
    run(out, "free run: 5 of 1, 20 of 1, up to 12", &one_past, 12)?;
    let empty = [(5, 0), (9, 1)];
    run(out, "free run: 5 of 0, 9 of 1, up to 12", &empty, 12)
}

fn run(out: &mut Out, text: &str, labels: &[(u16, u16)], last: u16) -> fmt::Result {
    show(out, text, longest_free_run(&labelled(labels), last))
}

// What stands in the way: too few words, an odd header, a last cell that is none, a broken chain; the first decides.
pub fn refusals(out: &mut Out) -> fmt::Result {
    let mut arena = labelled(&[(3, 2), (8, 1)]);
    run_on(out, "free run, 45 words, up to 0", first(&mut arena, 45), 0)?;
    for (text, at, word, last) in [
        ("free run, 3 of 2, 8 of 1, up to 9", 6, 0, 9),
        ("free run, header word 6 is 5, up to 0", 6, 5, 0),
        ("free run, up to 0", 6, 0, 0),
        ("free run, up to 65535", 6, 0, 65535),
        ("free run, key 8 is 3, up to 65535", 31, 3, 65535),
        ("free run, key 8 is 3", 31, 3, 9),
        ("free run, 8 leads to node 6", 32, 6, 9),
        ("free run, 3 of 2 marked", 28, 1, 9),
        ("free run, 8 of 1, mark 65535", 33, 65535, 9),
        ("free run, key 3 is 0, up to 9", 26, 0, 9),
    ] {
        run_on(out, text, &rewritten(arena, &[(at, word)]), last)?;
    }
    Ok(())
}

fn run_on(out: &mut Out, text: &str, arena: &[u16], last: u16) -> fmt::Result {
    show(out, text, longest_free_run(arena, last))
}

// Six nodes: the labels, up to four, one behind the other between Head and Tail.
fn labelled(labels: &[(u16, u16)]) -> [u16; 46] {
    let mut arena = fresh(1, 6);
    let mut link = 17;
    for (node, (key, length)) in (2..6u16).zip(labels.iter()) {
        let at = 16 + 5 * (node as usize);
        words::put(&mut arena, link, node);
        words::write(&mut arena, at, &[*key, 1, 0, 0, *length]);
        link = at + 1;
    }
    arena
}
