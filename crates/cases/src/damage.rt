// A turn at each stage: on three arenas that take its tests one way and another, and with each kind of damage.
use crate::fresh::{fresh, rewritten};
use crate::print::{Out, Reply, show_part};
use std::fmt;
use std::fmt::Write;
use words::layout::STORED_AT;
use worker::Worker;

// One worker and four nodes: Head, then node 2 with key 5, of length 4, which is counted; node 3 is free. The worker stands at a stage, with
// pred 0, curr 2, spare 2, and a length of 3.
fn standing(stage: u16) -> [u16; 36] {
    let nodes = [(STORED_AT, 1), (17, 2), (26, 5), (27, 1), (30, 4)];
    let record = [(11, 0), (12, 2), (13, 2), (14, 1), (15, 3)];
    let call = [(8, stage), (9, operation_at(stage)), (10, 5)];
    let arena = rewritten(fresh(1, 4), &nodes);
    rewritten(rewritten(arena, &record), &call)
}

// One that belongs to the stage.
fn operation_at(stage: u16) -> u16 {
    match stage {
        0..=15 | 19..=21 => Worker::ADD,
        16..=18 => Worker::REMOVE,
        _ => Worker::CONTAINS,
    }
}

// Another one that belongs to the stage, where there is one.
fn other_operation_at(stage: u16) -> u16 {
    match stage {
        14 | 15 => Worker::ADD,
        0..=20 => Worker::REMOVE,
        _ => Worker::CONTAINS,
    }
}

pub fn stages(out: &mut Out) -> fmt::Result {
    for stage in 0..26 {
        stage_on_three(out, stage)?;
    }
    Ok(())
}

fn stage_on_three(out: &mut Out, stage: u16) -> fmt::Result {
    let key_below = [(9, other_operation_at(stage)), (26, 3)];
    // all tests the other way: key above, both nodes marked and held, pred leads elsewhere, no node free, another answer
    let key_above = [
        (14, 3),
        (17, 3),
        (18, 7),
        (19, 2),
        (26, 6),
        (28, 1),
        (29, 3),
        (31, 4),
        (32, 1),
    ];
    turn(out, stage, "key equal", standing(stage))?;
    turn(
        out,
        stage,
        "key below",
        rewritten(standing(stage), &key_below),
    )?;
    turn(
        out,
        stage,
        "key above",
        rewritten(standing(stage), &key_above),
    )
}

// The report and the count, then the worker's and the nodes' words.
fn turn(out: &mut Out, stage: u16, text: &str, mut arena: [u16; 36]) -> fmt::Result {
    let report = Reply(lazy::turn(&mut arena, 0));
    let stored = words::word(&arena, STORED_AT);
    writeln!(out, "stage {stage}, {text}: {report}, count {stored}")?;
    show_part(out, "  worker", &arena, 8..16)?;
    show_part(out, "  nodes", &arena, 16..36)
}

// For each stage the refusal that each damage gets.
pub fn refusals(out: &mut Out) -> fmt::Result {
    for stage in 0..28 {
        refusals_at(out, stage)?;
    }
    refusals_at(out, 65535)
}

fn refusals_at(out: &mut Out, stage: u16) -> fmt::Result {
    write!(out, "stage {stage}: operations 0 to 4:")?;
    show_refusals(out, stage, &[(9, 0), (9, 1), (9, 2), (9, 3), (9, 4)])?;
    write!(out, "; keys 0, 65535:")?;
    show_refusals(out, stage, &[(10, 0), (10, 65535)])?;
    write!(out, "; answers 0, 4:")?;
    show_refusals(out, stage, &[(14, 0), (14, 4)])?;
    write!(out, "; pred, curr, spare 4:")?;
    show_refusals(out, stage, &[(11, 4), (12, 4), (13, 4)])?;
    write!(out, "; next of pred, of curr 4:")?;
    show_refusals(out, stage, &[(17, 4), (27, 4)])?;
    write!(out, "; counts 0, 2:")?;
    show_refusals(out, stage, &[(STORED_AT, 0), (STORED_AT, 2)])?;
    writeln!(out, "")
}

// Of a turn at the stage with one word written anew, for each: the number of the refusal, 0 where the turn is accepted.
fn show_refusals(out: &mut Out, stage: u16, damages: &[(usize, u16)]) -> fmt::Result {
    for damage in damages {
        let mut arena = rewritten(standing(stage), &[*damage]);
        match lazy::turn(&mut arena, 0) {
            Ok(_) => write!(out, " 0")?,
            Err(refusal) => write!(out, " {}", u16::from(refusal))?,
        }
    }
    Ok(())
}
