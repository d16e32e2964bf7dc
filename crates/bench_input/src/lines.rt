// A line of the input, without its LF.
ghost use Rattle.std.specs.Prelude.{◌≡◌};
ghost use Rattle.words.specs.Entries.{entry_of};
ghost use Rattle.bench_input.specs.Lines.{turn_line, command_line, long_line, line_of};

use crate::bytes::{SPACE, split_once};
use crate::numbers::number_of;
use words::Entry;
use worker::Worker;

// What a good line says: the counts of line 1, or so many equal entries of the schedule.
#[derive(Clone, Copy)]
pub(crate) enum Line {
    Board(u16, u16),
    Entries(Entry, u16),
}

pub(crate) const MOST_ENTRIES: u16 = Entry::MOST as u16;

// A word, and two numbers or three. With a fifth field the third text has a space in it, and is no number.
#[tactic(auto, unfolding(crate::specs::Lines::line_of))]
pub(crate) fn line_of(line: &[u8]) -> Option<Line>
    ensures { result ≡ line_of line.now }
{
    let (word, numbers) = split_once(line, SPACE)?;
    let (first, others) = split_once(numbers, SPACE)?;
    let a = number_of(first)?;
    let Some((second, third)) = split_once(others, SPACE) else {
        return command_line(word, a, number_of(others)?);
    };
    let b = number_of(second)?;
    let c = number_of(third)?;
    long_line(word, a, b, c)
}

// A line of a word and two numbers.
#[tactic(auto, unfolding(crate::specs::Lines::command_line))]
fn command_line(word: &[u8], a: u16, b: u16) -> Option<Line>
    ensures { result ≡ command_line word.now a b }
{
    match word {
        b"board" => Some(Line::Board(a, b)),
        b"remove" => Some(one_entry(a, Worker::REMOVE, b, 0)),
        b"contains" => Some(one_entry(a, Worker::CONTAINS, b, 0)),
        b"turn" => turn_line(a, b),
        _ => None,
    }
}

// A line of a word and three numbers.
#[tactic(auto, unfolding(crate::specs::Lines::long_line))]
fn long_line(word: &[u8], a: u16, b: u16, c: u16) -> Option<Line>
    ensures { result ≡ long_line word.now a b c }
{
    (word == b"add".as_slice()).then_some(one_entry(a, Worker::ADD, b, c))
}

fn one_entry(worker: u16, act: u16, key: u16, length: u16) -> Line
    ensures { result ≡ Line.Entries (entry_of worker act key length) 1 }
{
    let entry = Entry {
        worker,
        act,
        key,
        length,
    };
    Line::Entries(entry, 1)
}

#[tactic(auto, unfolding(crate::specs::Lines::turn_line))]
fn turn_line(worker: u16, count: u16) -> Option<Line>
    ensures { result ≡ turn_line worker count }
{
    let entry = Entry {
        worker,
        act: Entry::TURN,
        key: 0,
        length: 0,
    };
    (1..=MOST_ENTRIES)
        .contains(&count)
        .then_some(Line::Entries(entry, count))
}
