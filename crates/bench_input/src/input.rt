// The whole input, line by line.
ghost use Rattle.std.specs.Prelude.{◌≡◌, ◌+◌, ◌*◌, ◌≤◌, length, replicate, [], option_map, unwrap_or};
ghost use Rattle.std.proofs.lemmas.List.Edits.{sets};
ghost use Rattle.words.specs.Flat.{flat_words};
ghost use Rattle.words.specs.Entries.{entry_width, entry_words, most_entries};
ghost use Rattle.bench_input.specs.Bytes.{line_feed, parts};
ghost use Rattle.bench_input.specs.Input.{most_bytes, text_entries, counts_of, lines_from, reading_of, parsed_of, scheduled};

use crate::bytes::{LINE_FEED, split_once};
use crate::lines::{Line, MOST_ENTRIES, line_of};
use crate::{BadLine, Plan};
use words::layout::Counts;
use words::{Entry, flat};

const MOST_BYTES: usize = 16384;

// Reads an input and writes the entries of its schedule. Where a line is bad, the entries of the lines before it have been written.
pub fn parse(input: &[u8], schedule: &mut [u16]) -> Result<Plan, BadLine>
    ensures answer { result ≡ parsed_of (reading_of input.now) }
    ensures words { schedule.new ≡ scheduled schedule.old (reading_of input.now) }
{
    if MOST_BYTES < input.len() {
        return Err(BadLine(0));
    }
    let (first, others) = split_once(input, LINE_FEED).ok_or(BadLine(1))?;
    let (workers, nodes) = counts_of(first).ok_or(BadLine(1))?;
    parse_entries(others, workers, nodes, schedule)
}

// W and N of `board W N`, if they are good.
#[tactic(auto, unfolding(crate::specs::Input::good_board))]
fn counts_of(line: &[u8]) -> Option<(u16, u16)>
    ensures { result ≡ counts_of line.now }
{
    match line_of(line)? {
        Line::Board(workers, nodes) => {
            let counts = Counts::new(workers, nodes)?;
            Some((counts.workers, counts.nodes))
        }
        Line::Entries(..) => None,
    }
}

// The lines from the second on. Behind the last LF stands nothing.
fn parse_entries(
    text: &[u8],
    workers: u16,
    nodes: u16,
    schedule: &mut [u16],
) -> Result<Plan, BadLine>
    requires { length text.now ≤ most_bytes }
    ensures answer { result ≡ parsed_of (lines_from workers nodes 2 [] (parts line_feed text.now)) }
    ensures words { schedule.new ≡
        scheduled schedule.old (lines_from workers nodes 2 [] (parts line_feed text.now)) }
{
    let mut entries: u16 = 0;
    for (number, part) in (2..).zip(text.split_inclusive(|byte| *byte == LINE_FEED)) {
        let line = part.strip_suffix(&[LINE_FEED]).ok_or(BadLine(number))?;
        entries = write_line(schedule, entries, line).ok_or(BadLine(number))?;
    }
    Ok(Plan {
        workers,
        nodes,
        entries,
    })
}

// Writes the entries of a line behind those that there are, and answers how many there are then. A bad line gives none.
#[tactic(auto, using(crate::proofs::InputLaws::copies_none, crate::proofs::InputLaws::copies_more), unfolding(crate::specs::Input::new_entries))]
fn write_line(schedule: &mut [u16], entries: u16, line: &[u8]) -> Option<u16>
    requires { entries ≤ most_entries }
    ensures count { result ≡ option_map (λ new. entries + length new) (text_entries entries line.now) }
    ensures words { schedule.new ≡
        sets schedule.old (entry_width * entries) (flat_words entry_words (unwrap_or (text_entries entries line.now) [])) }
{
    let Line::Entries(entry, count) = line_of(line)? else {
        return None;
    };
    if MOST_ENTRIES - entries < count {
        return None;
    }
    for copy in 0..count {
        flat::write(schedule, entries + copy, entry);
    }
    Some(entries + count)
}
