// A run of a schedule with document 01's history: rows of call records and of waits that the caller lends.
#![tactic(auto)]

ghost use Rattle.std.specs.Prelude.{◌≡◌, ◌≤◌, length, replicate};
ghost use Rattle.words.specs.Replies.{reply};
ghost use Rattle.schedule.specs.Run.{totals_values, run_answer, run_arena, run_records, run_waits, DoneLinearizable};
ghost use Rattle.words.specs.Flat.{record_in};
ghost use Rattle.history.specs.Rows.{filled_row, RanWithin, no_call, no_wait};

use schedule::{Call, Totals, Wait};
use words::Entry;
use words::flat::{self, Record};
use worker::Refusal;

// A run has at most as many calls, and as many waits, as its schedule has entries. Their words are of fixed length, for there is no heap.
const MOST_CALL_WORDS: usize = Call::WIDTH * Entry::MOST;

const MOST_WAIT_WORDS: usize = Wait::WIDTH * Entry::MOST;

// The run on flat words, with room for as many calls and waits as rows of so many records have.
fn run_within(
    arena: &mut [u16],
    workers: u16,
    nodes: u16,
    schedule: &[u16],
    calls: usize,
    waits: usize,
    history: &mut [u16],
    waited: &mut [u16],
) -> Result<Totals, Refusal>
    requires calls { length history.old ≡ 28000 }
    requires waits { length waited.old ≡ 16000 }
    ensures { RanWithin arena.old workers nodes schedule.now calls waits result
        arena.new history.new waited.new }
{
    let call_room = calls.min(Entry::MOST);
    let wait_room = waits.min(Entry::MOST);
    schedule::run(
        arena,
        workers,
        nodes,
        schedule,
        &mut history[0..Call::WIDTH * call_room],
        &mut waited[0..Wait::WIDTH * wait_room],
    )
}

// The first records of a row are those of the words; the rest stays.
#[tactic(auto, using(crate::proofs::RowLaws::none_filled, crate::proofs::RowLaws::next_filled))]
fn fill<const WIDTH: usize, R: Record<WIDTH>>(row: &mut [R], words: &[u16], count: u16)
    requires { count ≤ length row.old }
    ensures { row.new ≡ filled_row (record_in WIDTH R.first words.now) count row.old }
{
    for number in 0..count {
        row[number as usize] = flat::read(words, number);
    }
}

// Runs a schedule on an arena that it lays itself (document 01: run). The rows hold a record for each call, in order of start, and for each
// wait, in order of time; records past them stay.
#[tactic(auto, using(crate::proofs::RowLaws::none_filled))]
pub fn run(
    arena: &mut [u16],
    workers: u16,
    nodes: u16,
    schedule: &[u16],
    row: &mut [Call],
    waits: &mut [Wait],
) -> Result<Totals, Refusal>
    ensures answer { reply totals_values result
        ≡ run_answer arena.old workers nodes schedule.now (length row.old) (length waits.old) }
    ensures words { arena.new
        ≡ run_arena arena.old workers nodes schedule.now (length row.old) (length waits.old) }
    ensures calls { row.new
        ≡ run_records arena.old workers nodes schedule.now row.old (length waits.old) }
    ensures waits { waits.new
        ≡ run_waits arena.old workers nodes schedule.now (length row.old) waits.old }
    ensures linearizable { DoneLinearizable result workers nodes schedule.now }
{
    let mut call_words = [0; MOST_CALL_WORDS];
    let mut wait_words = [0; MOST_WAIT_WORDS];
    let summary = run_within(
        arena,
        workers,
        nodes,
        schedule,
        row.len(),
        waits.len(),
        &mut call_words,
        &mut wait_words,
    );
    if let Ok(totals) = summary {
        fill(row, &call_words, totals.calls);
        fill(waits, &wait_words, totals.waits);
    }
    summary
}

// A run's rows, and what the run answers; of fixed length, as there is no heap, so that the totals say how many records are the run's.
#[derive(Clone, Copy)]
pub struct Ran {
    pub row: [Call; 1000],
    pub waits: [Wait; Entry::MOST],
    pub summary: Result<Totals, Refusal>,
}

// The same with rows of its own, of 1,000 calls and 4,000 waits, which are handed back by value.
pub fn run_thousand(arena: &mut [u16], workers: u16, nodes: u16, schedule: &[u16]) -> Ran
    ensures answer { reply totals_values result.summary ≡ run_answer arena.old workers nodes schedule.now 1000 4000 }
    ensures words { arena.new ≡ run_arena arena.old workers nodes schedule.now 1000 4000 }
    ensures calls { result.row ≡ run_records arena.old workers nodes schedule.now (replicate 1000 no_call) 4000 }
    ensures waits { result.waits ≡ run_waits arena.old workers nodes schedule.now 1000 (replicate 4000 no_wait) }
    ensures linearizable { DoneLinearizable result.summary workers nodes schedule.now }
{
    // The rows are filled where they are handed back from: copied there, a short run took 1.4 times as long. What stands for the answer
    // until there is one is never read.
    let mut ran = Ran {
        row: [Call::default(); 1000],
        waits: [Wait::default(); Entry::MOST],
        summary: Err(Refusal::NoRoom),
    };
    ran.summary = run(
        arena,
        workers,
        nodes,
        schedule,
        &mut ran.row,
        &mut ran.waits,
    );
    ran
}
