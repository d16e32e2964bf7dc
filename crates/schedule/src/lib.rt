// The run of a schedule on plain numbers: an arena, the history and the waits in lent words, seven to a call and four to a wait.
#![tactic(auto)]

ghost use Rattle.std.specs.Prelude.{◌≡◌, true, ◌*◌, ◌/◌, ◌%◌, ◌≤◌, length};
ghost use Rattle.words.specs.Layout.{good_counts, total};
ghost use Rattle.words.specs.Replies.{reply};
ghost use Rattle.arena.specs.Init.{fresh_words};
ghost use Rattle.linear.specs.Entries.{is_turn};
ghost use Rattle.linear.specs.History.{totals, arena_at};
ghost use Rattle.schedule.specs.Run.{is_operation, count_in, call_width, call_words, records_of};
ghost use Rattle.schedule.specs.Run.{wait_width, wait_words, waits_of, told, totals_of};
ghost use Rattle.words.specs.Flat.{flat_words};
ghost use Rattle.words.specs.Entries.{entries_of};
ghost use Rattle.schedule.specs.Run.{totals_values, run_answer, run_arena, run_call_words, run_wait_words, DoneLinearizable};

use book::Book;
use words::Entry;
use words::flat::Record;
use worker::Refusal;

mod book;
mod entries;
mod present;
mod records;
mod verdict;

// A call's record in a history; 0 stands for a point or finish not reached, and for the answer of a call without a point: document 01 has it
// as seven numbers, so they are no options.
#[derive(Clone, Copy, Debug, Default, PartialEq, Eq, Hash)]
pub struct Call {
    pub worker: u16,
    pub operation: u16,
    pub key: u16,
    pub start: u16,
    pub point: u16,
    pub finish: u16,
    pub answer: u16,
}

impl Call {
    pub const WIDTH: usize = 7;
}

// A wait: the number of the call whose turn it was, counted from 0, its time, the node wanted, and the worker in the way.
#[derive(Clone, Copy, Debug, Default, PartialEq, Eq, Hash)]
pub struct Wait {
    pub call: u16,
    pub time: u16,
    pub node: u16,
    pub worker: u16,
}

impl Wait {
    pub const WIDTH: usize = 4;
}

#[derive(Clone, Copy, Debug, PartialEq, Eq, Hash)]
pub struct Totals {
    pub entries: u16,
    pub refused: u16,
    pub waits: u16,
    pub calls: u16,
}

// Runs a schedule on an arena that it lays itself.
pub fn run(
    arena: &mut [u16],
    workers: u16,
    nodes: u16,
    schedule: &[u16],
    history: &mut [u16],
    waits: &mut [u16],
) -> Result<Totals, Refusal>
    ensures answer { reply totals_values result ≡ run_answer arena.old workers nodes schedule.now
        (length history.old / call_width) (length waits.old / wait_width) }
    ensures words { arena.new ≡ run_arena arena.old workers nodes schedule.now
        (length history.old / call_width) (length waits.old / wait_width) }
    ensures calls { history.new ≡ run_call_words arena.old workers nodes schedule.now
        history.old waits.old }
    ensures waits { waits.new ≡ run_wait_words arena.old workers nodes schedule.now
        history.old waits.old }
    ensures linearizable { DoneLinearizable result workers nodes schedule.now }
{
    let counts = verdict::run_verdict(
        arena,
        workers,
        nodes,
        schedule,
        history.len() / Call::WIDTH,
        waits.len() / Wait::WIDTH,
    )?;
    let end = counts.total();
    Ok(run_entries(&mut arena[0..end], workers, nodes, schedule, history, waits))
}

// All entries, in words that are just those of the arena. W and N as the definitions have them: a `Counts` would be taken apart in each clause.
fn run_entries(
    arena: &mut [u16],
    workers: u16,
    nodes: u16,
    schedule: &[u16],
    history: &mut [u16],
    waits: &mut [u16],
) -> Totals
    requires good { good_counts workers nodes ≡ true }
    requires just_its_words { length arena.old ≡ total workers nodes }
    requires few_entries { length schedule.now ≤ 16000 }
    requires room_for_calls { call_width * count_in is_operation (entries_of schedule.now) ≤ length history.old }
    requires room_for_waits { wait_width * count_in is_turn (entries_of schedule.now) ≤ length waits.old }
    ensures words { arena.new
        ≡ arena_at (fresh_words workers nodes) (entries_of schedule.now) (length (entries_of schedule.now)) }
    ensures calls { history.new
        ≡ told (flat_words call_words (records_of workers nodes schedule.now)) history.old }
    ensures waits { waits.new
        ≡ told (flat_words wait_words (waits_of workers nodes schedule.now)) waits.old }
    ensures totals { result ≡ totals_of (totals (fresh_words workers nodes) (entries_of schedule.now)) }
{
    // The counts are good and the words enough, so it is accepted.
    let _ = arena::init(arena, workers, nodes);
    let mut book = Book::new();
    let entries = Entry::all(schedule);
    for (done, words) in entries.iter().enumerate() {
        let time = (done + 1) as u16;
        let entry = Entry::first(words);
        entries::enter(arena, history, waits, &mut book, time, entry);
    }
    Totals {
        entries: entries.len() as u16,
        refused: book.refused,
        waits: book.waits,
        calls: book.calls,
    }
}
