// The refusals of a run.
ghost use Rattle.std.specs.Prelude.{◌≡◌, [], leb, IfOk};
ghost use Rattle.std.specs.List.{count_by};
ghost use Rattle.worker.specs.Worker.{within};
ghost use Rattle.words.specs.Replies.{no_values, reply, replied};
ghost use Rattle.words.specs.Entries.{entries_of, first_entry};
ghost use Rattle.schedule.specs.Run.{is_bad_schedule, count_in, run_refusals};

use words::Entry;
use words::flat::Record;
use words::layout::Counts;
use worker::{Refusal, Worker};

const MOST_WORDS: usize = Entry::WIDTH * Entry::MOST;

// The rooms are the numbers of records that are lent for calls and for waits.
#[tactic(auto, using(crate::proofs::EntryLaws::turns_within, crate::proofs::EntryLaws::below_or_not), unfolding(crate::specs::Run::run_refusals))]
pub(crate) fn run_verdict(
    arena: &[u16],
    workers: u16,
    nodes: u16,
    schedule: &[u16],
    call_room: usize,
    wait_room: usize,
) -> Result<Counts, Refusal>
    ensures answer { reply no_values result
        ≡ replied (run_refusals arena.now workers nodes schedule.now call_room wait_room) [] }
    ensures counts { IfOk result (λ counts. (counts.workers ≡ workers) × (counts.nodes ≡ nodes)) }
{
    let counts = Counts::new(workers, nodes).ok_or(Refusal::BadCounts)?;
    if is_bad(schedule) {
        return Err(Refusal::BadSchedule);
    }
    if arena.len() < counts.total() {
        return Err(Refusal::ShortArena);
    }
    if !has_room(schedule, call_room, Worker::ADD, Worker::CONTAINS) {
        return Err(Refusal::NoRoom);
    }
    if !has_room(schedule, wait_room, Entry::TURN, Entry::TURN) {
        return Err(Refusal::NoRoom);
    }
    Ok(counts)
}

#[tactic(auto, unfolding(crate::specs::Run::is_bad_schedule))]
fn is_bad(schedule: &[u16]) -> bool
    ensures { result ≡ is_bad_schedule schedule.now }
{
    schedule.len() % Entry::WIDTH != 0 || MOST_WORDS < schedule.len()
}

// Room for the entries with an act from `low` to `high`, a range as in the definition. They are counted only where it has none for all entries.
fn has_room(schedule: &[u16], room: usize, low: u16, high: u16) -> bool
    ensures { result ≡ leb (count_in (λ entry. within low high entry.act) (entries_of schedule.now)) room }
{
    let entries = Entry::all(schedule);
    entries.len() <= room || acts_in(entries, low, high) <= room
}

// How many of some entries have an act from `low` to `high`.
fn acts_in(entries: &[[u16; Entry::WIDTH]], low: u16, high: u16) -> usize
    ensures { result ≡ count_by (λ words. within low high (first_entry words).act) entries.now }
{
    // In a loop: with `filter` and `count`, an entry of a run took 45 ns and not 42.
    let mut count = 0;
    for words in entries {
        if (low..=high).contains(&Entry::first(words).act) {
            count += 1;
        }
    }
    count
}
