// The C interface: every entry point over lent 16-bit words, with its reply in one number. include/lazy_list.h declares it.
#![tactic(auto)]

ghost use Rattle.std.specs.Prelude.{◌≡◌, ◌/◌, [], length};
ghost use Rattle.words.specs.Replies.{no_values, reply};
ghost use Rattle.words.specs.Entries.{entries_of};
ghost use Rattle.arena.specs.Init.{fresh_words, init_answer, init_arena};
ghost use Rattle.arena.specs.Start.{start_answer, start_arena};
ghost use Rattle.arena.specs.Snapshot.{snapshot_answer, snapshot_words};
ghost use Rattle.arena.specs.Stored.{stored_answer};
ghost use Rattle.lazy.specs.FindFree.{find_free_answer};
ghost use Rattle.lazy.specs.Turn.{turn_answer, turn_arena};
ghost use Rattle.free_cells.specs.LongestFreeRun.{longest_free_run_answer};
ghost use Rattle.convert.specs.Convert.{to_layout_2_answer, to_layout_2_target, to_layout_1_answer, to_layout_1_target};
ghost use Rattle.linear.specs.Linearizable.{Linearizable};
ghost use Rattle.schedule.specs.Run.{call_width, wait_width, totals_values, run_answer, run_arena, run_call_words, run_wait_words};
ghost use Rattle.capi.specs.Number.{reply_number, unreported, Reads, bare, values_or};

use number::number;
use schedule::Totals;
use worker::Refusal;

mod number;

// Lays a fresh arena.
#[unsafe(no_mangle)]
pub extern "C" fn lazy_list_init(arena: &mut [u16], workers: u16, nodes: u16) -> u64
    ensures number { result ≡ reply_number (init_answer arena.old workers nodes) }
    ensures words { arena.new ≡ init_arena arena.old workers nodes }
{
    number(arena::init(arena, workers, nodes))
}

// Starts a call on a worker; an add carries the length of its label, every other call 0.
#[unsafe(no_mangle)]
pub extern "C" fn lazy_list_start(
    arena: &mut [u16],
    worker: u16,
    operation: u16,
    key: u16,
    length: u16,
) -> u64
    ensures number { result ≡ reply_number (start_answer arena.old worker operation key length) }
    ensures words { arena.new ≡ start_arena arena.old worker operation key length }
{
    number(arena::start(arena, worker, operation, key, length))
}

// Gives a worker a turn.
#[unsafe(no_mangle)]
pub extern "C" fn lazy_list_turn(arena: &mut [u16], worker: u16) -> u64
    ensures number { result ≡ reply_number (turn_answer arena.old worker) }
    ensures read { Reads result (turn_answer arena.old worker) }
    ensures words { arena.new ≡ turn_arena arena.old worker }
{
    number(lazy::turn(arena, worker))
}

// The lowest-numbered free node, and how many next words the search for it read.
#[tactic(auto, using(crate::proofs::NumberLaws::told_unreported))]
#[unsafe(no_mangle)]
pub extern "C" fn lazy_list_find_free(arena: &[u16]) -> u64
    ensures number { result ≡ reply_number (unreported (find_free_answer arena.now)) }
    ensures read { Reads result (unreported (find_free_answer arena.now)) }
{
    number(lazy::find_free(arena))
}

// The keys of the set, rising.
#[tactic(auto, using(crate::proofs::NumberLaws::told_unreported))]
#[unsafe(no_mangle)]
pub extern "C" fn lazy_list_snapshot(arena: &[u16], keys: &mut [u16]) -> u64
    ensures number { result ≡ reply_number (unreported (snapshot_answer arena.now (length keys.old))) }
    ensures read { Reads result (unreported (snapshot_answer arena.now (length keys.old))) }
    ensures words { keys.new ≡ snapshot_words arena.now keys.old }
{
    number(arena::snapshot(arena, keys))
}

// How many labels are stored.
#[tactic(auto, using(crate::proofs::NumberLaws::told_unreported))]
#[unsafe(no_mangle)]
pub extern "C" fn lazy_list_stored(arena: &[u16]) -> u64
    ensures number { result ≡ reply_number (unreported (stored_answer arena.now)) }
    ensures read { Reads result (unreported (stored_answer arena.now)) }
{
    number(arena::stored(arena))
}

// The longest run of cells from 1 to the last one that lie in no label of the set.
#[tactic(auto, using(crate::proofs::NumberLaws::told_unreported))]
#[unsafe(no_mangle)]
pub extern "C" fn lazy_list_longest_free_run(arena: &[u16], last_cell: u16) -> u64
    ensures number { result ≡ reply_number (unreported (longest_free_run_answer arena.now last_cell)) }
    ensures read { Reads result (unreported (longest_free_run_answer arena.now last_cell)) }
{
    number(free_cells::longest_free_run(arena, last_cell))
}

// Writes an arena of layout 1 in layout 2, with a length for each node number.
#[unsafe(no_mangle)]
pub extern "C" fn lazy_list_to_layout_2(
    source: &[u16],
    label_lengths: &[u16],
    target: &mut [u16],
) -> u64
    ensures number { result ≡ reply_number (to_layout_2_answer source.now label_lengths.now (length target.old)) }
    ensures words { target.new ≡ to_layout_2_target source.now label_lengths.now target.old }
{
    number(convert::to_layout_2(source, label_lengths, target))
}

// Writes an arena of layout 2 in layout 1.
#[unsafe(no_mangle)]
pub extern "C" fn lazy_list_to_layout_1(source: &[u16], target: &mut [u16]) -> u64
    ensures number { result ≡ reply_number (to_layout_1_answer source.now (length target.old)) }
    ensures words { target.new ≡ to_layout_1_target source.now target.old }
{
    number(convert::to_layout_1(source, target))
}

// Runs a schedule on an arena that it lays itself; the totals are entries, refused, waits, calls.
#[unsafe(no_mangle)]
pub extern "C" fn lazy_list_run(
    arena: &mut [u16],
    workers: u16,
    nodes: u16,
    schedule: &[u16],
    history: &mut [u16],
    waits: &mut [u16],
    totals: &mut [u16; 4],
) -> u64
    ensures number { result ≡ reply_number (bare (run_answer arena.old workers nodes schedule.now
        (length history.old / call_width) (length waits.old / wait_width))) }
    ensures words { arena.new ≡ run_arena arena.old workers nodes schedule.now
        (length history.old / call_width) (length waits.old / wait_width) }
    ensures calls { history.new ≡ run_call_words arena.old workers nodes schedule.now
        history.old waits.old }
    ensures waits { waits.new ≡ run_wait_words arena.old workers nodes schedule.now
        history.old waits.old }
    ensures totals { totals.new ≡ values_or totals.old (run_answer arena.old workers nodes
        schedule.now (length history.old / call_width) (length waits.old / wait_width)) }
    ensures linearizable { result ≡ 0 → Linearizable [] (fresh_words workers nodes) (entries_of schedule.now) }
{
    let summary = schedule::run(arena, workers, nodes, schedule, history, waits);
    number(write_totals(totals, summary))
}

// The totals have words of their own.
fn write_totals(totals: &mut [u16; 4], summary: Result<Totals, Refusal>) -> Result<(), Refusal>
    ensures answer { reply no_values result ≡ bare (reply totals_values summary) }
    ensures words { totals.new ≡ values_or totals.old (reply totals_values summary) }
{
    let done = summary?;
    *totals = [done.entries, done.refused, done.waits, done.calls];
    Ok(())
}
