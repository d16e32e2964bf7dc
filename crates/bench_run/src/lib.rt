// What the bench program prints for an input: the input is parsed, its schedule is run, and the history is printed.
#![tactic(auto)]

ghost use Rattle.std.specs.Prelude.{replicate};
ghost use Rattle.std.specs.List.{filter, flat_map};
ghost use Rattle.arena.specs.Snapshot.{keys_of, Listed};
ghost use Rattle.bench_print.specs.Print.{Printed, Prints, wait_text, roll_text};
ghost use Rattle.bench_run.specs.Output.{is_wait_of, calls_text, output_of, schedule_text};

use bench_input::BadLine;
use bench_print::Output;
use schedule::{Call, Wait};
use words::{Entry, layout};

// Writes what is printed for an input, as far as there is room, and answers its length. 131,072 bytes hold every output
// (`LengthLaws.output_whole`).
pub fn answer(input: &[u8], output: &mut [u8]) -> usize
    ensures { Printed (output_of input.now) output.old 0 output.new result }
{
    let mut out = Output::new(output, 0);
    print_answer(&mut out, input);
    out.len()
}

fn print_answer(out: &mut Output, input: &[u8])
    ensures { Prints (output_of input.now) out.old out.new }
{
    // Words of fixed length here and below: there is no heap, so that nothing can fail.
    let mut schedule = [0u16; Entry::WIDTH * Entry::MOST];
    match bench_input::parse(input, &mut schedule) {
        Err(BadLine(line)) => out.print_bad_line(line),
        Ok(plan) => {
            let end = Entry::WIDTH * usize::from(plan.entries);
            print_schedule(out, plan.workers, plan.nodes, &schedule[0..end]);
        }
    }
}

fn print_schedule(out: &mut Output, workers: u16, nodes: u16, schedule: &[u16])
    ensures { Prints (schedule_text workers nodes schedule.now) out.old out.new }
{
    let mut arena = [0u16; 5192];
    // Rows of its own, where they are read: those that `run_thousand` hands back would be copied.
    let mut row = [Call::default(); 1000];
    let mut waits = [Wait::default(); Entry::MOST];
    match history::run(&mut arena, workers, nodes, schedule, &mut row, &mut waits) {
        Err(refusal) => out.print_refused(u16::from(refusal)),
        Ok(totals) => {
            let calls = &row[0..usize::from(totals.calls)];
            let waits = &waits[0..usize::from(totals.waits)];
            let end = layout::total(workers, nodes);
            out.print_totals(totals);
            print_calls(out, calls, waits);
            print_roll(out, &arena[0..end]);
        }
    }
}

// A line for each call, and behind it its waits.
fn print_calls(out: &mut Output, calls: &[Call], waits: &[Wait])
    ensures { Prints (calls_text waits.now 0 calls.now) out.old out.new }
{
    for (number, call) in calls.iter().enumerate() {
        out.print_call(*call);
        print_waits(out, waits, number);
    }
}

// A line for each of the waits that is a call's.
fn print_waits(out: &mut Output, waits: &[Wait], call: usize)
    ensures { Prints (flat_map wait_text (filter (is_wait_of call) waits.now)) out.old out.new }
{
    for wait in waits.iter().filter(|wait| usize::from(wait.call) == call) {
        out.print_wait(*wait);
    }
}

// The keys of an arena's set, for which there are words enough.
fn print_roll(out: &mut Output, arena: &[u16])
    requires { Listed arena.now (replicate 1024 0) }
    ensures { Prints (roll_text (keys_of arena.now)) out.old out.new }
{
    let mut keys = [0u16; 1024];
    if let Ok(count) = arena::snapshot(arena, &mut keys) {
        out.print_roll(&keys[..usize::from(count)]);
    }
}
