// What may be called on an arena (document 01: board) as a whole: lay a fresh one, start a call on a worker, list its set, tell its size.
#![tactic(auto)]

ghost use Rattle.std.specs.Prelude.{◌≡◌, [], length};
ghost use Rattle.words.specs.Replies.{no_values, reply, replied};
ghost use Rattle.arena.specs.Init.{init_answer, init_arena};
ghost use Rattle.arena.specs.Start.{call_refusals, start_refusals, start_answer, start_arena};
ghost use Rattle.arena.specs.Snapshot.{count_values, snapshot_answer, snapshot_words};
ghost use Rattle.arena.specs.Stored.{stored_answer};

use words::{Arena, records};
use worker::{Refusal, Worker};

mod chain;
mod fresh;
mod keys;

pub use chain::{Label, NodeRecords, Visitor, visit_labels};

// Lays a fresh arena (document 01: lay). Words past its total stay.
#[tactic(auto, unfolding(crate::specs::Init::init_answer, crate::specs::Init::init_arena))]
pub fn init(arena: &mut [u16], workers: u16, nodes: u16) -> Result<(), Refusal>
    ensures answer { reply no_values result ≡ init_answer arena.old workers nodes }
    ensures words { arena.new ≡ init_arena arena.old workers nodes }
{
    let counts = fresh::init_verdict(arena, workers, nodes)?;
    fresh::write_fresh(arena, counts);
    Ok(())
}

// Starts a call on a worker; an add carries the length of its label, every other call 0. By document 01's numbers, any of which may be asked
// for.
#[tactic(auto, unfolding(crate::specs::Start::start_answer, crate::specs::Start::start_arena))]
pub fn start(
    arena: &mut [u16],
    worker: u16,
    operation: u16,
    key: u16,
    length: u16,
) -> Result<(), Refusal>
    ensures answer { reply no_values result ≡ start_answer arena.old worker operation key length }
    ensures words { arena.new ≡ start_arena arena.old worker operation key length }
{
    start_verdict(arena, worker, operation, key, length)?;
    records::write_worker(arena, worker, Worker::started(operation, key, length));
    Ok(())
}

#[tactic(auto, unfolding(crate::specs::Start::start_refusals, crate::specs::Start::call_refusals))]
fn start_verdict(
    arena: &[u16],
    worker: u16,
    operation: u16,
    key: u16,
    length: u16,
) -> Result<(), Refusal>
    ensures { reply no_values result ≡ replied (start_refusals arena.now worker operation key length) [] }
{
    call_verdict(Arena::new(arena)?, worker, operation, key, length)
}

#[tactic(auto, unfolding(crate::specs::Start::call_refusals))]
fn call_verdict(
    arena: Arena,
    worker: u16,
    operation: u16,
    key: u16,
    length: u16,
) -> Result<(), Refusal>
    ensures { reply no_values result ≡ replied (call_refusals arena.entry.words.now worker operation key length) [] }
{
    let Some(state) = arena.worker(worker) else {
        return Err(Refusal::NoSuchWorker);
    };
    if Worker::LAST_STAGE < state.stage {
        return Err(Refusal::BrokenRecord);
    }
    if state.stage != Worker::IDLE_STAGE {
        return Err(Refusal::Busy);
    }
    if !worker::is_call(operation, key, length) {
        return Err(Refusal::BadCall);
    }
    Ok(())
}

// The keys of the set, rising (document 01: the roll), and how many there are. Words past them stay.
pub fn snapshot(arena: &[u16], keys: &mut [u16]) -> Result<u16, Refusal>
    ensures answer { reply count_values result ≡ snapshot_answer arena.now (length keys.old) }
    ensures words { keys.new ≡ snapshot_words arena.now keys.old }
{
    keys::write_keys(Arena::new(arena)?.nodes(), keys)
}

// How many labels are stored, by the header's count (document 02, A6): the chain is not walked.
#[tactic(auto, unfolding(crate::specs::Stored::stored_answer), using(words::proofs::Judged::still_refused, words::proofs::Judged::still_accepted))]
pub fn stored(arena: &[u16]) -> Result<u16, Refusal>
    ensures { reply count_values result ≡ stored_answer arena.now }
{
    Ok(Arena::new(arena)?.stored())
}
