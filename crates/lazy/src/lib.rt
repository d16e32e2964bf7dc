// The lazy list on an arena: a worker's turn, and the search for a free node.
#![tactic(auto)]

ghost use Rattle.std.specs.Prelude.{◌<◌, ◌≡◌};
ghost use Rattle.worker.specs.Report.{report_values};
ghost use Rattle.words.specs.Layout.{nodes_of, stored_of};
ghost use Rattle.words.specs.Replies.{reply};
ghost use Rattle.lazy.specs.FindFree.{found_values, find_free_answer};
ghost use Rattle.lazy.specs.Turn.{miscounts, counted, turn_on, with_effect, with_growth, with_changes, turn_answer, turn_arena};

use view::View;
use words::{Arena, layout, put, records, word};
use worker::{Effect, Growth, Node, Refusal, Report, Step};

mod free;
mod view;

// What the search for a free node comes to: the node, or that there is none; and how many next words it read.
#[derive(Clone, Copy, Debug, PartialEq, Eq)]
pub struct Found {
    pub free: Option<u16>,
    pub reads: u16,
}

// Gives a worker a turn.
#[inline(always)]
pub fn turn(arena: &mut [u16], worker: u16) -> Result<Report, Refusal>
    ensures answer { reply report_values result ≡ turn_answer arena.old worker }
    ensures words { arena.new ≡ turn_arena arena.old worker }
{
    let step = turned(arena, worker)?;
    match step.report {
        Report::Idle | Report::Waits(_, _) => {}
        Report::Moved(_) => {
            apply(arena, step);
            records::write_moved(arena, worker, step.worker);
        }
        Report::Finished(_) => records::write_worker(arena, worker, step.worker),
    }
    Ok(step.report)
}

// The lowest-numbered free node (document 01: the hunt), and how many next words the search for it read: one for each node that is not
// free.
#[tactic(auto, unfolding(crate::specs::FindFree::find_free_answer), using(words::proofs::Judged::still_refused, words::proofs::Judged::still_accepted))]
pub fn find_free(arena: &[u16]) -> Result<Found, Refusal>
    ensures { reply found_values result ≡ find_free_answer arena.now }
{
    Ok(free::search(Arena::new(arena)?))
}

// What the turn comes to, with nothing written yet.
#[inline(always)]
fn turned(arena: &[u16], worker: u16) -> Result<Step, Refusal>
    ensures { result ≡ turn_on arena.now worker }
{
    let arena = Arena::new(arena)?;
    let Some(state) = arena.worker(worker) else {
        return Err(Refusal::NoSuchWorker);
    };
    counted(arena, state.turn(worker + 1, View { arena, state }))
}

// A turn is refused where its change of the count cannot be.
#[tactic(auto, unfolding(crate::specs::Turn::counted))]
fn counted(arena: Arena, turn: Result<Step, Refusal>) -> Result<Step, Refusal>
    ensures { result ≡ counted arena.entry.words.now turn }
{
    let step = turn?;
    if miscounts(arena, step.growth) {
        return Err(Refusal::BrokenCount);
    }
    Ok(step)
}

// One label more than there is room for, or one less than none.
fn miscounts(arena: Arena, growth: Growth) -> bool
    ensures { result ≡ miscounts (nodes_of arena.entry.words.now) (stored_of arena.entry.words.now) growth }
{
    match growth {
        Growth::Stays => false,
        Growth::OneMore => arena.stored() == arena.nodes().count.saturating_sub(2),
        Growth::OneLess => arena.stored() == 0,
    }
}

// The one place where a turn writes to the nodes and to the count.
#[inline(always)]
fn apply(arena: &mut [u16], step: Step)
    requires { stored_of (with_effect arena.old step.effect) < 65535 }
    ensures { arena.new ≡ with_changes arena.old step }
{
    apply_effect(arena, step.effect);
    apply_growth(arena, step.growth);
}

#[tactic(auto, unfolding(crate::specs::Turn::with_effect))]
#[inline(always)]
fn apply_effect(arena: &mut [u16], effect: Effect)
    ensures { arena.new ≡ with_effect arena.old effect }
{
    match effect {
        Effect::Nothing => {}
        Effect::SetOwner(node, owner) => {
            records::write_node_field(arena, node, layout::NODE_OWNER, owner)
        }
        Effect::SetNext(node, next) => {
            records::write_node_field(arena, node, layout::NODE_NEXT, next)
        }
        Effect::SetMark(node) => records::write_node_field(arena, node, layout::NODE_MARK, 1),
        Effect::Fill(node, key, next, length) => {
            records::write_node(arena, node, Node::new(key, next, length))
        }
    }
}

// Nothing is written where the count stays.
#[tactic(auto, unfolding(crate::specs::Turn::with_growth), using(crate::proofs::ChangeLaws::count_stays))]
fn apply_growth(arena: &mut [u16], growth: Growth)
    requires { stored_of arena.old < 65535 }
    ensures { arena.new ≡ with_growth arena.old growth }
{
    let stored = word(arena, layout::STORED_AT);
    match growth {
        Growth::Stays => {}
        Growth::OneMore => put(arena, layout::STORED_AT, stored + 1),
        Growth::OneLess => put(arena, layout::STORED_AT, stored.saturating_sub(1)),
    }
}
