// A fresh arena, for init.
ghost use Rattle.std.specs.Prelude.{◌≡◌, IfOk, [], ◌+◌, ◌*◌, ◌≤◌, length};
ghost use Rattle.std.proofs.lemmas.List.Edits.{sets};
ghost use Rattle.words.specs.Layout.{header_width, node_width, worker_from, total};
ghost use Rattle.words.specs.Replies.{no_values, reply, replied};
ghost use Rattle.arena.specs.Init.{fresh_workers, fresh_nodes, fresh_words, init_refusals};

use words::layout::{self, Counts};
use words::records::worker_words;
use words::{clear, put, write};
use worker::{Node, Refusal, Worker};

#[tactic(auto, unfolding(crate::specs::Init::init_refusals))]
pub(crate) fn init_verdict(arena: &[u16], workers: u16, nodes: u16) -> Result<Counts, Refusal>
    ensures answer { reply no_values result ≡ replied (init_refusals arena.now workers nodes) [] }
    ensures counts { IfOk result (λ counts. (counts.workers ≡ workers) × (counts.nodes ≡ nodes)) }
{
    let counts = Counts::new(workers, nodes).ok_or(Refusal::BadCounts)?;
    if arena.len() < counts.total() {
        return Err(Refusal::ShortArena);
    }
    Ok(counts)
}

pub(crate) fn write_fresh(arena: &mut [u16], counts: Counts)
    requires { total counts.workers counts.nodes ≤ length arena.old }
    ensures { arena.new ≡ sets arena.old 0 (fresh_words counts.workers counts.nodes) }
{
    let from = layout::worker_from(counts.workers);
    let end = counts.total();
    write_record(arena, 0, &counts.header(0));
    write_workers(arena, counts.workers);
    write_nodes(&mut arena[from..end], counts.nodes);
}

// Eight words, which the header has and a worker's record. Parts of one length, so that no word is tested for room; not by `copy_from_slice`,
// which tests whether the two overlap: init took a seventh longer.
fn write_record(arena: &mut [u16], at: usize, values: &[u16; 8])
    requires { at + 8 ≤ length arena.old }
    ensures { arena.new ≡ sets arena.old at values.now }
{
    let end = at + 8;
    write(&mut arena[at..end], 0, values);
}

// Idle workers, behind the header.
fn write_workers(arena: &mut [u16], workers: u16)
    requires { worker_from workers ≤ length arena.old }
    ensures { arena.new ≡ sets arena.old header_width (fresh_workers workers) }
{
    let idle = worker_words(Worker::idle());
    for number in 0..workers {
        write_record(arena, layout::worker_from(number), &idle);
    }
}

// Head, Tail and the unused nodes: every word is 0, but for Head's next, Tail's key and Tail's next. `Nodes` lends words to be read, and these
// are written.
fn write_nodes(nodes: &mut [u16], count: u16)
    requires { (2 ≤ count) × (length nodes.old ≡ node_width * count) }
    ensures { nodes.new ≡ fresh_nodes count }
{
    clear(nodes);
    put(
        nodes,
        layout::slot(Node::HEAD, layout::NODE_NEXT),
        Node::head().next,
    );
    put(
        nodes,
        layout::slot(Node::TAIL, layout::NODE_KEY),
        Node::tail().key,
    );
    put(
        nodes,
        layout::slot(Node::TAIL, layout::NODE_NEXT),
        Node::tail().next,
    );
}
