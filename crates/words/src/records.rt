// Worker and node records, read from and written to words.
ghost use Rattle.std.specs.Prelude.{◌+◌, ◌≡◌, ◌≤◌, length, set};
ghost use Rattle.words.specs.Records.{Spans, worker_words, worker_at, with_worker, with_moved, with_node, node_at, found};
ghost use Rattle.words.specs.Layout.{word, worker_from, worker_width, node_from, node_width, slot};

use crate::{layout, put, word, write};
use worker::{Node, Worker};

// An array of the fields is what it is, and behind `From` it would be no plainer.
pub fn worker_words(worker: Worker) -> [u16; 8]
    ensures { result ≡ worker_words worker }
{
    [
        worker.stage,
        worker.operation,
        worker.key,
        worker.pred,
        worker.curr,
        worker.spare,
        worker.answer,
        worker.length,
    ]
}

// A field of a worker's record.
pub fn worker_field(arena: &[u16], number: u16, field: u16) -> u16
    ensures { result ≡ word arena.now (worker_from number + field) }
{
    word(arena, layout::worker_from(number) + (field as usize))
}

/// A worker's record, with zeros where words are missing. Where all of it is there, one test tells so.
pub fn read_worker(arena: &[u16], number: u16) -> Worker
    ensures { result ≡ worker_at arena.now number }
{
    if arena.len() < layout::worker_from(number) + layout::WORKER_WIDTH {
        return read_short_worker(arena, number);
    }
    read_whole_worker(arena, number)
}

#[cold]
#[tactic(auto, unfolding(crate::specs::Records::worker_at))]
fn read_short_worker(arena: &[u16], number: u16) -> Worker
    ensures { result ≡ worker_at arena.now number }
{
    Worker {
        stage: worker_field(arena, number, layout::WORKER_STAGE),
        operation: worker_field(arena, number, layout::WORKER_OPERATION),
        key: worker_field(arena, number, layout::WORKER_KEY),
        pred: worker_field(arena, number, layout::WORKER_PRED),
        curr: worker_field(arena, number, layout::WORKER_CURR),
        spare: worker_field(arena, number, layout::WORKER_SPARE),
        answer: worker_field(arena, number, layout::WORKER_ANSWER),
        length: worker_field(arena, number, layout::WORKER_LENGTH),
    }
}

// As a `Record` its words would first be cut from the arena's.
#[tactic(auto, unfolding(crate::specs::Records::worker_at))]
pub(crate) fn read_whole_worker(arena: &[u16], number: u16) -> Worker
    requires { worker_from number + worker_width ≤ length arena.now }
    ensures { result ≡ worker_at arena.now number }
{
    let at = layout::worker_from(number);
    Worker {
        stage: arena[at],
        operation: arena[at + 1],
        key: arena[at + 2],
        pred: arena[at + 3],
        curr: arena[at + 4],
        spare: arena[at + 5],
        answer: arena[at + 6],
        length: arena[at + 7],
    }
}

#[tactic(auto, unfolding(crate::specs::Records::with_worker))]
pub fn write_worker(arena: &mut [u16], number: u16, worker: Worker)
    ensures { arena.new ≡ with_worker arena.old number worker }
{
    let words = worker_words(worker);
    write(arena, layout::worker_from(number), &words);
}

/// The words of a worker's record that a move may change: stage, pred, curr, spare, answer.
#[tactic(auto, unfolding(crate::specs::Records::with_moved))]
pub fn write_moved(arena: &mut [u16], number: u16, worker: Worker)
    ensures { arena.new ≡ with_moved arena.old number worker }
{
    let at = layout::worker_from(number);
    put(arena, at + (layout::WORKER_STAGE as usize), worker.stage);
    let words = [worker.pred, worker.curr, worker.spare, worker.answer];
    write(arena, at + (layout::WORKER_PRED as usize), &words);
}

// Where a field of a node stands in an arena.
#[tactic(auto, unfolding(crate::specs::Layout::node_from))]
pub fn node_from(arena: &[u16], node: u16, field: u16) -> usize
    ensures { result ≡ node_from arena.now node field }
{
    (word(arena, layout::NODES_FROM_AT) as usize) + layout::slot(node, field)
}

// A field of a node in an arena.
pub fn write_node_field(arena: &mut [u16], node: u16, field: u16, value: u16)
    ensures { arena.new ≡ set arena.old (node_from arena.old node field) value }
{
    let at = node_from(arena, node, field);
    put(arena, at, value);
}

// A node in an arena.
#[tactic(auto, unfolding(crate::specs::Records::with_node))]
pub fn write_node(arena: &mut [u16], number: u16, node: Node)
    ensures { arena.new ≡ with_node arena.old number node }
{
    let at = node_from(arena, number, layout::NODE_KEY);
    let words = [node.key, node.next, node.mark, node.owner, node.length];
    write(arena, at, &words);
}

// The node records of an arena, the part from the node offset to the total, and how many there are.
#[derive(Clone, Copy)]
pub struct Nodes<'a> {
    pub words: &'a [u16],
    pub count: u16,
    ghost spans: { Spans count words.now },
}

impl<'a> Nodes<'a> {
    // A node. One that there is not is read as zeros.
    #[tactic(auto, using(crate::proofs::RecordLaws::not_found))]
    pub fn get(self, node: u16) -> Node
        ensures { result ≡ node_at self.entry.words.now node }
    {
        self.find(node).unwrap_or(Node::unused())
    }

    // A node, if there is one of that number.
    pub fn find(self, node: u16) -> Option<Node>
        ensures { result ≡ found (node_at self.entry.words.now) self.entry.count node }
    {
        if self.count <= node {
            return None;
        }
        Some(read_node(self.words, node))
    }
}

// A node of the node records. Its words are there, so no index is tested.
#[tactic(auto, unfolding(crate::specs::Records::node_at))]
fn read_node(nodes: &[u16], node: u16) -> Node
    requires { slot node_width node node_width ≤ length nodes.now }
    ensures { result ≡ node_at nodes.now node }
{
    Node {
        key: nodes[layout::slot(node, layout::NODE_KEY)],
        next: nodes[layout::slot(node, layout::NODE_NEXT)],
        mark: nodes[layout::slot(node, layout::NODE_MARK)],
        owner: nodes[layout::slot(node, layout::NODE_OWNER)],
        length: nodes[layout::slot(node, layout::NODE_LENGTH)],
    }
}
