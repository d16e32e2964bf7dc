// The search for a free node: reach every node that a root leads to, and take the lowest that was not reached.
ghost use Rattle.std.specs.Prelude.{◌+◌, ◌≤◌, ◌<◌, ◌≡◌, [], ◌∷◌, length};
ghost use Rattle.words.specs.Layout.{nodes_of, node_width, slot};
ghost use Rattle.words.specs.Records.{Spans};
ghost use Rattle.lazy.specs.Free.{lowest_from};
ghost use Rattle.lazy.specs.FindFree.{found_in};
ghost use Rattle.lazy.specs.Row.{next_at, holds, held, AllHeld, four_held, empty_row, Closed, Reaches};

use crate::Found;
use words::{Arena, layout};
use worker::{Node, Worker};

// The lowest-numbered free node, and how many next words were read (document 01: the hunt; document 02, A4). The row, with a
// place for each node, is cut from words of fixed length, for there is no heap; they must be cleared first, so a small arena gets few.
pub(crate) fn search(arena: Arena) -> Found
    ensures { result ≡ found_in arena.entry.words.now }
{
    let count = arena.nodes().count as usize;
    if count <= 64 {
        return search_with(&mut [false; 64][..count], arena);
    }
    search_with(&mut [false; 1024][..count], arena)
}

// The search with an empty row.
fn search_with(reached: &mut [bool], arena: Arena) -> Found
    requires { reached.old ≡ empty_row (nodes_of arena.words.now) }
    ensures { result ≡ found_in arena.entry.words.now }
{
    let nodes = arena.nodes().words;
    let head = reach_from(reached, nodes, Node::HEAD, 0);
    let mut reads = reach_from(reached, nodes, Node::TAIL, head);
    for number in 0..arena.worker_count() {
        reads = reach_worker(reached, nodes, arena.worker(number).unwrap(), reads);
    }
    Found {
        free: lowest_unreached(reached),
        reads,
    }
}

// Walks the next links from a root, and counts each that it reads. Where a node was reached before, so was all that follows it, and nothing
// of it is read again. The row and the count are no struct: the check covers no fact beside a lent row, and without it a struct says no more.
fn reach_from(reached: &mut [bool], nodes: &[u16], root: u16, reads: u16) -> u16
    requires places { Spans (length reached.old) nodes.now }
    requires so_far { Closed (next_at nodes.now) (length reached.old) reached.old
        × (reads ≡ held (length reached.old) reached.old) }
    ensures walked { Reaches (next_at nodes.now) (length reached.old) (root ∷ [])
        reached.old reached.new }
    ensures counted { result ≡ held (length reached.old) reached.new }
{
    let mut node = root as usize;
    let mut so_far = reads;
    // The links say where it goes on.
    while node < reached.len() {
        if reached[node] {
            return so_far;
        }
        reached[node] = true;
        node = next_of(nodes, node) as usize;
        so_far += 1;
    }
    so_far
}

// The same from the three roots that a worker holds.
fn reach_worker(reached: &mut [bool], nodes: &[u16], worker: Worker, reads: u16) -> u16
    requires places { Spans (length reached.old) nodes.now }
    requires so_far { Closed (next_at nodes.now) (length reached.old) reached.old
        × (reads ≡ held (length reached.old) reached.old) }
    ensures walked { Reaches (next_at nodes.now) (length reached.old)
        (worker.pred ∷ worker.curr ∷ worker.spare ∷ []) reached.old reached.new }
    ensures counted { result ≡ held (length reached.old) reached.new }
{
    let first = reach_from(reached, nodes, worker.pred, reads);
    let second = reach_from(reached, nodes, worker.curr, first);
    reach_from(reached, nodes, worker.spare, second)
}

// Reads a node's next word. The search reads none anywhere else.
fn next_of(nodes: &[u16], node: usize) -> u16
    requires { (node < 1024) × (slot node_width node node_width ≤ length nodes.now) }
    ensures { result ≡ next_at nodes.now node }
{
    nodes[layout::slot(node as u16, layout::NODE_NEXT)]
}

// The lowest node that was not reached.
fn lowest_unreached(reached: &[bool]) -> Option<u16>
    requires { length reached.now ≤ 1024 }
    ensures { result ≡ lowest_from (holds reached.now) (length reached.now) 0 }
{
    for node in skip_reached(reached)..reached.len() {
        if !reached[node] {
            return Some(node as u16);
        }
    }
    None
}

// Passes eight nodes at a time, as long as all of them were reached.
fn skip_reached(reached: &[bool]) -> usize
    ensures held { AllHeld reached.now 0 result }
    ensures within { result ≤ length reached.now }
{
    for eight in 0..reached.len() / 8 {
        let node = eight * 8;
        if !(four_reached(reached, node) & four_reached(reached, node + 4)) {
            return node;
        }
    }
    reached.len() / 8 * 8
}

fn four_reached(reached: &[bool], node: usize) -> bool
    requires { node + 4 ≤ length reached.now }
    ensures { result ≡ four_held reached.now node }
{
    reached[node] & reached[node + 1] & reached[node + 2] & reached[node + 3]
}
