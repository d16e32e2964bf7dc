// An arena behind the header test, which every entry point but init begins with.
ghost use Rattle.std.specs.Prelude.{◌≡◌, ◌≤◌, [], length, true, IfOk, IfSome, is_some};
ghost use Rattle.words.specs.Layout.{header_width, workers_of, nodes_of, stored_of, good_counts, node_part};
ghost use Rattle.words.specs.Records.{worker_at, found};
ghost use Rattle.words.specs.Replies.{accepted, no_values, reply, replied};
ghost use Rattle.words.specs.Header.{agrees, is_short, is_header, is_old_header, header_refusals};

use crate::layout::{self, Counts};
use crate::{Nodes, records, word};
use worker::{Refusal, Worker};

// Lent words, as document 01's board is, with nodes by number; their header passed the test.
#[derive(Clone, Copy)]
pub struct Arena<'a> {
    pub words: &'a [u16],
    ghost tested: { accepted [] ≡ replied (header_refusals words.now) [] },
}

impl<'a> Arena<'a> {
    // An arena in order is told first, for speed; a header is of one layout only.
    #[tactic(auto, unfolding(crate::specs::Header::header_refusals), using(crate::proofs::HeaderLaws::not_both))]
    pub fn new(words: &'a [u16]) -> Result<Arena<'a>, Refusal>
        ensures answer { reply no_values result ≡ replied (header_refusals words.now) [] }
        ensures words { IfOk result (λ arena. arena.words.now ≡ words.now) }
    {
        if is_short(words) {
            return Err(Refusal::ShortArena);
        }
        if is_header(words) {
            return Ok(Arena { words });
        }
        if is_old_header(words) {
            return Err(Refusal::OldLayout);
        }
        Err(Refusal::OddHeader)
    }

    // W.
    pub fn worker_count(self) -> u16
        ensures { result ≡ workers_of self.entry.words.now }
    {
        word(self.words, layout::WORKERS_AT)
    }

    // How many labels the header counts.
    pub fn stored(self) -> u16
        ensures { result ≡ stored_of self.entry.words.now }
    {
        word(self.words, layout::STORED_AT)
    }

    /// A worker's record, if there is one of that number. Its words are there, so no index is tested.
    pub fn worker(self, number: u16) -> Option<Worker>
        ensures { result ≡ found (worker_at self.entry.words.now) (workers_of self.entry.words.now) number }
    {
        if self.worker_count() <= number {
            return None;
        }
        Some(records::read_whole_worker(self.words, number))
    }

    // The node records, where the header places them.
    pub fn nodes(self) -> Nodes<'a>
        ensures words { result.words.now ≡ node_part self.entry.words.now }
        ensures count { result.count ≡ nodes_of self.entry.words.now }
    {
        let from = word(self.words, layout::NODES_FROM_AT) as usize;
        let total = word(self.words, layout::TOTAL_AT) as usize;
        Nodes {
            words: &self.words[from..total],
            count: word(self.words, layout::NODES_AT),
        }
    }
}

// Fewer words than a header has, or than this one says.
pub fn is_short(arena: &[u16]) -> bool
    ensures { result ≡ is_short arena.now }
{
    let total = word(arena, layout::TOTAL_AT) as usize;
    (arena.len() < layout::HEADER_WIDTH) | (arena.len() < total)
}

// The first words are the header that their own numbers give.
#[tactic(auto, unfolding(crate::specs::Header::is_header))]
pub fn is_header(arena: &[u16]) -> bool
    ensures { result ≡ is_header arena.now }
{
    let stored = word(arena, layout::STORED_AT);
    match own_counts(arena) {
        Some(counts) => (stored <= counts.most_stored()) & agree(arena, &counts.header(stored)),
        None => false,
    }
}

// Or the one of layout 1. Cold, for no turn asks it: built into the header test, it made a turn a tenth slower.
#[cold]
#[tactic(auto, unfolding(crate::specs::Header::is_old_header))]
pub fn is_old_header(arena: &[u16]) -> bool
    ensures { result ≡ is_old_header arena.now }
{
    match own_counts(arena) {
        Some(counts) => agree(arena, &counts.old_header()),
        None => false,
    }
}

fn own_counts(arena: &[u16]) -> Option<Counts>
    ensures good { is_some result ≡ good_counts (workers_of arena.now) (nodes_of arena.now) }
    ensures same { IfSome result (λ counts. (counts.workers ≡ workers_of arena.now) × (counts.nodes ≡ nodes_of arena.now)) }
{
    let workers = word(arena, layout::WORKERS_AT);
    let nodes = word(arena, layout::NODES_AT);
    Counts::new(workers, nodes)
}

// Whether the first words are these. Slices compared by `==` were tried: it is a call with a loop in it, and a turn took half as long again.
#[tactic(auto, using(crate::proofs::Runs::agrees_on, crate::proofs::Runs::agrees_not, crate::proofs::Runs::agrees_end))]
fn agree(words: &[u16], values: &[u16]) -> bool
    ensures { result ≡ agrees words.now 0 values.now }
{
    for (i, value) in values.iter().enumerate() {
        if word(words, i) != *value {
            return false;
        }
    }
    true
}
