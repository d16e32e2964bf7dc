// The word layout: where the header's words and the records stand.
ghost use Rattle.std.specs.Prelude.{◌≡◌, ◌≤◌, ◌+◌, ◌*◌, true, is_some, IfSome};
ghost use Rattle.words.specs.Layout.{node_width, worker_from, slot, total, good_counts, most_stored, header_with, header_words, old_header_words};

// Header words.
pub const LAYOUT_AT: usize = 0;

pub const WORKERS_AT: usize = 1;

pub const NODES_AT: usize = 2;

pub const NODES_FROM_AT: usize = 4;

pub const TOTAL_AT: usize = 5;

pub const STORED_AT: usize = 6;

// Words of the header and of a worker record.
pub const HEADER_WIDTH: usize = 8;

pub const WORKER_WIDTH: usize = 8;

// The layouts: an arena's, and the old one, which the converters keep.
pub const LAYOUT_1: u16 = 1;

pub const LAYOUT_2: u16 = 2;

// Words of a node record, and of one of layout 1.
pub const NODE_WIDTH: u16 = 5;

pub const OLD_NODE_WIDTH: u16 = 4;

// Fields of a worker record.
pub const WORKER_STAGE: u16 = 0;

pub const WORKER_OPERATION: u16 = 1;

pub const WORKER_KEY: u16 = 2;

pub const WORKER_PRED: u16 = 3;

pub const WORKER_CURR: u16 = 4;

pub const WORKER_SPARE: u16 = 5;

pub const WORKER_ANSWER: u16 = 6;

pub const WORKER_LENGTH: u16 = 7;

// Fields of a node record.
pub const NODE_KEY: u16 = 0;

pub const NODE_NEXT: u16 = 1;

pub const NODE_MARK: u16 = 2;

pub const NODE_OWNER: u16 = 3;

pub const NODE_LENGTH: u16 = 4;

// Where a worker's record stands.
pub fn worker_from(worker: u16) -> usize
    ensures { result ≡ worker_from worker }
{
    HEADER_WIDTH + WORKER_WIDTH * (worker as usize)
}

// Words of so many records.
pub fn span(width: u16, count: u16) -> usize
    ensures { result ≡ width * count }
{
    (width as usize) * (count as usize)
}

// Where a field of a node stands among the node records.
pub fn slot(node: u16, field: u16) -> usize
    ensures { result ≡ slot node_width node field }
{
    span(NODE_WIDTH, node) + (field as usize)
}

// Words of an arena.
pub fn total(workers: u16, nodes: u16) -> usize
    ensures { result ≡ total workers nodes }
{
    worker_from(workers) + span(NODE_WIDTH, nodes)
}

// W and N of an arena, within document 01's limits.
#[derive(Clone, Copy)]
pub struct Counts {
    pub workers: u16,
    pub nodes: u16,
    ghost good: { good_counts workers nodes ≡ true },
}

impl Counts {
    // That they are those that were asked for no type says, so a clause does.
    pub fn new(workers: u16, nodes: u16) -> Option<Counts>
        ensures good { is_some result ≡ good_counts workers nodes }
        ensures same { IfSome result (λ counts. (counts.workers ≡ workers) × (counts.nodes ≡ nodes)) }
    {
        if (1..=8).contains(&workers) & (3..=1024).contains(&nodes) {
            Some(Counts { workers, nodes })
        } else {
            None
        }
    }

    // Words of the arena.
    pub fn total(self) -> usize
        ensures { result ≡ total self.workers self.nodes }
    {
        total(self.workers, self.nodes)
    }

    // The largest count of a header.
    pub fn most_stored(self) -> u16
        ensures { result ≡ most_stored self.nodes }
    {
        self.nodes - 2
    }

    // The header of an arena with so many labels.
    #[tactic(auto, unfolding(crate::specs::Layout::header_words))]
    pub fn header(self, stored: u16) -> [u16; 8]
        ensures { result ≡ header_words self.workers self.nodes stored }
    {
        self.header_with(LAYOUT_2, NODE_WIDTH, stored)
    }

    // And of one of layout 1.
    #[tactic(auto, unfolding(crate::specs::Layout::old_header_words))]
    pub fn old_header(self) -> [u16; 8]
        ensures { result ≡ old_header_words self.workers self.nodes }
    {
        self.header_with(LAYOUT_1, OLD_NODE_WIDTH, 0)
    }

    fn header_with(self, layout: u16, width: u16, stored: u16) -> [u16; 8]
        requires { width ≤ 5 }
        ensures { result ≡ header_with layout self.workers self.nodes (worker_from self.workers + width * self.nodes) stored }
    {
        let nodes_from = worker_from(self.workers);
        [
            layout,
            self.workers,
            self.nodes,
            HEADER_WIDTH as u16,
            nodes_from as u16,
            (nodes_from + span(width, self.nodes)) as u16,
            stored,
            0,
        ]
    }
}
