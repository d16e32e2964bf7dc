// A worker of the lazy list as a value: the records of nodes and workers, and a worker's turn. Nothing here knows of an arena's words.
#![tactic(auto)]

ghost use Rattle.std.specs.Prelude.{◌≡◌};
ghost use Rattle.worker.specs.Node.{new_node, head_node, tail_node, unused_node};
ghost use Rattle.worker.specs.Worker.{within, is_key, is_length, carries, is_call, new_worker, idle_worker, first_stage, started_worker};

mod refusal;
mod report;
mod sight;
mod stages;
mod turn;

pub use refusal::Refusal;
pub use report::{Answer, Effect, Growth, Report, Step};
pub use sight::Sight;

// Document 01's node record, and document 02's length. Numbers and no options, as its words are lent memory's and may be anything.
#[derive(Clone, Copy, Debug, PartialEq, Eq)]
pub struct Node {
    pub key: u16,
    pub next: u16,
    // 0 unmarked, anything else marked
    pub mark: u16,
    // 0 nobody, otherwise the worker's number + 1
    pub owner: u16,
    // of the label, in cells; 0 where nodes have no word for it
    pub length: u16,
}

impl Node {
    // Node numbers: Head, Tail, and no node; a worker's words too, so there is no option.
    pub const HEAD: u16 = 0;

    pub const TAIL: u16 = 1;

    pub const NONE: u16 = 65535;

    // Every key of a call lies between these two.
    pub const HEAD_KEY: u16 = 0;

    pub const TAIL_KEY: u16 = 65535;

    // A node that nobody has marked or owns.
    pub fn new(key: u16, next: u16, length: u16) -> Self
        ensures { result ≡ new_node key next length }
    {
        Node {
            key,
            next,
            mark: 0,
            owner: 0,
            length,
        }
    }

    pub fn head() -> Self
        ensures { result ≡ head_node }
    {
        Self::new(Self::HEAD_KEY, Self::TAIL, 0)
    }

    pub fn tail() -> Self
        ensures { result ≡ tail_node }
    {
        Self::new(Self::TAIL_KEY, Self::TAIL, 0)
    }

    pub fn unused() -> Self
        ensures { result ≡ unused_node }
    {
        Self::new(0, 0, 0)
    }
}

// Document 01's worker record, and document 02's length.
#[derive(Clone, Copy, Debug, PartialEq, Eq)]
pub struct Worker {
    pub stage: u16,
    pub operation: u16,
    pub key: u16,
    pub pred: u16,
    pub curr: u16,
    pub spare: u16,
    pub answer: u16,
    // that an open add carries, else 0
    pub length: u16,
}

impl Worker {
    // Operations of a call. Numbers and no enum: a record's word may hold any, and a stage takes a range of them (document 01's form).
    pub const ADD: u16 = 1;

    pub const REMOVE: u16 = 2;

    pub const CONTAINS: u16 = 3;

    // Stages, by document 01's form numbers too: idle, the first of add and remove, the first of contains, the last of all.
    pub const IDLE_STAGE: u16 = 0;

    pub const SEARCH_STAGE: u16 = 1;

    pub const LOOK_UP_STAGE: u16 = 22;

    pub const LAST_STAGE: u16 = 25;

    // A worker that has met no node yet.
    fn new(stage: u16, operation: u16, key: u16, length: u16) -> Self
        ensures { result ≡ new_worker stage operation key length }
    {
        Worker {
            stage,
            operation,
            key,
            pred: Node::NONE,
            curr: Node::NONE,
            spare: Node::NONE,
            answer: 0,
            length,
        }
    }

    pub fn idle() -> Self
        ensures { result ≡ idle_worker }
    {
        Self::new(Self::IDLE_STAGE, 0, 0, 0)
    }

    // A worker at the beginning of a call.
    pub fn started(operation: u16, key: u16, length: u16) -> Self
        ensures { result ≡ started_worker operation key length }
    {
        Self::new(first_stage(operation), operation, key, length)
    }
}

fn first_stage(operation: u16) -> u16
    ensures { result ≡ first_stage operation }
{
    if operation == Worker::CONTAINS {
        Worker::LOOK_UP_STAGE
    } else {
        Worker::SEARCH_STAGE
    }
}

// An operation that there is, on a key that a call may have, and a length that its start may carry.
pub fn is_call(operation: u16, key: u16, length: u16) -> bool
    ensures { result ≡ is_call operation key length }
{
    is_within(operation, Worker::ADD, Worker::CONTAINS)
        & is_key(key)
        & carries(operation, key, length)
}

fn carries(operation: u16, key: u16, length: u16) -> bool
    ensures { result ≡ carries operation key length }
{
    if operation == Worker::ADD {
        is_length(key, length)
    } else {
        length == 0
    }
}

pub fn is_length(key: u16, length: u16) -> bool
    ensures { result ≡ is_length key length }
{
    is_within(length, 1, 65534) & ((key as u32) + (length as u32) <= 65535)
}

pub(crate) fn is_key(key: u16) -> bool
    ensures { result ≡ is_key key }
{
    is_within(key, 1, 65534)
}

pub(crate) fn is_within(n: u16, low: u16, high: u16) -> bool
    ensures { result ≡ within low high n }
{
    (low..=high).contains(&n)
}
