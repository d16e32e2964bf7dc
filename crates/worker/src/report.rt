// What a turn reports, and what it does to the nodes.
ghost use Rattle.std.specs.Prelude.{◌≡◌};
ghost use Rattle.worker.specs.Report.{answer_number, numbered_answer};

use crate::Worker;

// What a call answers.
#[derive(Clone, Copy, Debug, PartialEq, Eq)]
pub enum Answer {
    Yes = 1,
    No = 2,
    Full = 3,
}

// What a turn reports: the stage it moved to; the node it waits for and the worker that owns it; the answer it finished with.
#[derive(Clone, Copy, Debug, PartialEq, Eq)]
pub enum Report {
    Idle,
    Moved(u16),
    Waits(u16, u16),
    Finished(Answer),
}

// The one thing that a turn does to the nodes.
#[derive(Clone, Copy, Debug, PartialEq, Eq)]
pub enum Effect {
    Nothing,
    // of a node: its owner
    SetOwner(u16, u16),
    // of a node: its next
    SetNext(u16, u16),
    // of a node: its mark, to 1
    SetMark(u16),
    // of a node: its key, next and length; its mark and owner to 0
    Fill(u16, u16, u16, u16),
}

// And what it does to the number of stored labels (document 02, A6).
#[derive(Clone, Copy, Debug, PartialEq, Eq)]
pub enum Growth {
    Stays,
    OneMore,
    OneLess,
}

// An accepted turn.
#[derive(Clone, Copy, Debug, PartialEq, Eq)]
pub struct Step {
    pub worker: Worker,
    pub report: Report,
    pub effect: Effect,
    pub growth: Growth,
}

// An answer in a worker's record.
impl From<Answer> for u16 {
    ghost from_gives = { λ answer number. number ≡ answer_number answer };

    fn from(answer: Answer) -> u16 {
        answer as u16
    }
}

// The answer that a record keeps.
impl From<u16> for Answer {
    ghost from_gives = { λ number answer. answer ≡ numbered_answer number };

    fn from(number: u16) -> Answer {
        match number {
            1 => Answer::Yes,
            2 => Answer::No,
            _ => Answer::Full,
        }
    }
}
