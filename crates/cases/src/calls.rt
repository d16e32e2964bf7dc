// Calls, the turns that they take, and what is printed of them.
use crate::print::Given;
use std::fmt;
use worker::{Refusal, Report, Worker};

// What a start asks for, as a case's text says it: `add(5).of(1).by(1)`. No `Entry`, which may be a turn too.
#[derive(Clone, Copy)]
pub struct Call {
    worker: u16,
    operation: u16,
    key: u16,
    length: u16,
}

impl Call {
    pub fn add(key: u16) -> Self {
        Self::new(Worker::ADD, key)
    }

    pub fn remove(key: u16) -> Self {
        Self::new(Worker::REMOVE, key)
    }

    pub fn contains(key: u16) -> Self {
        Self::new(Worker::CONTAINS, key)
    }

    // Of worker 0, with no length.
    pub fn new(operation: u16, key: u16) -> Self {
        Call {
            worker: 0,
            operation,
            key,
            length: 0,
        }
    }

    pub fn by(self, worker: u16) -> Self {
        Call { worker, ..self }
    }

    pub fn of(self, length: u16) -> Self {
        Call { length, ..self }
    }

    pub fn start(self, arena: &mut [u16]) -> Result<(), Refusal> {
        arena::start(arena, self.worker, self.operation, self.key, self.length)
    }

    // From its start, so many turns.
    pub fn begin(self, arena: &mut [u16], count: u16) -> Result<Report, Refusal> {
        self.start(arena)?;
        turns(arena, self.worker, count)
    }

    // From its start to its end.
    pub fn run(self, arena: &mut [u16]) -> Result<Ending, Refusal> {
        self.start(arena)?;
        finish(arena, self.worker)
    }
}

// So many turns, and the last one's report.
pub fn turns(arena: &mut [u16], worker: u16, count: u16) -> Result<Report, Refusal> {
    for _ in 1..count {
        lazy::turn(arena, worker)?;
    }
    lazy::turn(arena, worker)
}

pub fn finish(arena: &mut [u16], worker: u16) -> Result<Ending, Refusal> {
    for count in 1..=MOST_TURNS {
        let report = lazy::turn(arena, worker)?;
        if !matches!(report, Report::Moved(_) | Report::Waits(..)) {
            return Ok(Ending(Some((count, report))));
        }
    }
    Ok(Ending(None))
}

const MOST_TURNS: u16 = 100;

// After how many turns a call ends, and the last one's report; none where the most turns don't end it.
#[derive(Clone, Copy)]
pub struct Ending(Option<(u16, Report)>);

impl Given for Ending {
    fn mark() -> &'static str {
        ", "
    }

    fn print<W: fmt::Write>(&self, f: &mut fmt::Formatter<W>) -> fmt::Result {
        match self.0 {
            Some((count, report)) => {
                write!(f, "{count} turns: ")?;
                report.print(f)
            }
            None => write!(f, "not finished in {MOST_TURNS} turns"),
        }
    }
}
