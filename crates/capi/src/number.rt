// Answers as one number.
ghost use Rattle.std.specs.Prelude.{◌≡◌, [], ◌∷◌, List, ℕ};
ghost use Rattle.worker.specs.Report.{answer_number, report_values};
ghost use Rattle.words.specs.Replies.{accepted, no_values, or_none, reply};
ghost use Rattle.lazy.specs.FindFree.{found_values};
ghost use Rattle.free_cells.specs.LongestFreeRun.{run_values};
ghost use Rattle.capi.specs.Number.{reply_number, Reads, Fitting};

use free_cells::FreeRun;
use lazy::Found;
use worker::{Node, Refusal, Report};

// Where a report and two values stand, above the byte of the refusal. The C interface has a report by its number, 0 to 3.
const REPORT: u64 = 256;

const FIRST: u64 = 65536;

const SECOND: u64 = 4294967296;

// What is told of a call that was not refused: its report and two values, each in its place.
pub(crate) trait Told {
    ghost values: { Self → List ℕ };

    fn number(self) -> u64
        ensures number { result ≡ reply_number (accepted (values self)) }
        ensures fitting { Fitting (accepted (values self)) };
}

// The number of a refusal, or what is told.
pub(crate) fn number<T: Told>(answer: Result<T, Refusal>) -> u64
    ensures number { result ≡ reply_number (reply T.values answer) }
    ensures read { Reads result (reply T.values answer) }
{
    match answer {
        Ok(given) => given.number(),
        Err(refusal) => u16::from(refusal) as u64,
    }
}

impl Told for () {
    ghost values = { no_values };

    fn number(self) -> u64 {
        0
    }
}

// A count: of a snapshot's keys, or of the stored labels.
impl Told for u16 {
    ghost values = { λ count. 0 ∷ count ∷ [] };

    fn number(self) -> u64 {
        FIRST * (self as u64)
    }
}

impl Told for Found {
    ghost values = { λ found. 0 ∷ found_values found };

    fn number(self) -> u64 {
        FIRST * (or_none(self.free) as u64) + SECOND * (self.reads as u64)
    }
}

impl Told for FreeRun {
    ghost values = { λ run. 0 ∷ run_values run };

    fn number(self) -> u64 {
        FIRST * (self.first as u64) + SECOND * (self.length as u64)
    }
}

impl Told for Report {
    ghost values = { report_values };

    fn number(self) -> u64 {
        match self {
            Report::Idle => 0,
            Report::Moved(stage) => REPORT + FIRST * (stage as u64),
            Report::Waits(node, worker) => {
                2 * REPORT + FIRST * (node as u64) + SECOND * (worker as u64)
            }
            Report::Finished(answer) => 3 * REPORT + FIRST * (u16::from(answer) as u64),
        }
    }
}

fn or_none(number: Option<u16>) -> u16
    ensures { result ≡ or_none number }
{
    number.unwrap_or(Node::NONE)
}
