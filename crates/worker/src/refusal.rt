// The refusals of documents 01 and 02: a number and a word each.
ghost use Rattle.std.specs.Prelude.{◌≡◌, Some};
ghost use Rattle.worker.specs.Refusals.{refusal_number, refusal_word};

use std::error::Error;
use std::fmt;

#[derive(Clone, Copy, Debug, PartialEq, Eq, Hash, Drop)]
pub enum Refusal {
    ShortArena = 1,
    OddHeader = 2,
    NoSuchWorker = 3,
    Busy = 4,
    BadCall = 5,
    BrokenRecord = 6,
    BrokenChain = 7,
    NoRoom = 8,
    BadSchedule = 9,
    BadCounts = 10,
    OldLayout = 12,
    BrokenCount = 14,
}

impl From<Refusal> for u16 {
    ghost from_gives = { λ refusal number. number ≡ refusal_number refusal };

    fn from(refusal: Refusal) -> u16 {
        refusal as u16
    }
}

impl fmt::Display for Refusal {
    ghost output = { λ refusal. Some (refusal_word refusal) };

    fn fmt<W: fmt::Write>(&self, f: &mut fmt::Formatter<W>) -> fmt::Result {
        f.write_str(match self {
            Refusal::ShortArena => "short board",
            Refusal::OddHeader => "odd header",
            Refusal::NoSuchWorker => "no such worker",
            Refusal::Busy => "busy",
            Refusal::BadCall => "bad call",
            Refusal::BrokenRecord => "broken record",
            Refusal::BrokenChain => "broken chain",
            Refusal::NoRoom => "no room",
            Refusal::BadSchedule => "bad schedule",
            Refusal::BadCounts => "bad counts",
            Refusal::OldLayout => "old layout",
            Refusal::BrokenCount => "broken count",
        })
    }
}

impl Error for Refusal {}
