// An entry of a schedule: a start or a turn, in four words.
ghost use Rattle.std.specs.Prelude.{◌≡◌, ◌/◌, map, length};
ghost use Rattle.words.specs.Entries.{entry_width, entry_words, first_entry, entry_laws, entries_of};

use crate::flat::Record;
use crate::word;

#[derive(Clone, Copy, Debug, PartialEq, Eq, Hash)]
pub struct Entry {
    pub worker: u16,
    // 0 a turn, else the operation that is started
    pub act: u16,
    // not looked at for a turn, nor is the length
    pub key: u16,
    // of the label, which a start carries
    pub length: u16,
}

impl Entry {
    pub const WIDTH: usize = 4;

    // A schedule has at most so many entries.
    pub const MOST: usize = 4000;

    // The act of a turn; the others are operations to start, and a number with no operation is a start too, so it is no enum.
    pub const TURN: u16 = 0;

    // The entries of a schedule, each in its words; words that are no whole entry are none.
    #[tactic(auto, using(crate::proofs::EntryLaws::entries_chunked))]
    pub fn all(schedule: &[u16]) -> &[[u16; Entry::WIDTH]]
        ensures entries { map first_entry result.now ≡ entries_of schedule.now }
        ensures count { length result.now ≡ length schedule.now / entry_width }
    {
        schedule.as_chunks().0
    }
}

impl Record<{ Entry::WIDTH }> for Entry {
    ghost words = { entry_words };

    ghost first = { first_entry };

    ghost laws = { entry_laws };

    fn words(self) -> [u16; Entry::WIDTH] {
        [self.worker, self.act, self.key, self.length]
    }

    fn first(from: &[u16]) -> Self {
        Entry {
            worker: word(from, 0),
            act: word(from, 1),
            key: word(from, 2),
            length: word(from, 3),
        }
    }
}
