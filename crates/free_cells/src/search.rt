// One pass over the labels of a set, by rising key. No row of cells is kept: what it costs goes by the labels, however many cells there are.
ghost use Rattle.std.specs.Prelude.{◌≡◌};
ghost use Rattle.free_cells.specs.Search.{begun, longer, met, found_by};

use crate::FreeRun;
use arena::{Label, Visitor};

// What is known once some labels have been met.
#[derive(Clone, Copy)]
pub(crate) struct Search {
    // The cell behind the last.
    end: u16,
    // The cell behind all those that labels cover. A label can end past all numbers of cells.
    from: u32,
    // The longest free run up to there.
    longest: FreeRun,
}

impl Search {
    pub(crate) fn new(end: u16) -> Self
        ensures { result ≡ begun end }
    {
        Search {
            end,
            from: 1,
            longest: FreeRun {
                first: 0,
                length: 0,
            },
        }
    }

    // The longest run, as no more labels come.
    pub(crate) fn found(self) -> FreeRun
        ensures { result ≡ found_by self }
    {
        self.longer(self.end)
    }

    // The longest run so far, or that from behind the covered cells up to before a cell, where it is longer.
    #[tactic(auto, unfolding(crate::specs::Search::longer))]
    fn longer(self, to: u16) -> FreeRun
        ensures { result ≡ longer self to }
    {
        let length = (to as u32).saturating_sub(self.from) as u16;
        if self.longest.length < length {
            FreeRun {
                first: self.from as u16,
                length,
            }
        } else {
            self.longest
        }
    }
}

impl Visitor for Search {
    ghost visited = { λ search node. met search };

    // A label of length 0 covers nothing, and ends no run.
    #[tactic(auto, unfolding(crate::specs::Search::met))]
    fn visit(&mut self, _node: u16, label: Label) {
        if label.length != 0 {
            let behind = (label.key as u32) + (label.length as u32);
            self.longest = self.longer(label.key.min(self.end));
            self.from = self.from.max(behind);
        }
    }
}
