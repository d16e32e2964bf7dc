// The nodes of a set, as they are shown one after another, and whether their labels may be converted.
ghost use Rattle.std.specs.Prelude.{◌≡◌, [], ◌∷◌, not, IfOk};
ghost use Rattle.words.specs.Layout.{nodes_of};
ghost use Rattle.words.specs.Replies.{no_values, reply, replied};
ghost use Rattle.arena.specs.Snapshot.{chain_broken};
ghost use Rattle.convert.specs.Convert.{source_node, fits};
ghost use Rattle.convert.specs.Members.{IsEmpty, gathered, AllGathered, count_by, length_by};

use crate::source::Source;
use arena::{Label, Visitor, visit_labels};
use words::word;
use worker::Refusal;

// Of fixed length, for there is no heap.
#[derive(Drop)]
pub(crate) struct Members<'a> {
    // Whether the layout wanted is 2, and the lengths that are lent for it.
    pub(crate) lengthening: bool,
    pub(crate) lengths: &'a [u16],
    // By node number, whether the node is in the set, and how many are.
    row: [bool; 1024],
    count: u16,
    // No label has a length that may not be.
    pub(crate) fit: bool,
}

impl<'a> Members<'a> {
    pub(crate) fn new(lengthening: bool, lengths: &'a [u16]) -> Self
        ensures lent { (result.lengthening ≡ lengthening) × (result.lengths.now ≡ lengths.now) }
        ensures empty { IsEmpty result }
    {
        Members {
            lengthening,
            lengths,
            row: [false; 1024],
            count: 0,
            fit: true,
        }
    }

    // The nodes of the source's set, where its chain is whole.
    pub(crate) fn gather(&mut self, source: Source) -> Result<(), Refusal>
        requires { IsEmpty self.old × (source.has_lengths ≡ not self.old.lengthening) }
        ensures answer { reply no_values result ≡ replied
            (chain_broken (source_node self.old.lengthening source.entry.words.now) (nodes_of source.entry.words.now) ∷ []) [] }
        ensures members { IfOk result (λ done. AllGathered self.old.lengthening source.entry.words.now self.old.lengths.now self.new) }
    {
        visit_labels(source, self)?;
        Ok(())
    }

    // What a header of the layout wanted counts.
    pub(crate) fn new_count(&self) -> u16
        ensures { result ≡ count_by self.now }
    {
        if self.lengthening { self.count } else { 0 }
    }

    // What a node has for a length in the layout wanted: the lent one if it is in the set, and else 0.
    pub(crate) fn length_of(&self, node: u16) -> u16
        ensures { result ≡ length_by self.now node }
    {
        let at = node as usize;
        if at < self.row.len() && self.row[at] {
            word(self.lengths, at)
        } else {
            0
        }
    }
}

impl<'a> Visitor for Members<'a> {
    ghost visited = { gathered };

    fn visit(&mut self, node: u16, label: Label) {
        let at = node as usize;
        if at < self.row.len() {
            self.row[at] = true;
        }
        self.count = self.count.saturating_add(1);
        let length = if self.lengthening {
            word(self.lengths, at)
        } else {
            label.length
        };
        self.fit &= fits(self.lengthening, label.key, length);
    }
}

// A label of this length may be converted: by A2's rule, and to layout 1 only with a length of 1.
fn fits(lengthening: bool, key: u16, length: u16) -> bool
    ensures { result ≡ fits lengthening key length }
{
    worker::is_length(key, length) & (lengthening | (length == 1))
}
