// The keys of a set, for a snapshot.
ghost use Rattle.std.specs.Prelude.{◌≡◌, ◌++◌, length, drop};
ghost use Rattle.words.specs.Records.{node_at};
ghost use Rattle.words.specs.Replies.{reply, replied, written};
ghost use Rattle.arena.specs.Keys.{listed};
ghost use Rattle.arena.specs.Snapshot.{count_values, chain_keys, chain_refusals};

use crate::chain::{Label, Visitor, visit_labels};
use words::Nodes;
use worker::Refusal;

// The keys shown so far, in a lent row: the count is not among its words, so that it stays in a register.
#[derive(Drop)]
struct Keys<'a> {
    row: &'a mut [u16; 1024],
    count: u16,
}

impl<'a> Visitor for Keys<'a> {
    ghost visited = { listed };

    fn visit(&mut self, _node: u16, label: Label) {
        let end = self.count as usize;
        if end < self.row.len() {
            self.row[end] = label.key;
            self.count += 1;
        }
    }
}

// The keys of the set.
pub(crate) fn write_keys(nodes: Nodes, keys: &mut [u16]) -> Result<u16, Refusal>
    ensures answer { reply count_values result ≡ replied
        (chain_refusals (node_at nodes.entry.words.now) nodes.entry.count (length keys.old))
        (count_values (length (chain_keys (node_at nodes.entry.words.now) nodes.entry.count))) }
    ensures words { keys.new ≡ written
        (chain_refusals (node_at nodes.entry.words.now) nodes.entry.count (length keys.old))
        keys.old
        (chain_keys (node_at nodes.entry.words.now) nodes.entry.count
        ++ drop (length (chain_keys (node_at nodes.entry.words.now) nodes.entry.count)) keys.old) }
{
    // A refusal writes nothing, so the keys wait in a row; of fixed length, for there is no heap. There are no more keys than nodes.
    let mut row = [0; 1024];
    let mut found = Keys {
        row: &mut row,
        count: 0,
    };
    visit_labels(nodes, &mut found)?;
    let end = found.count as usize;
    if keys.len() < end {
        return Err(Refusal::NoRoom);
    }
    keys[..end].copy_from_slice(&found.row[..end]);
    Ok(found.count)
}
