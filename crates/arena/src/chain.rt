// The chain from Head to Tail, and the labels of its unmarked nodes, one after another.
ghost use Rattle.std.specs.Prelude.{◌≡◌, [], ◌∷◌, IfOk};
ghost use Rattle.words.specs.Records.{node_at};
ghost use Rattle.words.specs.Replies.{no_values, reply, replied};
ghost use Rattle.arena.specs.Sets.{shown, set_nodes};
ghost use Rattle.arena.specs.Snapshot.{chain_broken};

use words::Nodes;
use worker::{Node, Refusal};

// A label of a set.
#[derive(Clone, Copy, Debug, PartialEq, Eq, Hash)]
pub struct Label {
    pub key: u16,
    pub length: u16,
}

// What the labels of a set are shown to, one after another, each with the number of its node.
pub trait Visitor {
    ghost use Rattle.std.specs.Prelude.{ℕ};
    ghost use Rattle.arena.specs.declared.chain.Label.{Label};

    ghost visited: { Self → ℕ → Label → Self };

    fn visit(&mut self, node: u16, label: Label)
        ensures { self.new ≡ visited self.old node label };
}

// What the walk reads: nodes by their number, so many of which there are. An arena's, or those of a converter's source.
pub trait NodeRecords: Copy {
    ghost use Rattle.std.specs.Prelude.{ℕ};
    ghost use Rattle.worker.specs.declared.Node.{Node};
    ghost use Rattle.words.specs.Records.{found};

    ghost nodes: { Self → ℕ → Node };

    ghost count: { Self → ℕ };

    // A node. One that there is not is read as zeros.
    fn get(self, node: u16) -> Node
        ensures { result ≡ nodes self node };

    // A node, if there is one of that number.
    fn find(self, node: u16) -> Option<Node>
        ensures { result ≡ found (nodes self) (count self) node };
}

impl<'a> NodeRecords for Nodes<'a> {
    ghost nodes = { λ nodes. node_at nodes.words.now };

    ghost count = { λ nodes. nodes.count };

    fn get(self, node: u16) -> Node {
        Nodes::get(self, node)
    }

    fn find(self, node: u16) -> Option<Node> {
        Nodes::find(self, node)
    }
}

// Walks from Head to Tail and shows the labels of the unmarked nodes between, which is the set. A marked node is passed over, but its link and
// its key are tested like the others'. Of a broken chain some labels may have been shown.
pub fn visit_labels<R: NodeRecords, V: Visitor>(records: R, visitor: &mut V) -> Result<(), Refusal>
    ensures answer { reply no_values result ≡ replied (chain_broken (R.nodes records) (R.count records) ∷ []) [] }
    ensures visitor { IfOk result (λ done.
        visitor.new ≡ shown (R.nodes records) V.visited visitor.old (set_nodes (R.nodes records) (R.count records))) }
{
    let head = records.get(Node::HEAD);
    let mut last = head.key;
    let mut at = head.next;
    // The links say where it goes on, so no range or slice can be gone through.
    while at != Node::TAIL {
        let node = match records.find(at) {
            Some(node) if last < node.key => node,
            _ => return Err(Refusal::BrokenChain),
        };
        if node.mark == 0 {
            let label = Label {
                key: node.key,
                length: node.length,
            };
            visitor.visit(at, label);
        }
        last = node.key;
        at = node.next;
    }
    Ok(())
}
