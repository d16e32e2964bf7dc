// Whether a key is in the set of an arena.
ghost use Rattle.std.specs.Prelude.{◌≡◌};
ghost use Rattle.arena.specs.Sets.{member, set_of};
ghost use Rattle.schedule.specs.Book.{InOrder};

use words::Arena;
use worker::Node;

// Walks along the chain, whose keys rise, up to where the key must stand.
pub(crate) fn is_present(arena: &[u16], key: u16) -> bool
    requires { InOrder arena.now }
    ensures { result ≡ member key (set_of arena.now) }
{
    let arena = Arena { words: arena };
    let nodes = arena.nodes();
    let mut node = nodes.get(Node::HEAD);
    // The links say where it goes on.
    while node.next != Node::TAIL {
        node = nodes.get(node.next);
        if key <= node.key {
            return (node.key == key) & (node.mark == 0);
        }
    }
    false
}
