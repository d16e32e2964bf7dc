// What a turn of a worker may see of an arena.
ghost use Rattle.std.specs.Prelude.{◌≡◌};
ghost use Rattle.lazy.specs.Turn.{seen_by};

use crate::free;
use words::Arena;
use worker::{Node, Sight, Worker};

#[derive(Clone, Copy)]
pub(crate) struct View<'a> {
    pub(crate) arena: Arena<'a>,
    pub(crate) state: Worker,
}

#[tactic(auto, unfolding(crate::specs::Turn::seen_by, crate::specs::Turn::seen_of))]
impl<'a> Sight for View<'a> {
    ghost seen = { λ view. seen_by view.arena.words.now view.state };

    fn count(self) -> u16 {
        self.arena.nodes().count
    }

    fn pred(self) -> Node {
        self.arena.nodes().get(self.state.pred)
    }

    fn curr(self) -> Node {
        self.arena.nodes().get(self.state.curr)
    }

    fn free(self) -> Option<u16> {
        free::search(self.arena).free
    }
}
