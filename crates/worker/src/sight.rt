// What a turn may see besides the worker's own record.
ghost use Rattle.std.specs.Prelude.{◌≡◌};

use crate::Node;

/// A stage asks for what it reads and for nothing else, so that no more is read.
pub trait Sight: Copy {
    ghost use Rattle.worker.specs.Seen.{Seen};

    ghost seen: { Self → Seen };

    /// How many nodes there are.
    fn count(self) -> u16
        ensures { result ≡ (seen self).count };

    /// The node that the worker's pred names; zeros where there is none.
    fn pred(self) -> Node
        ensures { result ≡ (seen self).pred };

    /// The node that its curr names.
    fn curr(self) -> Node
        ensures { result ≡ (seen self).curr };

    /// A free node, if there is one. It is searched for.
    fn free(self) -> Option<u16>
        ensures { result ≡ (seen self).free };
}
