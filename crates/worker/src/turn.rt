// A worker's turn: what its record is refused for, then its stage. The stages that are refused, and the operations that belong, by ranges.
ghost use Rattle.std.specs.Prelude.{◌≡◌, ◌≤◌};
ghost use Rattle.worker.specs.Turn.{belongs, kept, turn_of};

use crate::report::{Report, Step};
use crate::{Refusal, Sight, Worker, is_key, is_within};

impl Worker {
    /// One turn: the next worker, the report, the one effect on the nodes, and what it does to the count. `owner` is the worker's owner word, no
    /// part of what it sees.
    #[tactic(auto, unfolding(crate::specs::Turn::turn_of, crate::specs::Turn::turn_refusals, crate::specs::Turn::busy_refusals, crate::specs::Stages::step_of))]
    #[inline(always)]
    pub fn turn<S: Sight>(self, owner: u16, sight: S) -> Result<Step, Refusal>
        ensures { result ≡ turn_of self owner (S.seen sight) }
    {
        let stage = self.stage;
        match stage {
            0 => Ok(self.reports(Report::Idle)),
            1..=25 => self.busy_turn(owner, sight),
            26..=65535 => Err(Refusal::BrokenRecord),
        }
    }

    #[tactic(auto, unfolding(crate::specs::Turn::turn_of, crate::specs::Turn::turn_refusals, crate::specs::Turn::busy_refusals))]
    #[inline(always)]
    fn busy_turn<S: Sight>(self, owner: u16, sight: S) -> Result<Step, Refusal>
        requires stage_from_1 { 1 ≤ self.stage }
        requires stage_to_25 { self.stage ≤ 25 }
        ensures { result ≡ turn_of self owner (S.seen sight) }
    {
        if !operation_belongs(self.stage, self.operation) {
            return Err(Refusal::BrokenRecord);
        }
        if !self.is_kept() {
            return Err(Refusal::BrokenRecord);
        }
        self.step(owner, sight)
    }

    // The key and, where the stage keeps one, the answer.
    #[tactic(auto, unfolding(crate::specs::Turn::kept))]
    fn is_kept(self) -> bool
        ensures { result ≡ kept self }
    {
        is_key(self.key) & (!is_within(self.stage, 19, 21) | is_within(self.answer, 1, 3))
    }
}

#[tactic(auto, unfolding(crate::specs::Turn::belongs))]
fn operation_belongs(stage: u16, operation: u16) -> bool
    ensures { result ≡ belongs stage operation }
{
    match stage {
        1..=13 => is_within(operation, Worker::ADD, Worker::REMOVE),
        14..=15 => operation == Worker::ADD,
        16..=18 => operation == Worker::REMOVE,
        19..=20 => is_within(operation, Worker::ADD, Worker::REMOVE),
        21 => is_within(operation, Worker::ADD, Worker::CONTAINS),
        22..=25 => operation == Worker::CONTAINS,
        _ => false,
    }
}
