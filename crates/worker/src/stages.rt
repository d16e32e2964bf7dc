// The stages: what a turn does, line by line as document 01's table. The call's key is `self.key`, document 01's e. A
// match on the stage number is its form.
ghost use Rattle.std.specs.Prelude.{◌≡◌, ◌≤◌, Bool, cond, not, Ok, Err};
ghost use Rattle.worker.specs.Refusals.{judged};
ghost use Rattle.worker.specs.Turn.{node_refusals};
ghost use Rattle.worker.specs.declared.refusal.Refusal.TheVariants.{BrokenRecord, BrokenChain};
ghost use Rattle.worker.specs.Report.{answer_number};
ghost use Rattle.worker.specs.Stages.{with_stage, with_pred, with_curr, with_spare, with_answer, reports, goes, growing, to, locks, unlocks, denies, decides, takes, compares, step_of};

use crate::report::{Answer, Effect, Growth, Report, Step};
use crate::{Node, Refusal, Sight, Worker};

impl Worker {
    // One turn at the record's stage, refused where there is no node of a number that it reads, or of a link that it follows.
    #[tactic(auto, unfolding(crate::specs::Stages::step_of, crate::specs::Turn::placed, crate::specs::Turn::astray))]
    #[inline(always)]
    pub(crate) fn step<S: Sight>(self, owner: u16, sight: S) -> Result<Step, Refusal>
        requires stage_from_1 { 1 ≤ self.stage }
        requires stage_to_25 { self.stage ≤ 25 }
        ensures { result ≡ judged (node_refusals self (S.seen sight)) Err (Ok (step_of self owner (S.seen sight))) }
    {
        let stage = self.stage;
        let count = sight.count();
        // Whether there is a node of that number.
        let pred = self.pred < count;
        let curr = self.curr < count;
        let spare = self.spare < count;
        match stage {
            1 => Ok(self.with_pred(Node::HEAD).to(2)),
            2 => self
                .with_curr(sight.pred().next)
                .to(3)
                .follows(pred, sight.pred().next < count),
            3 => self
                .to(either(sight.curr().key < self.key, 4, 6))
                .reads(curr),
            4 => self.with_pred(self.curr).to(5).reads(curr),
            5 => self
                .with_curr(sight.curr().next)
                .to(3)
                .follows(curr, sight.curr().next < count),
            6 => self
                .locks(self.pred, sight.pred().owner, owner, 7)
                .reads(pred),
            7 => self
                .locks(self.curr, sight.curr().owner, owner, 8)
                .reads(curr),
            8 => self.to(either(sight.pred().mark == 0, 9, 11)).reads(pred),
            9 => self.to(either(sight.curr().mark == 0, 10, 11)).reads(curr),
            10 => self
                .to(either(sight.pred().next == self.curr, 13, 11))
                .reads(pred & curr),
            11 => self.unlocks(self.pred, 12).reads(pred),
            12 => self.unlocks(self.curr, 1).reads(curr),
            13 => self.decides(sight.curr().key == self.key).reads(curr),
            14 if !curr => Err(Refusal::BrokenRecord),
            14 => Ok(self.takes(sight.free())),
            15 => self
                .with_answer(Answer::Yes)
                .goes(19, Effect::SetNext(self.pred, self.spare))
                .growing(Growth::OneMore)
                .reads(pred & spare),
            16 => self
                .with_answer(Answer::Yes)
                .goes(17, Effect::SetMark(self.curr))
                .growing(Growth::OneLess)
                .reads(curr),
            17 => self
                .with_spare(sight.curr().next)
                .to(18)
                .follows(curr, sight.curr().next < count),
            18 => self
                .goes(19, Effect::SetNext(self.pred, self.spare))
                .reads(pred & spare),
            19 => self.unlocks(self.pred, 20).reads(pred),
            20 => self.unlocks(self.curr, 21).reads(curr),
            21 => Ok(Worker::idle().reports(Report::Finished(Answer::from(self.answer)))),
            22 => Ok(self.with_curr(Node::HEAD).to(23)),
            23 => self.compares(sight.curr().key).reads(curr),
            24 => self
                .with_curr(sight.curr().next)
                .to(23)
                .follows(curr, sight.curr().next < count),
            25 => self
                .with_answer(either(sight.curr().mark == 0, Answer::Yes, Answer::No))
                .to(21)
                .reads(curr),
            _ => unreachable!(),
        }
    }

    // Each sets the field of its name: one function over the field would match on it.
    fn with_stage(self, stage: u16) -> Worker
        ensures { result ≡ with_stage self stage }
    {
        Worker { stage, ..self }
    }

    fn with_pred(self, node: u16) -> Worker
        ensures { result ≡ with_pred self node }
    {
        Worker { pred: node, ..self }
    }

    fn with_curr(self, node: u16) -> Worker
        ensures { result ≡ with_curr self node }
    {
        Worker { curr: node, ..self }
    }

    fn with_spare(self, node: u16) -> Worker
        ensures { result ≡ with_spare self node }
    {
        Worker {
            spare: node,
            ..self
        }
    }

    fn with_answer(self, answer: Answer) -> Worker
        ensures { result ≡ with_answer self (answer_number answer) }
    {
        Worker {
            answer: answer.into(),
            ..self
        }
    }

    pub(crate) fn reports(self, report: Report) -> Step
        ensures { result ≡ reports self report }
    {
        Step {
            worker: self,
            report,
            effect: Effect::Nothing,
            growth: Growth::Stays,
        }
    }

    fn goes(self, stage: u16, effect: Effect) -> Step
        ensures { result ≡ goes self stage effect }
    {
        let next = self.with_stage(stage);
        Step {
            worker: next,
            report: Report::Moved(stage),
            effect,
            growth: Growth::Stays,
        }
    }

    fn to(self, stage: u16) -> Step
        ensures { result ≡ to self stage }
    {
        self.goes(stage, Effect::Nothing)
    }

    // Takes a node that nobody holds, else waits for the worker that does.
    fn locks(self, node: u16, holder: u16, owner: u16, stage: u16) -> Step
        ensures { result ≡ locks self node holder owner stage }
    {
        if holder == 0 {
            self.goes(stage, Effect::SetOwner(node, owner))
        } else {
            self.reports(Report::Waits(node, holder - 1))
        }
    }

    fn unlocks(self, node: u16, stage: u16) -> Step
        ensures { result ≡ unlocks self node stage }
    {
        self.goes(stage, Effect::SetOwner(node, 0))
    }

    fn denies(self, stage: u16) -> Step
        ensures { result ≡ denies self stage }
    {
        self.with_answer(Answer::No).to(stage)
    }

    // Stage 13: whether the key was found decides an add and a remove.
    fn decides(self, found: bool) -> Step
        ensures { result ≡ decides self found }
    {
        if self.operation == Worker::ADD {
            if found { self.denies(19) } else { self.to(14) }
        } else {
            if found { self.to(16) } else { self.denies(19) }
        }
    }

    // Stage 14: an add takes a free node, or there is none.
    fn takes(self, free: Option<u16>) -> Step
        ensures { result ≡ takes self free }
    {
        match free {
            None => self.with_answer(Answer::Full).to(19),
            Some(node) => {
                self.with_spare(node)
                    .goes(15, Effect::Fill(node, self.key, self.curr, self.length))
            }
        }
    }

    // Stage 23: a contains goes on below its key, looks at a node with its key, and ends above it.
    fn compares(self, key: u16) -> Step
        ensures { result ≡ compares self key }
    {
        if key < self.key {
            return self.to(24);
        }
        if key == self.key {
            self.to(25)
        } else {
            self.denies(21)
        }
    }
}

impl Step {
    fn growing(self, growth: Growth) -> Step
        ensures { result ≡ growing self growth }
    {
        Step { growth, ..self }
    }

    // Refused where a node that it reads is not placed below N.
    fn reads(self, placed: bool) -> Result<Step, Refusal>
        ensures { result ≡ cond placed (Ok self) (Err BrokenRecord) }
    {
        if placed {
            Ok(self)
        } else {
            Err(Refusal::BrokenRecord)
        }
    }

    // The same, and refused where the link that it follows leads to no node.
    fn follows(self, placed: bool, leads: bool) -> Result<Step, Refusal>
        ensures { result ≡ cond placed (cond leads (Ok self) (Err BrokenChain)) (Err BrokenRecord) }
    {
        if placed & !leads {
            Err(Refusal::BrokenChain)
        } else {
            self.reads(placed)
        }
    }
}

fn either<T: Drop>(test: bool, yes: T, no: T) -> T
    ensures { result ≡ cond test yes no }
{
    if test { yes } else { no }
}
