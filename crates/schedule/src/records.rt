// The records of calls and of waits, by value and as words.
ghost use Rattle.std.specs.Prelude.{◌≡◌};
ghost use Rattle.schedule.specs.Run.{call_words, first_call, call_laws, wait_words, first_wait, wait_laws};
ghost use Rattle.schedule.specs.Book.{new_call, decided_call, finished_call};

use crate::{Call, Wait};
use words::flat::Record;
use words::{Entry, word};

impl Call {
    pub(crate) fn new(entry: Entry, start: u16) -> Self
        ensures { result ≡ new_call entry.worker entry.act entry.key start }
    {
        Call {
            worker: entry.worker,
            operation: entry.act,
            key: entry.key,
            start,
            ..Call::default()
        }
    }

    pub(crate) fn decided(self, point: u16, answer: u16) -> Self
        ensures { result ≡ decided_call self point answer }
    {
        Call {
            point,
            answer,
            ..self
        }
    }

    pub(crate) fn finished(self, finish: u16) -> Self
        ensures { result ≡ finished_call self finish }
    {
        Call { finish, ..self }
    }
}

impl Record<{ Call::WIDTH }> for Call {
    ghost words = { call_words };

    ghost first = { first_call };

    ghost laws = { call_laws };

    fn words(self) -> [u16; Call::WIDTH] {
        [
            self.worker,
            self.operation,
            self.key,
            self.start,
            self.point,
            self.finish,
            self.answer,
        ]
    }

    fn first(from: &[u16]) -> Self {
        Call {
            worker: word(from, 0),
            operation: word(from, 1),
            key: word(from, 2),
            start: word(from, 3),
            point: word(from, 4),
            finish: word(from, 5),
            answer: word(from, 6),
        }
    }
}

impl Record<{ Wait::WIDTH }> for Wait {
    ghost words = { wait_words };

    ghost first = { first_wait };

    ghost laws = { wait_laws };

    fn words(self) -> [u16; Wait::WIDTH] {
        [self.call, self.time, self.node, self.worker]
    }

    fn first(from: &[u16]) -> Self {
        Wait {
            call: word(from, 0),
            time: word(from, 1),
            node: word(from, 2),
            worker: word(from, 3),
        }
    }
}
