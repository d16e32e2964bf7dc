// The books of a run: its counts, and for each worker what its open call needs.
ghost use Rattle.std.specs.Prelude.{◌≡◌, ◌<◌, get_or};
ghost use Rattle.words.specs.Records.{worker_at};
ghost use Rattle.schedule.specs.Book.{new_book, with_start, with_refusal, with_wait, with_absent, missed_one, missed};

use words::records;
use worker::Worker;

#[derive(Drop)]
pub(crate) struct Book {
    pub(crate) calls: u16,
    pub(crate) refused: u16,
    pub(crate) waits: u16,
    // the number of the call
    pub(crate) opened: [u16; 8],
    // of a contains the first time at which its key was absent, or 0, as a record has it; a row of its own and no pair with the number, as the
    // definitions ask for this row alone (`missed`)
    pub(crate) absent: [u16; 8],
}

impl Book {
    // Not derived: tried, and no plainer, as a derive's promise goes by fields and the equation becomes a lemma of its own.
    pub(crate) fn new() -> Self
        ensures { result ≡ new_book }
    {
        Book {
            calls: 0,
            refused: 0,
            waits: 0,
            opened: [0; 8],
            absent: [0; 8],
        }
    }

    pub(crate) fn refuse(&mut self)
        requires { self.old.refused < 65535 }
        ensures { self.new ≡ with_refusal self.old }
    {
        self.refused += 1;
    }

    pub(crate) fn wait(&mut self)
        requires { self.old.waits < 65535 }
        ensures { self.new ≡ with_wait self.old }
    {
        self.waits += 1;
    }

    pub(crate) fn start(&mut self, worker: u16, absent: u16)
        requires { self.old.calls < 65535 }
        ensures { self.new ≡ with_start self.old worker absent }
    {
        words::put(&mut self.opened, worker as usize, self.calls);
        words::put(&mut self.absent, worker as usize, absent);
        self.calls += 1;
    }

    pub(crate) fn open_call(&self, worker: u16) -> u16
        ensures { result ≡ get_or self.now.opened worker 0 }
    {
        words::word(&self.opened, worker as usize)
    }

    pub(crate) fn absent_time(&self, worker: u16) -> u16
        ensures { result ≡ get_or self.now.absent worker 0 }
    {
        words::word(&self.absent, worker as usize)
    }

    // The key has left the set: a worker that looks it up, and has not missed it before, misses it now.
    fn miss_one(&mut self, v: u16, worker: Worker, key: u16, time: u16)
        ensures { self.new ≡ with_absent self.old (missed_one v worker key time self.old.absent) }
    {
        let looks_up = (worker.operation == Worker::CONTAINS) & (worker.key == key);
        if looks_up & (self.absent_time(v) == 0) {
            words::put(&mut self.absent, v as usize, time);
        }
    }

    #[tactic(auto, unfolding(crate::specs::Book::missed))]
    pub(crate) fn miss(&mut self, arena: &[u16], workers: u16, key: u16, time: u16)
        ensures { self.new ≡ with_absent self.old (missed (worker_at arena.now) workers key time self.old.absent) }
    {
        for v in 0..workers {
            self.miss_one(v, records::read_worker(arena, v), key, time);
        }
    }
}
