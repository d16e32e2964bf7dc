// An entry of a schedule: what it does to the arena, to the history and to the books.
ghost use Rattle.std.specs.Prelude.{◌≡◌, ◌≢◌, List, true, ℕ, get_or};
ghost use Rattle.words.specs.Records.{worker_at};
ghost use Rattle.linear.specs.Entries.{after};
ghost use Rattle.linear.specs.History.{is_decision};
ghost use Rattle.schedule.specs.Book.{call_in, decided_call, with_call, with_finish, decision_point, settles, with_decision, moved_book};
ghost use Rattle.schedule.specs.Book.{Roomy, InOrder, absent_from, book_after, calls_after, waits_after};

use crate::book::Book;
use crate::{Call, Wait, present};
use words::flat::{read, write};
use words::{Entry, layout, records};
use worker::{Answer, Report, Worker};

// A turn at this stage that leaves this answer decides it: document 01's match on the stage number; the answer is a record's word, a number.
#[tactic(auto, unfolding(linear::specs::History::is_decision))]
fn is_decision(stage: u16, answer: u16) -> bool
    ensures { result ≡ is_decision stage answer }
{
    match stage {
        13 | 23 => answer == Answer::No as u16,
        14 => answer == Answer::Full as u16,
        15 | 25 => true,
        16 => true,
        _ => false,
    }
}

// A decided answer's point: the time of the turn, but for a contains that answers no.
fn point_of(operation: u16, answer: u16, absent: u16, time: u16) -> u16
    ensures { result ≡ decision_point operation answer absent time }
{
    if (operation == Worker::CONTAINS) & (answer == Answer::No as u16) {
        absent
    } else {
        time
    }
}

fn note_finish(history: &mut [u16], number: u16, time: u16)
    ensures { history.new ≡ with_finish history.old number time }
{
    let call: Call = read(history, number);
    write(history, number, call.finished(time));
}

fn note_decision(history: &mut [u16], number: u16, point: u16, answer: u16)
    ensures { history.new
        ≡ with_call history.old number (decided_call (call_in history.old number) point answer) }
{
    let call: Call = read(history, number);
    write(history, number, call.decided(point, answer));
}

// A turn that decides an answer: a remove's yes takes its key out of the set, which the books note.
fn book_decision(book: &mut Book, arena: &[u16], before: Worker, answer: u16, time: u16)
    requires { settles before answer ≡ true }
    ensures { book.new ≡ moved_book book.old arena.now before answer time }
{
    if (before.operation == Worker::REMOVE) & (answer == Answer::Yes as u16) {
        let workers = words::word(arena, layout::WORKERS_AT);
        book.miss(arena, workers, before.key, time);
    }
}

// A turn that moves may decide its call's answer, which is then kept.
fn enter_move(
    arena: &[u16],
    history: &mut [u16],
    book: &mut Book,
    time: u16,
    worker: u16,
    before: Worker,
)
    ensures calls { history.new ≡ with_decision history.old (get_or book.old.opened worker 0) before
        (worker_at arena.now worker).answer (get_or book.new.absent worker 0) time }
    ensures books { book.new ≡ moved_book book.old arena.now before (worker_at arena.now worker).answer time }
{
    let answer = records::worker_field(arena, worker, layout::WORKER_ANSWER);
    if is_decision(before.stage, answer) {
        let number = book.open_call(worker);
        book_decision(book, arena, before, answer, time);
        let point = point_of(before.operation, answer, book.absent_time(worker), time);
        note_decision(history, number, point, answer);
    }
}

// Its key and length are not looked at.
fn enter_turn(
    arena: &mut [u16],
    history: &mut [u16],
    waits: &mut [u16],
    book: &mut Book,
    time: u16,
    entry: Entry,
)
    requires turns { entry.act ≡ 0 }
    requires roomy { Roomy book.old }
    ensures words { arena.new ≡ after arena.old entry }
    ensures calls { history.new ≡ calls_after arena.old time entry book.old history.old }
    ensures waits { waits.new ≡ waits_after arena.old time entry book.old waits.old }
    ensures books { book.new ≡ book_after arena.old time entry book.old }
{
    let worker = entry.worker;
    let before = records::read_worker(arena, worker);
    match lazy::turn(arena, worker) {
        Err(_) => book.refuse(),
        Ok(report) => match report {
            Report::Idle => {}
            Report::Moved(_) => enter_move(arena, history, book, time, worker, before),
            Report::Waits(node, blocker) => {
                let wait = Wait {
                    call: book.open_call(worker),
                    time,
                    node,
                    worker: blocker,
                };
                write(waits, book.waits, wait);
                book.wait();
            }
            Report::Finished(_) => note_finish(history, book.open_call(worker), time),
        },
    }
}

// A contains looks at once whether its key is there.
fn absent_from(arena: &[u16], entry: Entry, time: u16) -> u16
    requires { InOrder arena.now }
    ensures { result ≡ absent_from arena.now entry.act entry.key time }
{
    if entry.act != Worker::CONTAINS {
        return 0;
    }
    if present::is_present(arena, entry.key) {
        0
    } else {
        time
    }
}

fn enter_start(arena: &mut [u16], history: &mut [u16], book: &mut Book, time: u16, entry: Entry)
    requires starts { entry.act ≢ 0 }
    requires roomy { Roomy book.old }
    requires in_order { InOrder (after arena.old entry) }
    ensures words { arena.new ≡ after arena.old entry }
    ensures calls { history.new
        ≡ calls_after arena.old time entry book.old history.old }
    ensures waits { (waits : List ℕ) →
        waits ≡ waits_after arena.old time entry book.old waits }
    ensures books { book.new ≡ book_after arena.old time entry book.old }
{
    match arena::start(arena, entry.worker, entry.act, entry.key, entry.length) {
        Err(_) => book.refuse(),
        Ok(()) => {
            write(history, book.calls, Call::new(entry, time));
            book.start(entry.worker, absent_from(arena, entry, time));
        }
    }
}

// The lent rows and the books are no struct: each function here takes just what it changes, and its contract need not say that the rest stays.
// That there is room, and that the arena is in order, hold of the books and the arena at an entry and not always, so no type says it.
pub(crate) fn enter(
    arena: &mut [u16],
    history: &mut [u16],
    waits: &mut [u16],
    book: &mut Book,
    time: u16,
    entry: Entry,
)
    requires roomy { Roomy book.old }
    requires in_order { InOrder (after arena.old entry) }
    ensures words { arena.new ≡ after arena.old entry }
    ensures calls { history.new
        ≡ calls_after arena.old time entry book.old history.old }
    ensures waits { waits.new
        ≡ waits_after arena.old time entry book.old waits.old }
    ensures books { book.new ≡ book_after arena.old time entry book.old }
{
    if entry.act == Entry::TURN {
        enter_turn(arena, history, waits, book, time, entry);
    } else {
        enter_start(arena, history, book, time, entry);
    }
}
