// What the bench program prints, into lent bytes.
// Not `impl Display`: tried, and the proof does not close. std says what a `fmt` writes where it answers `Ok`, but not that it does so, and
// printing here cannot fail.
#![tactic(auto)]

ghost use Rattle.std.specs.Prelude.{◌≡◌};
ghost use Rattle.std.specs.List.{flat_map};
ghost use Rattle.bench_print.specs.Print.{Prints, decimal, part_text};
ghost use Rattle.bench_print.specs.Print.{bad_line_text, refused_text, totals_text};
ghost use Rattle.bench_print.specs.Print.{operation_text, answer_text, call_text, wait_text, roll_text};

use schedule::{Call, Totals, Wait};
use worker::{Answer, Worker};

// A lent output, of which the first `len` bytes are printed: a length beside the bytes, as there is no heap. Past its end nothing is written,
// and `len` stays.
#[derive(Drop)]
pub struct Output<'a> {
    bytes: &'a mut [u8],
    len: usize,
}

// A part of a line: a text, or a number behind one.
#[derive(Clone, Copy)]
enum Part<'a> {
    Text(&'a str),
    Labelled(&'a str, u16),
}

impl<'a> Output<'a> {
    // An output of which so many bytes are printed.
    pub fn new(bytes: &'a mut [u8], len: usize) -> Output<'a>
        ensures same_reference { result.bytes.ghost_name ≡ bytes.entry.ghost_name }
        ensures bytes { result.bytes.now ≡ bytes.old }
        ensures len { result.len ≡ len }
    {
        Output { bytes, len }
    }

    // The number of bytes printed.
    pub fn len(&self) -> usize
        ensures { result ≡ self.now.len }
    {
        self.len
    }

    #[tactic(auto, unfolding(crate::specs::Print::bad_line_text))]
    pub fn print_bad_line(&mut self, line: u16)
        ensures { Prints (bad_line_text line) self.old self.new }
    {
        self.print_parts(&[Part::Labelled("bad line ", line), Part::Text("\n")]);
    }

    // By its number, of which any can be printed: to take a `Refusal` would ask more.
    #[tactic(auto, unfolding(crate::specs::Print::refused_text))]
    pub fn print_refused(&mut self, number: u16)
        ensures { Prints (refused_text number) self.old self.new }
    {
        self.print_parts(&[Part::Labelled("refused ", number), Part::Text("\n")]);
    }

    #[tactic(auto, unfolding(crate::specs::Print::totals_text))]
    pub fn print_totals(&mut self, totals: Totals)
        ensures { Prints (totals_text totals) self.old self.new }
    {
        self.print_parts(&[
            Part::Labelled("entries ", totals.entries),
            Part::Labelled(" refused ", totals.refused),
            Part::Labelled(" waits ", totals.waits),
            Part::Labelled(" calls ", totals.calls),
            Part::Text("\n"),
        ]);
    }

    // A record: a call of the history.
    pub fn print_call(&mut self, call: Call)
        ensures { Prints (call_text call) self.old self.new }
    {
        self.print_parts(&[
            Part::Labelled("", call.worker),
            Part::Text(operation_word(call.operation)),
            Part::Labelled(" ", call.key),
            Part::Labelled(" ", call.start),
            Part::Labelled(" ", call.point),
            Part::Labelled(" ", call.finish),
            Part::Text(answer_word(call.answer)),
            Part::Text("\n"),
        ]);
    }

    // A turn of a call that waited.
    #[tactic(auto, unfolding(crate::specs::Print::wait_text))]
    pub fn print_wait(&mut self, wait: Wait)
        ensures { Prints (wait_text wait) self.old self.new }
    {
        self.print_parts(&[
            Part::Labelled("wait ", wait.time),
            Part::Labelled(" ", wait.node),
            Part::Labelled(" ", wait.worker),
            Part::Text("\n"),
        ]);
    }

    #[tactic(auto, using(crate::proofs::PrintLaws::prints_none))]
    pub fn print_roll(&mut self, keys: &[u16])
        ensures { Prints (roll_text keys.now) self.old self.new }
    {
        self.print_text("roll");
        for key in keys {
            self.print_part(Part::Labelled(" ", *key));
        }
        self.print_text("\n");
    }

    #[tactic(auto, using(crate::proofs::PrintLaws::prints_none))]
    fn print_parts(&mut self, parts: &[Part])
        ensures { Prints (flat_map part_text parts.now) self.old self.new }
    {
        for part in parts {
            self.print_part(*part);
        }
    }

    fn print_part(&mut self, part: Part)
        ensures { Prints (part_text part.entry) self.old self.new }
    {
        match part {
            Part::Text(text) => self.print_text(text),
            Part::Labelled(text, n) => {
                self.print_text(text);
                self.print_number(n);
            }
        }
    }

    #[tactic(auto, using(crate::proofs::DigitLaws::decimal_is))]
    fn print_number(&mut self, n: u16)
        ensures { Prints (decimal n) self.old self.new }
    {
        self.print_text(itoa::Buffer::new().format(n));
    }

    fn print_text(&mut self, text: &str)
        ensures { Prints text.now self.old self.new }
    {
        for byte in text.as_bytes() {
            if self.len < self.bytes.len() {
                self.bytes[self.len] = *byte;
                self.len += 1;
            }
        }
    }
}

#[tactic(auto, unfolding(crate::specs::Print::operation_text))]
fn operation_word(operation: u16) -> &'static str
    ensures { result.now ≡ operation_text operation }
{
    match operation {
        Worker::ADD => " add",
        Worker::REMOVE => " remove",
        _ => " contains",
    }
}

#[tactic(auto, unfolding(crate::specs::Print::answer_text))]
fn answer_word(answer: u16) -> &'static str
    ensures { result.now ≡ answer_text answer }
{
    if answer == 0 {
        return " open";
    }
    match Answer::from(answer) {
        Answer::Yes => " yes",
        Answer::No => " no",
        Answer::Full => " full",
    }
}
