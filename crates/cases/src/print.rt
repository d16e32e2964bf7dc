// Lines of output: what was replied, words.
use free_cells::FreeRun;
use lazy::Found;
use std::fmt;
use std::fmt::Write;
use std::ops::Range;
use worker::{Answer, Refusal, Report};

// Standard output, by the crate io: std's own rests on two more functions of C's library.
#[derive(Drop)]
pub struct Out;

impl fmt::Write for Out {
    fn write_str(&mut self, text: &str) -> fmt::Result {
        io::write_all(1, text.as_bytes());
        Ok(())
    }
}

// A line: a text, and what was replied behind the mark of its kind.
pub fn show<T: Given>(out: &mut Out, text: &str, reply: Result<T, Refusal>) -> fmt::Result {
    writeln!(out, "{text}{}{}", T::mark(), Reply(reply))
}

// A line: a text, and words.
pub fn show_words(out: &mut Out, text: &str, words: &[u16]) -> fmt::Result {
    writeln!(out, "{text}{}", Words(words))
}

// The same of some of the words, or of none where they are not all there.
pub fn show_part(out: &mut Out, text: &str, words: &[u16], part: Range<usize>) -> fmt::Result {
    show_words(out, text, words.get(part).unwrap_or(&[]))
}

// A text, the reply to a snapshot, and below it the words lent for its keys.
pub fn show_keys(
    out: &mut Out,
    text: &str,
    count: Result<u16, Refusal>,
    lent: &[u16],
) -> fmt::Result {
    show(out, text, count)?;
    show_words(out, "  lent words:", lent)
}

// Words in a row, each behind a space.
#[derive(Clone, Copy)]
pub struct Words<'a>(pub &'a [u16]);

impl fmt::Display for Words<'_> {
    fn fmt<W: fmt::Write>(&self, f: &mut fmt::Formatter<W>) -> fmt::Result {
        for word in self.0 {
            write!(f, " {word}")?;
        }
        Ok(())
    }
}

// The number of a refusal, or what was asked for.
#[derive(Clone, Copy)]
pub struct Reply<T>(pub Result<T, Refusal>);

impl<T: Given> fmt::Display for Reply<T> {
    fn fmt<W: fmt::Write>(&self, f: &mut fmt::Formatter<W>) -> fmt::Result {
        match &self.0 {
            Ok(given) => given.print(f),
            Err(refusal) => write!(f, "refused {}", u16::from(*refusal)),
        }
    }
}

// What a reply gives that is no refusal.
pub trait Given: Copy {
    fn mark() -> &'static str {
        ": "
    }

    fn print<W: fmt::Write>(&self, f: &mut fmt::Formatter<W>) -> fmt::Result;
}

// An arena laid, or a call started.
impl Given for () {
    fn print<W: fmt::Write>(&self, f: &mut fmt::Formatter<W>) -> fmt::Result {
        f.write_str("accepted")
    }
}

// How many keys a snapshot lists.
impl Given for u16 {
    fn print<W: fmt::Write>(&self, f: &mut fmt::Formatter<W>) -> fmt::Result {
        write!(f, "keys {self}")
    }
}

impl Given for Found {
    fn print<W: fmt::Write>(&self, f: &mut fmt::Formatter<W>) -> fmt::Result {
        match self.free {
            Some(node) => write!(f, "node {node}")?,
            None => f.write_str("none")?,
        }
        write!(f, ", next words read {}", self.reads)
    }
}

impl Given for FreeRun {
    fn print<W: fmt::Write>(&self, f: &mut fmt::Formatter<W>) -> fmt::Result {
        write!(f, "first {}, length {}", self.first, self.length)
    }
}

impl Given for Report {
    fn print<W: fmt::Write>(&self, f: &mut fmt::Formatter<W>) -> fmt::Result {
        match self {
            Report::Idle => f.write_str("idle"),
            Report::Moved(stage) => write!(f, "moved {stage}"),
            Report::Waits(node, worker) => write!(f, "waits {node} {worker}"),
            Report::Finished(answer) => f.write_str(match answer {
                Answer::Yes => "finished yes",
                Answer::No => "finished no",
                Answer::Full => "finished full",
            }),
        }
    }
}
