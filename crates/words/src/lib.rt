// The words of an arena (document 01: board): read and written whatever the place, since past the end a read gives 0 and a write does
// nothing. `layout` says where the records stand, `records` reads and writes them, and `Arena` is what the header test lets through. The words
// of a schedule and of a history are records one behind the other: `flat`.
#![tactic(auto)]

ghost use Rattle.std.specs.Prelude.{◌≡◌, length, replicate, set};
ghost use Rattle.std.proofs.lemmas.List.Edits.{sets};
ghost use Rattle.words.specs.Layout.{word};

mod entry;
pub mod flat;
mod header;
pub mod layout;
pub mod records;

pub use entry::Entry;
pub use header::{Arena, is_header, is_old_header, is_short};
pub use records::Nodes;

pub fn word(words: &[u16], at: usize) -> u16
    ensures { result ≡ word words.now at }
{
    if at < words.len() { words[at] } else { 0 }
}

pub fn put(words: &mut [u16], at: usize, value: u16)
    ensures { words.new ≡ set words.old at value }
{
    if at < words.len() {
        words[at] = value;
    }
}

// The values from a place on, as many as there is room for; so one by one, and not by `copy_from_slice`.
#[tactic(auto, using(crate::proofs::Runs::sets_out))]
pub fn write(words: &mut [u16], at: usize, values: &[u16])
    ensures { words.new ≡ sets words.old at values.now }
{
    if words.len() <= at {
        return;
    }
    for (i, value) in values.iter().enumerate() {
        put(words, at + i, *value);
    }
}

// Zeros in every word. Not by `fill`, which is not compiled to one call that clears memory: init took a quarter longer with it.
pub fn clear(words: &mut [u16])
    ensures { words.new ≡ replicate (length words.old) 0 }
{
    for word in words.iter_mut() {
        *word = 0;
    }
}
