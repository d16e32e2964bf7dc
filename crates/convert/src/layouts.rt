// What differs by layout: 2, and 1, in which a node has no length and the header no count.
ghost use Rattle.std.specs.Prelude.{◌≡◌};
ghost use Rattle.convert.specs.Layouts.{number, width, total_words, has_header};

use words::{is_header, is_old_header, layout};

pub(crate) fn number(has_lengths: bool) -> u16
    ensures { result ≡ number has_lengths }
{
    if has_lengths {
        layout::LAYOUT_2
    } else {
        layout::LAYOUT_1
    }
}

// Words of a node record.
pub(crate) fn width(has_lengths: bool) -> u16
    ensures { result ≡ width has_lengths }
{
    if has_lengths {
        layout::NODE_WIDTH
    } else {
        layout::OLD_NODE_WIDTH
    }
}

// Words of an arena.
pub(crate) fn total(has_lengths: bool, workers: u16, nodes: u16) -> usize
    ensures { result ≡ total_words has_lengths workers nodes }
{
    layout::worker_from(workers) + layout::span(width(has_lengths), nodes)
}

// Whether the first words are a header of this layout, and in order.
pub(crate) fn has_header(has_lengths: bool, words: &[u16]) -> bool
    ensures { result ≡ has_header has_lengths words.now }
{
    if has_lengths {
        is_header(words)
    } else {
        is_old_header(words)
    }
}
