// The arena that is converted, behind the header test of its layout.
ghost use Rattle.std.specs.Prelude.{◌≡◌, ◌*◌, [], length, IfOk};
ghost use Rattle.words.specs.Layout.{workers_of, nodes_of, node_part};
ghost use Rattle.words.specs.Records.{worker_at};
ghost use Rattle.words.specs.Replies.{accepted, no_values, reply, replied};
ghost use Rattle.convert.specs.Layouts.{width, part_node, layout_refusals};

use crate::layouts;
use arena::NodeRecords;
use words::{is_short, layout, records, word};
use worker::{Node, Refusal};

// Lent words that are in order, and whether nodes have lengths there, as in layout 2; its node records, and how many there are.
#[derive(Clone, Copy)]
pub(crate) struct Source<'a> {
    pub(crate) words: &'a [u16],
    pub(crate) has_lengths: bool,
    nodes: &'a [u16],
    pub(crate) count: u16,
    ghost tested: { accepted [] ≡ replied (layout_refusals has_lengths words.now) [] },
    ghost part: { (nodes.now ≡ node_part words.now) × (count ≡ nodes_of words.now) },
    ghost spans: { length nodes.now ≡ width has_lengths * count },
}

impl<'a> Source<'a> {
    #[tactic(auto, unfolding(crate::specs::Layouts::layout_refusals))]
    pub(crate) fn new(has_lengths: bool, words: &'a [u16]) -> Result<Source<'a>, Refusal>
        ensures answer { reply no_values result ≡ replied (layout_refusals has_lengths words.now) [] }
        ensures same { IfOk result (λ source. (source.words.now ≡ words.now) × (source.has_lengths ≡ has_lengths)) }
    {
        if is_short(words) {
            return Err(Refusal::ShortArena);
        }
        if !layouts::has_header(has_lengths, words) {
            return Err(Refusal::OddHeader);
        }
        let from = word(words, layout::NODES_FROM_AT) as usize;
        let total = word(words, layout::TOTAL_AT) as usize;
        Ok(Source {
            words,
            has_lengths,
            nodes: &words[from..total],
            count: word(words, layout::NODES_AT),
        })
    }

    // W.
    pub(crate) fn worker_count(self) -> u16
        ensures { result ≡ workers_of self.entry.words.now }
    {
        word(self.words, layout::WORKERS_AT)
    }

    // Of a worker, where nothing else of its record is asked for.
    #[tactic(auto, unfolding(words::specs::Records::worker_at))]
    pub(crate) fn stage(self, number: u16) -> u16
        ensures { result ≡ (worker_at self.entry.words.now number).stage }
    {
        records::worker_field(self.words, number, layout::WORKER_STAGE)
    }
}

impl<'a> NodeRecords for Source<'a> {
    ghost nodes = { λ source. part_node source.has_lengths source.nodes.now };

    ghost count = { λ source. source.count };

    #[tactic(auto, using(crate::proofs::NodeRecords::not_found))]
    fn get(self, node: u16) -> Node {
        self.find(node).unwrap_or(Node::unused())
    }

    // In layout 1 a node has no length. Its words are there, so no index is tested.
    #[tactic(auto, unfolding(crate::specs::Layouts::part_node), using(words::proofs::Slots::words_within))]
    fn find(self, node: u16) -> Option<Node> {
        if self.count <= node {
            return None;
        }
        let at = layout::span(layouts::width(self.has_lengths), node);
        Some(Node {
            key: self.nodes[at],
            next: self.nodes[at + 1],
            mark: self.nodes[at + 2],
            owner: self.nodes[at + 3],
            length: if self.has_lengths {
                self.nodes[at + 4]
            } else {
                0
            },
        })
    }
}
