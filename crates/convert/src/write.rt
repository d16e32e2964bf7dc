// A converted arena, written into words that have room for it.
ghost use Rattle.std.specs.Prelude.{◌+◌, ◌≡◌, ◌≤◌, ◌*◌, not, length};
ghost use Rattle.std.proofs.lemmas.List.Edits.{sets};
ghost use Rattle.words.specs.Layout.{slot, workers_of, nodes_of};
ghost use Rattle.words.specs.Flat.{flat_words};
ghost use Rattle.arena.specs.Lists.{numbers_from};
ghost use Rattle.convert.specs.Layouts.{first_words, total_words, arena_node};
ghost use Rattle.convert.specs.Convert.{converted};
ghost use Rattle.convert.specs.Members.{AllGathered, with_front, node_by};

use crate::layouts;
use crate::members::Members;
use crate::source::Source;
use arena::NodeRecords;
use words::layout;
use worker::Node;

pub(crate) fn write_converted(source: Source, members: &Members, target: &mut [u16])
    requires other { source.has_lengths ≡ not members.now.lengthening }
    requires room { total_words members.now.lengthening (workers_of source.words.now) (nodes_of source.words.now) ≤ length target.old }
    requires members { AllGathered members.now.lengthening source.words.now members.now.lengths.now members.now }
    ensures { target.new ≡ sets target.old 0 (converted members.now.lengthening source.entry.words.now members.now.lengths.now) }
{
    let from = layout::worker_from(source.worker_count());
    let end = layouts::total(members.lengthening, source.worker_count(), source.count);
    write_front(
        &mut target[..from],
        &source.words[..from],
        layouts::number(members.lengthening),
        end as u16,
        members.new_count(),
    );
    write_nodes(
        &mut target[from..end],
        layouts::width(members.lengthening),
        source,
        members,
    );
}

// Header and worker records, copied but for layout, total and count.
fn write_front(front: &mut [u16], old_front: &[u16], layout: u16, total: u16, stored: u16)
    requires { (8 ≤ length old_front.now) × (length old_front.now ≡ length front.old) }
    ensures { front.new ≡ with_front old_front.now layout total stored }
{
    front.copy_from_slice(old_front);
    front[layout::LAYOUT_AT] = layout;
    front[layout::TOTAL_AT] = total;
    front[layout::STORED_AT] = stored;
}

// The node records, each copied but for its length.
fn write_nodes(target: &mut [u16], width: u16, source: Source, members: &Members)
    requires { (4 ≤ width) × (width ≤ 5) × (length target.old ≡ width * source.count) }
    ensures { target.new ≡ flat_words (node_by width (arena_node source.entry.has_lengths source.entry.words.now) members.now) (numbers_from 0 source.entry.count) }
{
    for number in 0..source.count {
        let length = members.length_of(number);
        let node = source.get(number);
        write_node(target, width, number, Node { length, ..node });
    }
}

// A node: as many of its fields as there are words for them.
fn write_node(nodes: &mut [u16], width: u16, number: u16, node: Node)
    requires { (4 ≤ width) × (width ≤ 5) × (slot width number width ≤ length nodes.old) }
    ensures { nodes.new ≡ sets nodes.old (slot width number 0) (first_words width node) }
{
    let at = layout::span(width, number);
    nodes[at] = node.key;
    nodes[at + 1] = node.next;
    nodes[at + 2] = node.mark;
    nodes[at + 3] = node.owner;
    if layout::OLD_NODE_WIDTH < width {
        nodes[at + 4] = node.length;
    }
}
