// Where a long label fits: the longest run of cells that lie in no label of a set (document 02, A5).
#![tactic(auto)]

ghost use Rattle.std.specs.Prelude.{◌≡◌};
ghost use Rattle.words.specs.Records.{node_at};
ghost use Rattle.words.specs.Replies.{reply, replied};
ghost use Rattle.arena.specs.Sets.{chain_labels};
ghost use Rattle.free_cells.specs.Search.{longest_free};
ghost use Rattle.free_cells.specs.LongestFreeRun.{run_values, cells_refusals, longest_free_run_answer};

use arena::visit_labels;
use search::Search;
use words::{Arena, Nodes};
use worker::Refusal;

mod search;

// A run of cells: its first, and how many they are; 0 and 0 where there is none.
#[derive(Clone, Copy, Debug, PartialEq, Eq, Hash)]
pub struct FreeRun {
    pub first: u16,
    pub length: u16,
}

// The longest run of cells from 1 to the last one that lie in no label of the set; of equal ones the one that begins lowest.
pub fn longest_free_run(arena: &[u16], last_cell: u16) -> Result<FreeRun, Refusal>
    ensures { reply run_values result ≡ longest_free_run_answer arena.now last_cell }
{
    longest_run(Arena::new(arena)?.nodes(), last_cell)
}

// Behind the header test.
#[tactic(auto, unfolding(crate::specs::LongestFreeRun::cells_refusals, crate::specs::Search::longest_free))]
fn longest_run(nodes: Nodes, last_cell: u16) -> Result<FreeRun, Refusal>
    ensures { reply run_values result ≡ replied
        (cells_refusals (node_at nodes.entry.words.now) nodes.entry.count last_cell)
        (run_values (longest_free (chain_labels (node_at nodes.entry.words.now) nodes.entry.count) last_cell)) }
{
    if !(1..=65_534).contains(&last_cell) {
        return Err(Refusal::BadCall);
    }
    let mut search = Search::new(last_cell + 1);
    visit_labels(nodes, &mut search)?;
    Ok(search.found())
}
