// Runs what the starred cases leave out: the limits of the counts, damaged headers, records and chains, a turn at each stage, nodes used again,
// lengths, the longest run of free cells, the count of stored labels, arenas converted, and old arenas refused. What it prints is held to the
// stored output, which was worked out from documents 01 and 02.
#![tactic(auto)]

mod calls;
mod circles;
mod conversions;
mod counts;
mod damage;
mod free_runs;
mod fresh;
mod labels;
mod old_layout;
mod print;
mod reuse;
mod snapshots;
mod starts;

use print::Out;
use std::fmt;

fn main() {
    // it cannot fail, as no write to `Out` does
    let _ = all(&mut Out);
}

fn all(out: &mut Out) -> fmt::Result {
    starts::inits(out)?;
    starts::headers(out)?;
    starts::records(out)?;
    snapshots::chains(out)?;
    snapshots::breaks(out)?;
    snapshots::longer(out)?;
    snapshots::marks(out)?;
    snapshots::half_removed(out)?;
    circles::arenas(out)?;
    damage::stages(out)?;
    damage::refusals(out)?;
    circles::hunts(out)?;
    circles::searches(out)?;
    reuse::stood_on(out)?;
    reuse::led_to(out)?;
    labels::lengths(out)?;
    labels::carried(out)?;
    labels::taken_again(out)?;
    labels::chained(out)?;
    labels::written(out)?;
    free_runs::one_label(out)?;
    free_runs::more_labels(out)?;
    free_runs::refusals(out)?;
    counts::kept(out)?;
    counts::ends(out)?;
    counts::told(out)?;
    conversions::renewed(out)?;
    conversions::there_and_back(out)?;
    conversions::refusals(out)?;
    old_layout::refused(out)?;
    old_layout::counts(out)?;
    old_layout::headers(out)
}
