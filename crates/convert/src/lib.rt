// Old boards to new and back (document 02, A7): an arena at rest is written into other words in the other layout.
#![tactic(auto)]

ghost use Rattle.std.specs.Prelude.{◌≡◌, length};
ghost use Rattle.words.specs.Replies.{no_values, reply};
ghost use Rattle.convert.specs.Convert.{convert_answer, convert_target, to_layout_2_answer, to_layout_2_target, to_layout_1_answer, to_layout_1_target};

use members::Members;
use source::Source;
use worker::Refusal;

mod layouts;
mod members;
mod source;
mod verdict;
mod write;

// Writes an arena of layout 1 in layout 2. `lengths` has one for each node number, which is used for the nodes of the set; words of the target
// past its total stay.
pub fn to_layout_2(source: &[u16], lengths: &[u16], target: &mut [u16]) -> Result<(), Refusal>
    ensures answer { reply no_values result ≡ to_layout_2_answer source.now lengths.now (length target.old) }
    ensures words { target.new ≡ to_layout_2_target source.now lengths.now target.old }
{
    convert(true, source, lengths, target)
}

// And one of layout 2 in layout 1, where each stored label is 1 cell long.
pub fn to_layout_1(source: &[u16], target: &mut [u16]) -> Result<(), Refusal>
    ensures answer { reply no_values result ≡ to_layout_1_answer source.now (length target.old) }
    ensures words { target.new ≡ to_layout_1_target source.now target.old }
{
    convert(false, source, &[], target)
}

// To layout 2, or back. Everything is judged before anything is written.
#[tactic(auto, unfolding(crate::specs::Convert::convert_answer, crate::specs::Convert::convert_target, crate::specs::Convert::convert_refusals), using(words::proofs::Judged::refused_first, words::proofs::Judged::accepted_first, words::proofs::Judged::judged_refused, words::proofs::Judged::judged_accepted))]
fn convert(
    lengthening: bool,
    source: &[u16],
    lengths: &[u16],
    target: &mut [u16],
) -> Result<(), Refusal>
    ensures answer { reply no_values result ≡ convert_answer lengthening source.now lengths.now (length target.old) }
    ensures words { target.new ≡ convert_target lengthening source.now lengths.now target.old }
{
    let source = Source::new(!lengthening, source)?;
    let mut members = Members::new(lengthening, lengths);
    verdict::judge(source, &mut members, target.len())?;
    write::write_converted(source, &members, target);
    Ok(())
}
