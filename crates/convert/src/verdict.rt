// What refuses a conversion.
ghost use Rattle.std.specs.Prelude.{◌≡◌, [], not, IfOk};
ghost use Rattle.words.specs.Replies.{no_values, reply, replied};
ghost use Rattle.convert.specs.Convert.{any_above, conversion_refusals};
ghost use Rattle.convert.specs.Members.{IsEmpty, AllGathered};

use crate::layouts;
use crate::members::Members;
use crate::source::Source;
use worker::{Refusal, Worker};

// Behind the header test. Where nothing refuses, all nodes of the set have been gathered.
#[tactic(auto, unfolding(crate::specs::Convert::conversion_refusals))]
pub(crate) fn judge(source: Source, members: &mut Members, room: usize) -> Result<(), Refusal>
    requires { IsEmpty members.old × (source.has_lengths ≡ not members.old.lengthening) }
    ensures answer { reply no_values result ≡ replied (conversion_refusals members.old.lengthening source.entry.words.now members.old.lengths.now room) [] }
    ensures members { IfOk result (λ done. AllGathered members.old.lengthening source.entry.words.now members.old.lengths.now members.new) }
{
    if any_above(source, Worker::LAST_STAGE) {
        return Err(Refusal::BrokenRecord);
    }
    if any_above(source, Worker::IDLE_STAGE) {
        return Err(Refusal::Busy);
    }
    members.gather(source)?;
    let total = layouts::total(members.lengthening, source.worker_count(), source.count);
    if (room < total) | (members.lengthening & (members.lengths.len() < source.count as usize)) {
        return Err(Refusal::NoRoom);
    }
    if !members.fit {
        return Err(Refusal::BadCall);
    }
    Ok(())
}

// Whether some worker is at a stage above this one.
fn any_above(source: Source, stage: u16) -> bool
    ensures { result ≡ any_above source.entry.words.now stage }
{
    for number in 0..source.worker_count() {
        if stage < source.stage(number) {
            return true;
        }
    }
    false
}
