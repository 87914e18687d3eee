// Remove target: document 01, "Remove target (part)".
#![tactic(auto)]

ghost use Rattle.std.specs.Prelude.{length};
ghost use Rattle.xliff.specs.RemoveTarget.{remove_target};
ghost use Rattle.part_at.specs.Stands.{Checked};
ghost use Rattle.outcomes.specs.Outcomes.{Answers};
ghost use Rattle.remove_target.specs.Ending.{Ended};

use answers::Answer;
use limits::MOST_BYTES;
use part_at::PartPlace;

// 15, 7 and 9, then the bytes. The rules are judged on the result, which stands in `work` until no refusal is left.
fn remove_ended(table: &[u8], place: PartPlace, out: &mut [u8]) -> Answer
    requires { Checked table.now place }
    ensures { Ended table.now place result out.old out.new }
{
    // Fixed memory: array and length live in this function alone, and are one slice for all that reads them.
    let mut work = [0u8; MOST_BYTES];
    let n = removed_target::put_removed(&mut work, table, place);
    if out.len() < n {
        return Answer::Refused(15, 0);
    }
    if let Some(k) = result_rules::rules_7_and_9(&work[..n]) {
        return Answer::Refused(k, 0);
    }
    Answer::Accepted(writer::put(out, &work[..n]))
}

// Accepted: the output's first bytes are the table without the target, the rest is unchanged. Refused: the whole output
// is unchanged.
pub fn remove_target(table: &[u8], part: u16, out: &mut [u8]) -> Answer
    ensures { Answers (remove_target table.now part (length out.old)) result out.old out.new }
{
    let checked = table_check::check(table);
    let Answer::Accepted(_) = checked else {
        return checked;
    };
    let Some(place) = part_at::part_at(table, usize::from(part)) else {
        return Answer::Refused(11, 0);
    };
    if !place.has_target() {
        return Answer::Refused(20, 0);
    }
    remove_ended(table, place, out)
}
