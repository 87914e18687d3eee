// Join: document 01, "Join (part, with the next)".
#![tactic(auto)]

ghost use Rattle.std.specs.Prelude.{length};
ghost use Rattle.xliff.specs.Join.{join};
ghost use Rattle.outcomes.specs.Outcomes.{Answers};
ghost use Rattle.join.specs.Pair.{PairAt, Ended, PairAnswers};

use answers::Answer;
use limits::MOST_BYTES;
use part_at::PartPlace;

// 17, 15, then the bytes. Rule 7 is judged on the result, which stands in `work` until no refusal is left.
fn join_ended(table: &[u8], x: PartPlace, y: PartPlace, out: &mut [u8]) -> Answer
    requires { PairAt table.now x y }
    ensures { Ended table.now x y result out.old out.new }
{
    // Fixed memory: array and length live in this function alone, and are one slice for all that reads them.
    let mut work = [0u8; MOST_BYTES];
    let n = join_result::put_join(&mut work, table, x, y);
    if result_rules::breaks_7(&work[..n]) {
        return Answer::Refused(17, 0);
    }
    if out.len() < n {
        return Answer::Refused(15, 0);
    }
    Answer::Accepted(writer::put(out, &work[..n]))
}

// 12 and 16, then the rest.
fn join_pair(table: &[u8], x: PartPlace, y: PartPlace, out: &mut [u8]) -> Answer
    requires { PairAt table.now x y }
    ensures { PairAnswers table.now x y result out.old out.new }
{
    if part_refusals::is_closed(table, x) {
        return Answer::Refused(12, 0);
    }
    if part_refusals::is_closed(table, y) {
        return Answer::Refused(12, 0);
    }
    if part_refusals::bad_orders(x, y) {
        return Answer::Refused(16, 0);
    }
    join_ended(table, x, y, out)
}

// Accepted: the output's first bytes are the joined table, the rest is unchanged. Refused: the whole output is
// unchanged.
pub fn join(table: &[u8], part: u16, out: &mut [u8]) -> Answer
    ensures { Answers (join table.now part (length out.old)) result out.old out.new }
{
    let checked = table_check::check(table);
    let Answer::Accepted(_) = checked else {
        return checked;
    };
    let n = usize::from(part);
    let Some(x) = part_at::part_at(table, n) else {
        return Answer::Refused(11, 0);
    };
    let Some(y) = part_at::part_at(table, n + 1) else {
        return Answer::Refused(11, 0);
    };
    join_pair(table, x, y, out)
}
