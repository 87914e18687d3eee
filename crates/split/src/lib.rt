// Split: document 01, "Split (part, source cut, target cut, new id)", with 23 of document 02, order 2.
#![tactic(auto)]

ghost use Rattle.std.specs.Prelude.{length};
ghost use Rattle.xliff.specs.Split.{split};
ghost use Rattle.part_at.specs.Stands.{CheckedPart};
ghost use Rattle.outcomes.specs.Outcomes.{Answers};

use answers::Answer;
use part_at::{Cuts, PartPlace};

// 12, 13, 23, 14, 15, then the bytes: every refusal is decided before the first store.
fn split_there(table: &[u8], n: usize, place: PartPlace, cuts: Cuts, out: &mut [u8]) -> Answer
    requires { CheckedPart table.now n place }
    ensures { Answers (split table.now n cuts.source cuts.target cuts.new_id (length out.old)) result out.old out.new }
{
    if part_refusals::is_closed(table, place) {
        return Answer::Refused(12, 0);
    }
    if split_limits::is_bad_cut(table, place, cuts) {
        return Answer::Refused(13, 0);
    }
    let parted = accents::is_accent_parted(table, place, cuts);
    let taken = part_refusals::is_taken(table, cuts.new_id);
    if parted {
        return Answer::Refused(23, 0);
    }
    if taken {
        return Answer::Refused(14, 0);
    }
    let room = out.len();
    if split_limits::is_too_large(table, n, place, cuts, room) {
        return Answer::Refused(15, 0);
    }
    Answer::Accepted(split_result::put_split(out, table, place, cuts))
}

// Accepted: the output's first bytes are the split table, the rest is unchanged. Refused: the whole output is
// unchanged.
pub fn split(
    table: &[u8],
    part: u16,
    source_cut: u16,
    target_cut: u16,
    new_id: u16,
    out: &mut [u8],
) -> Answer
    ensures { Answers (split table.now part source_cut target_cut new_id (length out.old)) result out.old out.new }
{
    let checked = table_check::check(table);
    let Answer::Accepted(_) = checked else {
        return checked;
    };
    let n = usize::from(part);
    let Some(place) = part_at::part_at(table, n) else {
        return Answer::Refused(11, 0);
    };
    let cuts = Cuts {
        source: usize::from(source_cut),
        target: usize::from(target_cut),
        new_id,
    };
    split_there(table, n, place, cuts, out)
}
