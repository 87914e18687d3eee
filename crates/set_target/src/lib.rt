// Set target: document 01, "Set target (part, state, content)".
#![tactic(auto)]

ghost use Rattle.std.specs.Prelude.{◌≡◌, length};
ghost use Rattle.std.proofs.Math.Option.{none};
ghost use Rattle.xliff.specs.Parse.{content_fault};
ghost use Rattle.xliff.specs.SetTarget.{set_target};
ghost use Rattle.outcomes.specs.Outcomes.{Answers};
ghost use Rattle.part_at.specs.Stands.{Standing};
ghost use Rattle.set_target.specs.Ending.{SetAt, Ended};
ghost use Rattle.set_target.specs.Stages.{OldHeld, StateFits, Fitting};

use answers::Answer;
use limits::MOST_BYTES;
use part_at::PartPlace;

// 15, 6 to 10, then the bytes. The rules are judged on the result, which stands in `work` until no refusal is left.
fn set_ended(
    table: &[u8],
    place: PartPlace,
    order: u16,
    state: u8,
    content: &[u8],
    out: &mut [u8],
) -> Answer
    requires { SetAt table.now place state content.now }
    ensures { Ended table.now place order state content.now result out.old out.new }
{
    if set_result::is_too_large(table, place, content, out.len()) {
        return Answer::Refused(15, 0);
    }
    // Fixed memory: array and length live in this function alone, and are one slice for all that reads them.
    let mut work = [0u8; MOST_BYTES];
    let n = set_result::put_set(&mut work, table, place, order, state, content);
    if let Some(k) = result_rules::rules_6_to_10(&work[..n]) {
        return Answer::Refused(k, 0);
    }
    Answer::Accepted(writer::put(out, &work[..n]))
}

// The old content: the target's, without target the source's.
fn old_content(table: &[u8], place: PartPlace) -> &[u8]
    requires { Standing table.now place }
    ensures { OldHeld table.now place result.now }
{
    if place.has_target() {
        return place.target_of(table);
    }
    place.source_of(table)
}

// 18 and 19, then the rest.
fn set_content(
    table: &[u8],
    n: u16,
    place: PartPlace,
    state: u8,
    content: &[u8],
    out: &mut [u8],
) -> Answer
    requires { Fitting table.now n place state × (content_fault content.now ≡ none) }
    ensures { Answers (set_target table.now n state content.now (length out.old)) result out.old out.new }
{
    let old = old_content(table, place);
    if codes::kept::is_lost(old, content) {
        return Answer::Refused(18, 0);
    }
    if codes::chains::differs(old, content) {
        return Answer::Refused(19, 0);
    }
    let order = target_order::new_order(table, n, place);
    set_ended(table, place, order, state, content, out)
}

// Whether the state fits the part: a segment has one, an ignorable none.
// The letters of `table::state_letter`, which is private there: this is the operation's own definition.
fn state_fits(place: PartPlace, state: u8) -> bool
    ensures { StateFits place state result }
{
    if place.segment {
        return (state == b'I') | ((state == b'T') | ((state == b'R') | (state == b'F')));
    }
    state == b'-'
}

// Accepted: the output's first bytes are the table with the target set, the rest is unchanged. Refused: the whole
// output is unchanged.
pub fn set_target(table: &[u8], part: u16, state: u8, content: &[u8], out: &mut [u8]) -> Answer
    ensures { Answers (set_target table.now part state content.now (length out.old)) result out.old out.new }
{
    let checked = table_check::check(table);
    let Answer::Accepted(_) = checked else {
        return checked;
    };
    let Some(place) = part_at::part_at(table, usize::from(part)) else {
        return Answer::Refused(11, 0);
    };
    if !state_fits(place, state) {
        return Answer::Refused(2, 0);
    }
    // The content's own numbers, with their place in it.
    // No let-else: the edit place_in_content plants a wrong place in the refusal's arm.
    match syntax::content(content) {
        Answer::Accepted(_) => set_content(table, part, place, state, content, out),
        Answer::Refused(number, at) => Answer::Refused(number, at),
    }
}
