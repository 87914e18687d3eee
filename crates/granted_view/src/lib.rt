// The view of a table: document 02, order 6.
#![tactic(auto)]

ghost use Rattle.std.specs.Prelude.{◌≡◌, length};
ghost use Rattle.std.proofs.Math.Option.{none};
ghost use Rattle.xliff.specs.Encode.{encode};
ghost use Rattle.xliff.specs.Parse.{unit};
ghost use Rattle.xliff.specs.Check.{table_refusal};
ghost use Rattle.xliff.specs.Good.{bytes_of};
ghost use Rattle.places.specs.Passes.{Passes};
ghost use Rattle.outcomes.specs.Outcomes.{Answers};
ghost use Rattle.heads.specs.Heads.{SomeHead};
ghost use Rattle.part_at.specs.Stands.{Standing};
ghost use Rattle.draft.specs.Drafts.{Wrote};
ghost use Rattle.grants.specs.View.{view_parts, view_unit, view};
ghost use Rattle.granted_parts.specs.Roles.{grant_of};
ghost use Rattle.granted_view.specs.Shown.{PutHead, PutPart};

use answers::Answer;
use draft::Draft;
use granted_parts::{Grant, Role};
use marks::SEGMENT_WIDTH;
use part_at::PartPlace;

// The head of a part outside the grant: a segment's state is shown as I.
// The head's array and how much of it is used: fixed memory.
fn put_head(draft: &mut Draft, head: &[u8])
    requires { SomeHead head.now }
    ensures { PutHead head.now draft.old draft.new }
{
    let mut shown = [0u8; SEGMENT_WIDTH];
    let n = heads::put_with_state(&mut shown, head, b'I');
    draft.put(&shown[..n]);
}

// The part at `place` as the view shows it: whole within the grant, else without its target.
fn put_part(draft: &mut Draft, t: &[u8], place: PartPlace, inside: bool)
    requires { Standing t.now place }
    ensures { PutPart inside t.now place draft.old draft.new }
{
    let head = place.head;
    let source = place.source;
    let target = place.target;
    let end = place.end;
    if inside {
        draft.put(&t[head..end]);
    } else {
        put_head(draft, &t[head..source]);
        draft.put(&t[source..target]);
    }
}

// The parts of a table, one after the other. A role and its positions stay two parameters, as the operation has them.
fn put_parts(draft: &mut Draft, t: &[u8], role: Role, positions: &[u8])
    requires { Passes t.now }
    ensures { Wrote (bytes_of (view_parts (grant_of role positions.now) 1 (unit t.now).parts)) draft.old draft.new }
{
    let mut at = marks::UNIT_WIDTH;
    let mut n: usize = 1;
    // A loop over an offset: the lent table is read record by record through the walker.
    while part_at::starts_part(t, at) {
        let place = part_at::part_from(t, at);
        let inside = Grant { role, positions }.has_part(n);
        put_part(draft, t, place, inside);
        at = place.end;
        n += 1;
    }
}

// The view of a table that passed the check: its opening, its parts as they are shown, its end.
fn put_view(draft: &mut Draft, t: &[u8], role: Role, positions: &[u8])
    requires { Passes t.now }
    ensures { Wrote (encode (view_unit (grant_of role positions.now) (unit t.now))) draft.old draft.new }
{
    draft.put(&t[..marks::UNIT_WIDTH]);
    put_parts(draft, t, role, positions);
    draft.put(b"UE");
}

// 15, then the view. It is measured before a byte of it is written. The three texts (XML, sheet, view) do so each by
// itself: the must-fail edit `not_written` of each changes its own second walk.
fn view_passed(role: Role, positions: &[u8], table: &[u8], out: &mut [u8]) -> Answer
    requires { table_refusal table.now ≡ none }
    ensures { Answers (view table.now (grant_of role positions.now) (length out.old)) result out.old out.new }
{
    let mut measured = Draft::begin(out, true);
    put_view(&mut measured, table, role, positions);
    if measured.is_full() {
        return Answer::Refused(15, 0);
    }
    let mut written = Draft::begin(out, false);
    put_view(&mut written, table, role, positions);
    Answer::Accepted(written.used())
}

// The table as a role with these positions sees it. Accepted: the output's first bytes are the view, the rest is
// unchanged. Refused: the whole output is unchanged.
pub fn view(role: Role, positions: &[u8], table: &[u8], out: &mut [u8]) -> Answer
    ensures { Answers (view table.now (grant_of role positions.now) (length out.old)) result out.old out.new }
{
    let checked = table_check::check(table);
    let Answer::Accepted(_) = checked else {
        return checked;
    };
    view_passed(role, positions, table, out)
}
