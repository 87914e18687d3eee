// The review sheet of a table: order 5.
#![tactic(auto)]

ghost use Rattle.std.specs.Prelude.{◌≡◌, length};
ghost use Rattle.std.proofs.Math.Option.{none};
ghost use Rattle.xliff.specs.Check.{table_refusal};
ghost use Rattle.outcomes.specs.Outcomes.{Answers};
ghost use Rattle.sheet.specs.Sheet.{sheet};

use answers::Answer;
use draft::Draft;

// 15, then the sheet. It is measured before a byte of it is written. The three texts (XML, sheet, view) do so each by
// itself: the must-fail edit `not_written` of each changes its own second walk.
fn sheet_passed(table: &[u8], out: &mut [u8]) -> Answer
    requires { table_refusal table.now ≡ none }
    ensures { Answers (sheet table.now (length out.old)) result out.old out.new }
{
    let mut measured = Draft::begin(out, true);
    sheet_rows::put_sheet(&mut measured, table);
    if measured.is_full() {
        return Answer::Refused(15, 0);
    }
    let mut written = Draft::begin(out, false);
    sheet_rows::put_sheet(&mut written, table);
    Answer::Accepted(written.used())
}

// Accepted: the output's first bytes are the review sheet, the rest is unchanged. Refused: the whole output is
// unchanged.
pub fn sheet(table: &[u8], out: &mut [u8]) -> Answer
    ensures { Answers (sheet table.now (length out.old)) result out.old out.new }
{
    let checked = table_check::check(table);
    let Answer::Accepted(_) = checked else {
        return checked;
    };
    sheet_passed(table, out)
}
