// A unit written as XML: order 1.
#![tactic(auto)]

ghost use Rattle.std.specs.Prelude.{◌≡◌, length};
ghost use Rattle.std.proofs.Math.Option.{none};
ghost use Rattle.xliff.specs.Check.{table_refusal};
ghost use Rattle.outcomes.specs.Outcomes.{Answers};
ghost use Rattle.xml.specs.Xml.{write_xml};

use answers::Answer;
use draft::Draft;

// 22, 15, then the text. It is measured before a byte of it is written. The three texts (XML, sheet, view) do so each by
// itself: the must-fail edit `not_written` of each changes its own second walk.
fn write_passed(table: &[u8], out: &mut [u8]) -> Answer
    requires { table_refusal table.now ≡ none }
    ensures { Answers (write_xml table.now (length out.old)) result out.old out.new }
{
    if xml_nesting::too_deep(table) {
        return Answer::Refused(22, 0);
    }
    let mut measured = Draft::begin(out, true);
    xml_writer::put_unit(&mut measured, table);
    if measured.is_full() {
        return Answer::Refused(15, 0);
    }
    let mut written = Draft::begin(out, false);
    xml_writer::put_unit(&mut written, table);
    Answer::Accepted(written.used())
}

// Accepted: the output's first bytes are the unit as XML, the rest is unchanged. Refused: the whole output is unchanged.
pub fn write_xml(table: &[u8], out: &mut [u8]) -> Answer
    ensures { Answers (write_xml table.now (length out.old)) result out.old out.new }
{
    let checked = table_check::check(table);
    let Answer::Accepted(_) = checked else {
        return checked;
    };
    write_passed(table, out)
}
