// A unit read from XML: order 1.
#![tactic(auto)]

ghost use Rattle.std.specs.Prelude.{length};
ghost use Rattle.xml.specs.Xml.{read_xml};
ghost use Rattle.outcomes.specs.Outcomes.{Answers};
ghost use Rattle.read_xml.specs.Judging.{Judges};

use answers::Answer;
use limits::MOST_BYTES;
use table_builder::TableBuilder;
use table_check::check;
use xml_unit::read_unit;

// The table that was read: 15, then its check; only then it goes to the output.
fn judged(builder: &TableBuilder, out: &mut [u8]) -> Answer
    ensures { Judges builder.now out.old out.new result }
{
    let Some(table) = builder.table() else {
        return Answer::Refused(15, 0); // beyond a limit
    };
    if out.len() < table.len() {
        return Answer::Refused(15, 0);
    }
    let checked = check(table);
    let Answer::Accepted(_) = checked else {
        return checked;
    };
    Answer::Accepted(writer::put(out, table))
}

// The unit that the text holds, as a table: 22 with its place, then 15, then the check of the table read. Accepted: the
// output's first bytes are the table, the rest is unchanged. Refused: the whole output is unchanged.
pub fn read_xml(xml: &[u8], out: &mut [u8]) -> Answer
    ensures { Answers (read_xml xml.now (length out.old)) result out.old out.new }
{
    let mut table = [0u8; MOST_BYTES];
    let mut builder = TableBuilder::new(&mut table);
    if let Err(blamed) = read_unit(xml, &mut builder) {
        return Answer::Refused(22, blamed.place);
    }
    judged(&builder, out)
}
