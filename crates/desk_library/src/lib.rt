// The desk's operations for programs in C or Rust. Each returns whether it accepts; `number` is that of the refusal,
// else 0; `value` is the result's length, or the refusal's place.
#![tactic(auto)]

ghost use Rattle.std.specs.Prelude.{◌≡◌, length};
ghost use Rattle.xliff.specs.Check.{check};
ghost use Rattle.xliff.specs.Split.{split};
ghost use Rattle.xliff.specs.Join.{join};
ghost use Rattle.xliff.specs.SetTarget.{set_target};
ghost use Rattle.xliff.specs.RemoveTarget.{remove_target};
ghost use Rattle.xliff.specs.Rewrite.{rewrite};
ghost use Rattle.xliff.specs.Desk.{desk};
ghost use Rattle.xml.specs.Xml.{read_xml, write_xml};
ghost use Rattle.sheet.specs.Sheet.{sheet};
ghost use Rattle.grants.specs.Grant.{by_letter};
ghost use Rattle.grants.specs.View.{view};
ghost use Rattle.grants.specs.Requests.{granted_request};
ghost use Rattle.answers.specs.Answers.{answer_meaning};
ghost use Rattle.writer.specs.Pieces.{lead};
ghost use Rattle.both_ends.specs.Received.{Meets};
ghost use Rattle.desk_library.specs.Told.{told, Tells};

use answers::Answer;

// An answer as C takes it: a flag, and two places for the numbers. The functions below are alike since C has no generics.
fn tell(a: Answer, number: &mut u8, value: &mut usize) -> bool
    ensures { told (answer_meaning a) result number.new value.new }
{
    match a {
        Answer::Accepted(n) => {
            *number = 0;
            *value = n;
            true
        }
        Answer::Refused(n, at) => {
            *number = n;
            *value = at;
            false
        }
    }
}

#[unsafe(no_mangle)]
pub extern "C" fn xliff_desk_check(table: &[u8], number: &mut u8, value: &mut usize) -> bool
    ensures { told (check table.now) result number.new value.new }
{
    tell(table_check::check(table), number, value)
}

#[unsafe(no_mangle)]
pub extern "C" fn xliff_desk_split(
    table: &[u8],
    part: u16,
    source_cut: u16,
    target_cut: u16,
    new_id: u16,
    out: &mut [u8],
    number: &mut u8,
    value: &mut usize,
) -> bool
    ensures { Tells (split table.now part source_cut target_cut new_id (length out.old)) result number.new value.new out.old out.new }
{
    let a = split::split(table, part, source_cut, target_cut, new_id, out);
    tell(a, number, value)
}

#[unsafe(no_mangle)]
pub extern "C" fn xliff_desk_join(
    table: &[u8],
    part: u16,
    out: &mut [u8],
    number: &mut u8,
    value: &mut usize,
) -> bool
    ensures { Tells (join table.now part (length out.old)) result number.new value.new out.old out.new }
{
    let a = join::join(table, part, out);
    tell(a, number, value)
}

#[unsafe(no_mangle)]
pub extern "C" fn xliff_desk_set_target(
    table: &[u8],
    part: u16,
    state: u8,
    content: &[u8],
    out: &mut [u8],
    number: &mut u8,
    value: &mut usize,
) -> bool
    ensures { Tells (set_target table.now part state content.now (length out.old)) result number.new value.new out.old out.new }
{
    let a = set_target::set_target(table, part, state, content, out);
    tell(a, number, value)
}

#[unsafe(no_mangle)]
pub extern "C" fn xliff_desk_remove_target(
    table: &[u8],
    part: u16,
    out: &mut [u8],
    number: &mut u8,
    value: &mut usize,
) -> bool
    ensures { Tells (remove_target table.now part (length out.old)) result number.new value.new out.old out.new }
{
    let a = remove_target::remove_target(table, part, out);
    tell(a, number, value)
}

#[unsafe(no_mangle)]
pub extern "C" fn xliff_desk_rewrite(
    table: &[u8],
    side: u8,
    id: u16,
    form: u8,
    out: &mut [u8],
    number: &mut u8,
    value: &mut usize,
) -> bool
    ensures { Tells (rewrite table.now side id form (length out.old)) result number.new value.new out.old out.new }
{
    let a = rewrite::rewrite(table, side, id, form, out);
    tell(a, number, value)
}

// A unit in XML to its table.
#[unsafe(no_mangle)]
pub extern "C" fn xliff_desk_read_xml(
    xml: &[u8],
    out: &mut [u8],
    number: &mut u8,
    value: &mut usize,
) -> bool
    ensures { Tells (read_xml xml.now (length out.old)) result number.new value.new out.old out.new }
{
    let a = read_xml::read_xml(xml, out);
    tell(a, number, value)
}

// A table to its unit in XML.
#[unsafe(no_mangle)]
pub extern "C" fn xliff_desk_write_xml(
    table: &[u8],
    out: &mut [u8],
    number: &mut u8,
    value: &mut usize,
) -> bool
    ensures { Tells (write_xml table.now (length out.old)) result number.new value.new out.old out.new }
{
    let a = write_xml::write_xml(table, out);
    tell(a, number, value)
}

// The review sheet of a table.
#[unsafe(no_mangle)]
pub extern "C" fn xliff_desk_sheet(
    table: &[u8],
    out: &mut [u8],
    number: &mut u8,
    value: &mut usize,
) -> bool
    ensures { Tells (sheet table.now (length out.old)) result number.new value.new out.old out.new }
{
    let a = review_sheet::sheet(table, out);
    tell(a, number, value)
}

// The table as a role, given by its letter, with these part positions sees it.
#[unsafe(no_mangle)]
pub extern "C" fn xliff_desk_view(
    role: u8,
    positions: &[u8],
    table: &[u8],
    out: &mut [u8],
    number: &mut u8,
    value: &mut usize,
) -> bool
    ensures { Tells (view table.now (by_letter role positions.now) (length out.old)) result number.new value.new out.old out.new }
{
    let a = granted_view::view(granted_parts::role_of(role), positions, table, out);
    tell(a, number, value)
}

// A request with the grant of a role, given by its letter, and of these part positions.
#[unsafe(no_mangle)]
pub extern "C" fn xliff_desk_granted_call(
    role: u8,
    positions: &[u8],
    table: &[u8],
    request: &[u8],
    out: &mut [u8],
    number: &mut u8,
    value: &mut usize,
) -> bool
    ensures { Tells (granted_request (by_letter role positions.now) table.now request.now (length out.old)) result number.new value.new out.old
        out.new }
{
    let a = granted_calls::granted_call(
        granted_parts::role_of(role),
        positions,
        table,
        request,
        out,
    );
    tell(a, number, value)
}

// What the desk program prints for a job, at the head of `out`; its length.
#[unsafe(no_mangle)]
pub extern "C" fn xliff_desk_job(job: &[u8], out: &mut [u8; 1048576]) -> usize
    ensures value { (result ≡ length (desk job.now)) × (out.new ≡ lead (desk job.now) out.old) }
    ensures meets { Meets job.now }
{
    both_ends::run(job, out)
}
