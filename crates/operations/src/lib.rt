// The operation that a request asks for.
#![tactic(auto)]

ghost use Rattle.std.specs.Prelude.{◌+◌, ◌≤◌, length, take, drop};
ghost use Rattle.xliff.specs.SetTarget.{set_target};
ghost use Rattle.xliff.specs.Calls.{outcome};
ghost use Rattle.outcomes.specs.Outcomes.{Answers};
ghost use Rattle.requests.specs.Requests.{request_size, call_with};

use answers::Answer;
use requests::{CONTENT_AT, Request};

// The content stands in the middle of the job: it is handed on as that part of the slice.
fn set_content(table: &[u8], part: u16, state: u8, s: &[u8], n: u16, out: &mut [u8]) -> Answer
    requires { 7 + n ≤ length s.now }
    ensures { Answers (set_target table.now part state (take n (drop 7 s.now)) (length out.old)) result out.old out.new }
{
    let end = CONTENT_AT + usize::from(n);
    set_target::set_target(table, part, state, &s[CONTENT_AT..end], out)
}

// The request `r` at the head of `s`, on an output of any length.
pub fn perform(table: &[u8], r: Request, s: &[u8], out: &mut [u8]) -> Answer
    requires { request_size r ≤ length s.now }
    ensures { Answers (outcome table.now (call_with (length out.old) s.now r)) result
        out.old out.new }
{
    match r {
        Request::Split {
            part,
            source_cut,
            target_cut,
            id,
        } => split::split(table, part, source_cut, target_cut, id, out),
        Request::Join { part } => join::join(table, part, out),
        Request::SetTarget {
            part,
            state,
            length,
        } => set_content(table, part, state, s, length, out),
        Request::RemoveTarget { part } => remove_target::remove_target(table, part, out),
        Request::Rewrite { side, id, form } => rewrite::rewrite(table, side, id, form, out),
    }
}
