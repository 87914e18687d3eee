// A request with its grant: document 02, order 6.
#![tactic(auto)]

ghost use Rattle.std.specs.Prelude.{◌≡◌, ◌≤◌, length};
ghost use Rattle.std.proofs.Math.Option.{none};
ghost use Rattle.xliff.specs.Check.{table_refusal};
ghost use Rattle.outcomes.specs.Outcomes.{Answers};
ghost use Rattle.requests.specs.Requests.{request_size};
ghost use Rattle.grants.specs.Requests.{granted_request};
ghost use Rattle.granted_parts.specs.Roles.{grant_of};
ghost use Rattle.granted_calls.specs.Called.{call_granted};

use answers::Answer;
use granted_parts::{Grant, Role};
use requests::Request;

// 24, then the request `r` at the head of `s`.
fn call_read(grant: Grant, table: &[u8], r: Request, s: &[u8], out: &mut [u8]) -> Answer
    requires { (table_refusal table.now ≡ none) × (request_size r ≤ length s.now) }
    ensures { Answers (call_granted (grant_of grant.entry.role grant.entry.positions.now) table.now s.now r (length out.old)) result out.old out.new }
{
    if !granted_requests::granted(grant, table, r) {
        return Answer::Refused(24, 0);
    }
    operations::perform(table, r, s, out)
}

// The request, with a grant, on the table: "24, call not granted, after the table's check and before everything else."
// A request that is unreadable, or has bytes behind it, is refused by 2.
// Accepted: the output's first bytes are the result, the rest is unchanged. Refused: the whole output is unchanged.
pub fn granted_call(
    role: Role,
    positions: &[u8],
    table: &[u8],
    request: &[u8],
    out: &mut [u8],
) -> Answer
    ensures { Answers (granted_request (grant_of role positions.now) table.now request.now (length out.old)) result out.old out.new }
{
    // No let-else: the must-fail edit grant_before_check plants its wrong number in this arm.
    match table_check::check(table) {
        Answer::Accepted(_) => {}
        Answer::Refused(k, at) => return Answer::Refused(k, at),
    }
    let Some(r) = requests::request_of(request) else {
        return Answer::Refused(2, 0);
    };
    // What is right first: the must-fail edit bytes_behind_let_through turns this test.
    if r.size() == request.len() {
        return call_read(Grant { role, positions }, table, r, request, out);
    }
    Answer::Refused(2, 0)
}
