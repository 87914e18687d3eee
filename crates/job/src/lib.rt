// The job runner: what the desk program prints for a job.
#![tactic(auto)]

ghost use Rattle.std.specs.Prelude.{◌≡◌, ◌++◌, ◌+◌, ◌<◌, ◌≤◌, length, take, drop};
ghost use Rattle.xliff.specs.Answer.{refused};
ghost use Rattle.xliff.specs.Check.{check};
ghost use Rattle.xliff.specs.Desk.{line, table_line, table_length, answer_requests, desk_job, desk};
ghost use Rattle.xliff.specs.Parse.{most_bytes};
ghost use Rattle.answers.specs.Answers.{answer_meaning};
ghost use Rattle.writer.specs.Pieces.{lead};
ghost use Rattle.requests.specs.Requests.{request_size, call_of};
ghost use Rattle.job.specs.Job.{FitsIn, kept_table, Performed};

use answers::Answer;
use limits::MOST_BYTES;
use requests::Request;

// What any job prints fits: docs/DECISIONS.md, 28.
pub const MOST_PRINTED: usize = 1_048_576;

// What a request printed, and the length of the table that it left.
#[derive(Clone, Copy)]
pub struct Step {
    pub printed: usize,
    pub length: usize,
}

// The table behind an answer: the result of an accepted request, else the table as before it. Its length.
// Array and length of the table stay apart: an operation reads a slice, and only here a result is kept.
fn keep(table: &mut [u8; MOST_BYTES], n: usize, a: Answer, kept: &[u8; MOST_BYTES]) -> usize
    requires { (n ≤ most_bytes) × FitsIn a }
    ensures { (take result table.new ≡ kept_table a n table.old kept.now) × (result ≤ most_bytes) }
{
    match a {
        Answer::Accepted(m) => writer::put(table, &kept[..m]),
        Answer::Refused(_, _) => n,
    }
}

// The request `r` at the head of `s`, on the table in the first `n` bytes of `table`: its line at the head of `out`,
// and in `table` the table that it leaves.
fn answer_request(
    r: Request,
    s: &[u8],
    table: &mut [u8; MOST_BYTES],
    n: usize,
    out: &mut [u8],
) -> Step
    requires { (n ≤ most_bytes) × (48 ≤ length out.old) × (request_size r ≤ length s.now) }
    ensures { Performed (call_of s.now r) (take n table.old) out.old result table.new
        out.new }
{
    let mut result = [0u8; MOST_BYTES];
    let a = operations::perform(&table[..n], r, s, &mut result);
    let printed = lines::put_line(out, a);
    let length = keep(table, n, a, &result);
    Step { printed, length }
}

// The last lines where the request at the offset `at` is unreadable.
fn put_unreadable(out: &mut [u8], at: usize, t: &[u8]) -> usize
    requires { (length t.now ≤ most_bytes) × (16433 ≤ length out.old) }
    ensures { (result ≡ length (line (refused 2 at) ++ table_line t.now))
        × (out.new ≡ lead (line (refused 2 at) ++ table_line t.now) out.old) × (result ≤ 16433) }
{
    let k = lines::put_line(out, Answer::Refused(2, at));
    k + lines::put_table(&mut out[k..], t)
}

// The lines of the requests behind the first `n` bytes of a job, whose table stands at the head of `table`; last the
// table.
// No line is longer than 48 bytes and no request shorter than 4.
// A job and its table's length go through three functions, one calling the next: a struct is no plainer.
fn put_requests(
    job: &[u8],
    n: usize,
    table: &mut [u8; MOST_BYTES],
    out: &mut [u8; MOST_PRINTED],
) -> usize
    requires { (n ≤ length job.now) × (n ≤ most_bytes) × (length job.now ≤ 65535) }
    ensures { (result ≡ length (answer_requests (length job.now) (take n table.old) n (drop n job.now)))
        × (out.new ≡ lead (answer_requests (length job.now) (take n table.old) n (drop n job.now))
        out.old) }
{
    let mut at = n;
    let mut m = n;
    let mut k: usize = 0;
    // From request to request: each takes a number of bytes of its own.
    while at < job.len() {
        let Some(r) = requests::request_of(&job[at..]) else {
            return k + put_unreadable(&mut out[k..], at, &table[..m]);
        };
        let step = answer_request(r, &job[at..], table, m, &mut out[k..]);
        k += step.printed;
        m = step.length;
        at += r.size();
    }
    k + lines::put_table(&mut out[k..], &table[..m])
}

// The requests of a job whose table, its first `n` bytes, is accepted.
fn put_accepted(job: &[u8], n: usize, out: &mut [u8; MOST_PRINTED]) -> usize
    requires { (n ≤ length job.now) × (n ≤ most_bytes) × (length job.now ≤ 65535) }
    ensures { (result ≡ length (answer_requests (length job.now) (take n job.now) n (drop n job.now)))
        × (out.new ≡ lead (answer_requests (length job.now) (take n job.now) n (drop n job.now))
        out.old) }
{
    let mut table = [0u8; MOST_BYTES];
    let m = writer::put(&mut table, &job[..n]);
    put_requests(job, m, &mut table, out)
}

fn put_answers(job: &[u8], n: usize, a: Answer, out: &mut [u8; MOST_PRINTED]) -> usize
    requires { (n ≡ table_length job.now) × (n ≤ length job.now) × (length job.now ≤ 65535)
        × (answer_meaning a ≡ check (take n job.now)) }
    ensures { (result ≡ length (desk_job job.now)) × (out.new ≡ lead (desk_job job.now) out.old) }
{
    match a {
        Answer::Accepted(_) => put_accepted(job, n, out),
        Answer::Refused(_, _) => lines::put_line(out, a),
    }
}

// The length of the job is asked by four functions, one calling the next: a struct is no plainer.
fn run_job(job: &[u8], out: &mut [u8; MOST_PRINTED]) -> usize
    requires { length job.now ≤ 65535 }
    ensures { (result ≡ length (desk_job job.now)) × (out.new ≡ lead (desk_job job.now) out.old) }
{
    let n = job_table::table_length(job);
    put_answers(job, n, table_check::check(&job[..n]), out)
}

// What the desk program prints for a job, at the head of `out`; its length.
pub fn run(job: &[u8], out: &mut [u8; MOST_PRINTED]) -> usize
    ensures value { (result ≡ length (desk job.now)) × (out.new ≡ lead (desk job.now) out.old) }
    ensures within { (result ≤ length out.new) × (result ≡ length (take result out.new)) }
{
    // A test and no `min`: a job that is short enough goes on as it stands, without a cut.
    if 65535 < job.len() {
        return run_job(&job[..65535], out);
    }
    run_job(job, out)
}
