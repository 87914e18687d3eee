// The job runner with demand 3 in its promise: what Extractor and Merger share.
#![tactic(auto)]

ghost use Rattle.std.specs.Prelude.{◌≡◌, ◌≤◌, length, take};
ghost use Rattle.xliff.specs.Desk.{desk};
ghost use Rattle.writer.specs.Pieces.{lead};
ghost use Rattle.both_ends.specs.Received.{Meets};

pub use job::MOST_PRINTED;

// What the desk program prints for a job, at the head of `out`; its length. Where the job's table is valid, demand 3
// holds of its calls and of the table printed last.
pub fn run(job: &[u8], out: &mut [u8; MOST_PRINTED]) -> usize
    ensures value { (result ≡ length (desk job.now)) × (out.new ≡ lead (desk job.now) out.old) }
    ensures within { (result ≤ length out.new) × (result ≡ length (take result out.new)) }
    ensures meets { Meets job.now }
{
    job::run(job, out)
}
