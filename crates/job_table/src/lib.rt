// Where the table of a job ends.
#![tactic(auto)]

ghost use Rattle.std.specs.Prelude.{◌≡◌, ◌≤◌, length};
ghost use Rattle.xliff.specs.Desk.{whole_size, is_UE, table_length};
ghost use Rattle.job_table.specs.Sizes.{whole_of, SizeIs};

// The size `n`, if there are so many bytes. No record has no bytes.
// `n` is 0 where the mark is unknown: the widths of crate marks come so, and the definition's sizes.
fn whole(t: &[u8], n: usize) -> Option<usize>
    ensures { SizeIs result (whole_of n t.now) }
{
    if n == 0 {
        return None;
    }
    if t.len() < n {
        return None;
    }
    Some(n)
}

// The size of the whole record at the head of `t`, by its mark alone.
// A text's length is read where four bytes are there; of fewer it is cut, whatever its length.
fn record_size(t: &[u8]) -> Option<usize>
    ensures { SizeIs result (whole_size t.now) }
{
    if t.len() < 4 {
        return whole(t, marks::fixed_width(marks::mark_of(t)));
    }
    whole(t, marks::width_of(t))
}

fn is_end(t: &[u8]) -> bool
    ensures { result ≡ is_UE t.now }
{
    if t.len() < 2 {
        return false;
    }
    marks::marked_by(t, b"UE")
}

// The length of the job's table: up to the first UE reached record by record, else all of it.
pub fn table_length(job: &[u8]) -> usize
    ensures { (result ≡ table_length job.now) × (result ≤ length job.now) }
{
    let mut at: usize = 0;
    // From record to record, each of a width of its own.
    while at < job.len() {
        if is_end(&job[at..]) {
            return at + 2;
        }
        let Some(n) = record_size(&job[at..]) else {
            return job.len();
        };
        at += n;
    }
    job.len()
}
