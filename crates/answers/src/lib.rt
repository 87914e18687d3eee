// Answers of operations, and places of records at fault.
#![tactic(auto)]

ghost use Rattle.std.specs.Prelude.{◌≡◌, cond, None, Some};
ghost use Rattle.answers.specs.Answers.{lower};

// Document 01: "An operation answers either accepted with a length, or refused with a number and a place."
// That enum is ordered there, so it is no Result.
#[derive(Clone, Copy)]
pub enum Answer {
    Accepted(usize),
    Refused(u8, usize),
}

// The lower place, if the record at `at` is at fault. It is made anew: a loop that hands it on copies no bytes between
// its fields.
pub fn lower_if(bad: bool, best: Option<usize>, at: usize) -> Option<usize>
    ensures { result ≡ cond bad (lower best at) best }
{
    match best {
        None => bad.then_some(at),
        Some(a) => Some(if bad { at.min(a) } else { a }),
    }
}
