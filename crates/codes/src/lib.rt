// The inline codes of a good content: which code a record is, marks taken as when flattened.
#![tactic(auto)]

pub mod chains;
pub mod fixed;
pub mod kept;

ghost use Rattle.std.specs.Prelude.{◌≡◌, drop};
ghost use Rattle.marks.specs.Marks.{meaning};
ghost use Rattle.codes.specs.Codes.{code_of, code_at};

use marks::Mark;

#[derive(Clone, Copy, PartialEq, Eq)]
enum Code {
    PairStart,
    PairEnd,
    Standalone,
    IsolatedStart,
    IsolatedEnd,
}

// The inline code of a mark; none for text, a character or an annotation.
fn code_of(m: Mark) -> Option<Code>
    ensures { result ≡ code_of (meaning m) }
{
    match m {
        Mark::PO | Mark::SC => Some(Code::PairStart),
        Mark::PC | Mark::EC => Some(Code::PairEnd),
        Mark::PH => Some(Code::Standalone),
        Mark::IS => Some(Code::IsolatedStart),
        Mark::IE => Some(Code::IsolatedEnd),
        _ => None,
    }
}

// The inline code that the record at `at` is.
fn code_at(c: &[u8], at: usize) -> Option<Code>
    ensures { result ≡ code_at (drop at c.now) }
{
    code_of(walker::mark_at(c, at))
}
