// The names of tags, attributes and entities.
#![tactic(auto)]

ghost use Rattle.std.specs.Prelude.{◌≡◌, ◌≤◌, length};
ghost use Rattle.xml.specs.Characters.{starts_name, in_a_name};
ghost use Rattle.xml_names.specs.Names.{bytes_between, NameIn, NameEnds};

// Where a name stands in a text: from one place to another.
// It does not hold the text: that the name stands in it (NameIn) is asked wherever both come.
#[derive(Clone, Copy)]
pub struct Span {
    pub from: usize,
    pub upto: usize,
}

impl Span {
    // The name that stands there.
    pub fn of(self, text: &[u8]) -> &[u8]
        requires { NameIn text.now self.from self.upto }
        ensures { result.now ≡ bytes_between text.now self.from self.upto }
    {
        &text[self.from..self.upto]
    }
}

// Whether a byte begins a name.
pub fn name_starts(b: u8) -> bool
    ensures { result ≡ starts_name b }
{
    ((b'A' <= b) & (b <= b'Z')) | ((b'a' <= b) & (b <= b'z')) | (b == b'_') | (b == b':')
}

// Whether a byte goes on with a name.
pub fn name_goes_on(b: u8) -> bool
    ensures { result ≡ in_a_name b }
{
    name_starts(b) | ((b'0' <= b) & (b <= b'9')) | (b == b'-') | (b == b'.')
}

// Where the name ends that has begun before `from`.
// A text and a place in it stay two parameters: readers go on from many places of the one lent text.
// No chain and no `for`: the edit every_other_byte needs the step to stand in the code.
pub fn name_end(text: &[u8], from: usize) -> usize
    requires { from ≤ length text.now }
    ensures { NameEnds text.now from result }
{
    let mut at = from;
    while at < text.len() {
        if !name_goes_on(text[at]) {
            return at;
        }
        at += 1;
    }
    at
}
