// Where the value of an attribute stands.
#![tactic(auto)]

ghost use Rattle.std.specs.Prelude.{◌≤◌, length};

// It stands in the text from `start` to its quote.
#[derive(Clone, Copy)]
pub struct Value<'a> {
    pub text: &'a [u8],
    pub start: usize,
    pub quote: u8,
    pub ghost inside: { start ≤ length text.now },
}
