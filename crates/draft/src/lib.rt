// A text written piece by piece into a lent output, or only measured against the output's length.
#![tactic(auto)]

ghost use Rattle.std.specs.Prelude.{◌≡◌, ◌≤◌, length};

// The output, how many bytes of it are used, whether the text is longer than it, and whether it is only measured.
// Two flags: a text that is only measured can be too long as well.
#[derive(Drop)]
pub struct Draft<'a> {
    out: &'a mut [u8],
    used: usize,
    full: bool,
    measured: bool,
    pub ghost inside: { used ≤ length out.now },
}

impl<'a> Draft<'a> {
    ghost use Rattle.draft.specs.Drafts.{Began, Wrote};

    // No text yet.
    pub fn begin(out: &'a mut [u8], measured: bool) -> Draft<'a>
        ensures { Began measured out.entry result }
    {
        Draft {
            out,
            used: 0,
            full: false,
            measured,
        }
    }

    // How many bytes of the output are used.
    pub fn used(&self) -> usize
        ensures { result ≡ self.now.used }
    {
        self.used
    }

    // Is the text longer than the output?
    pub fn is_full(&self) -> bool
        ensures { result ≡ self.now.full }
    {
        self.full
    }

    // These bytes behind the text. Where they don't fit, nothing is written from here on.
    pub fn put(&mut self, bytes: &[u8])
        ensures { Wrote bytes.now self.old self.new }
    {
        if self.full {
            return;
        }
        if self.out.len() - self.used < bytes.len() {
            self.full = true;
            return;
        }
        let behind = self.used + bytes.len();
        if !self.measured {
            writer::put(&mut self.out[self.used..], bytes);
        }
        self.used = behind;
    }
}
