// The UTF-8 of a code point.
#![tactic(auto)]

ghost use Rattle.std.specs.Prelude.{◌≡◌, ◌+◌, ◌<◌, ◌≤◌, length};
ghost use Rattle.xliff.specs.Text.{utf8, utf8_2, utf8_3, utf8_4};
ghost use Rattle.writer.specs.Pieces.{overlay};

// How many bytes it takes.
pub fn width(c: u32) -> usize
    ensures { (result ≡ length (utf8 c)) × (result ≤ 4) }
{
    if c < 0x80 {
        return 1;
    }
    if c < 0x800 {
        return 2;
    }
    if c < 0x10000 {
        return 3;
    }
    4
}

// One function for each width, as the definitions have it: first byte, factors and count all differ.
fn put_two(out: &mut [u8], at: usize, c: u32)
    requires { (c < 0x800) × (at + 2 ≤ length out.old) }
    ensures { out.new ≡ overlay out.old at (utf8_2 c) }
{
    out[at] = (0xC0 + c / 64) as u8;
    out[at + 1] = (0x80 + c % 64) as u8;
}

fn put_three(out: &mut [u8], at: usize, c: u32)
    requires { (c < 0x10000) × (at + 3 ≤ length out.old) }
    ensures { out.new ≡ overlay out.old at (utf8_3 c) }
{
    out[at] = (0xE0 + c / 4096) as u8;
    out[at + 1] = (0x80 + c / 64 % 64) as u8;
    out[at + 2] = (0x80 + c % 64) as u8;
}

fn put_four(out: &mut [u8], at: usize, c: u32)
    requires { (c ≤ 0x10FFFF) × (at + 4 ≤ length out.old) }
    ensures { out.new ≡ overlay out.old at (utf8_4 c) }
{
    out[at] = (0xF0 + c / 262144) as u8;
    out[at + 1] = (0x80 + c / 4096 % 64) as u8;
    out[at + 2] = (0x80 + c / 64 % 64) as u8;
    out[at + 3] = (0x80 + c % 64) as u8;
}

// Its bytes at the index `at`; the index behind them.
pub fn put_code_point(out: &mut [u8], at: usize, c: u32) -> usize
    requires { (c ≤ 0x10FFFF) × (at + length (utf8 c) ≤ length out.old) }
    ensures { (result ≡ at + length (utf8 c)) × (out.new ≡ overlay out.old at (utf8 c)) }
{
    if c < 0x80 {
        return writer::put_byte(out, at, c as u8);
    }
    if c < 0x800 {
        put_two(out, at, c);
        return at + 2;
    }
    if c < 0x10000 {
        put_three(out, at, c);
        return at + 3;
    }
    put_four(out, at, c);
    at + 4
}
