// The lines that the desk program prints.
#![tactic(auto)]

ghost use Rattle.std.specs.Prelude.{◌≡◌, ◌+◌, ◌*◌, ◌%◌, ◌<◌, ◌≤◌, length};
ghost use Rattle.xliff.specs.Answer.{accepted, refused};
ghost use Rattle.xliff.specs.Desk.{decimal, hex_digit, line, table_line};
ghost use Rattle.answers.specs.Answers.{answer_meaning};
ghost use Rattle.writer.specs.Pieces.{lead};
ghost use Rattle.lines.specs.Lines.{hex};

use answers::Answer;

fn digit(n: usize) -> u8
    ensures { result ≡ 48 + n % 10 }
{
    (48 + n % 10) as u8
}

// Digits by hand: what a std formatter writes comes to a writer, and no promise says which bytes a slice then has.
// A number in decimal, at the head of `out`; its length.
pub fn put_decimal(out: &mut [u8], n: usize) -> usize
    requires { 20 ≤ length out.old }
    ensures { (result ≡ length (decimal n)) × (out.new ≡ lead (decimal n) out.old) × (result ≤ 20) }
{
    let mut digits = [0u8; 20];
    let mut k: usize = 20;
    let mut m = n;
    // As many digits as there are, the last one first.
    while 10 <= m {
        k -= 1;
        digits[k] = digit(m);
        m = m / 10;
    }
    k -= 1;
    digits[k] = digit(m);
    writer::put(out, &digits[k..])
}

// The three writers of lines ask for 48 bytes each: `out` is the rest of an output, so no array type says it.
// OK length
fn put_accepted(out: &mut [u8], n: usize) -> usize
    requires { 48 ≤ length out.old }
    ensures { (result ≡ length (line (accepted n))) × (out.new ≡ lead (line (accepted n)) out.old) × (result ≤ 48) }
{
    let a = writer::put(out, b"OK ");
    let b = put_decimal(&mut out[a..], n);
    writer::put_byte(out, a + b, b'\n')
}

// NO number place
fn put_refused(out: &mut [u8], n: usize, at: usize) -> usize
    requires { 48 ≤ length out.old }
    ensures { (result ≡ length (line (refused n at))) × (out.new ≡ lead (line (refused n at)) out.old) × (result ≤ 48) }
{
    let a = writer::put(out, b"NO ");
    let b = put_decimal(&mut out[a..], n);
    let c = writer::put_byte(out, a + b, b' ');
    let d = put_decimal(&mut out[c..], at);
    writer::put_byte(out, c + d, b'\n')
}

// The line of an answer, at the head of `out`.
pub fn put_line(out: &mut [u8], a: Answer) -> usize
    requires { 48 ≤ length out.old }
    ensures { (result ≡ length (line (answer_meaning a))) × (out.new ≡ lead (line (answer_meaning a)) out.old) × (result ≤ 48) }
{
    match a {
        Answer::Accepted(n) => put_accepted(out, n),
        Answer::Refused(n, at) => put_refused(out, n as usize, at),
    }
}

// By hand: the library's `char::from_digit` gives lower case, and upper case is needed.
pub fn hex_digit(d: u8) -> u8
    requires { d < 16 }
    ensures { result ≡ hex_digit d }
{
    if d < 10 {
        return 48 + d;
    }
    55 + d
}

// The bytes of a table in upper hexadecimal, at the head of `out`.
fn put_hex(out: &mut [u8], t: &[u8]) -> usize
    requires { (length t.now ≤ 65535) × (2 * length t.now ≤ length out.old) }
    ensures { (result ≡ length (hex t.now)) × (out.new ≡ lead (hex t.now) out.old) × (result ≡ 2 * length t.now) }
{
    let mut at: usize = 0;
    for &b in t {
        let k = writer::put_byte(out, at, hex_digit(b / 16));
        at = writer::put_byte(out, k, hex_digit(b % 16));
    }
    at
}

// The line of a table, at the head of `out`.
pub fn put_table(out: &mut [u8], t: &[u8]) -> usize
    requires { (length t.now ≤ 65535) × (2 * length t.now + 1 ≤ length out.old) }
    ensures { (result ≡ length (table_line t.now)) × (out.new ≡ lead (table_line t.now) out.old) }
{
    let n = put_hex(out, t);
    writer::put_byte(out, n, b'\n')
}
