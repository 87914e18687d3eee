// Two contents joined.
#![tactic(auto)]

ghost use Rattle.std.specs.Prelude.{◌≡◌, [], ◌∷◌, ◌+◌, ◌<◌, ◌≤◌, length};
ghost use Rattle.walk.specs.Kept.{Fair};
ghost use Rattle.marks.specs.Marks.{marked};
ghost use Rattle.joined_content.specs.Seam.{LastOf, SeamFound, RoomContents, WroteContents};

// Where the last record of a content begins.
fn last_of(c: &[u8]) -> usize
    requires { Fair c.now × (0 < length c.now) }
    ensures { LastOf c.now result }
{
    let mut at: usize = 0;
    let mut next = walker::width_at(c, 0);
    // The content is read record by record through the walker.
    while next < c.len() {
        at = next;
        next = at + walker::width_at(c, at);
    }
    at
}

fn is_text(t: &[u8]) -> bool
    requires { 4 ≤ length t.now }
    ensures { result ≡ marked t.now (84 ∷ 88 ∷ []) }
{
    marks::marked_by(t, b"TX")
}

// Where the text begins that ends the first content, if a text begins the second.
fn seam(a: &[u8], b: &[u8]) -> Option<usize>
    requires { Fair a.now × Fair b.now }
    ensures { SeamFound a.now b.now result }
{
    if a.len() == 0 {
        return None;
    }
    if b.len() == 0 {
        return None;
    }
    let p = last_of(a);
    let x = is_text(&a[p..]);
    let y = is_text(b);
    if x & y {
        return Some(p);
    }
    None
}

// The second content directly behind the first; touching texts become one.
pub fn put_joined(out: &mut [u8], a: &[u8], b: &[u8]) -> usize
    requires { RoomContents a.now b.now out.old }
    ensures { WroteContents a.now b.now out.old result out.new }
{
    let found = seam(a, b);
    let n = writer::put(out, a);
    let Some(p) = found else {
        let m = writer::put(&mut out[n..], b);
        return n + m;
    };
    let x = marks::number_at(a, p + 2) + marks::number_at(b, 2);
    let q = writer::put_number(out, p + 2, x);
    let m = writer::put(&mut out[n..], &b[4..]);
    n + m
}
