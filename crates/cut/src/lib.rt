// The two halves of a content that is cut.
#![tactic(auto)]

ghost use Rattle.std.specs.Prelude.{◌≡◌, ◌+◌, ◌<◌, ◌≤◌, length};
ghost use Rattle.marks.specs.Marks.{meaning};
ghost use Rattle.writer.specs.Pieces.{lead};
ghost use Rattle.walk.specs.Kept.{Fair};
ghost use Rattle.walk.specs.Marks.{number, kind_of, FoundOther};
ghost use Rattle.walk.specs.Place.{One};
ghost use Rattle.cut.specs.Turned.{turned_mark, turn_if, CutOne, CutAll, text_piece};
ghost use Rattle.xliff.specs.Parse.{mark_at};
ghost use Rattle.xliff.specs.Split.{first_items, second_items};
ghost use Rattle.cut.specs.Halves.{RoomFor, WroteFor};

use marks::Mark;
use walk::Place;

// The mark of start or end over that of pc or mrk at the head of `out`; every other mark stays.
fn put_turned_mark(out: &mut [u8], m: Mark)
    requires { 2 ≤ length out.old }
    ensures { out.new ≡ lead (turned_mark (meaning m)) out.old }
{
    match m {
        Mark::PO => {
            let n = writer::put_mark(out, 0, b"SC");
        }
        Mark::PC => {
            let n = writer::put_mark(out, 0, b"EC");
        }
        Mark::MO => {
            let n = writer::put_mark(out, 0, b"SM");
        }
        Mark::MC => {
            let n = writer::put_mark(out, 0, b"EM");
        }
        _ => {}
    }
}

// The bytes of a record of the mark `m` at the head of `out`, with the marks of start and end if asked.
// The mark goes beside its record, read once by `put_cut`: a struct of both would be no plainer.
fn put_turned(out: &mut [u8], m: Mark, t: &[u8], turn: bool)
    requires { (meaning m ≡ mark_at t.now) × (4 ≤ length t.now) × (length t.now ≤ length out.old) }
    ensures { out.new ≡ lead (turn_if turn t.now) out.old }
{
    let n = writer::put(out, t);
    if turn {
        put_turned_mark(out, m);
    }
}

// Whether the other half of the record `t` of the mark `m` stands beyond the cut.
fn is_parted(m: Mark, t: &[u8], beyond: &[u8]) -> bool
    requires { (4 ≤ length t.now) × Fair beyond.now }
    ensures { FoundOther beyond.now (kind_of (meaning m)) (number t.now) result }
{
    walk::has_other(beyond, walk::kind_of(m), marks::number_at(t, 2))
}

// One record of the mark `m`, turned if its other half stands beyond the cut.
fn put_cut_one(out: &mut [u8], m: Mark, t: &[u8], beyond: &[u8])
    requires { One t.now × (meaning m ≡ mark_at t.now) × Fair beyond.now × (length t.now ≤ length out.old) }
    ensures { CutOne t.now beyond.now out.old out.new }
{
    put_turned(out, m, t, is_parted(m, t, beyond));
}

// All records of `a`.
fn put_cut(out: &mut [u8], a: &[u8], beyond: &[u8]) -> usize
    requires { Fair a.now × Fair beyond.now × (length a.now ≤ length out.old) }
    ensures { (result ≡ length a.now) × CutAll a.now beyond.now out.old out.new }
{
    let mut at: usize = 0;
    // The content is read record by record through the walker.
    while at < a.len() {
        let next = at + walker::width_at(a, at);
        put_cut_one(&mut out[at..], walker::mark_at(a, at), &a[at..next], beyond);
        at = next;
    }
    at
}

// A text as a record.
fn put_text(out: &mut [u8], t: &[u8]) -> usize
    requires { (length t.now < 65536) × (4 + length t.now ≤ length out.old) }
    ensures { (result ≡ 4 + length t.now) × (out.new ≡ lead (text_piece t.now) out.old) }
{
    let i = writer::put_mark(out, 0, b"TX");
    let j = writer::put_number(out, i, t.len() as u16);
    let n = writer::put(&mut out[j..], t);
    j + n
}

// The first half of a content that is cut at item `k`. The halves have a function each: a text that is cut ends the
// first and begins the second, and one function with a side would switch at each step.
pub fn put_first(out: &mut [u8], c: &[u8], k: usize) -> usize
    requires { RoomFor (first_items k) c.now out.old }
    ensures { WroteFor (first_items k) c.now out.old result out.new }
{
    let Place { at, into, .. } = walk::place_of(c, k);
    let n = put_cut(out, &c[..at], &c[at..]);
    if into == 0 {
        return n;
    }
    let s = at + 4;
    let e = s + into;
    let m = put_text(&mut out[n..], &c[s..e]);
    n + m
}

// The second half.
pub fn put_second(out: &mut [u8], c: &[u8], k: usize) -> usize
    requires { RoomFor (second_items k) c.now out.old }
    ensures { WroteFor (second_items k) c.now out.old result out.new }
{
    let Place { at, into, .. } = walk::place_of(c, k);
    if into == 0 {
        return put_cut(out, &c[at..], &c[..at]);
    }
    let next = at + walker::width_at(c, at);
    let s = at + 4 + into;
    let n = put_text(out, &c[s..next]);
    let m = put_cut(&mut out[n..], &c[next..], &c[..at]);
    n + m
}
