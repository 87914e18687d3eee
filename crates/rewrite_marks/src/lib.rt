// Rewrite, the bytes: the table copied, and the marks of the halves of one id on one side written anew.
#![tactic(auto)]

ghost use Rattle.std.specs.Prelude.{◌≡◌, ◌++◌, ◌+◌, ◌<◌, ◌≤◌, length, drop};
ghost use Rattle.xliff.specs.Encode.{encode};
ghost use Rattle.xliff.specs.Parse.{unit};
ghost use Rattle.xliff.specs.Rewrite.{form_of, rewrite_unit};
ghost use Rattle.places.specs.Passes.{Passes};
ghost use Rattle.places.specs.Markers.{item_at};
ghost use Rattle.glance.specs.Glances.{kind_of};
ghost use Rattle.writer.specs.Pieces.{lead, overlay};
ghost use Rattle.rewrite_marks.specs.Rewritten.{inside_of, start_mark, end_mark, half_mark, formed, rewritten_bytes};

use glance::Head;

// Whether what follows a record is of a content of the side.
// Not `contents::inside_after`: where the targets are the side, a source content is not inside.
pub fn inside_of(source: bool, inside: bool, head: Head) -> bool
    ensures { result ≡ inside_of source inside (kind_of head) }
{
    match head {
        Head::Part => source,
        Head::Target(_) => !source,
        Head::Other => inside,
    }
}

// The mark of a start, of a pair or of an annotation; below, that of an end. Marks are written as fixed two-byte strings,
// as document 01 orders, so each is named where it is written.
fn put_start(out: &mut [u8], at: usize, pair: bool, p: bool) -> usize
    requires { at + 2 ≤ length out.old }
    ensures { (result ≡ at + 2) × (out.new ≡ overlay out.old at (start_mark pair p)) }
{
    if pair {
        if p {
            return writer::put_mark(out, at, b"PO");
        }
        return writer::put_mark(out, at, b"SC");
    }
    if p {
        return writer::put_mark(out, at, b"MO");
    }
    writer::put_mark(out, at, b"SM")
}

// The mark of an end.
fn put_end(out: &mut [u8], at: usize, pair: bool, p: bool) -> usize
    requires { at + 2 ≤ length out.old }
    ensures { (result ≡ at + 2) × (out.new ≡ overlay out.old at (end_mark pair p)) }
{
    if pair {
        if p {
            return writer::put_mark(out, at, b"PC");
        }
        return writer::put_mark(out, at, b"EC");
    }
    if p {
        return writer::put_mark(out, at, b"MC");
    }
    writer::put_mark(out, at, b"EM")
}

// Class and half are the specification's numbers, as the key packs them (crate views).
fn put_half(out: &mut [u8], at: usize, class: u32, half: u32, p: bool) -> usize
    requires { at + 2 ≤ length out.old }
    ensures { (result ≡ at + 2) × (out.new ≡ overlay out.old at (half_mark class half p)) }
{
    if half == 1 {
        return put_start(out, at, class == 2, p);
    }
    put_end(out, at, class == 2, p)
}

// The mark of the item at an offset of `t`, in form P or S, if it is a half of the id in a content of the side. `out`
// has the bytes of `t` there.
fn put_form(out: &mut [u8], t: &[u8], at: usize, inside: bool, id: u32, p: bool)
    requires { at + 2 ≤ length out.old }
    ensures { out.new ≡ formed inside id p (item_at t.now at) out.old at }
{
    if inside {
        let k = keys::key_at(t, at);
        let half = keys::half_of(k);
        if !(half == 0) & (keys::id_of(k) == id) {
            let e = put_half(out, at, keys::class_of(k), half, p);
        }
    }
}

// The marks of all halves of the id on the side; `out` starts with the bytes of `t`.
fn put_forms(out: &mut [u8], t: &[u8], source: bool, id: u32, p: bool)
    requires { Passes t.now × (out.old ≡ lead t.now out.old) × (length t.now ≤ length out.old) }
    ensures { out.new ≡ rewritten_bytes source id p t.now ++ drop (length t.now) out.old }
{
    let mut at: usize = 0;
    let mut inside = false;
    // The lent table is read record by record through the walker.
    while at < t.len() {
        let g = walker::glance_at(t, at);
        put_form(out, t, at, inside, id, p);
        inside = inside_of(source, inside, g.head);
        at += g.width;
    }
}

// The table with the halves of the id on the side rewritten, at the head of `out`.
pub fn put_rewritten(out: &mut [u8], t: &[u8], side: u8, id: u16, form: u8) -> usize
    requires { Passes t.now × (length t.now ≤ length out.old) }
    ensures { (result ≡ length (encode (rewrite_unit (unit t.now) side id (form_of form))))
        × (out.new ≡ lead (encode (rewrite_unit (unit t.now) side id (form_of form))) out.old) }
{
    let n = writer::put(out, t);
    put_forms(out, t, side == b'S', u32::from(id), form == b'P');
    n
}
