// A marker as one number: what rule 7 asks of it, so that its loops read no table.
#![tactic(auto)]

ghost use Rattle.std.specs.Prelude.{◌≡◌, ◌+◌, ◌*◌, ◌/◌, ◌%◌, ◌<◌, ◌≤◌, length, take};
ghost use Rattle.xliff.specs.Parse.{mark_at, annotation_end_size};
ghost use Rattle.places.specs.Markers.{item_at};
ghost use Rattle.views.specs.Views.{view_of};
ghost use Rattle.keys.specs.Marks.{low_of, annotation_low, code_good, start_good, end_good, marker_good, marker_key};
ghost use Rattle.keys.specs.Keys.{key, keys_at, alike_keys, is_other_key, id_key, half_key, form_key, class_key};

use views::View;

// Markers of a table in sequence: their offsets, and their keys.
// That the keys are those of the markers is no ghost field: the bars of crate contents have others.
#[derive(Clone, Copy)]
pub struct Sequence<'a> {
    pub markers: &'a [u16],
    pub keys: &'a [u32],
    pub ghost paired: { length keys.now ≡ length markers.now },
}

// What the mark of `t` says of the key: 8 times the class, twice the half, 1 for PO PC MO MC; 0 where it is no
// marker's. First of annotations alone, then of all markers. Marks are compared as fixed two-byte strings, as document 01
// orders.
fn annotation_low(t: &[u8]) -> u32
    requires { 2 ≤ length t.now }
    ensures { (result ≡ annotation_low (mark_at t.now)) × (result ≤ 45) }
{
    if marks::marked_by(t, b"MO") {
        return 43;
    }
    if marks::marked_by(t, b"MC") {
        return 45;
    }
    if marks::marked_by(t, b"SM") {
        return 42;
    }
    if marks::marked_by(t, b"EM") {
        return 44;
    }
    0
}

fn low_of(t: &[u8]) -> u32
    requires { 2 ≤ length t.now }
    ensures { (result ≡ low_of (mark_at t.now)) × (result ≤ 45) }
{
    if marks::marked_by(t, b"PO") {
        return 19;
    }
    if marks::marked_by(t, b"PC") {
        return 21;
    }
    if marks::marked_by(t, b"PH") {
        return 8;
    }
    if marks::marked_by(t, b"SC") {
        return 18;
    }
    if marks::marked_by(t, b"EC") {
        return 20;
    }
    if marks::marked_by(t, b"IS") {
        return 24;
    }
    if marks::marked_by(t, b"IE") {
        return 32;
    }
    annotation_low(t)
}

// Whether the fields of a code are good; so of the start and of the end of an annotation.
fn code_good(s: &[u8], alone: bool) -> bool
    ensures { result ≡ code_good s.now alone }
{
    if s.len() < marks::CODE_WIDTH {
        return false;
    }
    table::fields_ok(alone, table::read_fields(s))
}

fn start_good(s: &[u8]) -> bool
    ensures { result ≡ start_good s.now }
{
    if s.len() < marks::ANNOTATION_START_WIDTH {
        return false;
    }
    !(marks::number_at(s, 2) == 0) & table::yes_no_none(s[4])
}

fn end_good(s: &[u8]) -> bool
    requires { annotation_end_size ≤ length s.now }
    ensures { result ≡ end_good s.now }
{
    !(marks::number_at(s, 2) == 0)
}

// Whether a marker's fields are good, by what its mark says.
fn marker_good(s: &[u8], low: u32) -> bool
    requires { annotation_end_size ≤ length s.now }
    ensures { result ≡ marker_good s.now low }
{
    if low < 40 {
        return code_good(s, low == 8);
    }
    if low < 44 {
        return start_good(s);
    }
    end_good(s)
}

// The key of the item at the head of `s`; where none is, as a text's.
// 0 is the specification's key of a text, no mark of failure: keys stand in arrays of numbers.
fn marker_key(s: &[u8]) -> u32
    ensures { result ≡ marker_key s.now }
{
    if s.len() < marks::ANNOTATION_END_WIDTH {
        return 0;
    }
    let low = low_of(s);
    if low == 0 {
        return 0;
    }
    if !marker_good(s, low) {
        return 0;
    }
    marks::wide_to_u32(marks::number_at(s, 2)) * 64 + low
}

// The key of the item at an offset; where none is, as a text's.
pub fn key_at(t: &[u8], at: usize) -> u32
    ensures { result ≡ key (item_at t.now at) }
{
    if t.len() < at {
        return 0;
    }
    marker_key(&t[at..])
}

// The item at an offset whose key is known: what the key holds is not read again, and nothing is looked at twice.
pub fn view_at(t: &[u8], at: usize, k: u32) -> View
    requires { k ≡ key (item_at t.now at) }
    ensures { result ≡ view_of (item_at t.now at) }
{
    let class = k % 64 / 8;
    let half = k % 8 / 2;
    if class == 0 {
        return views::nothing();
    }
    if class == 5 {
        return views::annotation_view(half as u8, k % 2 == 1, marks::number_at(&t[at..], 2));
    }
    views::code_view(
        class as u8,
        half as u8,
        k % 2 == 1,
        table::read_fields(&t[at..]),
    )
}

// The keys of the items at some offsets, at the front of `out`.
pub fn keys_at(t: &[u8], markers: &[u16], out: &mut [u32])
    requires { length markers.now ≤ length out.old }
    ensures { (take (length markers.now) out.new ≡ keys_at t.now markers.now) × (length out.new ≡ length out.old) }
{
    for i in 0..markers.len() {
        out[i] = key_at(t, marks::wide(markers[i]));
    }
}

// The parts of a key: id, half, class and form.
pub fn id_of(k: u32) -> u32
    ensures { result ≡ id_key k }
{
    k / 64
}

pub fn half_of(k: u32) -> u32
    ensures { result ≡ half_key k }
{
    k % 8 / 2
}

pub fn class_of(k: u32) -> u32
    ensures { result ≡ class_key k }
{
    k % 64 / 8
}

// PO PC MO MC
pub fn is_form_p(k: u32) -> bool
    ensures { result ≡ form_key k }
{
    k % 2 == 1
}

// The same pair, or the same annotation.
pub fn alike(x: u32, y: u32) -> bool
    ensures { result ≡ alike_keys x y }
{
    x / 8 == y / 8
}

// The other half of the same pair or annotation.
pub fn is_other(x: u32, y: u32) -> bool
    ensures { result ≡ is_other_key x y }
{
    (x / 8 == y / 8)
        & (((x % 8 / 2 == 1) & (y % 8 / 2 == 2)) | ((x % 8 / 2 == 2) & (y % 8 / 2 == 1)))
}
