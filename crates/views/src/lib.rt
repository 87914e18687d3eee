// Items as numbers: what the tests of 7 to 10 ask of an item.
#![tactic(auto)]

ghost use Rattle.std.specs.Prelude.{◌≡◌, true, false};
ghost use Rattle.places.specs.Markers.{item_at};
ghost use Rattle.views.specs.Views.{nothing, code_view, annotation_view, half_number, isolated_class, form_flag, item_view, view_of_read, view_of, is_code};

use table::{Fields, Form, Half, Item, Read, Record};

// The classes and the halves are the specification's numbers, which a key packs (crate keys): an enum of either would be
// turned into them and back.
#[derive(Clone, Copy, Default)]
pub struct View {
    pub class: u8,
    pub half: u8,
    pub pform: bool,
    pub id: u16,
    pub of: u16,
    pub refers: u16,
    pub copy: u8,
    pub delete: u8,
    pub overlap: u8,
    pub reorder: u8,
}

pub fn nothing() -> View
    ensures { result ≡ nothing }
{
    View::default()
}

// The letters lie flat, field by field: the definitions of the rules name each (`view_of`).
pub fn code_view(class: u8, half: u8, pform: bool, f: Fields) -> View
    ensures { result ≡ code_view class half pform f }
{
    let l = f.letters;
    View {
        class,
        half,
        pform,
        id: f.id,
        of: f.copy_of,
        refers: f.data_ref,
        copy: l.copy,
        delete: l.delete,
        overlap: l.overlap,
        reorder: l.reorder,
    }
}

pub fn annotation_view(half: u8, pform: bool, id: u16) -> View
    ensures { result ≡ annotation_view half pform id }
{
    View {
        class: 5,
        half,
        pform,
        id,
        ..nothing()
    }
}

// No `From`: a half gives two numbers, this one and the class of an isolated code.
fn half_number(h: Half) -> u8
    ensures { result ≡ half_number h }
{
    match h {
        Half::Start => 1,
        Half::End => 2,
    }
}

fn isolated_class(h: Half) -> u8
    ensures { result ≡ isolated_class h }
{
    match h {
        Half::Start => 3,
        Half::End => 4,
    }
}

fn form_flag(w: Form) -> bool
    ensures { result ≡ form_flag w }
{
    matches!(w, Form::P)
}

fn item_view(i: Item) -> View
    ensures { result ≡ item_view i }
{
    match i {
        Item::Character(_) => nothing(),
        Item::Standalone(f) => code_view(1, 0, false, f),
        Item::Isolated(h, f) => code_view(isolated_class(h), 0, false, f),
        Item::Pair(w, h, f) => code_view(2, half_number(h), form_flag(w), f),
        Item::AnnotationStart(w, id, _) => annotation_view(1, form_flag(w), id),
        Item::AnnotationEnd(w, id) => annotation_view(2, form_flag(w), id),
    }
}

fn read_view(r: Read) -> View
    ensures { result ≡ view_of_read r }
{
    match r {
        Read::Good(Record::Inline(i), _) => item_view(i),
        _ => nothing(),
    }
}

// The item at an offset; where none is, as a text.
pub fn view_at(t: &[u8], at: usize) -> View
    ensures { result ≡ view_of (item_at t.now at) }
{
    read_view(walker::known_at(t, at))
}

// "a code or half of a pair"
pub fn is_code(x: View) -> bool
    ensures { result ≡ is_code x }
{
    matches!(x.class, 1..=4)
}
