// The inline records but text, as they are written. Their fields are read by `table`.
#![tactic(auto, unfolding(xliff::specs::Encode::record_bytes, xliff::specs::Encode::field_bytes, xliff::specs::Item::mark))]

ghost use Rattle.std.specs.Prelude.{[], ◌∷◌, ◌++◌, ◌≤◌, length};
ghost use Rattle.xliff.specs.Bytes.{two};
ghost use Rattle.xliff.specs.Encode.{inline, record_bytes, code_bytes};
ghost use Rattle.xliff.specs.Item.{isolated, pair, annotation_start, annotation_end};
ghost use Rattle.xliff.specs.Parse.{code_size};
ghost use Rattle.table.specs.Meaning.{half, form, fields, item};
ghost use Rattle.writer.specs.Pieces.{Written, bytes_of_mark};

use table::{Fields, Form, Half, Item};

// The record of a code with this mark.
fn put_code(out: &mut [u8], mark: &[u8; 2], f: Fields) -> usize
    requires { code_size ≤ length out.old }
    ensures { Written (bytes_of_mark mark.now ++ code_bytes (fields f)) out.old result out.new }
{
    let letters = f.letters;
    let id_at = writer::put_mark(out, 0, mark);
    let copy_of_at = writer::put_number(out, id_at, f.id);
    let data_ref_at = writer::put_number(out, copy_of_at, f.copy_of);
    let copy_at = writer::put_number(out, data_ref_at, f.data_ref);
    let delete_at = writer::put_byte(out, copy_at, letters.copy);
    let overlap_at = writer::put_byte(out, delete_at, letters.delete);
    let reorder_at = writer::put_byte(out, overlap_at, letters.overlap);
    writer::put_byte(out, reorder_at, letters.reorder)
}

fn put_isolated(out: &mut [u8], h: Half, f: Fields) -> usize
    requires { code_size ≤ length out.old }
    ensures { Written (record_bytes (inline (isolated (half h) (fields f)))) out.old result out.new }
{
    match h {
        Half::Start => put_code(out, b"IS", f),
        Half::End => put_code(out, b"IE", f),
    }
}

fn put_pair(out: &mut [u8], w: Form, h: Half, f: Fields) -> usize
    requires { code_size ≤ length out.old }
    ensures { Written (record_bytes (inline (pair (half h) (form w) (fields f)))) out.old result out.new }
{
    match (w, h) {
        (Form::P, Half::Start) => put_code(out, b"PO", f),
        (Form::P, Half::End) => put_code(out, b"PC", f),
        (Form::S, Half::Start) => put_code(out, b"SC", f),
        (Form::S, Half::End) => put_code(out, b"EC", f),
    }
}

fn put_character(out: &mut [u8], c: u32) -> usize
    requires { code_size ≤ length out.old }
    ensures { Written (record_bytes (inline (item (Item.Character c)))) out.old result out.new }
{
    let high_at = writer::put_mark(out, 0, b"CP");
    let low_at = writer::put_number(out, high_at, (c / 65536) as u16);
    writer::put_number(out, low_at, (c % 65536) as u16)
}

// The record of an annotation's end with this mark.
fn put_id(out: &mut [u8], mark: &[u8; 2], id: u16) -> usize
    requires { code_size ≤ length out.old }
    ensures { Written (bytes_of_mark mark.now ++ two id) out.old result out.new }
{
    let id_at = writer::put_mark(out, 0, mark);
    writer::put_number(out, id_at, id)
}

// The record of an annotation's start with this mark.
fn put_translate(out: &mut [u8], mark: &[u8; 2], id: u16, translate: u8) -> usize
    requires { code_size ≤ length out.old }
    ensures { Written (bytes_of_mark mark.now ++ two id ++ (translate ∷ [])) out.old result out.new }
{
    let translate_at = put_id(out, mark, id);
    writer::put_byte(out, translate_at, translate)
}

fn put_annotation_start(out: &mut [u8], w: Form, id: u16, translate: u8) -> usize
    requires { code_size ≤ length out.old }
    ensures { Written (record_bytes (inline (annotation_start (form w) id translate))) out.old result out.new }
{
    match w {
        Form::P => put_translate(out, b"MO", id, translate),
        Form::S => put_translate(out, b"SM", id, translate),
    }
}

fn put_annotation_end(out: &mut [u8], w: Form, id: u16) -> usize
    requires { code_size ≤ length out.old }
    ensures { Written (record_bytes (inline (annotation_end (form w) id))) out.old result out.new }
{
    match w {
        Form::P => put_id(out, b"MC", id),
        Form::S => put_id(out, b"EM", id),
    }
}

// The record of an item, at the head of `out`; its width.
pub fn put_item(out: &mut [u8], x: Item) -> usize
    requires { code_size ≤ length out.old }
    ensures { Written (record_bytes (inline (item x))) out.old result out.new }
{
    match x {
        Item::Character(c) => put_character(out, c),
        Item::Standalone(f) => put_code(out, b"PH", f),
        Item::Isolated(h, f) => put_isolated(out, h, f),
        Item::Pair(w, h, f) => put_pair(out, w, h, f),
        Item::AnnotationStart(w, id, translate) => put_annotation_start(out, w, id, translate),
        Item::AnnotationEnd(w, id) => put_annotation_end(out, w, id),
    }
}
