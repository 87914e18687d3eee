// What stands in a row of the review sheet: the shown forms of inline records, texts, numbers, blanks.
#![tactic(auto)]

ghost use Rattle.std.specs.Prelude.{◌≡◌, ◌∷◌, ◌++◌, map, ◌≤◌, length, replicate};
ghost use Rattle.xliff.specs.Desk.{decimal, blank};
ghost use Rattle.writer.specs.Pieces.{Written};
ghost use Rattle.table.specs.Meaning.{half, item};
ghost use Rattle.draft.specs.Drafts.{Wrote};
ghost use Rattle.sheet.specs.Column.{left_brace, cell, start_form, end_form, shown};
ghost use Rattle.sheet.specs.Sheet.{id_cells, right_aligned, padded};
ghost use Rattle.sheet_forms.specs.Forms.{half_form};

use draft::Draft;
use table::{Half, Item};

// The cells of a column that shows a content.
pub const COLUMN_CELLS: usize = 33;

// As many bytes as a column's cells take at most: a code point takes one to four.
pub const COLUMN_BYTES: usize = 132;

// The longest shown form has a brace on both sides of a number, for which twenty digits are lent.
pub const FORM_BYTES: usize = 22;

// {7
// 21 or 22 bytes are asked by each writer: a piece may be the rest of an array, so no array type says it.
fn put_start(piece: &mut [u8], id: u16) -> usize
    requires { 21 ≤ length piece.old }
    ensures { Written (start_form id) piece.old result piece.new }
{
    let brace = writer::put(piece, b"{");
    let digits = lines::put_decimal(&mut piece[brace..], marks::wide(id));
    brace + digits
}

// 7}
fn put_end(piece: &mut [u8], id: u16) -> usize
    requires { 21 ≤ length piece.old }
    ensures { Written (end_form id) piece.old result piece.new }
{
    let digits = lines::put_decimal(piece, marks::wide(id));
    let brace = writer::put(&mut piece[digits..], b"}");
    digits + brace
}

// {7}
fn put_standalone(piece: &mut [u8], id: u16) -> usize
    requires { 22 ≤ length piece.old }
    ensures { Written (left_brace ∷ end_form id) piece.old result piece.new }
{
    let brace = writer::put(piece, b"{");
    let end = put_end(&mut piece[brace..], id);
    brace + end
}

fn put_half(piece: &mut [u8], h: Half, id: u16) -> usize
    requires { 21 ≤ length piece.old }
    ensures { Written (half_form (half h) id) piece.old result piece.new }
{
    match h {
        Half::Start => put_start(piece, id),
        Half::End => put_end(piece, id),
    }
}

// The shown form of an inline record other than text, at the head of `piece`; a byte for each of its cells.
pub fn put_item(piece: &mut [u8], i: Item) -> usize
    requires { 22 ≤ length piece.old }
    ensures { Written (shown (item i)) piece.old result piece.new }
{
    match i {
        Item::Character(_) => writer::put(piece, b"#"),
        Item::Standalone(f) => put_standalone(piece, f.id),
        Item::Isolated(h, f) | Item::Pair(_, h, f) => put_half(piece, h, f.id),
        Item::AnnotationStart(_, id, _) => put_half(piece, Half::Start, id),
        Item::AnnotationEnd(_, id) => put_half(piece, Half::End, id),
    }
}

// Tab, line feed and return as a full stop.
fn cell_of(b: u8) -> u8
    ensures { result ≡ cell b }
{
    match b {
        b'\t' | b'\n' | b'\r' => b'.',
        _ => b,
    }
}

// The cells of a piece of a text, no longer than a column's cells may be, filled in an array and written at once.
fn put_cells(draft: &mut Draft, piece: &[u8])
    requires { length piece.now ≤ 132 }
    ensures { Wrote (map cell piece.now) draft.old draft.new }
{
    let mut cells = [0u8; COLUMN_BYTES];
    for i in 0..piece.len() {
        cells[i] = cell_of(piece[i]);
    }
    draft.put(&cells[..piece.len()]);
}

// A text. A byte of a code point that takes more than one is above 127 and stays.
pub fn put_text(draft: &mut Draft, text: &[u8])
    ensures { Wrote (map cell text.now) draft.old draft.new }
{
    for piece in text.chunks(COLUMN_BYTES) {
        put_cells(draft, piece);
    }
}

// As many blanks as a column has cells are written at once, and the rest behind them.
pub fn put_blanks(draft: &mut Draft, n: usize)
    ensures { Wrote (replicate n blank) draft.old draft.new }
{
    let blanks = [b' '; COLUMN_CELLS];
    // `i` and not `_`: the proof's invariant tells by `i` how many blanks there are.
    for i in 0..n / COLUMN_CELLS {
        draft.put(&blanks);
    }
    draft.put(&blanks[..n % COLUMN_CELLS]);
}

// Bytes between blanks.
fn put_between(draft: &mut Draft, before: usize, bytes: &[u8], behind: usize)
    ensures { Wrote (replicate before blank ++ (bytes.now ++ replicate behind blank)) draft.old draft.new }
{
    put_blanks(draft, before);
    draft.put(bytes);
    put_blanks(draft, behind);
}

// A number in decimal, right-aligned.
// The digits' array and their number: fixed memory.
pub fn put_number(draft: &mut Draft, n: usize, cells: usize)
    ensures { Wrote (right_aligned cells (decimal n)) draft.old draft.new }
{
    let mut digits = [0u8; 20];
    let k = lines::put_decimal(&mut digits, n);
    put_between(draft, cells.saturating_sub(k), &digits[..k], 0);
}

// An id, right-aligned; 0 is blank.
pub fn put_id(draft: &mut Draft, id: u16, cells: usize)
    ensures { Wrote (right_aligned cells (id_cells id)) draft.old draft.new }
{
    if id == 0 {
        put_blanks(draft, cells);
    } else {
        put_number(draft, marks::wide(id), cells);
    }
}

// Bytes, left-aligned.
pub fn put_padded(draft: &mut Draft, bytes: &[u8], cells: usize)
    ensures { Wrote (padded cells bytes.now) draft.old draft.new }
{
    put_between(draft, 0, bytes, cells.saturating_sub(bytes.len()));
}
