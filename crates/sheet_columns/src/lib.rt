// A row of a column of the review sheet.
#![tactic(auto)]

ghost use Rattle.std.specs.Prelude.{◌≡◌, ◌<◌, length};
ghost use Rattle.sheet_columns.specs.Filled.{SomeAhead, Going, goes_on, Filled, ItemNext, RecordNext, PutRow};

use draft::Draft;
use table::{Item, Read, Record};

// Where a column goes on: the offset of the next item in its content, and the bytes left of the text that it stands
// in; 0 where a record begins, so no flag is needed beside it.
#[derive(Clone, Copy)]
pub struct Cursor {
    pub at: usize,
    pub left: usize,
}

// A row that is being filled: where the content goes on, the cells that are left, and whether the next item does not
// fit.
#[derive(Clone, Copy)]
struct Filling {
    next: Cursor,
    room: usize,
    // No case of `room`: the cells left are written as blanks also where the next item does not fit.
    full: bool,
}

impl Filling {
    // Whether the row takes more of a content of `n` bytes.
    fn goes_on(&self, n: usize) -> bool
        ensures { result ≡ goes_on self.now n }
    {
        !self.full & ((0 < self.room) & (self.next.at < n))
    }

    // Code points of the text that the row has come to: as many as there are cells.
    // The row does not hold the content, which is lent to each step: so Going is asked by each.
    fn put_points(&mut self, draft: &mut Draft, c: &[u8])
        requires { Going c.now self.old × (0 < self.old.next.left) × (0 < self.old.room) }
        ensures { Filled c.now self.old draft.old self.new draft.new }
    {
        let at = self.next.at;
        let end = at + self.next.left;
        let points = text::points::pass_points(&c[at..end], self.room);
        let next = at + points.bytes;
        sheet_forms::put_text(draft, &c[at..next]);
        self.next = Cursor {
            at: next,
            left: end - next,
        };
        self.room = points.left;
    }

    // An inline record other than text, which takes `w` bytes: shown if it fits whole. Its form stands in an array
    // first, since its cells are counted before a byte of it is written.
    fn put_marker(&mut self, draft: &mut Draft, c: &[u8], i: Item, w: usize)
        requires { Going c.now self.old × (self.old.next.left ≡ 0) × ItemNext c.now self.old.next.at i w }
        ensures { Filled c.now self.old draft.old self.new draft.new }
    {
        let mut piece = [0u8; sheet_forms::FORM_BYTES];
        let cells = sheet_forms::put_item(&mut piece, i);
        if self.room < cells {
            self.full = true;
            return;
        }
        draft.put(&piece[..cells]);
        self.next.at += w;
        self.room -= cells;
    }

    // The record `x`, which takes `w` bytes. A text is entered; no head of a part or of a target stands in a content.
    fn put_record(&mut self, draft: &mut Draft, c: &[u8], x: Record, w: usize)
        requires { Going c.now self.old × (self.old.next.left ≡ 0) × RecordNext c.now self.old.next.at x w }
        ensures { Filled c.now self.old draft.old self.new draft.new }
    {
        match x {
            Record::Text => {
                self.next = Cursor {
                    at: self.next.at + marks::TEXT_WIDTH,
                    left: w - marks::TEXT_WIDTH,
                };
            }
            Record::Inline(i) => self.put_marker(draft, c, i, w),
            _ => {}
        }
    }

    // The next items: code points of the text that the row has come to, or one record.
    fn put_next(&mut self, draft: &mut Draft, c: &[u8])
        requires { Going c.now self.old × (0 < self.old.room) × (self.old.next.at < length c.now) }
        ensures { Filled c.now self.old draft.old self.new draft.new }
    {
        if 0 < self.next.left {
            self.put_points(draft, c);
            return;
        }
        if let Read::Good(x, w) = walker::known_at(c, self.next.at) {
            self.put_record(draft, c, x, w);
        }
    }
}

// The next row of the column that shows a content, with its padding; where the column goes on behind it.
pub fn put_row(draft: &mut Draft, c: &[u8], from: Cursor) -> Cursor
    requires { SomeAhead c.now from }
    ensures { PutRow c.now from draft.old draft.new result }
{
    let mut row = Filling {
        next: from,
        room: sheet_forms::COLUMN_CELLS,
        full: false,
    };
    // A loop over an offset: the lent content is read record by record through the walker.
    while row.goes_on(c.len()) {
        row.put_next(draft, c);
    }
    sheet_forms::put_blanks(draft, row.room);
    row.next
}
