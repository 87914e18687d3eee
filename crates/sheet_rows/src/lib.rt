// The rows of the review sheet, part by part.
#![tactic(auto)]

ghost use Rattle.std.specs.Prelude.{◌≡◌};
ghost use Rattle.xliff.specs.Desk.{decimal};
ghost use Rattle.xliff.specs.Parse.{unit};
ghost use Rattle.places.specs.Passes.{Passes};
ghost use Rattle.cut.specs.Halves.{Some};
ghost use Rattle.part_at.specs.Stands.{Standing};
ghost use Rattle.draft.specs.Drafts.{Wrote};
ghost use Rattle.sheet.specs.Sheet.{id_cells, sheet_bytes};
ghost use Rattle.sheet_columns.specs.Filled.{SomeAhead};
ghost use Rattle.sheet_rows.specs.Rows.{margin, ReadMargin, goes_on, PutColumns, PutContents, PutPart};

use draft::Draft;
use part_at::PartPlace;
use sheet_columns::Cursor;
use table::{Read, Record};

// The two columns of a part side by side: where each goes on behind a row.
#[derive(Clone, Copy)]
struct Columns {
    source: Cursor,
    target: Cursor,
}

impl Columns {
    // Whether a column goes on: the source's, of `n` bytes, or the target's, of `m`.
    fn goes_on(&self, n: usize, m: usize) -> bool
        ensures { result ≡ goes_on self.now n m }
    {
        (self.source.at < n) | (self.target.at < m)
    }

    // The source and target columns of a row, and the line feed.
    fn put_row(&mut self, draft: &mut Draft, source: &[u8], target: &[u8])
        requires { SomeAhead source.now self.old.source × SomeAhead target.now self.old.target }
        ensures { PutColumns source.now target.now self.old draft.old self.new draft.new }
    {
        self.source = sheet_columns::put_row(draft, source, self.source);
        draft.put(b" ");
        self.target = sheet_columns::put_row(draft, target, self.target);
        draft.put(b"\n");
    }
}

// The first three columns of a row, with a blank behind each.
fn put_margin(draft: &mut Draft, n: usize, id: u16, state: &[u8])
    ensures { Wrote (margin (decimal n) (id_cells id) state.now) draft.old draft.new }
{
    sheet_forms::put_number(draft, n, 3);
    draft.put(b" ");
    sheet_forms::put_id(draft, id, 5);
    draft.put(b" ");
    sheet_forms::put_padded(draft, state, 1);
    draft.put(b" ");
}

// Those of the first row of a part whose head was read.
fn put_head(draft: &mut Draft, n: usize, r: Read)
    ensures { ReadMargin n r draft.old draft.new }
{
    match r {
        Read::Good(Record::Segment(f), _) => put_margin(draft, n, f.id, &[f.state]),
        Read::Good(Record::Ignorable(id), _) => put_margin(draft, n, id, b""),
        _ => {}
    }
}

// The rows of a part behind the margin of its first: its two contents side by side.
fn put_contents(draft: &mut Draft, source: &[u8], target: &[u8])
    requires { Some source.now × Some target.now }
    ensures { PutContents source.now target.now draft.old draft.new }
{
    let start = Cursor { at: 0, left: 0 };
    let mut columns = Columns {
        source: start,
        target: start,
    };
    columns.put_row(draft, source, target);
    // From row to row: each takes of both contents what fits.
    while columns.goes_on(source.len(), target.len()) {
        sheet_forms::put_blanks(draft, 12);
        columns.put_row(draft, source, target);
    }
}

// All rows of the part at `place`, which is number `n`.
fn put_part(draft: &mut Draft, t: &[u8], n: usize, place: PartPlace)
    requires { Standing t.now place }
    ensures { PutPart t.now n place draft.old draft.new }
{
    put_head(draft, n, walker::known_at(t, place.head));
    put_contents(draft, place.source_of(t), place.target_of(t));
}

// The sheet of a table that passed the check.
pub fn put_sheet(draft: &mut Draft, t: &[u8])
    requires { Passes t.now }
    ensures { Wrote (sheet_bytes (unit t.now)) draft.old draft.new }
{
    let mut at = marks::UNIT_WIDTH;
    let mut n: usize = 1;
    // A loop over an offset: the lent table is read record by record through the walker.
    while part_at::starts_part(t, at) {
        let place = part_at::part_from(t, at);
        put_part(draft, t, n, place);
        at = place.end;
        n += 1;
    }
}
