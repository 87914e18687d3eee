// A table built in a lent array of the greatest length that a table has: record by record and, within a text, code
// point by code point. Beyond a limit of a table nothing more is written, and that is told.
#![tactic(auto)]

ghost use Rattle.std.specs.Prelude.{[], ◌≡◌, false, ◌+◌, ◌≤◌, length};
ghost use Rattle.xliff.specs.Parse.{most_bytes, most_records, most_parts};

use limits::{MOST_BYTES, MOST_PARTS, MOST_RECORDS};

// The array, how many bytes, records and parts the table has so far, how many bytes of text stand last (none behind any
// other record), and whether a limit is passed. A text that stands last has its mark and its length before it.
#[derive(Drop)]
pub struct TableBuilder<'a> {
    table: &'a mut [u8],
    used: usize,
    records: usize,
    parts: usize,
    // A count and no Option: a text that stands last has at least one code point.
    text: usize,
    // A flag and no Result of each step: beyond a limit a step writes nothing, so who builds may go on.
    over: bool,
    pub ghost room: { length table.now ≡ most_bytes },
    pub ghost inside: { used ≤ most_bytes },
    pub ghost few_records: { records ≤ most_records },
    pub ghost few_parts: { parts ≤ most_parts },
    pub ghost text_inside: { 1 ≤ text → text + 4 ≤ used },
}

impl<'a> TableBuilder<'a> {
    ghost use Rattle.table_builder.specs.Building.{Lent, SameLoan, Holds, RecordPut, CodePointPut, Grows, TableTold};

    // Nothing as yet.
    pub fn new(table: &'a mut [u8]) -> TableBuilder<'a>
        requires { length table.old ≡ most_bytes }
        ensures holds { Holds result [] [] }
        ensures lent { Lent table.entry result }
    {
        TableBuilder {
            table,
            used: 0,
            records: 0,
            parts: 0,
            text: 0,
            over: false,
        }
    }

    // Whether a limit is passed.
    pub fn is_over(&self) -> bool
        ensures { result ≡ self.now.over }
    {
        self.over
    }

    // The table, unless a limit is passed.
    pub fn table(&self) -> Option<&[u8]>
        ensures { TableTold self.now result }
    {
        if self.over {
            return None;
        }
        Some(&self.table[..self.used])
    }

    // A record behind what is built; whether it is the head of a part.
    pub fn put_record(&mut self, bytes: &[u8], heads_part: bool)
        ensures put { RecordPut self.old bytes.now heads_part self.new }
        ensures grows { Grows self.old bytes.now self.new }
        ensures same { SameLoan self.old self.new }
    {
        if self.over {
            return;
        }
        if (MOST_BYTES - self.used < bytes.len())
            | ((self.records == MOST_RECORDS) | (heads_part & (self.parts == MOST_PARTS)))
        {
            self.over = true;
            return;
        }
        let used = self.used;
        let wrote = writer::put(&mut self.table[used..], bytes);
        self.text = 0;
        self.used = used + wrote;
        self.records += 1;
        self.parts += usize::from(heads_part);
    }

    // The first code point of a text.
    fn put_first(&mut self, c: u32)
        requires { (c ≤ 0x10FFFF) × (self.old.over ≡ false) × (self.old.text ≡ 0) }
        ensures put { CodePointPut self.old c self.new }
        ensures same { SameLoan self.old self.new }
    {
        let wide = utf8::width(c);
        let mut bytes = [0u8; 8];
        let length_at = writer::put_mark(&mut bytes, 0, b"TX");
        let text_at = writer::put_number(&mut bytes, length_at, wide as u16);
        let end = utf8::put_code_point(&mut bytes, text_at, c);
        self.put_record(&bytes[..end], false);
        if !self.over {
            self.text = wide;
        }
    }

    // A further one.
    fn put_further(&mut self, c: u32)
        requires { (c ≤ 0x10FFFF) × (self.old.over ≡ false) × (1 ≤ self.old.text) }
        ensures put { CodePointPut self.old c self.new }
        ensures same { SameLoan self.old self.new }
    {
        let wide = utf8::width(c);
        if MOST_BYTES - self.used < wide {
            self.over = true;
            return;
        }
        let long = self.text + wide;
        let end = utf8::put_code_point(self.table, self.used, c);
        let length_at = end - long - 2;
        let text_at = writer::put_number(self.table, length_at, long as u16);
        self.used = end;
        self.text = long;
    }

    // A code point behind what is built: in the text that stands last, or in a new one.
    pub fn put_code_point(&mut self, c: u32)
        requires { c ≤ 0x10FFFF }
        ensures put { CodePointPut self.old c self.new }
        ensures same { SameLoan self.old self.new }
    {
        if self.over {
            return;
        }
        if self.text == 0 {
            self.put_first(c);
        } else {
            self.put_further(c);
        }
    }
}
