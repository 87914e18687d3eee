// The records of a lent table or content, one by one: a struct of the slice and the offset of the next record. Its
// methods leave the work to functions on a slice and an offset.
#![tactic(auto)]

ghost use Rattle.std.specs.Prelude.{◌≡◌, drop};
ghost use Rattle.table.specs.Known.{Known};
ghost use Rattle.glance.specs.Glances.{Glanced};
ghost use Rattle.walker.specs.Offsets.{ReadAt, After, MarkAt, WidthAt};

use glance::Glance;
use marks::Mark;
use table::Read;

// Over the lent table: the slice, and the offset of the next record.
#[derive(Clone, Copy)]
pub struct Walker<'a> {
    pub table: &'a [u8],
    pub next: usize,
}

// The offset behind the record at `at`, which was read before; `at` where none is good.
// No Option: `After` adds the specification's width, which is 0 where no record is good.
fn after_at(t: &[u8], at: usize) -> usize
    ensures { After t.now at result }
{
    if t.len() < at {
        return at;
    }
    at + table::known_width(&t[at..])
}

// The mark of the record at `at`.
fn mark_there(t: &[u8], at: usize) -> Mark
    ensures { MarkAt t.now at result }
{
    if t.len() < at {
        return Mark::Unknown;
    }
    marks::mark_of(&t[at..])
}

// How many bytes the record at `at` takes, by its mark; 0 where fewer than four are left, as
// `size_of` has for no mark.
fn width_there(t: &[u8], at: usize) -> usize
    ensures { WidthAt t.now at result }
{
    if t.len() < at {
        return 0;
    }
    if t.len() - at < 4 {
        return 0;
    }
    marks::width_of(&t[at..])
}

impl<'a> Walker<'a> {
    pub fn new(table: &'a [u8], next: usize) -> Walker<'a>
        ensures { (result.table ≡ table.entry) × (result.next ≡ next) }
    {
        Walker { table, next }
    }

    // The next record.
    pub fn record(self) -> Read
        ensures { ReadAt self.entry.table.now self.entry.next result }
    {
        table::record_at(self.table, self.next)
    }

    // The next record, which was read before.
    pub fn known(self) -> Read
        ensures { Known (drop self.entry.next self.entry.table.now) result }
    {
        table::known_at(self.table, self.next)
    }

    // A glance at the next record, which was read before.
    pub fn glance(self) -> Glance
        ensures { Glanced (drop self.entry.next self.entry.table.now) result }
    {
        glance::glance_at(self.table, self.next)
    }

    // The mark of the next record.
    pub fn mark(self) -> Mark
        ensures { MarkAt self.entry.table.now self.entry.next result }
    {
        mark_there(self.table, self.next)
    }

    // How many bytes the next record takes, by its mark.
    pub fn width(self) -> usize
        ensures { WidthAt self.entry.table.now self.entry.next result }
    {
        width_there(self.table, self.next)
    }

    // The walker behind its record, which was read before.
    pub fn passed(self) -> Walker<'a>
        ensures { (result.table ≡ self.entry.table) × After self.entry.table.now self.entry.next result.next }
    {
        Walker {
            table: self.table,
            next: after_at(self.table, self.next),
        }
    }
}

// What callers use: their proofs have no walk.
pub fn record_at(t: &[u8], at: usize) -> Read
    ensures { ReadAt t.now at result }
{
    Walker::new(t, at).record()
}

pub fn known_at(t: &[u8], at: usize) -> Read
    ensures { Known (drop at t.now) result }
{
    Walker::new(t, at).known()
}

pub fn glance_at(t: &[u8], at: usize) -> Glance
    ensures { Glanced (drop at t.now) result }
{
    Walker::new(t, at).glance()
}

pub fn mark_at(t: &[u8], at: usize) -> Mark
    ensures { MarkAt t.now at result }
{
    Walker::new(t, at).mark()
}

pub fn width_at(t: &[u8], at: usize) -> usize
    ensures { WidthAt t.now at result }
{
    Walker::new(t, at).width()
}

pub fn after(t: &[u8], at: usize) -> usize
    ensures { After t.now at result }
{
    Walker::new(t, at).passed().next
}
