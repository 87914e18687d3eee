// How deep pc and mrk are nested in a table, and the end of a pc.
#![tactic(auto)]

ghost use Rattle.std.specs.Prelude.{◌≡◌, ◌≤◌, drop};
ghost use Rattle.xliff.specs.Parse.{read, unit};
ghost use Rattle.places.specs.Passes.{Passes};
ghost use Rattle.table.specs.Meaning.{item};
ghost use Rattle.xml.specs.Elements.{most_depth};
ghost use Rattle.xml.specs.Write.{too_deep};
ghost use Rattle.xml_nesting.specs.Nesting.{step_of_inline, read_step, is_opening, step_of_item, step_of, depth_after, RecordsAt, EndsWith};

use table::{Form, Half, Item, Read, Record};

// What a record does to the pc and mrk that are open in its content: it opens one more, it closes one, with the dataRef
// that it has there, it does neither, or it is no record of a content.
#[derive(Clone, Copy)]
pub enum Step {
    Opens,
    Closes(u16),
    Stays,
    Ends,
}

fn item_step(i: Item) -> Step
    ensures { result ≡ step_of_inline i }
{
    match i {
        Item::Pair(Form::P, Half::Start, _) | Item::AnnotationStart(Form::P, _, _) => Step::Opens,
        Item::Pair(Form::P, Half::End, f) => Step::Closes(f.data_ref),
        Item::AnnotationEnd(Form::P, _) => Step::Closes(0),
        _ => Step::Stays,
    }
}

// The start of a pc or mrk.
pub fn opens(i: Item) -> bool
    ensures { result ≡ is_opening (step_of_item (item i)) }
{
    matches!(item_step(i), Step::Opens)
}

fn read_step(r: Read) -> Step
    ensures { result ≡ read_step r }
{
    match r {
        Read::Good(Record::Inline(i), _) => item_step(i),
        Read::Good(Record::Text, _) | Read::Ill => Step::Stays,
        _ => Step::Ends,
    }
}

fn step_at(t: &[u8], at: usize) -> Step
    ensures { result ≡ step_of (read (drop at t.now)) }
{
    read_step(walker::known_at(t, at))
}

// How many are open behind a record, if `n` are before it.
fn depth_behind(n: usize, s: Step) -> usize
    requires { n ≤ most_depth }
    ensures { result ≡ depth_after n s }
{
    match s {
        Step::Opens => n + 1,
        Step::Closes(_) => n.saturating_sub(1),
        Step::Stays => n,
        Step::Ends => 0,
    }
}

// Deeper than 32 in one of its contents.
pub fn too_deep(t: &[u8]) -> bool
    requires { Passes t.now }
    ensures { result ≡ too_deep (unit t.now) }
{
    let mut at: usize = 0;
    let mut depth: usize = 0;
    // A loop over an offset: the lent table is read record by record through the walker.
    while at < t.len() {
        depth = depth_behind(depth, step_at(t, at));
        if 32 < depth {
            return true;
        }
        at = walker::after(t, at);
    }
    false
}

// The dataRef of the end of a pc, whose start stands directly before an offset.
// 0 is the table's number for no dataRef, and is handed on as such.
pub fn end_data(t: &[u8], start: usize) -> u16
    requires { RecordsAt t.now start }
    ensures { EndsWith t.now start result }
{
    let mut at = start;
    let mut unclosed: usize = 0;
    // A loop over an offset: the lent table is read record by record through the walker.
    while at < t.len() {
        match step_at(t, at) {
            Step::Opens => unclosed += 1,
            Step::Closes(data_ref) if unclosed == 0 => return data_ref,
            Step::Closes(_) => unclosed -= 1,
            Step::Stays => {}
            Step::Ends => return 0,
        }
        at = walker::after(t, at);
    }
    0
}
