// Rule 6. An id and its owner are one number, its key: 64 times the id, plus 1 for a part, 2 for the source, 3 for a
// target. The links of crate id_links are by such numbers: an enum of owners would be turned into them and back.
#![tactic(auto)]

ghost use Rattle.std.specs.Prelude.{◌≡◌, ◌+◌, ◌<◌, ◌≤◌, length, take, set};
ghost use Rattle.answers.specs.Answers.{refusal_at};
ghost use Rattle.xliff.specs.Bytes.{any};
ghost use Rattle.xliff.specs.Parse.{unit, most_records};
ghost use Rattle.xliff.specs.Rules.{fault_6};
ghost use Rattle.places.specs.Passes.{Passes};
ghost use Rattle.glance.specs.Glances.{kind_of};
ghost use Rattle.ids.specs.Keys.{Keyed, PairKeyed, ItemKeyed, HeadKeyed, RecordKeyed, ReadKeyed, clash_test, name_by, owner_by, NameAt, Meets};
ghost use Rattle.ids.specs.KeyLinks.{Links};

use glance::Head;
use limits::MOST_RECORDS;
use table::{Fields, Half, Item, Read, Record};

fn key(o: u32, id: u16) -> u32
    requires { o ≤ 3 }
    ensures { Keyed o id result }
{
    marks::wide_to_u32(id) * 64 + o
}

fn pair_key(o: u32, h: Half, f: Fields) -> Option<u32>
    requires { o ≤ 3 }
    ensures { PairKeyed o h f result }
{
    match h {
        Half::Start => Some(key(o, f.id)),
        Half::End => None,
    }
}

// The key of the id that an item gives, where it gives one.
fn item_key(o: u32, i: Item) -> Option<u32>
    requires { o ≤ 3 }
    ensures { ItemKeyed o i result }
{
    match i {
        Item::Standalone(f) => Some(key(o, f.id)),
        Item::Isolated(_, f) => Some(key(o, f.id)),
        Item::Pair(_, h, f) => pair_key(o, h, f),
        Item::AnnotationStart(_, id, _) => Some(key(o, id)),
        Item::AnnotationEnd(_, _) => None,
        Item::Character(_) => None,
    }
}

fn head_key(id: u16) -> Option<u32>
    ensures { HeadKeyed id result }
{
    if id == 0 { None } else { Some(key(1, id)) }
}

fn record_key(o: u32, x: Record) -> Option<u32>
    requires { o ≤ 3 }
    ensures { RecordKeyed o x result }
{
    match x {
        Record::Segment(f) => head_key(f.id),
        Record::Ignorable(id) => head_key(id),
        Record::Inline(i) => item_key(o, i),
        _ => None,
    }
}

fn key_of(o: u32, r: Read) -> Option<u32>
    requires { o ≤ 3 }
    ensures { ReadKeyed o r result }
{
    match r {
        Read::Good(x, _) => record_key(o, x),
        _ => None,
    }
}

// The key of the id that a marker gives, by the marker's own key: none where it is an end.
fn name_by(o: u32, k: u32) -> Option<u32>
    requires { o ≤ 3 }
    ensures { result ≡ name_by o k }
{
    if (keys::class_of(k) == 0) | (keys::half_of(k) == 2) {
        return None;
    }
    Some(keys::id_of(k) * 64 + o)
}

// The key of the id that the record at an offset gives.
fn name_at(t: &[u8], at: usize, head: Head, o: u32) -> Option<u32>
    requires { o ≤ 3 }
    ensures { NameAt t.now at (kind_of head) o result }
{
    if head.is_part() {
        return key_of(o, walker::known_at(t, at));
    }
    name_by(o, keys::key_at(t, at))
}

// Whose ids come next: 2 for the source after SG and IG, 3 for a target after TG.
fn owner_by(head: Head, o: u32) -> u32
    ensures { result ≡ owner_by (kind_of head) o }
{
    match head {
        Head::Part => 2,
        Head::Target(_) => 3,
        Head::Other => o,
    }
}

fn clash_with(a: u32, b: u32) -> bool
    ensures { result ≡ clash_test a b }
{
    if a / 64 != b / 64 {
        return false;
    }
    let m = a % 64;
    let n = b % 64;
    !(((m == 2) & (n == 3)) | ((m == 3) & (n == 2)))
}

// The ids met so far, by their keys at the front, linked by their groups.
#[derive(Drop)]
struct MetIds {
    keys: [u32; MOST_RECORDS],
    links: [u16; MOST_RECORDS],
    heads: [u16; 256],
    count: usize,
    ghost fits: { (count ≤ most_records) × (length keys ≡ most_records) },
    ghost linked: { Links (take count keys) links heads },
}

impl MetIds {
    fn new() -> MetIds
        ensures { result.count ≡ 0 }
    {
        MetIds {
            keys: [0; MOST_RECORDS],
            links: [0; MOST_RECORDS],
            heads: [0; 256],
            count: 0,
        }
    }

    // Whether an id clashes with one that was met: along the links of its group.
    fn clashes(&self, k: u32) -> bool
        ensures { result ≡ any (clash_test k) (take self.now.count self.now.keys) }
    {
        let keys = &self.keys[..self.count];
        let mut j = marks::wide(self.heads[id_links::group_of(k)]);
        // Along the links, which count nothing.
        while 0 < j {
            if clash_with(k, keys[j - 1]) {
                return true;
            }
            j = marks::wide(self.links[j - 1]);
        }
        false
    }

    // One more id.
    fn add(&mut self, k: u32)
        requires { self.old.count < most_records }
        ensures { (self.new.count ≡ self.old.count + 1) × (self.new.keys ≡ set self.old.keys self.old.count k) }
    {
        self.keys[self.count] = k;
        id_links::link(&mut self.links, &mut self.heads, self.count, k);
        self.count += 1;
    }

    // Whether an id clashes with one that was met; else it is met now.
    fn meets(&mut self, name: Option<u32>) -> bool
        requires { self.old.count < most_records }
        ensures { Meets self.old.keys self.old.count name result self.new.keys self.new.count }
    {
        let Some(k) = name else {
            return false;
        };
        if self.clashes(k) {
            return true;
        }
        self.add(k);
        false
    }
}

// Rule 6. Linear: each id is compared with those before it whose last eight bits are the same; quadratic only if they
// are of all.
pub fn rule_6(t: &[u8]) -> Option<usize>
    requires { Passes t.now }
    ensures { refusal_at 6 result ≡ fault_6 (unit t.now).parts }
{
    let mut ids = MetIds::new();
    let mut o: u32 = 2;
    let mut at: usize = 0;
    // The lent table is read record by record through the walker.
    while at < t.len() {
        let g = walker::glance_at(t, at);
        if ids.meets(name_at(t, at, g.head, o)) {
            return Some(at);
        }
        o = owner_by(g.head, o);
        at += g.width;
    }
    None
}
