// Rule 10: codes of targets match those of the source.
// Throughout, `t` is the table, `source` and `target` the markers of the source and the target sequence.
#![tactic(auto)]

ghost use Rattle.std.specs.Prelude.{◌≡◌, [], ◌<◌, length, get_or};
ghost use Rattle.answers.specs.Answers.{refusal_at, toward};
ghost use Rattle.views.specs.Views.{items_of_markers};
ghost use Rattle.keys.specs.Keys.{keys_at};
ghost use Rattle.source_match.specs.Ten.{
  view_starts_id,
  other_class_view,
  agrees_with,
  may_copy_view,
  matches_of,
  matches_by,
  matches_in,
  none_found,
  joined,
  bad_ten_source,
  copies_none,
  bad_ten_target,
  LinkedItems,
};
ghost use Rattle.xliff.specs.Sequences.{blamed, first_of};
ghost use Rattle.xliff.specs.Rules.{bad_10_source, bad_10_target, fault_10};
ghost use Rattle.xliff.specs.Parse.{unit};
ghost use Rattle.sequences.specs.Markers.{Sequences};
ghost use Rattle.places.specs.Markers.{item_at, placed_at};

use keys::Sequence;
use limits::MOST_RECORDS;
use views::View;

// Whether `y` gives the id of `x`.
fn starts_id(x: View, y: View) -> bool
    ensures { result ≡ view_starts_id x y }
{
    (!(y.class == 0) & !(y.half == 2)) & (y.id == x.id)
}

// Whether `y` gives the id of `x` in another class.
fn is_of_other_class(x: View, y: View) -> bool
    ensures { result ≡ other_class_view x y }
{
    starts_id(x, y) & !(x.class == y.class)
}

// Whether `y` is the like of `x` in the source.
// Field by field: the rule compares neither `of` nor `pform`.
fn agrees_with(x: View, y: View) -> bool
    ensures { result ≡ agrees_with x y }
{
    let letters = (x.refers == y.refers)
        & ((x.copy == y.copy)
            & ((x.delete == y.delete) & ((x.overlap == y.overlap) & (x.reorder == y.reorder))));
    (((x.class == y.class) & (x.id == y.id)) & (x.half == y.half)) & letters
}

// Whether `y` is what `x` may be a copy of.
fn may_copy(x: View, y: View) -> bool
    ensures { result ≡ may_copy_view x y }
{
    (x.class == y.class) & ((x.of == y.id) & (y.copy == b'Y'))
}

// Which of the four tests some item passes.
#[derive(Clone, Copy)]
pub struct Matches {
    pub starts: bool,
    pub differs: bool,
    pub agrees: bool,
    pub copies: bool,
}

impl Matches {
    fn none() -> Matches
        ensures { result ≡ none_found }
    {
        Matches {
            starts: false,
            differs: false,
            agrees: false,
            copies: false,
        }
    }

    fn of(x: View, y: View) -> Matches
        ensures { result ≡ matches_of x y }
    {
        Matches {
            starts: starts_id(x, y),
            differs: is_of_other_class(x, y),
            agrees: agrees_with(x, y),
            copies: may_copy(x, y),
        }
    }

    // The tests that some item of either passes.
    fn join(self, other: Matches) -> Matches
        ensures { result ≡ joined self other }
    {
        Matches {
            starts: self.starts | other.starts,
            differs: self.differs | other.differs,
            agrees: self.agrees | other.agrees,
            copies: self.copies | other.copies,
        }
    }
}

// The items at the markers of a sequence, their keys linked by the groups of their ids (`id_links`).
#[derive(Clone, Copy)]
struct LinkedItems<'a> {
    t: &'a [u8],
    sequence: Sequence<'a>,
    links: &'a [u16],
    heads: &'a [u16],
    ghost linked: { LinkedItems t.now sequence.markers.now sequence.keys.now links.now heads.now },
}

impl LinkedItems<'_> {
    // The tests of one more item, that at the index `i`. Only where its id is `id` is the table read.
    fn one_more(self, i: usize, id: u16, x: View, found: Matches) -> Matches
        requires { i < length self.sequence.markers.now }
        ensures { result ≡ joined found
            (matches_by id x (item_at self.entry.t.now (get_or self.entry.sequence.markers.now i 0))) }
    {
        let k = self.sequence.keys[i];
        if !(keys::id_of(k) == u32::from(id)) {
            return found;
        }
        let at = marks::wide(self.sequence.markers[i]);
        found.join(Matches::of(x, keys::view_at(self.t, at, k)))
    }

    // The tests of all items whose id is `id`.
    // Linear in the items of the group of `id`, from the last on along the links: no range counts them, and 0 ends
    // them, since heads and links are arrays of two-byte numbers in fixed memory.
    fn matches_by(self, id: u16, x: View) -> Matches
        ensures { result ≡ matches_in id x (items_of_markers self.entry.t.now self.entry.sequence.markers.now) }
    {
        let mut found = Matches::none();
        let mut j = marks::wide(self.heads[marks::wide(id) % 256]);
        // Along the links, which count nothing.
        while 0 < j {
            let i = j - 1;
            found = self.one_more(i, id, x, found);
            j = marks::wide(self.links[i]);
        }
        found
    }

    // Whether a target item names an id that it is a copy of, and no item of the source is one that it may copy.
    fn copies_none(self, x: View) -> bool
        ensures { result ≡ copies_none (items_of_markers self.entry.t.now self.entry.sequence.markers.now) x }
    {
        if x.of == 0 {
            return false;
        }
        !self.matches_by(x.of, x).copies
    }

    // Rule 10 of a target item.
    fn is_bad_in_target(self, x: View) -> bool
        ensures { result ≡ bad_ten_target (items_of_markers self.entry.t.now self.entry.sequence.markers.now) x }
    {
        let m = self.matches_by(x.id, x);
        let code = views::is_code(x);
        (m.differs | ((code & m.starts) & (!m.agrees | !(x.of == 0))))
            | (code & self.copies_none(x))
    }
}

// Rule 10 of a source item.
fn bad_copy_in_source(x: View) -> bool
    ensures { result ≡ bad_ten_source x }
{
    views::is_code(x) & !(x.of == 0)
}

// Rule 10 over the markers of the source sequence.
fn ten_source(t: &[u8], s: Sequence) -> Option<usize>
    requires { s.keys.now ≡ keys_at t.now s.markers.now }
    ensures { refusal_at 10 result ≡ first_of 10 (blamed bad_10_source [] (placed_at t.now s.entry.markers.now)) }
{
    let mut best = None;
    for i in 0..s.markers.len() {
        let at = marks::wide(s.markers[i]);
        best = answers::lower_if(
            bad_copy_in_source(keys::view_at(t, at, s.keys[i])),
            best,
            at,
        );
    }
    best
}

// Rule 10 over the markers of the target sequence, below `start`.
// Each looks at the source items of two groups: linear in the markers, at most quadratic, where all ids fall into one
// group.
// As `ten_source` with another test: one loop of both would take it as a closure with a contract.
fn ten_target(t: &[u8], source: LinkedItems, s: Sequence, start: Option<usize>) -> Option<usize>
    requires { s.keys.now ≡ keys_at t.now s.markers.now }
    ensures { refusal_at 10 result ≡ toward 10 start
        (blamed (bad_10_target (items_of_markers source.entry.t.now source.entry.sequence.markers.now)) []
        (placed_at t.now s.entry.markers.now)) }
{
    let mut best = start;
    for i in 0..s.markers.len() {
        let at = marks::wide(s.markers[i]);
        let bad = source.is_bad_in_target(keys::view_at(t, at, s.keys[i]));
        best = answers::lower_if(bad, best, at);
    }
    best
}

// Rule 10, by the markers of both sequences.
pub fn rule_10(t: &[u8], source: Sequence, target: Sequence) -> Option<usize>
    requires { Sequences t.now source target }
    ensures { refusal_at 10 result ≡ fault_10 (unit t.now).parts }
{
    let mut links = [0u16; MOST_RECORDS];
    let mut heads = [0u16; 256];
    id_links::link_before(source.keys, &mut links, &mut heads);
    let items = LinkedItems {
        t,
        sequence: source,
        links: &links,
        heads: &heads,
    };
    ten_target(t, items, target, ten_source(t, source))
}
