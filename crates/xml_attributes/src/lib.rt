// The attributes of a start tag, a slot for each name.
#![tactic(auto)]

ghost use Rattle.std.specs.Prelude.{◌≡◌, [], ◌+◌, ◌≤◌, length, take, drop};
ghost use Rattle.xml_slots.specs.Slots.{slot_names, slots_of};
ghost use Rattle.xml_attribute.specs.Attribute.{attribute_of, AttributeIn};
ghost use Rattle.xml_attributes.specs.Tags.{spelled, PlaceTold, TagRead, Placed};

use xml_attribute::{AttributeAt, Next, next_attribute};
use xml_front::Flaw;
use xml_slots::{ABSENT, SLOTS, is_word};
use xml_words::slot_value;

// A whole tag: the place behind it, whether it is in the short form, and how many attributes it has.
#[derive(Clone, Copy)]
pub struct Tagged {
    pub next: usize,
    pub short: bool,
    pub count: usize,
}

// The place of a name among words.
fn place_among(name: &[u8], words: &[&[u8]]) -> Option<usize>
    ensures { PlaceTold result (spelled words.now) name.now }
{
    words.iter().position(|word| is_word(name, word))
}

// The slot of a name: the names in the sequence of the slots.
fn slot_of(name: &[u8]) -> Option<usize>
    ensures { PlaceTold result slot_names name.now }
{
    let names: [&[u8]; SLOTS] = [
        b"id",
        b"order",
        b"copyOf",
        b"dataRef",
        b"dataRefStart",
        b"dataRefEnd",
        b"startRef",
        b"hex",
        b"state",
        b"canReorder",
        b"canResegment",
        b"canCopy",
        b"canDelete",
        b"canOverlap",
        b"isolated",
        b"translate",
    ];
    place_among(name, &names)
}

// An attribute into its slot. Not so where an attribute before it was not, its name is none of the subset, or its name
// has stood before.
fn place(text: &[u8], a: AttributeAt, slots: &mut [u32], fine: bool) -> bool
    requires { AttributeIn text.now a × (length slots.old ≡ 16) }
    ensures { Placed slots.old fine (attribute_of text.now a) slots.new result }
{
    if !fine {
        return false;
    }
    let Some(k) = slot_of(a.name.of(text)) else {
        return false;
    };
    if slots[k] != ABSENT {
        return false;
    }
    slots[k] = slot_value(text, a.value, a.mark, k);
    true
}

// The attributes of a start tag from `start` on, behind its name, and its end. A tag at fault is read to its end too:
// a tag that the text's end cuts is no tag at fault.
pub fn read_attributes(text: &[u8], start: usize, slots: &mut [u32]) -> Result<Tagged, Flaw>
    requires { (start ≤ length text.now) × (slots.old ≡ slots_of []) }
    ensures { TagRead text.now start slots.new result }
{
    let mut at = start;
    let mut count: usize = 0;
    let mut fine = true;
    // From attribute to attribute, of some bytes each.
    // No `?`: the edit cut_is_fault plants a wrong answer in the cut tag's arm.
    loop {
        match next_attribute(text, at) {
            Ok(Next::One(a)) => {
                fine = place(text, a, slots, fine);
                count += 1;
                at = a.next;
            }
            Ok(Next::End(next, short)) => {
                return if fine {
                    Ok(Tagged { next, short, count })
                } else {
                    Err(Flaw::Wrong)
                };
            }
            Err(Flaw::Cut) => {
                return Err(Flaw::Cut);
            }
            Err(Flaw::Wrong) => {
                return Err(Flaw::Wrong);
            }
        }
    }
}
