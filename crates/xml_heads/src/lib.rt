// What heads a unit, its parts and their targets, by the attributes of its tag.
#![tactic(auto)]

ghost use Rattle.xml.specs.Elements.{unit_opening, segment_head, ignorable_head, part_of_name};
ghost use Rattle.xml_slots.specs.Slots.{ByAttributes};
ghost use Rattle.xml_heads.specs.Meanings.{unit_meaning, head_meaning, OrderRead};

use table::Segment;
use xml_elements::{Filled, has_only, letter, optional_number, required_number};
use xml_slots::{ABSENT, CAN_RESEGMENT, ID, ORDER, STATE, is_word};

// The head of a part.
#[derive(Clone, Copy)]
pub enum Head {
    Segment(Segment),
    Ignorable(u16),
}

// <unit>: canResegment is yes where it is absent; the id is read and not kept.
pub fn unit_opening(filled: Filled) -> Option<u8>
    ensures { ByAttributes filled.entry.slots.now filled.entry.count unit_opening (unit_meaning result) }
{
    if !has_only(filled, &[ID, CAN_RESEGMENT]) {
        return None;
    }
    required_number(filled.slots, ID)?;
    letter(filled.slots, CAN_RESEGMENT, b'Y')
}

// <segment>: the state is initial where it is absent.
fn segment_head(filled: Filled) -> Option<Head>
    ensures { ByAttributes filled.entry.slots.now filled.entry.count segment_head (head_meaning result) }
{
    if !has_only(filled, &[ID, CAN_RESEGMENT, STATE]) {
        return None;
    }
    let id = optional_number(filled.slots, ID)?;
    let can_resegment = letter(filled.slots, CAN_RESEGMENT, b'-')?;
    let state = letter(filled.slots, STATE, b'I')?;
    Some(Head::Segment(Segment {
        id,
        can_resegment,
        state,
    }))
}

// <ignorable>
fn ignorable_head(filled: Filled) -> Option<Head>
    ensures { ByAttributes filled.entry.slots.now filled.entry.count ignorable_head (head_meaning result) }
{
    if !has_only(filled, &[ID]) {
        return None;
    }
    let id = optional_number(filled.slots, ID)?;
    Some(Head::Ignorable(id))
}

// The head of the part of this name.
pub fn part_head(name: &[u8], filled: Filled) -> Option<Head>
    ensures { ByAttributes filled.entry.slots.now filled.entry.count (part_of_name name.now) (head_meaning result) }
{
    if is_word(name, b"segment") {
        return segment_head(filled);
    }
    if is_word(name, b"ignorable") {
        return ignorable_head(filled);
    }
    None
}

// The order of <target>, if there is one: an absent one is the part's position. None: the tag is at fault.
pub fn target_order(filled: Filled) -> Option<Option<u16>>
    ensures { OrderRead filled.entry.slots.now filled.entry.count result }
{
    if !has_only(filled, &[ORDER]) {
        return None;
    }
    if filled.slots[ORDER] == ABSENT {
        return Some(None);
    }
    let order = required_number(filled.slots, ORDER)?;
    Some(Some(order))
}
