// The inline elements, by their names and attributes; first what they and the heads of parts read of their slots.
#![tactic(auto)]

ghost use Rattle.std.specs.Prelude.{◌≡◌, true, eqb, length};
ghost use Rattle.xliff.specs.Bytes.{'Y'};
ghost use Rattle.xml.specs.Attributes.{only, required, optional, choice};
ghost use Rattle.xml.specs.Elements.{end_of_pc, read_cp, read_ph, read_pc, read_sc, read_ec, read_mrk, read_sm, read_em, inline_of_name};
ghost use Rattle.table.specs.Meaning.{fields, half as half-meaning, item};
ghost use Rattle.xml_slots.specs.Slots.{ByAttributes};
ghost use Rattle.xml_elements.specs.Reading.{name_of, names_of, NumberSlot, LetterSlot, words_of, apart, BySlots, value_meaning, fields_of_slots, HalfId, half_id};
ghost use Rattle.xml_elements.specs.Meanings.{coded_meaning, inline_meaning, half_fields, half_item, annotation_of_name};

use table::{Fields, Form, Half, Item, Letters};
use xml_slots::{
    CAN_COPY, CAN_DELETE, CAN_OVERLAP, CAN_REORDER, COPY_OF, DATA_REF, DATA_REF_END,
    DATA_REF_START, HEX, ID, ISOLATED, START_REF, TRANSLATE, is_word, or_default, present,
};

// An empty element; one with content: the items at its two ends.
#[derive(Clone, Copy)]
pub enum Inline {
    Single(Item),
    Nested(Item, Item),
}

// The slots that the attributes of a tag fill, and how many attributes these are.
#[derive(Clone, Copy)]
pub struct Filled<'a> {
    pub slots: &'a [u32],
    pub count: usize,
    pub ghost sized: { length slots.now ≡ 16 },
}

// Whether there are only attributes of these slots: they are as many as there are at all.
pub fn has_only(filled: Filled, those: &[usize]) -> bool
    requires { apart those.now ≡ true }
    ensures { ByAttributes filled.entry.slots.now filled.entry.count (only (names_of those.now)) result }
{
    let mut there = 0;
    for &slot in those {
        there += present(filled.slots[slot]);
    }
    there == filled.count
}

// A number that must be there. What a slot holds that is no number does not fit.
pub fn required_number(slots: &[u32], slot: usize) -> Option<u16>
    requires { (length slots.now ≡ 16) × NumberSlot slot }
    ensures { BySlots slots.now (required (name_of slot)) (value_meaning result) }
{
    u16::try_from(slots[slot]).ok()
}

// A number, which is 0 where it is absent: the table's 0 for none.
pub fn optional_number(slots: &[u32], slot: usize) -> Option<u16>
    requires { (length slots.now ≡ 16) × NumberSlot slot }
    ensures { BySlots slots.now (optional (name_of slot)) (value_meaning result) }
{
    u16::try_from(or_default(slots[slot], 0)).ok()
}

// The letter of a word, which is the default where it is absent.
pub fn letter(slots: &[u32], slot: usize, default: u8) -> Option<u8>
    requires { (length slots.now ≡ 16) × LetterSlot slot }
    ensures { BySlots slots.now (choice (name_of slot) (words_of slot) default) (value_meaning result) }
{
    u8::try_from(or_default(slots[slot], u32::from(default))).ok()
}

// The fields of a code: the slots of its id and its dataRef, its canOverlap.
fn code_fields(
    slots: &[u32],
    id_slot: usize,
    data_slot: usize,
    overlap: Option<u8>,
) -> Option<Fields>
    requires { (length slots.now ≡ 16) × NumberSlot id_slot × NumberSlot data_slot }
    ensures { BySlots slots.now (fields_of_slots id_slot data_slot (value_meaning overlap)) (coded_meaning result) }
{
    let id = required_number(slots, id_slot)?;
    let copy_of = optional_number(slots, COPY_OF)?;
    let data_ref = optional_number(slots, data_slot)?;
    let copy = letter(slots, CAN_COPY, b'Y')?;
    let delete = letter(slots, CAN_DELETE, b'Y')?;
    let overlap = overlap?;
    let reorder = letter(slots, CAN_REORDER, b'Y')?;
    Some(Fields {
        id,
        copy_of,
        data_ref,
        letters: Letters {
            copy,
            delete,
            overlap,
            reorder,
        },
    })
}

// <cp>
fn read_cp(filled: Filled) -> Option<Inline>
    ensures { ByAttributes filled.entry.slots.now filled.entry.count read_cp (inline_meaning result) }
{
    if !has_only(filled, &[HEX]) {
        return None;
    }
    let hex = u16::try_from(filled.slots[HEX]).ok()?;
    Some(Inline::Single(Item::Character(u32::from(hex))))
}

// <ph>: canOverlap is always - in PH.
fn read_ph(filled: Filled) -> Option<Inline>
    ensures { ByAttributes filled.entry.slots.now filled.entry.count read_ph (inline_meaning result) }
{
    let allowed = [ID, COPY_OF, DATA_REF, CAN_COPY, CAN_DELETE, CAN_REORDER];
    if !has_only(filled, &allowed) {
        return None;
    }
    let f = code_fields(filled.slots, ID, DATA_REF, Some(b'-'))?;
    Some(Inline::Single(Item::Standalone(f)))
}

// The fields of the end of a pc: its own dataRef, and N where the start has firstNo.
fn end_of_pc(f: Fields, data_ref: u16) -> Fields
    ensures { fields result ≡ end_of_pc (fields f) data_ref }
{
    let letters = f.letters;
    Fields {
        data_ref,
        letters: Letters {
            reorder: if letters.reorder == b'F' {
                b'N'
            } else {
                letters.reorder
            },
            ..letters
        },
        ..f
    }
}

// <pc>: canOverlap is no where it is absent.
fn read_pc(filled: Filled) -> Option<Inline>
    ensures { ByAttributes filled.entry.slots.now filled.entry.count read_pc (inline_meaning result) }
{
    let allowed = [
        ID,
        COPY_OF,
        DATA_REF_START,
        DATA_REF_END,
        CAN_COPY,
        CAN_DELETE,
        CAN_OVERLAP,
        CAN_REORDER,
    ];
    if !has_only(filled, &allowed) {
        return None;
    }
    let overlap = letter(filled.slots, CAN_OVERLAP, b'N');
    let f = code_fields(filled.slots, ID, DATA_REF_START, overlap)?;
    let end_data = optional_number(filled.slots, DATA_REF_END)?;
    Some(Inline::Nested(
        Item::Pair(Form::P, Half::Start, f),
        Item::Pair(Form::P, Half::End, end_of_pc(f, end_data)),
    ))
}

// The fields of sc and ec, whose id is in this slot: canOverlap is yes where it is absent.
fn half_fields(filled: Filled, id_slot: usize) -> Option<Fields>
    requires { HalfId id_slot }
    ensures { ByAttributes filled.entry.slots.now filled.entry.count (half_fields (name_of id_slot))
        (coded_meaning result) }
{
    let allowed = [
        id_slot,
        COPY_OF,
        DATA_REF,
        CAN_COPY,
        CAN_DELETE,
        CAN_OVERLAP,
        CAN_REORDER,
        ISOLATED,
    ];
    if !has_only(filled, &allowed) {
        return None;
    }
    let overlap = letter(filled.slots, CAN_OVERLAP, b'Y');
    code_fields(filled.slots, id_slot, DATA_REF, overlap)
}

// A half of a pair, or an isolated code.
fn half_item(isolated: u8, half: Half, f: Fields) -> Item
    ensures { item result ≡ half_item (eqb isolated 'Y') (half-meaning half) (fields f) }
{
    if isolated == b'Y' {
        return Item::Isolated(half, f);
    }
    Item::Pair(Form::S, half, f)
}

// <sc>
fn read_sc(filled: Filled) -> Option<Inline>
    ensures { ByAttributes filled.entry.slots.now filled.entry.count read_sc (inline_meaning result) }
{
    let isolated = letter(filled.slots, ISOLATED, b'N')?;
    let f = half_fields(filled, ID)?;
    Some(Inline::Single(half_item(isolated, Half::Start, f)))
}

// The slot of the id of an ec: isolated yes has an id, else startRef.
fn half_id(isolated: u8) -> usize
    ensures { result ≡ half_id isolated }
{
    if isolated == b'Y' {
        return ID;
    }
    START_REF
}

// <ec>
// Like read_sc but for the half and the slot of its id, which hangs on isolated here: as one no plainer.
fn read_ec(filled: Filled) -> Option<Inline>
    ensures { ByAttributes filled.entry.slots.now filled.entry.count read_ec (inline_meaning result) }
{
    let isolated = letter(filled.slots, ISOLATED, b'N')?;
    let f = half_fields(filled, half_id(isolated))?;
    Some(Inline::Single(half_item(isolated, Half::End, f)))
}

// <mrk>
fn read_mrk(filled: Filled) -> Option<Inline>
    ensures { ByAttributes filled.entry.slots.now filled.entry.count read_mrk (inline_meaning result) }
{
    if !has_only(filled, &[ID, TRANSLATE]) {
        return None;
    }
    let id = required_number(filled.slots, ID)?;
    let translate = letter(filled.slots, TRANSLATE, b'-')?;
    Some(Inline::Nested(
        Item::AnnotationStart(Form::P, id, translate),
        Item::AnnotationEnd(Form::P, id),
    ))
}

// <sm>
// It reads what read_mrk reads, but makes one item, not two: as one function no plainer.
fn read_sm(filled: Filled) -> Option<Inline>
    ensures { ByAttributes filled.entry.slots.now filled.entry.count read_sm (inline_meaning result) }
{
    if !has_only(filled, &[ID, TRANSLATE]) {
        return None;
    }
    let id = required_number(filled.slots, ID)?;
    let translate = letter(filled.slots, TRANSLATE, b'-')?;
    Some(Inline::Single(Item::AnnotationStart(Form::S, id, translate)))
}

// <em>
fn read_em(filled: Filled) -> Option<Inline>
    ensures { ByAttributes filled.entry.slots.now filled.entry.count read_em (inline_meaning result) }
{
    if !has_only(filled, &[START_REF]) {
        return None;
    }
    let id = required_number(filled.slots, START_REF)?;
    Some(Inline::Single(Item::AnnotationEnd(Form::S, id)))
}

// The annotations, by their names.
fn annotation_element(name: &[u8], filled: Filled) -> Option<Inline>
    ensures { ByAttributes filled.entry.slots.now filled.entry.count (annotation_of_name name.now)
        (inline_meaning result) }
{
    if is_word(name, b"mrk") {
        return read_mrk(filled);
    }
    if is_word(name, b"sm") {
        return read_sm(filled);
    }
    if is_word(name, b"em") {
        return read_em(filled);
    }
    None
}

// The inline element of this name.
pub fn inline_element(name: &[u8], filled: Filled) -> Option<Inline>
    ensures { ByAttributes filled.entry.slots.now filled.entry.count (inline_of_name name.now)
        (inline_meaning result) }
{
    if is_word(name, b"cp") {
        return read_cp(filled);
    }
    if is_word(name, b"ph") {
        return read_ph(filled);
    }
    if is_word(name, b"pc") {
        return read_pc(filled);
    }
    if is_word(name, b"sc") {
        return read_sc(filled);
    }
    if is_word(name, b"ec") {
        return read_ec(filled);
    }
    annotation_element(name, filled)
}
