// The attributes of the subset, each a slot of an array.
#![tactic(auto)]

ghost use Rattle.std.specs.Prelude.{◌≡◌, cond, eqb};
ghost use Rattle.xliff.specs.Bytes.{equal};
ghost use Rattle.xml_slots.specs.Slots.{absent};

// A slot whose attribute has no good value, and one whose attribute is not there. A value is below both. (Numbers, no
// enum of three cases: one comparison, or `u16::try_from`, tells a value from both; the definitions have numbers.)
pub const BAD: u32 = 0x10000;

pub const ABSENT: u32 = 0x20000;

// The slots, by their attributes' names.
// Numbers and no enum: each is an index into the slots, and `Value::of_slot` in xml_words takes a range of them.
pub const ID: usize = 0;

pub const ORDER: usize = 1;

pub const COPY_OF: usize = 2;

pub const DATA_REF: usize = 3;

pub const DATA_REF_START: usize = 4;

pub const DATA_REF_END: usize = 5;

pub const START_REF: usize = 6;

pub const HEX: usize = 7;

pub const STATE: usize = 8;

pub const CAN_REORDER: usize = 9;

pub const CAN_RESEGMENT: usize = 10;

pub const CAN_COPY: usize = 11;

pub const CAN_DELETE: usize = 12;

pub const CAN_OVERLAP: usize = 13;

pub const ISOLATED: usize = 14;

pub const TRANSLATE: usize = 15;

pub const SLOTS: usize = 16;

// What a slot holds, or the default of an absent attribute.
pub fn or_default(slot: u32, default: u32) -> u32
    ensures { result ≡ cond (eqb slot absent) default slot }
{
    if slot == ABSENT { default } else { slot }
}

// How many attributes a slot holds: one or none.
pub fn present(slot: u32) -> usize
    ensures { result ≡ cond (eqb slot absent) 0 1 }
{
    usize::from(slot != ABSENT)
}

// Whether bytes are this word.
pub fn is_word(bytes: &[u8], word: &[u8]) -> bool
    ensures { result ≡ equal bytes.now word.now }
{
    bytes == word
}
