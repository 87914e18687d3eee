// The attributes of a tag, written behind a text.
#![tactic(auto)]

ghost use Rattle.draft.specs.Drafts.{Wrote};
ghost use Rattle.xml.specs.Words.{'canReorder', 'state'};
ghost use Rattle.xml.specs.Attributes.{yes_no, yes_first_no, states};
ghost use Rattle.xml.specs.Write.{attribute, number_attribute, unless_zero, word_attribute, unless_hyphen};
ghost use Rattle.xml_tags.specs.Tags.{attributes_bytes};

use draft::Draft;

// One blank before the attribute, double quotes.
pub fn put_attribute(draft: &mut Draft, name: &[u8], value: &[u8])
    ensures { Wrote (attributes_bytes (attribute name.now value.now)) draft.old draft.new }
{
    draft.put(b" ");
    draft.put(name);
    draft.put(b"=\"");
    draft.put(value);
    draft.put(b"\"");
}

// A number in decimal.
// The digits' array and their number: fixed memory.
pub fn put_number(draft: &mut Draft, name: &[u8], n: u16)
    ensures { Wrote (attributes_bytes (number_attribute name.now n)) draft.old draft.new }
{
    let mut digits = [0u8; 20];
    let k = lines::put_decimal(&mut digits, marks::wide(n));
    put_attribute(draft, name, &digits[..k]);
}

// No attribute where the number is 0.
pub fn put_unless_zero(draft: &mut Draft, name: &[u8], n: u16)
    ensures { Wrote (attributes_bytes (unless_zero name.now n)) draft.old draft.new }
{
    if n != 0 {
        put_number(draft, name, n);
    }
}

// Y or N by its word.
// Three matches on letters, not one search in tables: an arm for each word is no longer than its entry.
pub fn put_yes_no(draft: &mut Draft, name: &[u8], letter: u8)
    ensures { Wrote (attributes_bytes (word_attribute name.now yes_no letter)) draft.old draft.new }
{
    match letter {
        b'Y' => put_attribute(draft, name, b"yes"),
        b'N' => put_attribute(draft, name, b"no"),
        _ => put_attribute(draft, name, b""),
    }
}

// No attribute where the letter is -.
pub fn put_unless_hyphen(draft: &mut Draft, name: &[u8], letter: u8)
    ensures { Wrote (attributes_bytes (unless_hyphen name.now letter)) draft.old draft.new }
{
    if letter != b'-' {
        put_yes_no(draft, name, letter);
    }
}

// canReorder: Y, F or N.
pub fn put_reorder(draft: &mut Draft, letter: u8)
    ensures { Wrote (attributes_bytes (word_attribute 'canReorder' yes_first_no letter)) draft.old draft.new }
{
    match letter {
        b'Y' => put_attribute(draft, b"canReorder", b"yes"),
        b'F' => put_attribute(draft, b"canReorder", b"firstNo"),
        b'N' => put_attribute(draft, b"canReorder", b"no"),
        _ => put_attribute(draft, b"canReorder", b""),
    }
}

// The state of a segment: I, T, R or F.
pub fn put_state(draft: &mut Draft, letter: u8)
    ensures { Wrote (attributes_bytes (word_attribute 'state' states letter)) draft.old draft.new }
{
    match letter {
        b'I' => put_attribute(draft, b"state", b"initial"),
        b'T' => put_attribute(draft, b"state", b"translated"),
        b'R' => put_attribute(draft, b"state", b"reviewed"),
        b'F' => put_attribute(draft, b"state", b"final"),
        _ => put_attribute(draft, b"state", b""),
    }
}
