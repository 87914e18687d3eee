// The text of a TX record as XML.
#![tactic(auto)]

ghost use Rattle.draft.specs.Drafts.{Wrote};
ghost use Rattle.xml_text.specs.Escapes.{escaped_byte, escaped_bytes};

use draft::Draft;

fn put_escaped(draft: &mut Draft, b: u8)
    ensures { Wrote (escaped_byte b) draft.old draft.new }
{
    match b {
        b'&' => draft.put(b"&amp;"),
        b'<' => draft.put(b"&lt;"),
        b'>' => draft.put(b"&gt;"),
        b'\r' => draft.put(b"&#13;"),
        _ => draft.put(&[b]),
    }
}

// The bytes of a text, with the three escapes and a carriage return as a reference.
pub fn put_text(draft: &mut Draft, text: &[u8])
    ensures { Wrote (escaped_bytes text.now) draft.old draft.new }
{
    for b in text {
        put_escaped(draft, *b);
    }
}
