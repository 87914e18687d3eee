// 23 of split. Document 02, order 2: "A cut is refused, in source or target, if the item after it is such a mark and
// the item before it is a code point of text."
#![tactic(auto)]

ghost use Rattle.std.specs.Prelude.{◌≡◌};
ghost use Rattle.cut.specs.Halves.{Some};
ghost use Rattle.part_at.specs.Stands.{Checked};
ghost use Rattle.accents.specs.Accents.{accent_of, CutsOffAccentIs, AccentPartedIs};

use part_at::{Cuts, PartPlace};
use text::Character;

// Whether what the decoder found is an accent.
fn is_accent(found: Option<Character>) -> bool
    ensures { result ≡ accent_of found }
{
    let Some(c) = found else {
        return false;
    };
    c.accent
}

// Whether a cut of a content parts an accent from the text before it. Both then stand in one text: no text stands
// directly behind another.
fn cuts_off_accent(c: &[u8], cut: usize) -> bool
    requires { Some c.now }
    ensures { CutsOffAccentIs c.now cut result }
{
    let place = walk::place_of(c, cut);
    if place.into == 0 {
        return false;
    }
    let behind = place.at + marks::TEXT_WIDTH + place.into;
    is_accent(text::char_of(&c[behind..]))
}

// 23: whether a cut of the part parts an accent from the text before it, in the source or in the target.
pub fn is_accent_parted(t: &[u8], place: PartPlace, cuts: Cuts) -> bool
    requires { Checked t.now place }
    ensures { AccentPartedIs t.now place cuts.source cuts.target result }
{
    let source = cuts_off_accent(place.source_of(t), cuts.source);
    let target = cuts_off_accent(place.target_of(t), cuts.target);
    source | target
}
