// Rewrite, 21: "to P: not in one content, not balanced between, or the end's canReorder is not the PC letter".
#![tactic(auto)]

ghost use Rattle.std.specs.Prelude.{◌≡◌};
ghost use Rattle.xliff.specs.Parse.{unit};
ghost use Rattle.xliff.specs.Rewrite.{form_of};
ghost use Rattle.rewrite_refusals.specs.Asked.{apart, SomeAsked, Fitting, Refused21};

use limits::MOST_BYTES;

// With the marks of pc or mrk a half that has no partner in its content breaks rule 7, so the table is rewritten aside
// and judged by it.
fn is_apart(t: &[u8], side: u8, id: u16) -> bool
    requires { Fitting t.now side id }
    ensures { result ≡ apart (unit t.now) side id }
{
    // Fixed memory: array and length live in this function alone, and are one slice for all that reads them.
    let mut work = [0u8; MOST_BYTES];
    let n = rewrite_marks::put_rewritten(&mut work, t, side, id, b'P');
    result_rules::breaks_7(&work[..n])
}

// `unfit`: the end's canReorder is not the PC letter.
pub fn is_refused_21(t: &[u8], side: u8, id: u16, form: u8, unfit: bool) -> bool
    requires { SomeAsked t.now side id (form_of form) unfit }
    ensures { Refused21 t.now side id (form_of form) result }
{
    if form == b'P' {
        if unfit {
            return true;
        }
        return is_apart(t, side, id);
    }
    false
}
