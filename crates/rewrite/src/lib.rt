// Rewrite: document 01, "Rewrite (side S or T, id, form P for pc or mrk, form S for start and end)".
#![tactic(auto)]

ghost use Rattle.std.specs.Prelude.{◌≡◌, length};
ghost use Rattle.xliff.specs.Rewrite.{rewrite};
ghost use Rattle.outcomes.specs.Outcomes.{Answers};
ghost use Rattle.rewrite.specs.Paired.{Paired, already_in};

use answers::Answer;
use whole_pair::WholePair;

// The pair has the form that is asked for; `is_p`: the marks of pc or mrk.
fn is_already(form: u8, is_p: bool) -> bool
    ensures { result ≡ already_in form is_p }
{
    if form == b'P' { is_p } else { !is_p }
}

// 20, 21, 15, then the bytes: every refusal is decided before the first store. Each record keeps its length, so 15 is
// only a matter of the room.
// Side and form stay the letters that the definition takes; each step tells them by one test.
fn rewrite_pair(
    table: &[u8],
    pair: WholePair,
    side: u8,
    id: u16,
    form: u8,
    out: &mut [u8],
) -> Answer
    requires { Paired table.now side id form pair }
    ensures { Answers (rewrite table.now side id form (length out.old)) result out.old out.new }
{
    if is_already(form, pair.form_p) {
        return Answer::Refused(20, 0);
    }
    if rewrite_refusals::is_refused_21(table, side, id, form, pair.unfit) {
        return Answer::Refused(21, 0);
    }
    if out.len() < table.len() {
        return Answer::Refused(15, 0);
    }
    Answer::Accepted(rewrite_marks::put_rewritten(out, table, side, id, form))
}

// Accepted: the output's first bytes are the rewritten table, the rest is unchanged. Refused: the whole output is
// unchanged.
pub fn rewrite(table: &[u8], side: u8, id: u16, form: u8, out: &mut [u8]) -> Answer
    ensures { Answers (rewrite table.now side id form (length out.old)) result out.old out.new }
{
    let checked = table_check::check(table);
    let Answer::Accepted(_) = checked else {
        return checked;
    };
    if !((side == b'S') | (side == b'T')) | !((form == b'P') | (form == b'S')) {
        return Answer::Refused(2, 0);
    }
    let Some(pair) = whole_pair::find(table, side, id) else {
        return Answer::Refused(20, 0);
    };
    rewrite_pair(table, pair, side, id, form, out)
}
