// The check of a table: the numbers 1 to 10. A rule is tried only where all before it are met.
// Throughout, `t` is the table, `source` and `target` the markers of the source and the target sequence.
#![tactic(auto)]

ghost use Rattle.std.specs.Prelude.{◌≡◌, ◌≤◌, length};
ghost use Rattle.xliff.specs.Answer.{◌then◌, unless, answer};
ghost use Rattle.xliff.specs.Parse.{most_bytes, unit};
ghost use Rattle.xliff.specs.Rules.{fault_7, fault_8, fault_9, fault_10, fault_6_to_10};
ghost use Rattle.xliff.specs.Check.{check};
ghost use Rattle.places.specs.Passes.{Passes};
ghost use Rattle.answers.specs.Answers.{answer_meaning};
ghost use Rattle.sequences.specs.Markers.{Sequences};

use answers::Answer;
use keys::Sequence;
use sequences::MarkerRoom;

// Rules 7 to 10.
// Two sequences and no struct of both with the table: each rule looks at them one by one.
fn by_markers(t: &[u8], source: Sequence, target: Sequence) -> Answer
    requires { Sequences t.now source target }
    ensures { answer_meaning result ≡ answer (unless (fault_7 (unit t.now).parts then fault_8 (unit t.now).parts
        then fault_9 (unit t.now).parts then fault_10 (unit t.now).parts) t.now) }
{
    if let Some(at) = partners::rule_7(t, source, target) {
        return Answer::Refused(7, at);
    }
    if let Some(at) = letters::rule_8(t, source, target) {
        return Answer::Refused(8, at);
    }
    if let Some(at) = overlap::rule_9(t, source, target) {
        return Answer::Refused(9, at);
    }
    if let Some(at) = source_match::rule_10(t, source, target) {
        return Answer::Refused(10, at);
    }
    Answer::Accepted(t.len())
}

// Rules 6 to 10 of a table with so many parts.
// The number of parts goes beside the table: it is counted once, and two steps need it.
fn from_6(t: &[u8], parts: usize) -> Answer
    requires { Passes t.now × (length t.now ≤ most_bytes) × (parts ≡ length (unit t.now).parts) }
    ensures { answer_meaning result ≡ answer (unless (fault_6_to_10 (unit t.now).parts) t.now) }
{
    if let Some(at) = ids::rule_6(t) {
        return Answer::Refused(6, at);
    }
    let mut source = MarkerRoom::new();
    let mut target = MarkerRoom::new();
    sequences::markers(t, parts, &mut source, &mut target);
    by_markers(t, source.sequence(), target.sequence())
}

// Rules 6 to 10 alone, on a table that passes 1 to 4. Accepted: with its length.
pub fn rules_6_to_10(t: &[u8]) -> Answer
    requires { Passes t.now × (length t.now ≤ most_bytes) }
    ensures { answer_meaning result ≡ answer (unless (fault_6_to_10 (unit t.now).parts) t.now) }
{
    from_6(t, orders::count_parts(t))
}

// Document 01, "Check". Any bytes of any length get an answer. Quadratic in the markers at most (rules 6 to 10).
pub fn check(table: &[u8]) -> Answer
    ensures { answer_meaning result ≡ check table.now }
{
    if let Answer::Refused(n, at) = syntax::syntax(table) {
        return Answer::Refused(n, at);
    }
    let parts = orders::count_parts(table);
    if let Some(at) = orders::rule_5(table, parts) {
        return Answer::Refused(5, at);
    }
    from_6(table, parts)
}
