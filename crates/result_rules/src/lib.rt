// The rules on markers that the result of an operation may break.
#![tactic(auto)]

ghost use Rattle.std.specs.Prelude.{◌≡◌, ◌≤◌, length};
ghost use Rattle.xliff.specs.Answer.{◌then◌, is_fault, of_result};
ghost use Rattle.xliff.specs.Parse.{unit, most_bytes};
ghost use Rattle.xliff.specs.Rules.{fault_7, fault_9, fault_6_to_10};
ghost use Rattle.places.specs.Passes.{Passes};
ghost use Rattle.result_rules.specs.Broken.{broken};

use answers::Answer;
use sequences::MarkerRoom;

// Whether a table that passes 1 to 4 breaks rule 7.
pub fn breaks_7(t: &[u8]) -> bool
    requires { Passes t.now × (length t.now ≤ most_bytes) }
    ensures { result ≡ is_fault (fault_7 (unit t.now).parts) }
{
    let mut source = MarkerRoom::new();
    let mut target = MarkerRoom::new();
    sequences::markers(t, orders::count_parts(t), &mut source, &mut target);
    partners::rule_7(t, source.sequence(), target.sequence()).is_some()
}

// The first of the rules 7 and 9 that a table which passes 1 to 4 breaks.
// The rule is document 01's number, as `Answer::Refused` holds it: an enum would be turned into it.
pub fn rules_7_and_9(t: &[u8]) -> Option<u8>
    requires { Passes t.now × (length t.now ≤ most_bytes) }
    ensures { broken result ≡ of_result (fault_7 (unit t.now).parts then fault_9 (unit t.now).parts) }
{
    let mut source = MarkerRoom::new();
    let mut target = MarkerRoom::new();
    sequences::markers(t, orders::count_parts(t), &mut source, &mut target);
    if partners::rule_7(t, source.sequence(), target.sequence()).is_some() {
        return Some(7);
    }
    if overlap::rule_9(t, source.sequence(), target.sequence()).is_some() {
        return Some(9);
    }
    None
}

// The first of the rules 6 to 10 that a table which passes 1 to 4 breaks.
// A number too: it is the one that the check refuses with.
pub fn rules_6_to_10(t: &[u8]) -> Option<u8>
    requires { Passes t.now × (length t.now ≤ most_bytes) }
    ensures { broken result ≡ of_result (fault_6_to_10 (unit t.now).parts) }
{
    match table_check::rules_6_to_10(t) {
        Answer::Accepted(_) => None,
        Answer::Refused(n, _) => Some(n),
    }
}
