// Roles, and the parts that a grant has.
#![tactic(auto)]

ghost use Rattle.std.specs.Prelude.{◌≡◌};
ghost use Rattle.xliff.specs.Bytes.{among};
ghost use Rattle.grants.specs.Grant.{role_of, within};
ghost use Rattle.granted_parts.specs.Roles.{role_meaning, grant_of};

// A translator's, a reviewer's or an engineer's; any other grants nothing.
// Other is a case and no None: a role that grants nothing is no failure, and the definition has it so.
#[derive(Clone, Copy, PartialEq, Eq)]
pub enum Role {
    Translator,
    Reviewer,
    Engineer,
    Other,
}

// The role of a letter, T, R or E. By tests and not by a match: a match on a number gives no fact for its last arm that
// the proof could name.
pub fn role_of(letter: u8) -> Role
    ensures { role_meaning result ≡ role_of letter }
{
    if letter == b'T' {
        return Role::Translator;
    }
    if letter == b'R' {
        return Role::Reviewer;
    }
    if letter == b'E' {
        return Role::Engineer;
    }
    Role::Other
}

// What a call is granted by: a role, and the positions of parts.
#[derive(Clone, Copy)]
pub struct Grant<'a> {
    pub role: Role,
    pub positions: &'a [u8],
}

fn is_listed(positions: &[u8], n: usize) -> bool
    ensures { result ≡ among n positions.now }
{
    positions.iter().any(|p| n == usize::from(*p))
}

impl Grant<'_> {
    // Whether the part `n` is within the grant. "An engineer's grant counts as every part"
    pub fn has_part(self, n: usize) -> bool
        ensures { result ≡ within (grant_of self.entry.role self.entry.positions.now) n }
    {
        match self.role {
            Role::Translator | Role::Reviewer => is_listed(self.positions, n),
            Role::Engineer => true,
            Role::Other => false,
        }
    }
}
