// Whether a request is granted: document 02, order 6.
#![tactic(auto)]

ghost use Rattle.std.specs.Prelude.{◌≡◌};
ghost use Rattle.std.proofs.Math.Option.{none};
ghost use Rattle.xliff.specs.Check.{table_refusal};
ghost use Rattle.xliff.specs.Parse.{unit};
ghost use Rattle.grants.specs.Grant.{is_engineer, whole_granted, rewrite_granted};
ghost use Rattle.granted_parts.specs.Roles.{role_meaning, grant_of};
ghost use Rattle.granted_requests.specs.Granted.{GrantedIs};

use granted_parts::{Grant, Role};
use requests::Request;

fn is_engineer(role: Role) -> bool
    ensures { result ≡ is_engineer (role_meaning role) }
{
    role == Role::Engineer
}

// Whether the side has a complete pair or annotation of the id, both halves in granted parts.
// That the check passed is asked by all three: the table is a lent slice, in which no type keeps that.
fn whole_granted(grant: Grant, table: &[u8], side: u8, id: u16) -> bool
    requires { table_refusal table.now ≡ none }
    ensures { result ≡ whole_granted (grant_of grant.entry.role grant.entry.positions.now) (unit table.now).parts side
        id }
{
    if !((side == b'S') | (side == b'T')) {
        return false;
    }
    if whole_pair::find(table, side, id).is_none() {
        return false;
    }
    granted_halves::halves_within(table, grant, side, id)
}

// "A rewrite is within a translator's grant never, within a reviewer's exactly if that side has a complete pair or
// annotation of that id and both halves stand in granted parts."
fn rewrite_granted(grant: Grant, table: &[u8], side: u8, id: u16) -> bool
    requires { table_refusal table.now ≡ none }
    ensures { result ≡ rewrite_granted (role_meaning grant.entry.role) (whole_granted (grant_of grant.entry.role grant.entry.positions.now)
        (unit table.now).parts side id) }
{
    match grant.role {
        Role::Translator | Role::Other => false,
        Role::Reviewer => whole_granted(grant, table, side, id),
        Role::Engineer => true,
    }
}

// Whether a request on a table that the check passed is granted.
pub fn granted(grant: Grant, table: &[u8], r: Request) -> bool
    requires { table_refusal table.now ≡ none }
    ensures { GrantedIs (grant_of grant.entry.role grant.entry.positions.now) table.now r result }
{
    match r {
        // An arm each: the must-fail edit reviewer_joins plants its wrong role in the join's alone.
        Request::Split { .. } => is_engineer(grant.role),
        Request::Join { .. } => is_engineer(grant.role),
        Request::SetTarget { part, .. } | Request::RemoveTarget { part } => {
            grant.has_part(usize::from(part))
        }
        Request::Rewrite { side, id, .. } => rewrite_granted(grant, table, side, id),
    }
}
