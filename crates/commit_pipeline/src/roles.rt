ghost use Rattle.std.specs.Prelude.{◌≡◌, ◌∷◌, [], IfOk};
ghost use Rattle.ring_model.specs.Nodes as nodes;
ghost use Rattle.ring_model.specs.Steps as spec;
ghost use Rattle.ring_model.specs.declared.effects.Action.TheVariants as action;

use ring_model::{Action, Mock, Plan, Role, Say, Soft, Transfer, What};
use ring_types::{List, Memory};
use std::alloc::Global;

/// Whether the role is that of a leader.
pub fn is_leader(role: Role) -> bool
    ensures { result ≡ nodes.is_leader role }
{
    match role {
        Role::Follower => false,
        Role::Candidate => false,
        Role::Leader => true,
    }
}

/// Whether the node leads and its commit count has reached its NoOp.
pub fn is_ready(soft: &Soft) -> bool
    ensures { result ≡ nodes.is_ready soft.now }
{
    is_leader(soft.role) && soft.ready_at <= soft.commit
}

/// Makes a follower, and empties what belongs to a leadership, a candidacy or a mock election.
pub fn demote(alloc: Global, soft: &mut Soft)
    ensures { soft.new ≡ spec.demoted soft.old }
{
    soft.role = Role::Follower;
    soft.grants = List::new(alloc);
    soft.pending = List::new(alloc);
    soft.transfer = Transfer::Off;
    soft.mock = Mock::Off;
}

/// What is said of each pending write by a node that stops leading, in order.
pub fn unknowns(alloc: Global, soft: &Soft) -> Result<List<Say>, Memory>
    ensures { IfOk result (λ it. it ≡ spec.unknowns soft.now) }
{
    let mut says = List::new(alloc);
    for pending in soft.pending.as_slice() {
        says.push(Say {
            client: pending.client,
            what: What::Unknown {
                gtid: pending.gtid,
                opid: pending.opid,
            },
        })?;
    }
    Ok(says)
}

/// The plan of a node that hears of a greater term: it takes the term, and says of its pending writes
/// that it does not know.
pub fn adopted(alloc: Global, term: u64, soft: &Soft) -> Result<Plan, Memory>
    ensures { IfOk result (λ it. it ≡ record { actions = action.SetTerm term ∷ []; messages = []; says = spec.unknowns soft.now }) }
{
    let actions = List::of_one(alloc, Action::SetTerm(term))?;
    let says = unknowns(alloc, soft)?;
    Ok(Plan {
        actions,
        messages: List::new(alloc),
        says,
    })
}
