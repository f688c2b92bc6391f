ghost use Rattle.std.specs.Prelude.{◌≡◌, IfOk, map};
ghost use Rattle.ring_types.specs.declared.members.Member.{Member};
ghost use Rattle.ring_model.specs.Worlds as spec;
ghost use Rattle.ring_replay.specs.Replays.{first_unit};

use node_unit::Unit;
use ring_types::{List, Memory, Ring};
use std::alloc::Global;

/// The nodes before the first event.
pub(crate) fn first_units(alloc: Global, ring: &Ring) -> Result<Vec<Unit>, Memory>
    ensures { IfOk result (λ it. it.items ≡ map (first_unit ring.now) ring.now.members) }
{
    let members = ring.members().as_slice();
    let mut units = Vec::new(alloc);
    for member in members {
        units.push(Unit::new(alloc, ring, member.id)?)?;
    }
    Ok(units)
}

/// The cursors before the first event.
pub(crate) fn first_cursors(alloc: Global, ring: &Ring) -> Result<List<u64>, Memory>
    ensures { IfOk result (λ it. it ≡ map (λ (m : Member). spec.first_world.cursors m.id) ring.now.members) }
{
    let members = ring.members().as_slice();
    let mut cursors = List::new(alloc);
    for _ in members {
        cursors.push(0)?;
    }
    Ok(cursors)
}
