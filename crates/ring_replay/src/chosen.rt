ghost use Rattle.std.specs.Prelude.{◌≡◌, OnOk, length, take};
ghost use Rattle.node_unit.specs.Units.{node_of};
ghost use Rattle.ring_model.specs.Worlds as spec;

use node_unit::Unit;
use ring_types::{Entry, List, Memory, after, first_of};
use std::alloc::Global;

/// The chosen sequence after an event of this node. It only grows, so what is chosen is the beginning
/// of the log of a node that went further, and only the entries behind it are copied.
pub(crate) fn grow(alloc: Global, chosen: &mut List<Entry>, unit: &Unit) -> Result<(), Memory>
    requires { take (length chosen.old) (spec.grown chosen.old (node_of unit.now.shown)) ≡ chosen.old }
    ensures { OnOk result (chosen.new ≡ spec.grown chosen.old (node_of unit.now.shown)) }
{
    let known = chosen.len() as u64;
    let reach = unit.reach();
    if known < reach {
        let more = first_of(after(unit.log(), known), reach - known);
        chosen.extend_copies(alloc, more)?;
    }
    Ok(())
}
