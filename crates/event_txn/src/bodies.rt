//! The bodies of the events around a transaction's changes.
ghost use Rattle.std.specs.Prelude.{◌≤◌};
ghost use Rattle.event_frame.specs.Forms.{body_of};
ghost use Rattle.event_frame.specs.Reading.{Gives};
ghost use Rattle.event_txn.specs.Bodies.{gtid_form, begin_form, xid_form};
ghost use Rattle.event_txn.specs.declared.faults.BodyFault.TheVariants as fault;

use crate::faults::BodyFault;
use crate::fields::*;
use ring_types::Gtid;

/// The GTID that the body has, if it is the transaction of this number within its file.
pub fn gtid_of(body: &[u8], sequence: u64) -> Result<Gtid, BodyFault>
    requires { 1 ≤ sequence }
    ensures { Gives (λ g. g) result (body_of fault.Field (gtid_form sequence) body.now) }
{
    let rest = constant_at(body, &[0], BodyFault::Field)?;
    let (server, rest) = server_at(rest)?;
    let (number, rest) = number_at(rest)?;
    let rest = constant_at(rest, &[2], BodyFault::Field)?;
    let rest = constant_at(rest, &(sequence - 1).to_le_bytes(), BodyFault::Field)?;
    let rest = constant_at(rest, &sequence.to_le_bytes(), BodyFault::Field)?;
    ended(rest)?;
    Ok(Gtid { server, number })
}

/// The body that begins a transaction.
pub fn begin_of(body: &[u8]) -> Result<(), BodyFault>
    ensures { Gives (λ u. u) result (body_of fault.Field begin_form body.now) }
{
    let rest = constant_at(body, &[0, 0, 0, 0], BodyFault::Field)?;
    let rest = constant_at(rest, &[0, 0, 0, 0], BodyFault::Field)?;
    let rest = constant_at(rest, &[0], BodyFault::Field)?;
    let rest = constant_at(rest, &[0, 0], BodyFault::Field)?;
    let rest = constant_at(rest, &[0, 0], BodyFault::Field)?;
    let rest = constant_at(rest, &[0], BodyFault::Field)?;
    let rest = constant_at(rest, b"BEGIN", BodyFault::Field)?;
    ended(rest)
}

/// The body that ends the transaction of the entry at this position.
pub fn xid_of(body: &[u8], position: u64) -> Result<(), BodyFault>
    ensures { Gives (λ u. u) result (body_of fault.Field (xid_form position) body.now) }
{
    let rest = constant_at(body, &position.to_le_bytes(), BodyFault::Field)?;
    ended(rest)
}
