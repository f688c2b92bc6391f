ghost use Rattle.std.specs.Prelude.{◌≡◌};
ghost use Rattle.ring_model.specs.Dispatch as spec;

use ring_model::{Body, Message};
use ring_types::{NodeId, Ring};

/// Whether the number is that of another member.
fn is_other(ring: &Ring, me: NodeId, id: u32) -> bool
    ensures { result ≡ spec.is_other ring.now me id }
{
    ring.is_member(NodeId(id)) && id != me.0
}

fn is_foreign_body(ring: &Ring, me: NodeId, from: u32, body: &Body) -> bool
    ensures { result ≡ spec.is_foreign_body ring.now me from body.now }
{
    match body {
        Body::RequestVote(_) => !is_other(ring, me, from),
        Body::VoteReply(_) => !is_other(ring, me, from),
        Body::Append(sent) => !is_other(ring, me, from) || !is_other(ring, me, sent.leader.0),
        Body::AppendReply(_) => !is_other(ring, me, from),
        Body::ProxyAppend(sent) => !is_other(ring, me, from) || !is_other(ring, me, sent.target.0),
        Body::MockStart(_) => !is_other(ring, me, from),
        Body::MockRequest(_) => !is_other(ring, me, from),
        Body::MockReply(_) => !is_other(ring, me, from),
        Body::MockResult(_) => !is_other(ring, me, from),
        Body::TimeoutNow { .. } => !is_other(ring, me, from),
        Body::ClientWrite { .. } => !ring.is_client(from),
        Body::ClientRotate => !ring.is_client(from),
        Body::ClientTransfer { .. } => !ring.is_client(from),
        Body::ClientCancel => !ring.is_client(from),
        Body::ClientReply { .. } => true,
    }
}

/// Whether the message is foreign: a message between nodes from no other member, or that names no
/// other member where it names one; a client's message from no declared client; an answer to a
/// client.
pub(crate) fn is_foreign(ring: &Ring, me: NodeId, message: &Message) -> bool
    ensures { result ≡ spec.is_foreign ring.now me message.now }
{
    is_foreign_body(ring, me, message.from, &message.body)
}
