//! A mock election at its target, and how it is decided: it passes once the voters that are near
//! enough cover the leader's region and the target's own.
ghost use Rattle.std.specs.Prelude.{◌≡◌, ◌<◌, IfOk};
ghost use Rattle.ring_types.specs.declared.limits.TheConstants.{TERM_END};
ghost use Rattle.ring_model.specs.Transfers as spec;
ghost use Rattle.transfer_core.specs.Polls as own;

use commit_pipeline::message;
use flexi_quorum::{covers, is_listed};
use ring_model::{Body, Message, Mock, MockReply, MockResult, MockStart};
use ring_types::{Duplicate, List, MOCK_LAG, Memory, NodeId, Opid, Ring};
use std::alloc::Global;

/// A mock election: the leader that asked for it, with its last opid and the round, and the voters
/// whose replies came, in order of arrival.
#[derive(Drop)]
pub(crate) struct Poll {
    pub(crate) leader: NodeId,
    pub(crate) round: u64,
    pub(crate) last: Opid,
    pub(crate) passed: List<NodeId>,
    pub(crate) failed: List<NodeId>,
}

/// Whether a voter passes whose log has `end` entries: it is near enough to the leader's.
pub(crate) fn passes(end: u64, asked: Opid) -> bool
    requires { end < TERM_END }
    ensures { result ≡ own.passes end asked }
{
    asked.position <= end + MOCK_LAG
}

/// Whether these voters cover the leader's region and the node's own.
fn covers_both(ring: &Ring, leader: NodeId, me: NodeId, ids: &List<NodeId>) -> bool
    ensures { result ≡ spec.covers_both ring.now leader me ids.now }
{
    let ids = ids.as_slice();
    covers(ring, ring.region_of(leader), ids) && covers(ring, ring.region_of(me), ids)
}

/// The members that are not among the failed, in ring order.
fn unfailed(alloc: Global, ring: &Ring, failed: &List<NodeId>) -> Result<List<NodeId>, Memory>
    ensures { IfOk result (λ it. it ≡ spec.unfailed ring.now failed.now) }
{
    let mut ids = List::new(alloc);
    for member in ring.members().as_slice() {
        if !is_listed(failed.as_slice(), member.id) {
            ids.push(member.id)?;
        }
    }
    Ok(ids)
}

/// Whether the voters that have not failed still cover both regions.
fn may_pass(
    alloc: Global,
    ring: &Ring,
    leader: NodeId,
    me: NodeId,
    failed: &List<NodeId>,
) -> Result<bool, Memory>
    ensures { IfOk result (λ it. it ≡ spec.covers_both ring.now leader me (spec.unfailed ring.now failed.now)) }
{
    let left = unfailed(alloc, ring, failed)?;
    Ok(covers_both(ring, leader, me, &left))
}

impl Poll {
    /// The mock election that a leader asks for, at a node whose log has `end` entries: the node's own
    /// test is the first reply.
    pub(crate) fn begun(
        alloc: Global,
        me: NodeId,
        end: u64,
        from: NodeId,
        sent: &MockStart,
    ) -> Result<Poll, Memory>
        requires { end < TERM_END }
        ensures { IfOk result (λ it. it ≡ own.begun me end from sent.now) }
    {
        let poll = Poll {
            leader: from,
            round: sent.round,
            last: sent.last,
            passed: List::new(alloc),
            failed: List::new(alloc),
        };
        poll.with_reply(me, passes(end, sent.last))
    }

    /// Adds the reply of a voter that has not replied before.
    pub(crate) fn with_reply(self, from: NodeId, ok: bool) -> Result<Poll, Memory>
        ensures { IfOk result (λ it. it ≡ own.with_reply self from ok) }
    {
        let mut poll = self;
        if ok {
            poll.passed.push(from)?;
        } else {
            poll.failed.push(from)?;
        }
        Ok(poll)
    }

    /// How it is decided, if it is.
    pub(crate) fn verdict(
        &self,
        alloc: Global,
        ring: &Ring,
        me: NodeId,
    ) -> Result<Option<bool>, Memory>
        ensures { IfOk result (λ it. it ≡ own.decided ring.now me self.now) }
    {
        if covers_both(ring, self.leader, me, &self.passed) {
            return Ok(Some(true));
        }
        if may_pass(alloc, ring, self.leader, me, &self.failed)? {
            Ok(None)
        } else {
            Ok(Some(false))
        }
    }

    /// How it ended, for the leader that asked for it.
    pub(crate) fn result(&self, me: NodeId, term: u64, ok: bool) -> Message
        ensures { result ≡ spec.mock_result me self.now.leader term self.now.round ok }
    {
        let round = self.round;
        message(
            me,
            self.leader,
            Body::MockResult(MockResult { term, round, ok }),
        )
    }

    /// What the node keeps of it.
    pub(crate) fn into_mock(self) -> Mock
        ensures { result ≡ own.mock_of self }
    {
        let Poll {
            leader,
            round,
            last,
            passed,
            failed,
        } = self;
        Mock::On {
            leader,
            round,
            last,
            passed,
            failed,
        }
    }
}

/// The mock election that counts this reply, copied: a reply of another term or round is not heard,
/// and a second reply of one voter changes nothing.
pub(crate) fn heard_poll(
    alloc: Global,
    mock: &Mock,
    term: u64,
    from: NodeId,
    reply: &MockReply,
) -> Result<Option<Poll>, Memory>
    ensures { IfOk result (λ it. it ≡ own.heard_poll mock.now term from reply.now) }
{
    match mock {
        Mock::Off => Ok(None),
        Mock::On {
            leader,
            round,
            last,
            passed,
            failed,
        } => {
            if reply.term != term || reply.round != *round {
                return Ok(None);
            }
            if is_listed(passed.as_slice(), from) || is_listed(failed.as_slice(), from) {
                return Ok(None);
            }
            Ok(Some(Poll {
                leader: *leader,
                round: *round,
                last: *last,
                passed: passed.copy(alloc)?,
                failed: failed.copy(alloc)?,
            }))
        }
    }
}

/// What the target sends once it counted a reply: the result, in the step that decides it. `before` is
/// how the mock election was decided without that reply.
pub(crate) fn deciding(
    alloc: Global,
    ring: &Ring,
    me: NodeId,
    term: u64,
    before: Option<bool>,
    poll: &Poll,
) -> Result<List<Message>, Memory>
    ensures { IfOk result (λ it. it ≡ own.deciding_now ring.now me term before poll.now) }
{
    match before {
        Some(_) => Ok(List::new(alloc)),
        None => match poll.verdict(alloc, ring, me)? {
            None => Ok(List::new(alloc)),
            Some(ok) => List::of_one(alloc, poll.result(me, term, ok)),
        },
    }
}
