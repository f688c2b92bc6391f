ghost use Rattle.commit_pipeline.specs.Heres.{IsLeaderOf};

use gtid_set::GtidSet;
use prepared_txns::Prepared;
use ring_model::{Peer, Pending, Soft};
use ring_types::{NodeId, Opid, Pair, Ring};
use row_engine::Tables;
use vote_history::History;

/// What a rule is handed of a node: its ring and number, its durable part with the log as a view,
/// and what the stores keep of it beside.
#[derive(Drop)]
pub struct Here<'a, V> {
    pub view: &'a mut V,
    pub ring: &'a Ring,
    pub me: NodeId,
    pub term: u64,
    pub history: &'a History,
    pub gtids: &'a GtidSet,
    /// None on a node without an engine.
    pub tables: Option<&'a Tables>,
    pub applied: u64,
    pub prepared: &'a Prepared,
    /// The number of the current binary log file.
    pub file: u32,
}

/// A node's engine once a plan's actions are done: it has applied so many entries. Of the pairs that
/// were prepared before, those above `upto` are rolled back, if it is there; `made` is the opid that
/// the plan itself prepares.
#[derive(Clone, Copy)]
pub struct Engine<'a> {
    pub ring: &'a Ring,
    pub me: NodeId,
    pub applied: u64,
    pub pairs: &'a [Pair],
    pub upto: Option<u64>,
    pub made: Option<Opid>,
}

/// A leader once a plan's actions are done, beside its log.
#[derive(Clone, Copy)]
pub struct Leader<'a> {
    pub engine: Engine<'a>,
    pub term: u64,
    pub commit: u64,
    pub peers: &'a [Peer],
    pub pending: &'a [Pending],
}

impl<'a> Leader<'a> {
    /// The node as a leader, under a plan that rolls no pair back and prepares none.
    pub fn new(
        ring: &'a Ring,
        me: NodeId,
        term: u64,
        applied: u64,
        prepared: &'a Prepared,
        soft: &'a Soft,
    ) -> Leader<'a>
        ensures { IsLeaderOf result ring.now me term applied prepared.now soft.now }
    {
        let engine = Engine {
            ring,
            me,
            applied,
            pairs: prepared.pairs().as_slice(),
            upto: None,
            made: None,
        };
        Leader {
            engine,
            term,
            commit: soft.commit,
            peers: soft.peers.as_slice(),
            pending: soft.pending.as_slice(),
        }
    }
}
