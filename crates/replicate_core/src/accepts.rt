//! How a member takes entries into its log: what it holds already stays, what differs is cut, and the
//! engine follows.
ghost use Rattle.std.specs.Prelude.{◌≡◌, ◌+◌, ◌<◌, ◌≤◌, ◌++◌, ◌∷◌, [], None, List, IfOk, IfSome, length, drop};
ghost use Rattle.ring_types.specs.declared.limits.TheConstants.{BATCH_ENTRIES, TERM_END};
ghost use Rattle.ring_types.specs.declared.entries.Entry.{Entry};
ghost use Rattle.edge_traits.specs.Views.{Keeps};
ghost use Rattle.ring_model.specs.declared.effects.Action.TheVariants as action;
ghost use Rattle.ring_model.specs.Replication as spec;
ghost use Rattle.ring_model.specs.WellFormed.{EntriesFit};
ghost use Rattle.commit_pipeline.specs.Faults.{CoreFails};
ghost use Rattle.commit_pipeline.specs.Placed.{IsPlaced};
ghost use Rattle.commit_pipeline.specs.Planned.{after, MayPlan};
ghost use Rattle.replicate_core.specs.Appends as own;

use crate::matches::matched;
use commit_pipeline::{Engine, Planned, follow};
use edge_traits::LogView;
use ring_model::{Action, Append, CoreFault};
use ring_types::{Entry, List, Memory, NodeId, Pair, Ring};
use std::alloc::Global;

/// A node that is sent entries, beside its log, which has `end` entries.
#[derive(Clone, Copy)]
pub(crate) struct Receiver<'a> {
    pub ring: &'a Ring,
    pub me: NodeId,
    pub end: u64,
    pub applied: u64,
    pub pairs: &'a [Pair],
    pub commit: u64,
}

/// How far the log stays as it is, and how far it is committed once a message's entries are taken in.
#[derive(Clone, Copy)]
struct Bounds {
    kept: u64,
    commit: u64,
}

/// The position of the message's last entry; that of its previous opid if it has none.
pub(crate) fn last_matched(sent: &Append) -> u64
    requires few { length sent.now.entries ≤ BATCH_ENTRIES }
    requires fits { sent.now.prev.position < TERM_END }
    ensures { result ≡ own.last_matched sent.now }
{
    sent.prev.position + sent.entries.len() as u64
}

/// The commit count once the message's entries are matched: the leader's, up to the last of them, if
/// that is more.
pub(crate) fn new_commit(commit: u64, sent: &Append) -> u64
    requires few { length sent.now.entries ≤ BATCH_ENTRIES }
    requires fits { sent.now.prev.position < TERM_END }
    ensures { result ≡ own.new_commit commit sent.now }
{
    commit.max(sent.commit.min(last_matched(sent)))
}

/// How many of the message's entries, from the first on, the log holds. Those at committed positions
/// are matched, since nothing is torn, and are not read again.
fn all_matched<V: LogView>(
    view: &mut V,
    end: u64,
    commit: u64,
    sent: &Append,
) -> Result<u64, CoreFault>
    requires stands { V.stands view.old }
    requires end { end ≡ (V.sees view.old).length }
    requires whole { IfSome (V.sees view.old).log (λ log. length log ≡ (V.sees view.old).length) }
    requires inside { sent.now.prev.position ≤ end }
    requires commit { commit ≤ end }
    requires fits { end < TERM_END }
    requires sound { IfSome (V.sees view.old).log (λ log. sent.now.prev.position < commit → spec.first_tear log commit (sent.now.prev.position + 1) (spec.terms_of sent.now.entries) ≡ None) }
    ensures told { IfSome (V.sees view.old).log (λ log. IfOk result (λ it. drop it sent.now.entries ≡ spec.unmatched log sent.now.prev.position sent.now.entries)) }
    ensures within { IfOk result (λ it. (it ≤ length sent.now.entries) × (sent.now.prev.position + it ≤ end)) }
    ensures above { IfOk result (λ it. sent.now.prev.position + it < commit → it ≡ length sent.now.entries) }
    ensures keeps { Keeps V.sees V.behind V.stands V.faults view.old view.new }
    ensures failed { CoreFails (V.faults view.old) (V.faults view.new) result }
{
    let position = sent.prev.position;
    let sure = commit
        .saturating_sub(position)
        .min(sent.entries.len() as u64);
    let more = matched(view, end, position + sure, sent.entries.suffix(sure))?;
    Ok(sure + more as u64)
}

fn roll_back(
    ring: &Ring,
    me: NodeId,
    position: u64,
    first: List<Action>,
) -> Result<List<Action>, Memory>
    ensures { IfOk result (λ it. it ≡ first ++ spec.roll_back ring.now me position) }
{
    let mut actions = first;
    if ring.runs_engine(me) {
        actions.push(Action::RollBackAfter(position))?;
    }
    Ok(actions)
}

fn cut(receiver: &Receiver<'_>, kept: u64, first: List<Action>) -> Result<List<Action>, Memory>
    ensures { IfOk result (λ it. (rest : List Entry) → it ++ action.Append rest ∷ [] ≡ first ++ own.taken_at receiver.now.ring.now receiver.now.me receiver.now.end kept rest) }
{
    let mut actions = first;
    if kept < receiver.end {
        actions.push(Action::Truncate(kept))?;
        return roll_back(receiver.ring, receiver.me, kept, actions);
    }
    Ok(actions)
}

/// The actions, and after them those that append the entries not kept, after a cut if something else
/// stands there.
fn take_in(
    alloc: Global,
    receiver: &Receiver<'_>,
    kept: u64,
    added: &[Entry],
    first: List<Action>,
) -> Result<List<Action>, Memory>
    ensures { IfOk result (λ it. it ≡ first ++ own.taken_at receiver.now.ring.now receiver.now.me receiver.now.end kept added.now) }
{
    let mut actions = cut(receiver, kept, first)?;
    let mut entries = List::new(alloc);
    entries.extend_copies(alloc, added)?;
    actions.push(Action::Append(entries))?;
    Ok(actions)
}

/// The actions, and after them those by which the engine follows; the pairs above `upto` are rolled
/// back by then, if it is there.
fn follow_from<V: LogView>(
    view: &mut V,
    receiver: &Receiver<'_>,
    upto: Option<u64>,
    commit: u64,
    actions: List<Action>,
) -> Result<List<Action>, CoreFault>
    requires stands { V.stands view.old }
    requires placed { IfSome (V.sees view.old).log IsPlaced }
    requires applied_inside { receiver.now.applied ≤ (V.sees view.old).length }
    requires commit_inside { commit ≤ (V.sees view.old).length }
    ensures told { IfSome (V.sees view.old).log (λ log. IfOk result (λ it. it ≡ actions ++ own.followed receiver.now log upto commit)) }
    ensures keeps { Keeps V.sees V.behind V.stands V.faults view.old view.new }
    ensures failed { CoreFails (V.faults view.old) (V.faults view.new) result }
{
    let engine = Engine {
        ring: receiver.ring,
        me: receiver.me,
        applied: receiver.applied,
        pairs: receiver.pairs,
        upto,
        made: None,
    };
    follow(view, &engine, commit, actions)
}

/// The highest position whose pairs stay; None where nothing is cut.
fn cut_at(end: u64, kept: u64) -> Option<u64>
    ensures { result ≡ own.cut_at end kept }
{
    if kept < end { Some(kept) } else { None }
}

/// The actions, and after them those by which the engine follows on the log of which `kept` entries
/// are kept and some are added.
fn follow_after<'x, V: LogView>(
    alloc: Global,
    view: &'x mut V,
    receiver: &Receiver<'_>,
    bounds: Bounds,
    added: &'x [Entry],
    actions: List<Action>,
) -> Result<List<Action>, CoreFault>
    requires stands { V.stands view.old }
    requires may_plan { MayPlan (V.sees view.old) bounds.kept added.now }
    requires placed { IfSome (V.sees view.old).log (λ log. IsPlaced (after bounds.kept added.now log)) }
    requires applied_inside { receiver.now.applied ≤ bounds.kept + length added.now }
    requires commit_inside { bounds.commit ≤ bounds.kept + length added.now }
    ensures told { IfSome (V.sees view.old).log (λ log. IfOk result (λ it. it ≡ actions ++ own.followed receiver.now (after bounds.kept added.now log) (own.cut_at receiver.now.end bounds.kept) bounds.commit)) }
    ensures keeps { Keeps V.sees V.behind V.stands V.faults view.old view.new }
    ensures failed { CoreFails (V.faults view.old) (V.faults view.new) result }
{
    let upto = cut_at(receiver.end, bounds.kept);
    let mut planned = Planned {
        view,
        alloc,
        kept: bounds.kept,
        added,
    };
    follow_from(&mut planned, receiver, upto, bounds.commit, actions)
}

/// The actions, and after them those that take in the entries which the log does not hold, and by
/// which the engine follows.
fn accept_rest<V: LogView>(
    alloc: Global,
    view: &mut V,
    receiver: &Receiver<'_>,
    bounds: Bounds,
    added: &[Entry],
    first: List<Action>,
) -> Result<List<Action>, CoreFault>
    requires stands { V.stands view.old }
    requires may_plan { MayPlan (V.sees view.old) bounds.kept added.now }
    requires placed { IfSome (V.sees view.old).log (λ log. IsPlaced (after bounds.kept added.now log)) }
    requires applied_inside { receiver.now.applied ≤ bounds.kept + length added.now }
    requires commit_inside { bounds.commit ≤ bounds.kept + length added.now }
    ensures told { IfSome (V.sees view.old).log (λ log. IfOk result (λ it. it ≡ own.added_by receiver.now log bounds.kept added.now bounds.commit first)) }
    ensures keeps { Keeps V.sees V.behind V.stands V.faults view.old view.new }
    ensures failed { CoreFails (V.faults view.old) (V.faults view.new) result }
{
    let Ok(actions) = take_in(alloc, receiver, bounds.kept, added, first) else {
        return Err(CoreFault::Memory);
    };
    follow_after(alloc, view, receiver, bounds, added, actions)
}

/// The actions, and after them those that take the message's entries in and by which the engine
/// follows.
pub(crate) fn accept<V: LogView>(
    alloc: Global,
    view: &mut V,
    receiver: &Receiver<'_>,
    sent: &Append,
    first: List<Action>,
) -> Result<List<Action>, CoreFault>
    requires stands { V.stands view.old }
    requires sent { EntriesFit (V.sees view.old).schema sent.now }
    requires end { receiver.now.end ≡ (V.sees view.old).length }
    requires whole { IfSome (V.sees view.old).log (λ log. length log ≡ (V.sees view.old).length) }
    requires placed { IfSome (V.sees view.old).log IsPlaced }
    requires inside { sent.now.prev.position ≤ receiver.now.end }
    requires commit { receiver.now.commit ≤ receiver.now.end }
    requires applied { receiver.now.applied ≤ receiver.now.commit }
    requires fits { receiver.now.end < TERM_END }
    requires sound { IfSome (V.sees view.old).log (λ log. sent.now.prev.position < receiver.now.commit → spec.first_tear log receiver.now.commit (sent.now.prev.position + 1) (spec.terms_of sent.now.entries) ≡ None) }
    ensures told { IfSome (V.sees view.old).log (λ log. IfOk result (λ it. it ≡ first ++ own.accepted_by receiver.now log sent.now)) }
    ensures keeps { Keeps V.sees V.behind V.stands V.faults view.old view.new }
    ensures failed { CoreFails (V.faults view.old) (V.faults view.new) result }
{
    let count = all_matched(view, receiver.end, receiver.commit, sent)?;
    let commit = new_commit(receiver.commit, sent);
    let added = sent.entries.suffix(count);
    if added.is_empty() {
        return follow_from(view, receiver, None, commit, first);
    }
    let kept = sent.prev.position + count;
    let bounds = Bounds { kept, commit };
    accept_rest(alloc, view, receiver, bounds, added, first)
}
