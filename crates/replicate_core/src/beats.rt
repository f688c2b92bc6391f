ghost use Rattle.std.specs.Prelude.{◌≡◌, ◌+◌, ◌-◌, ◌<◌, ◌≤◌, IfOk, IfSome, OnErr, drop, if◌then◌else◌, length, map};
ghost use Rattle.std.specs.List.{All};
ghost use Rattle.std.specs.Option.{option_copied};
ghost use Rattle.ring_types.specs.declared.limits.TheConstants.{TERM_END};
ghost use Rattle.ring_types.specs.Logs as logs;
ghost use Rattle.ring_types.specs.Rings.{proxy_of};
ghost use Rattle.edge_traits.specs.Views.{Keeps};
ghost use Rattle.ring_model.specs.Nodes.{PeerFits};
ghost use Rattle.ring_model.specs.Replication as spec;
ghost use Rattle.commit_pipeline.specs.Faults.{CoreFails};
ghost use Rattle.commit_pipeline.specs.Heres.{StandsForNode, durable_of};
ghost use Rattle.replicate_core.specs.Beats as own;

use commit_pipeline::{Here, entry_at, idle, is_leader, last, message, term_at};
use edge_traits::LogView;
use ring_model::{Append, Body, CoreFault, Message, Peer, Plan, ProxyAppend, Soft};
use ring_plain::group_size;
use ring_types::{
    BATCH_BYTES, BATCH_ENTRIES, Entry, List, Member, Memory, NodeId, Opid, RegionId, Ring,
    SILENT_BEATS, Schema,
};
use std::alloc::Global;

/// A leader that sends, beside its log.
#[derive(Clone, Copy)]
struct Sender<'a> {
    ring: &'a Ring,
    me: NodeId,
    term: u64,
    commit: u64,
    peers: &'a [Peer],
}

/// What one message takes of the log of `end` entries after a position: entries up to a count and a
/// sum of bytes, ended by the first that does not fit. At most one entry more is read than is taken.
fn batch_after<V: LogView>(
    alloc: Global,
    view: &mut V,
    schema: &Schema,
    end: u64,
    position: u64,
) -> Result<List<Entry>, CoreFault>
    requires stands { V.stands view.old }
    requires end { end ≡ (V.sees view.old).length }
    requires whole { IfSome (V.sees view.old).log (λ log. length log ≡ (V.sees view.old).length) }
    requires inside { position ≤ end }
    requires fits { end < TERM_END }
    ensures told { IfSome (V.sees view.old).log (λ log. IfOk result (λ it. it ≡ spec.batch_of schema.now (drop position log))) }
    ensures keeps { Keeps V.sees V.behind V.stands V.faults view.old view.new }
    ensures failed { CoreFails (V.faults view.old) (V.faults view.new) result }
{
    let mut batch = List::new(alloc);
    let mut at = position;
    let mut bytes = BATCH_BYTES;
    let mut left = BATCH_ENTRIES;
    while left > 0 {
        if end <= at {
            return Ok(batch);
        }
        let entry = entry_at(view, at + 1)?;
        let size = group_size(schema, &entry.payload);
        if bytes < size {
            return Ok(batch);
        }
        let Ok(()) = batch.push(entry) else {
            return Err(CoreFault::Memory);
        };
        at += 1;
        bytes -= size;
        left -= 1;
    }
    Ok(batch)
}

fn opids_of(alloc: Global, entries: &[Entry]) -> Result<List<Opid>, Memory>
    ensures { IfOk result (λ it. it ≡ spec.opids_of entries.now) }
{
    let mut opids = List::new(alloc);
    for entry in entries {
        opids.push(entry.opid)?;
    }
    Ok(opids)
}

/// The count of beats since a member's last reply.
fn silent_of(peers: &[Peer], id: NodeId) -> u64
    ensures { result ≡ spec.silent_of peers.now id }
{
    for peer in peers {
        if peer.node == id {
            return peer.silent;
        }
    }
    0
}

fn proxy_in(ring: &Ring, region: RegionId) -> Option<&Member>
    ensures { option_copied result ≡ proxy_of ring.now region }
{
    ring.members()
        .as_slice()
        .iter()
        .find(|member| member.region == region)
}

/// The first member declared in the region of a member.
fn proxy_id(ring: &Ring, id: NodeId) -> NodeId
    ensures { result ≡ spec.proxy_id ring.now id }
{
    match proxy_in(ring, ring.region_of(id)) {
        Some(member) => member.id,
        None => id,
    }
}

/// Whether the entries for a member go by its region's proxy: the member is in another region and is
/// not the proxy, which was not silent for three beats.
fn is_proxied(ring: &Ring, me: NodeId, peers: &[Peer], id: NodeId) -> bool
    ensures { result ≡ spec.is_proxied ring.now me peers.now id }
{
    let proxy = proxy_id(ring, id);
    ring.region_of(id) != ring.region_of(me)
        && proxy != id
        && silent_of(peers, proxy) < SILENT_BEATS
}

fn send_direct(sender: &Sender<'_>, to: NodeId, prev: Opid, entries: List<Entry>) -> Message
    ensures { result ≡ own.direct sender.now to prev entries }
{
    let sent = Append {
        term: sender.term,
        leader: sender.me,
        prev,
        commit: sender.commit,
        entries,
    };
    message(sender.me, to, Body::Append(sent))
}

fn send_proxied(
    alloc: Global,
    sender: &Sender<'_>,
    proxy: NodeId,
    target: NodeId,
    prev: Opid,
    entries: List<Entry>,
) -> Result<Message, Memory>
    ensures { IfOk result (λ it. it ≡ own.proxied sender.now proxy target prev entries) }
{
    let sent = ProxyAppend {
        term: sender.term,
        target,
        prev,
        commit: sender.commit,
        opids: opids_of(alloc, entries.as_slice())?,
    };
    Ok(message(sender.me, proxy, Body::ProxyAppend(sent)))
}

/// The message to the region's proxy if the member is proxied, else to the member.
fn send(
    alloc: Global,
    sender: &Sender<'_>,
    to: NodeId,
    prev: Opid,
    entries: List<Entry>,
) -> Result<Message, Memory>
    ensures { IfOk result (λ it. it ≡ (if spec.is_proxied sender.now.ring.now sender.now.me sender.now.peers.now to then own.proxied sender.now (spec.proxy_id sender.now.ring.now to) to prev entries else own.direct sender.now to prev entries)) }
{
    if is_proxied(sender.ring, sender.me, sender.peers, to) {
        let proxy = proxy_id(sender.ring, to);
        send_proxied(alloc, sender, proxy, to, prev, entries)
    } else {
        Ok(send_direct(sender, to, prev, entries))
    }
}

fn beat_to<V: LogView>(
    alloc: Global,
    view: &mut V,
    sender: &Sender<'_>,
    end: u64,
    peer: Peer,
) -> Result<Message, CoreFault>
    requires stands { V.stands view.old }
    requires end { end ≡ (V.sees view.old).length }
    requires whole { IfSome (V.sees view.old).log (λ log. length log ≡ (V.sees view.old).length) }
    requires fits { end < TERM_END }
    requires peer { PeerFits end peer }
    ensures told { IfSome (V.sees view.old).log (λ log. IfOk result (λ it. it ≡ own.message_to sender.now log peer)) }
    ensures keeps { Keeps V.sees V.behind V.stands V.faults view.old view.new }
    ensures failed { CoreFails (V.faults view.old) (V.faults view.new) result }
{
    let position = peer.next - 1;
    let term = term_at(view, position)?;
    let entries = batch_after(alloc, view, sender.ring.schema(), end, position)?;
    match send(alloc, sender, peer.node, Opid { term, position }, entries) {
        Ok(message) => Ok(message),
        Err(_) => Err(CoreFault::Memory),
    }
}

fn all_beats<V: LogView>(
    alloc: Global,
    view: &mut V,
    sender: &Sender<'_>,
    end: u64,
) -> Result<List<Message>, CoreFault>
    requires stands { V.stands view.old }
    requires end { end ≡ (V.sees view.old).length }
    requires whole { IfSome (V.sees view.old).log (λ log. length log ≡ (V.sees view.old).length) }
    requires fits { end < TERM_END }
    requires peers { All (PeerFits end) sender.now.peers.now }
    ensures told { IfSome (V.sees view.old).log (λ log. IfOk result (λ it. it ≡ map (own.message_to sender.now log) sender.now.peers.now)) }
    ensures keeps { Keeps V.sees V.behind V.stands V.faults view.old view.new }
    ensures failed { CoreFails (V.faults view.old) (V.faults view.new) result }
{
    let peers = sender.peers;
    let mut messages = List::new(alloc);
    for peer in peers {
        let message = beat_to(alloc, view, sender, end, *peer)?;
        let Ok(()) = messages.push(message) else {
            return Err(CoreFault::Memory);
        };
    }
    Ok(messages)
}

/// The member after one more beat without its reply: its silent count rises, to at most 3.
fn quieter(peer: Peer) -> Peer
    ensures { result ≡ spec.quieter peer }
{
    Peer {
        silent: peer.silent.saturating_add(1).min(SILENT_BEATS),
        ..peer
    }
}

fn all_quieter(alloc: Global, peers: &[Peer]) -> Result<List<Peer>, Memory>
    ensures { IfOk result (λ it. it ≡ map spec.quieter peers.now) }
{
    let mut after = List::new(alloc);
    for peer in peers {
        after.push(quieter(*peer))?;
    }
    Ok(after)
}

/// The plan of a leader that sends to the other members; nothing on another node.
pub fn beat<'a, V: LogView>(
    alloc: Global,
    here: Here<'a, V>,
    soft: &mut Soft,
) -> Result<Plan, CoreFault>
    requires node { StandsForNode V.stands V.sees here soft.old }
    ensures told { IfSome (V.sees here.entry.view.now).log (λ log. IfOk result (λ it. spec.beat here.entry.ring.now here.entry.me (durable_of here.entry log) soft.old ≡ record { plan = it; soft = soft.new })) }
    ensures stays { OnErr result (soft.new ≡ soft.old) }
    ensures keeps { Keeps V.sees V.behind V.stands V.faults here.entry.view.now here.exit.0.now }
    ensures failed { CoreFails (V.faults here.entry.view.now) (V.faults here.exit.0.now) result }
{
    let Here {
        view,
        ring,
        me,
        term,
        ..
    } = here;
    if !is_leader(soft.role) {
        return Ok(idle(alloc));
    }
    let end = last(view)?.position;
    let sender = Sender {
        ring,
        me,
        term,
        commit: soft.commit,
        peers: soft.peers.as_slice(),
    };
    let messages = all_beats(alloc, view, &sender, end)?;
    let Ok(peers) = all_quieter(alloc, soft.peers.as_slice()) else {
        return Err(CoreFault::Memory);
    };
    soft.peers = peers;
    Ok(Plan {
        actions: List::new(alloc),
        messages,
        says: List::new(alloc),
    })
}
