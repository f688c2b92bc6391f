ghost use Rattle.std.specs.Prelude.{◌≡◌};
ghost use Rattle.ring_types.specs.Rings as rings;
ghost use Rattle.ring_model.specs.Runs as runs;
ghost use Rattle.ring_replay.specs.Steps as steps;

use ring_model::{Input, Line, Message};
use ring_types::{NodeId, Ring};

/// Whether the number is a member's.
fn is_member(ring: &Ring, id: NodeId) -> bool
    ensures { result ≡ rings.is_member ring.now id }
{
    ring.members()
        .as_slice()
        .iter()
        .any(|member| member.id == id)
}

/// The place of a member in ring order, counted from 0.
pub(crate) fn place_of(ring: &Ring, id: NodeId) -> Option<usize>
    ensures { result ≡ steps.place_of ring.now id }
{
    ring.members()
        .as_slice()
        .iter()
        .position(|member| member.id == id)
}

fn is_whole_input(input: &Input) -> bool
    ensures { result ≡ runs.is_whole_input input.now }
{
    match input {
        Input::Write { changes, .. } => changes.len() > 0,
        _ => true,
    }
}

/// Whether the event's node is in the ring, and its message was sent.
pub(crate) fn is_known(ring: &Ring, messages: &[Message], line: &Line) -> bool
    ensures { result ≡ steps.known_among ring.now messages.now line.now }
{
    match line {
        Line::At { node, input } => is_member(ring, *node) && is_whole_input(input),
        Line::Give(number) => 0 < *number && *number <= messages.len() as u64,
        Line::Next(node) => is_member(ring, *node),
        Line::Skip(node) => is_member(ring, *node),
        Line::Again(node) => is_member(ring, *node),
        Line::Crash(node) => is_member(ring, *node),
        Line::Restart(node) => is_member(ring, *node),
    }
}
