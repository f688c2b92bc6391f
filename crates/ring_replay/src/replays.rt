ghost use Rattle.std.specs.Prelude.{◌≡◌, ℕ, ◌+◌, ◌-◌, ◌^◌, ◌<◌, true, IfOk, OnOk, Err, Some, length, map, slice_get};
ghost use Rattle.ring_model.specs.Worlds.{WorldState, Whole, Handle, GoDown, ComeUp, world_step, first_world, shown, message_at, next_from};
ghost use Rattle.ring_model.specs.Runs.{is_known, is_whole_input};
ghost use Rattle.ring_model.specs.declared.messages.Message.{Message};
ghost use Rattle.ring_lawful.specs.EachStep.{IsGood};
ghost use Rattle.ring_types.specs.Logs.{IsLog};
ghost use Rattle.ring_types.specs.Rings.{Layout};
ghost use Rattle.node_unit.specs.Units.{UnitState, after_answer, answered, outcome_of};
ghost use Rattle.ring_model.specs.declared.worlds.Shown.{Shown};
ghost use Rattle.std.specs.Option.{option_map};
ghost use Rattle.ring_replay.specs.Fit.{IsFitWorld, KeepsChosen};
ghost use Rattle.ring_replay.specs.Replays.{ReplayState, IsHeld, HasEngines, Refuses};
ghost use Rattle.ring_replay.specs.Steps as steps;

use crate::beginnings::{first_cursors, first_units};
use crate::chosen::grow;
use crate::lines::{is_known, place_of};
use crate::messages::{add_said, message_at};
use crate::sent::Messages;
use node_unit::Unit;
use ring_model::{Event, Input, Line, Message, Outcome, Say, Shown, World};
use ring_types::{List, Memory, NodeId, Ring};
use std::alloc::Global;
use std::marker::Model;

/// Why an event was not taken.
#[derive(Clone, Copy, Debug, PartialEq, Eq, thiserror::Error)]
pub enum EventError {
    /// The event's node is not in the ring, or its message was never sent.
    #[error("no such node or message")]
    Unknown,
    #[error("out of memory")]
    Memory,
}

/// A ring's run: the world after the events so far.
///
/// Two lists of `world` stand empty. Its nodes are in `nodes`, so that a turn changes one in place; its
/// messages are in `sent`, beside what is known of where a node has none.
#[derive(Drop)]
pub struct Replay {
    world: World,
    nodes: Vec<Unit>,
    sent: Messages,
}

impl Model for Replay {
    ghost use Rattle.std.specs.Prelude.{map};
    ghost use Rattle.node_unit.specs.Units.{UnitState};
    ghost use Rattle.ring_replay.specs.Replays.{ReplayState};

    ghost Value = { ReplayState };

    ghost view = { λ r. record { world = record r.world { nodes = map (λ (u : UnitState). u.shown) r.nodes.items; messages = r.sent }; engines = map (λ (u : UnitState). u.engine) r.nodes.items } };
}

/// The nodes as a report shows them.
fn all_shown(alloc: Global, units: Vec<Unit>) -> Result<List<Shown>, Memory>
    ensures { IfOk result (λ it. it ≡ map (λ (u : UnitState). u.shown) units.items) }
{
    let mut units = units;
    let mut shown = List::new(alloc);
    while !units.is_empty() {
        let unit = units.remove(0);
        shown.push(unit.into_shown()?)?;
    }
    Ok(shown)
}

impl Replay {
    /// The world before the first event: every node runs on the empty durable part.
    #[tactic(auto, unfolding(ring_model::specs::Worlds::shown))]
    pub fn new(alloc: Global, ring: &Ring) -> Result<Replay, Memory>
        ensures world { IfOk result (λ it. it.world ≡ shown ring.now first_world) }
        ensures held { IfOk result (λ it. IsHeld ring.now it) }
    {
        let nodes = first_units(alloc, ring)?;
        let cursors = first_cursors(alloc, ring)?;
        Ok(Replay {
            world: World {
                events: 0,
                nodes: List::new(alloc),
                messages: List::new(alloc),
                cursors,
                said: List::new(alloc),
                kept: List::new(alloc),
                chosen: List::new(alloc),
            },
            nodes,
            sent: Messages::new(alloc),
        })
    }

    fn pass(&mut self)
        requires few { self.old.world.events < 2 ^ 64 - 1 }
        ensures world { self.new.world ≡ steps.shown_passed self.old.world }
        ensures engines { self.new.engines ≡ self.old.engines }
    {
        self.world.events += 1;
    }

    /// Counts the turn of the node at a place, and keeps what it sends and says.
    #[tactic(auto, unfolding(crate::specs::Steps::recorded))]
    fn keep_turn(
        &mut self,
        alloc: Global,
        place: usize,
        messages: List<Message>,
        says: &[Say],
    ) -> Result<(), Memory>
        requires few { self.old.world.events < 2 ^ 64 - 1 }
        requires node { place < length self.old.world.nodes }
        requires keeps { (s : Shown) → slice_get self.old.world.nodes place ≡ Some s → KeepsChosen self.old.world (steps.recorded self.old.world s messages says.now) }
        ensures world { (s : Shown) → slice_get self.old.world.nodes place ≡ Some s → OnOk result (self.new.world ≡ steps.recorded self.old.world s messages says.now) }
        ensures engines { OnOk result (self.new.engines ≡ self.old.engines) }
    {
        let event = self.world.events + 1;
        self.world.events = event;
        let unit = &self.nodes[place];
        add_said(alloc, &mut self.world.said, event, unit.me(), says)?;
        grow(alloc, &mut self.world.chosen, unit)?;
        self.sent.append(messages)
    }

    /// The step of the node at a place on an input; None where it is down.
    fn step_at(
        &mut self,
        alloc: Global,
        ring: &Ring,
        place: usize,
        input: &Input,
    ) -> Result<Option<Outcome>, Memory>
        requires held { HasEngines ring.now self.old }
        requires fit { IsFitWorld ring.now self.old.world }
        requires good { IsGood ring.now input.now }
        requires node { place < length self.old.world.nodes }
        ensures world { (s : Shown) → slice_get self.old.world.nodes place ≡ Some s → OnOk result (self.new.world ≡ steps.with_node self.old.world place (after_answer s (answered ring.now input.now s))) }
        ensures gives { (s : Shown) → slice_get self.old.world.nodes place ≡ Some s → IfOk result (λ it. it ≡ option_map outcome_of (answered ring.now input.now s)) }
        ensures held { OnOk result (HasEngines ring.now self.new) }
    {
        self.nodes[place].step(alloc, ring, input)
    }

    fn handle_at(
        &mut self,
        alloc: Global,
        ring: &Ring,
        place: usize,
        input: &Input,
    ) -> Result<(), Memory>
        requires few { self.old.world.events < 2 ^ 64 - 1 }
        requires held { HasEngines ring.now self.old }
        requires fit { IsFitWorld ring.now self.old.world }
        requires good { IsGood ring.now input.now }
        requires keeps { KeepsChosen self.old.world (steps.turn_of ring.now self.old.world place (Handle input.now) (slice_get self.old.world.nodes place)) }
        ensures world { OnOk result (self.new.world ≡ steps.turn_of ring.now self.old.world place (Handle input.now) (slice_get self.old.world.nodes place)) }
        ensures held { OnOk result (HasEngines ring.now self.new) }
    {
        if place >= self.nodes.len() {
            self.pass();
            return Ok(());
        }
        match self.step_at(alloc, ring, place, input)? {
            None => {
                self.pass();
                Ok(())
            }
            Some(outcome) => {
                let Outcome { messages, says } = outcome;
                self.keep_turn(alloc, place, messages, says.as_slice())
            }
        }
    }

    /// The node at a place goes down.
    fn stop_at(&mut self, place: usize)
        requires node { place < length self.old.world.nodes }
        ensures world { (s : Shown) → slice_get self.old.world.nodes place ≡ Some s → self.new.world ≡ steps.with_node self.old.world place (steps.downed_node s) }
        ensures held { (ring : Layout) → HasEngines ring self.old → HasEngines ring self.new }
    {
        self.nodes[place].stop();
    }

    /// The node at a place comes up.
    fn start_at(&mut self, alloc: Global, place: usize) -> Result<(), Memory>
        requires node { place < length self.old.world.nodes }
        requires log { (s : Shown) → slice_get self.old.world.nodes place ≡ Some s → IsLog s.durable.log }
        ensures world { (s : Shown) → slice_get self.old.world.nodes place ≡ Some s → OnOk result (self.new.world ≡ steps.with_node self.old.world place (steps.restarted_node s)) }
        ensures held { (ring : Layout) → HasEngines ring self.old → OnOk result (HasEngines ring self.new) }
    {
        self.nodes[place].restart(alloc)
    }

    fn go_down(&mut self, alloc: Global, ring: &Ring, place: usize) -> Result<(), Memory>
        requires few { self.old.world.events < 2 ^ 64 - 1 }
        requires held { HasEngines ring.now self.old }
        requires node { place < length self.old.world.nodes }
        requires keeps { KeepsChosen self.old.world (steps.turn_of ring.now self.old.world place GoDown (slice_get self.old.world.nodes place)) }
        ensures world { OnOk result (self.new.world ≡ steps.turn_of ring.now self.old.world place GoDown (slice_get self.old.world.nodes place)) }
        ensures held { OnOk result (HasEngines ring.now self.new) }
    {
        self.stop_at(place);
        self.keep_turn(alloc, place, List::new(alloc), &[])
    }

    fn come_up(&mut self, alloc: Global, ring: &Ring, place: usize) -> Result<(), Memory>
        requires few { self.old.world.events < 2 ^ 64 - 1 }
        requires held { HasEngines ring.now self.old }
        requires fit { IsFitWorld ring.now self.old.world }
        requires node { place < length self.old.world.nodes }
        requires keeps { KeepsChosen self.old.world (steps.turn_of ring.now self.old.world place ComeUp (slice_get self.old.world.nodes place)) }
        ensures world { OnOk result (self.new.world ≡ steps.turn_of ring.now self.old.world place ComeUp (slice_get self.old.world.nodes place)) }
        ensures held { OnOk result (HasEngines ring.now self.new) }
    {
        self.start_at(alloc, place)?;
        self.keep_turn(alloc, place, List::new(alloc), &[])
    }

    /// Gives an input to a member.
    fn handle(
        &mut self,
        alloc: Global,
        ring: &Ring,
        id: NodeId,
        input: &Input,
    ) -> Result<(), Memory>
        requires few { self.old.world.events < 2 ^ 64 - 1 }
        requires held { HasEngines ring.now self.old }
        requires fit { IsFitWorld ring.now self.old.world }
        requires good { IsGood ring.now input.now }
        requires keeps { KeepsChosen self.old.world (steps.shown_member_turn ring.now self.old.world id (Handle input.now)) }
        ensures world { OnOk result (self.new.world ≡ steps.shown_member_turn ring.now self.old.world id (Handle input.now)) }
        ensures held { OnOk result (HasEngines ring.now self.new) }
    {
        match place_of(ring, id) {
            None => {
                self.pass();
                Ok(())
            }
            Some(place) => self.handle_at(alloc, ring, place, input),
        }
    }

    fn crash(&mut self, alloc: Global, ring: &Ring, id: NodeId) -> Result<(), Memory>
        requires few { self.old.world.events < 2 ^ 64 - 1 }
        requires held { HasEngines ring.now self.old }
        requires keeps { KeepsChosen self.old.world (steps.shown_member_turn ring.now self.old.world id GoDown) }
        ensures world { OnOk result (self.new.world ≡ steps.shown_member_turn ring.now self.old.world id GoDown) }
        ensures held { OnOk result (HasEngines ring.now self.new) }
    {
        match place_of(ring, id) {
            Some(place) if place < self.nodes.len() => self.go_down(alloc, ring, place),
            _ => {
                self.pass();
                Ok(())
            }
        }
    }

    fn restart(&mut self, alloc: Global, ring: &Ring, id: NodeId) -> Result<(), Memory>
        requires few { self.old.world.events < 2 ^ 64 - 1 }
        requires held { HasEngines ring.now self.old }
        requires fit { IsFitWorld ring.now self.old.world }
        requires keeps { KeepsChosen self.old.world (steps.shown_member_turn ring.now self.old.world id ComeUp) }
        ensures world { OnOk result (self.new.world ≡ steps.shown_member_turn ring.now self.old.world id ComeUp) }
        ensures held { OnOk result (HasEngines ring.now self.new) }
    {
        match place_of(ring, id) {
            Some(place) if place < self.nodes.len() => self.come_up(alloc, ring, place),
            _ => {
                self.pass();
                Ok(())
            }
        }
    }

    /// Gives the message of a number to its receiver.
    #[tactic(auto, using(crate::proofs::Fit::sent_is_good))]
    fn give(&mut self, alloc: Global, ring: &Ring, number: u64) -> Result<(), Memory>
        requires few { self.old.world.events < 2 ^ 64 - 1 }
        requires held { HasEngines ring.now self.old }
        requires fit { IsFitWorld ring.now self.old.world }
        requires keeps { KeepsChosen self.old.world (steps.shown_given ring.now self.old.world (message_at self.old.world.messages number)) }
        ensures world { OnOk result (self.new.world ≡ steps.shown_given ring.now self.old.world (message_at self.old.world.messages number)) }
        ensures held { OnOk result (HasEngines ring.now self.new) }
    {
        match message_at(alloc, self.sent.as_slice(), number)? {
            None => {
                self.pass();
                Ok(())
            }
            Some(message) => {
                let to = NodeId(message.to);
                let input = Input::Deliver(message);
                self.handle(alloc, ring, to, &input)
            }
        }
    }

    fn cursor(&self, ring: &Ring, id: NodeId) -> u64
        ensures { result ≡ steps.shown_cursor ring.now self.now.world id }
    {
        match place_of(ring, id) {
            None => 0,
            Some(place) => match self.world.cursors.get(place) {
                None => 0,
                Some(cursor) => *cursor,
            },
        }
    }

    /// The number of the node's next message. It changes nothing that contracts see.
    fn next_to(&mut self, ring: &Ring, id: NodeId) -> Option<u64>
        ensures next { result ≡ steps.shown_next_to ring.now self.old.world id }
        ensures same { self.new ≡ self.old }
    {
        let cursor = self.cursor(ring, id);
        self.sent.next_to(id.0, cursor)
    }

    /// Moves the cursor of a node to the message of a number.
    fn move_to(&mut self, ring: &Ring, id: NodeId, number: u64)
        ensures world { self.new.world ≡ steps.shown_moved ring.now self.old.world id number }
        ensures events { self.new.world.events ≡ self.old.world.events }
        ensures nodes { self.new.world.nodes ≡ self.old.world.nodes }
        ensures messages { self.new.world.messages ≡ self.old.world.messages }
        ensures chosen { self.new.world.chosen ≡ self.old.world.chosen }
        ensures engines { self.new.engines ≡ self.old.engines }
    {
        if let Some(place) = place_of(ring, id)
            && place < self.world.cursors.len()
        {
            let _ = self.world.cursors.replace(place, number);
        }
    }

    fn give_next(&mut self, alloc: Global, ring: &Ring, id: NodeId) -> Result<(), Memory>
        requires few { self.old.world.events < 2 ^ 64 - 1 }
        requires held { HasEngines ring.now self.old }
        requires fit { IsFitWorld ring.now self.old.world }
        requires keeps { KeepsChosen self.old.world (steps.shown_next_given ring.now self.old.world id (steps.shown_next_to ring.now self.old.world id)) }
        ensures world { OnOk result (self.new.world ≡ steps.shown_next_given ring.now self.old.world id (steps.shown_next_to ring.now self.old.world id)) }
        ensures held { OnOk result (HasEngines ring.now self.new) }
    {
        match self.next_to(ring, id) {
            None => {
                self.pass();
                Ok(())
            }
            Some(number) => {
                self.move_to(ring, id, number);
                self.give(alloc, ring, number)
            }
        }
    }

    fn skip(&mut self, ring: &Ring, id: NodeId)
        requires few { self.old.world.events < 2 ^ 64 - 1 }
        requires held { HasEngines ring.now self.old }
        ensures world { self.new.world ≡ steps.shown_skipped ring.now self.old.world id (steps.shown_next_to ring.now self.old.world id) }
        ensures held { HasEngines ring.now self.new }
    {
        if let Some(number) = self.next_to(ring, id) {
            self.move_to(ring, id, number);
        }
        self.pass();
    }

    /// Messages are given from the list alone.
    #[tactic(auto, using(crate::proofs::Fit::whole_is_good))]
    fn give_input(
        &mut self,
        alloc: Global,
        ring: &Ring,
        id: NodeId,
        input: &Input,
    ) -> Result<(), Memory>
        requires few { self.old.world.events < 2 ^ 64 - 1 }
        requires held { HasEngines ring.now self.old }
        requires fit { IsFitWorld ring.now self.old.world }
        requires whole { is_whole_input input.now ≡ true }
        requires keeps { KeepsChosen self.old.world (steps.shown_at_node ring.now self.old.world id input.now) }
        ensures world { OnOk result (self.new.world ≡ steps.shown_at_node ring.now self.old.world id input.now) }
        ensures held { OnOk result (HasEngines ring.now self.new) }
    {
        match input {
            Input::Deliver(_) => {
                self.pass();
                Ok(())
            }
            _ => self.handle(alloc, ring, id, input),
        }
    }

    #[tactic(auto, unfolding(crate::specs::Steps::shown_step), using(ring_types::proofs::Booleans::both_true))]
    fn take_line(&mut self, alloc: Global, ring: &Ring, line: &Line) -> Result<(), Memory>
        requires few { self.old.world.events < 2 ^ 64 - 1 }
        requires held { HasEngines ring.now self.old }
        requires fit { IsFitWorld ring.now self.old.world }
        requires known { steps.known_among ring.now self.old.world.messages line.now ≡ true }
        requires keeps { KeepsChosen self.old.world (steps.shown_step ring.now self.old.world line.now) }
        ensures world { OnOk result (self.new.world ≡ steps.shown_step ring.now self.old.world line.now) }
        ensures held { OnOk result (HasEngines ring.now self.new) }
    {
        match line {
            Line::At { node, input } => self.give_input(alloc, ring, *node, input),
            Line::Give(number) => self.give(alloc, ring, *number),
            Line::Next(node) => self.give_next(alloc, ring, *node),
            Line::Skip(node) => {
                self.skip(ring, *node);
                Ok(())
            }
            Line::Again(node) => {
                let cursor = self.cursor(ring, *node);
                self.give(alloc, ring, cursor)
            }
            Line::Crash(node) => self.crash(alloc, ring, *node),
            Line::Restart(node) => self.restart(alloc, ring, *node),
        }
    }

    fn knows(&self, ring: &Ring, line: &Line) -> bool
        ensures { result ≡ steps.known_among ring.now self.now.world.messages line.now }
    {
        is_known(ring, self.sent.as_slice(), line)
    }

    /// Takes the next event, to its end. The ring is the one of `new`. After `Unknown` the replay is as
    /// it was; after `Memory` it is given up.
    pub fn event(&mut self, alloc: Global, ring: &Ring, event: &Event) -> Result<(), EventError>
        requires held { IsHeld ring.now self.old }
        requires few { self.old.world.events < 2 ^ 64 - 1 }
        ensures known { (w : WorldState) → self.old.world ≡ shown ring.now w → Refuses (is_known ring.now w event.now.what) result }
        ensures world { (w : WorldState) → self.old.world ≡ shown ring.now w → OnOk result (self.new.world ≡ shown ring.now (world_step ring.now w event.now Whole)) }
        ensures held { OnOk result (IsHeld ring.now self.new) }
        ensures count { OnOk result (self.new.world.events ≡ self.old.world.events + 1) }
        ensures same { result ≡ Err EventError.Unknown → self.new ≡ self.old }
    {
        ring.law_built();
        if !self.knows(ring, &event.what) {
            return Err(EventError::Unknown);
        }
        match self.take_line(alloc, ring, &event.what) {
            Ok(()) => Ok(()),
            Err(_) => Err(EventError::Memory),
        }
    }

    /// The world after the events so far.
    pub fn finish(self, alloc: Global) -> Result<World, Memory>
        ensures { IfOk result (λ it. it ≡ self.world) }
    {
        let Replay { world, nodes, sent } = self;
        let nodes = all_shown(alloc, nodes)?;
        Ok(World {
            nodes,
            messages: sent.into_list(),
            ..world
        })
    }
}
