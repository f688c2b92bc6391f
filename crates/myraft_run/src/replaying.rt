ghost use Rattle.std.specs.Prelude.{◌≡◌, ◌+◌, ◌-◌, ◌^◌, ◌<◌, OnOk, IfOk, IfErr};
ghost use Rattle.ring_types.specs.Rings.{IsRing};
ghost use Rattle.ring_model.specs.Worlds.{WorldState, first_world, shown};
ghost use Rattle.ring_replay.specs.Replays.{IsHeld};
ghost use Rattle.report_text.specs.Report.{report};
ghost use Rattle.myraft_run.specs.Inputs.{GivesOne};
ghost use Rattle.myraft_run.specs.Replays.{Replays};
ghost use Rattle.myraft_run.specs.Parts.{Takes};

use crate::stops::Stop;
use report_text::write_report;
use ring_model::Event;
use ring_replay::{EventError, Replay};
use ring_types::{List, Ring};
use std::alloc::Global;

/// Takes an event, or says that its line is bad.
fn take_event(alloc: Global, ring: &Ring, replay: &mut Replay, event: &Event) -> Result<(), Stop>
    requires held { IsHeld ring.now replay.old }
    requires few { replay.old.world.events < 2 ^ 64 - 1 }
    ensures takes { (w : WorldState) → replay.old.world ≡ shown ring.now w → Takes ring.now w event.now replay.new.world result }
    ensures held { OnOk result (IsHeld ring.now replay.new) }
    ensures count { OnOk result (replay.new.world.events ≡ replay.old.world.events + 1) }
{
    match replay.event(alloc, ring, event) {
        Ok(()) => Ok(()),
        Err(EventError::Unknown) => Err(Stop::BadLine(event.line)),
        Err(EventError::Memory) => Err(Stop::Memory),
    }
}

#[tactic(auto, unfolding(ring_model::specs::Worlds::shown))]
fn new_replay(alloc: Global, ring: &Ring) -> Result<Replay, Stop>
    ensures held { IfOk result (λ it. IsHeld ring.now it) }
    ensures world { IfOk result (λ it. it.world ≡ shown ring.now first_world) }
    ensures count { IfOk result (λ it. it.world.events ≡ 0) }
    ensures memory { IfErr result (λ stop. stop ≡ Stop.Memory) }
{
    match Replay::new(alloc, ring) {
        Ok(replay) => Ok(replay),
        Err(_) => Err(Stop::Memory),
    }
}

fn report_after(alloc: Global, ring: &Ring, replay: Replay) -> Result<List<u8>, Stop>
    ensures text { IfOk result (λ text. text ≡ report ring.now replay.world) }
    ensures memory { IfErr result (λ stop. stop ≡ Stop.Memory) }
{
    let world = replay.finish(alloc).map_err(|_| Stop::Memory)?;
    write_report(alloc, ring, &world).map_err(|_| Stop::Memory)
}

/// The report after all events, or the line of the first that is refused.
pub(crate) fn replayed(alloc: Global, ring: &Ring, events: &[Event]) -> Result<List<u8>, Stop>
    ensures valid { IsRing ring.now }
    ensures replays { GivesOne (Replays ring.now events.now) result }
{
    ring.law_built();
    let mut replay = new_replay(alloc, ring)?;
    for event in events {
        take_event(alloc, ring, &mut replay, event)?;
    }
    report_after(alloc, ring, replay)
}
