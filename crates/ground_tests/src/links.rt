//! What a link gives and what it takes, and whose failure a caller of it tells.
ghost use Rattle.std.specs.Prelude.{◌≡◌, ◌≢◌, ◌≤◌, ◌++◌, ◌∷◌, [], false, Ok, Err, option_map};
ghost use Rattle.edge_traits.specs.Links.{Traffic, LinkFails};
ghost use Rattle.edge_traits.specs.declared.links.Got.TheVariants as got;

use super::fixtures::{numbers, pair, with};
use edge_traits::{Got, Link, LinkFault, MemoryLink, Sent, SteadyLink};
use ring_types::List;
use std::process::Abort;

/// Sends a message back to its sender, and answers whether one came.
fn echo<L: Link>(link: &mut L) -> Result<bool, LinkFault>
    ensures quiet { result ≡ Ok false → L.traffic link.new ≡ option_map (λ (t : Traffic). record t { received = t.received ++ got.Quiet ∷ [] }) (L.traffic link.old) }
    ensures later { L.faults link.old ≤ L.faults link.new }
    ensures failed { LinkFails (L.faults link.old) (L.faults link.new) result }
{
    match link.receive()? {
        Got::Quiet => Ok(false),
        Got::Message { from, bytes } => match link.send(from, bytes.as_slice()) {
            Ok(()) => Ok(true),
            Err(_) => Err(LinkFault::Memory),
        },
    }
}

/// Over a steady form no failure is left.
fn echo_steadily(link: &mut SteadyLink) -> Result<bool, LinkFault>
    ensures { result ≢ Err LinkFault.Failed }
{
    echo(link)
}

fn message(rt: &(impl AllocGlobal + Abort), from: u32, text: &str) -> Got {
    let mut bytes = List::new(rt.alloc());
    bytes
        .extend_from_slice(text.as_bytes())
        .expect(rt, "memory");
    Got::Message { from, bytes }
}

/// Two messages, and between them nothing.
fn gots(rt: &(impl AllocGlobal + Abort)) -> List<Got> {
    let two = pair(rt, message(rt, 5, "a"), Got::Quiet);
    with(rt, two, message(rt, 6, "bc"))
}

/// Whether both messages went back to their senders.
fn are_echoed(sent: &List<Sent>) -> bool {
    match sent.as_slice() {
        [first, second] => {
            first.to == 5
                && first.bytes.as_slice() == b"a".as_slice()
                && second.to == 6
                && second.bytes.as_slice() == b"bc".as_slice()
        }
        _ => false,
    }
}

#[test]
fn a_failing_receive_keeps_the_message_for_the_next(rt: HostRuntime) {
    let mut link = MemoryLink::new(rt.alloc(), gots(&rt), numbers(&rt, &[1, 3]));
    let peers = List::new(rt.alloc());
    assert!(rt; link.join(1, &peers) == Err(LinkFault::Failed));
    assert!(rt; link.join(1, &peers) == Ok(()));
    assert!(rt; echo(&mut link) == Err(LinkFault::Failed));
    assert!(rt; echo(&mut link) == Ok(true));
    assert!(rt; echo(&mut link) == Ok(false));
    assert!(rt; echo(&mut link) == Ok(true));
    assert!(rt; echo(&mut link) == Ok(false));
    assert!(rt; are_echoed(link.sent()));
}

#[test]
fn a_steady_link_gives_its_list_and_then_nothing(rt: HostRuntime) {
    let mut link = SteadyLink::new(rt.alloc(), gots(&rt));
    assert!(rt; echo_steadily(&mut link) == Ok(true));
    assert!(rt; echo_steadily(&mut link) == Ok(false));
    assert!(rt; echo_steadily(&mut link) == Ok(true));
    assert!(rt; echo_steadily(&mut link) == Ok(false));
    assert!(rt; echo_steadily(&mut link) == Ok(false));
    assert!(rt; are_echoed(link.sent()));
}
