ghost use Rattle.proxy_core.specs.Relays.{SendsTheirs};

/// What a proxy sends is what the leader would have sent, or a front of it.
pub fn law_relay()
    ensures { SendsTheirs }
{}
