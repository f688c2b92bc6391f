ghost use Rattle.std.specs.Prelude.{◌≡◌, ◌++◌, ◌∷◌, [], OnOk, OnErr, IfOk};

use crate::links::{Got, Sent};
use ring_types::{Duplicate, List, Memory};
use std::alloc::{AllocError, Global};
use std::marker::Model;

/// What a link in memory is to give, and what it was given to send. A call that has no memory changes
/// nothing.
#[derive(Drop)]
pub(crate) struct Messages {
    alloc: Global,
    gots: List<Got>,
    /// How many answers were given. One that would pass 2^64 - 1 has no memory.
    given: u64,
    sent: List<Sent>,
}

impl Model for Messages {
    ghost use Rattle.edge_traits.specs.Links.{Exchange};

    ghost Value = { Exchange };

    ghost view = { λ m. record { gots = m.gots; given = m.given; sent = m.sent } };
}

impl Messages {
    ghost use Rattle.edge_traits.specs.Links.{no_traffic, gave, got_at};

    pub(crate) fn new(alloc: Global, gots: List<Got>) -> Messages
        ensures { result ≡ no_traffic gots }
    {
        Messages {
            alloc,
            gots,
            given: 0,
            sent: List::new(alloc),
        }
    }

    /// The next answer of the list, copied; after the last one, `Quiet`.
    fn next(&self) -> Result<Got, Memory>
        ensures { IfOk result (λ it. it ≡ got_at self.now.gots self.now.given) }
    {
        match self.gots.get(self.given as usize) {
            Some(got) => got.copy(self.alloc),
            None => Ok(Got::Quiet),
        }
    }

    pub(crate) fn give(&mut self) -> Result<Got, Memory>
        ensures ok { OnOk result (self.new ≡ gave self.old) }
        ensures given { IfOk result (λ it. it ≡ got_at self.old.gots self.old.given) }
        ensures err { OnErr result (self.new ≡ self.old) }
    {
        let Some(given) = self.given.checked_add(1) else {
            return Err(AllocError);
        };
        let got = self.next()?;
        self.given = given;
        Ok(got)
    }

    pub(crate) fn take(&mut self, to: u32, bytes: &[u8]) -> Result<(), Memory>
        ensures ok { OnOk result (self.new ≡ record self.old { sent = self.old.sent ++ record { to = to; bytes = bytes.now } ∷ [] }) }
        ensures err { OnErr result (self.new ≡ self.old) }
    {
        let bytes = List::from_vec(bytes.to_vec(self.alloc)?);
        self.sent.push(Sent { to, bytes })
    }

    pub(crate) fn sent(&self) -> &List<Sent>
        ensures { result.now ≡ self.now.sent }
    {
        &self.sent
    }
}
