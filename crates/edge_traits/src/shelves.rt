ghost use Rattle.std.specs.Prelude.{◌≡◌, ℕ, ◌≤◌, List, IfOk, IfSome, length};
ghost use Rattle.edge_traits.specs.Counts.{last_count};
ghost use Rattle.edge_traits.specs.Fetches.{FetchIs, FetchFails};

use ring_types::{List, Text};

/// Why a file was not given.
#[derive(Clone, Copy, Debug, PartialEq, Eq)]
pub enum FetchError {
    /// The shelf holds no file of that name.
    Absent,
    /// The file is longer than the limit.
    TooLarge,
    /// The shelf failed.
    Failed,
    /// There was no memory for the bytes.
    Memory,
}

/// Where whole files are fetched by name.
pub trait Shelf {
    ghost use Rattle.std.specs.Prelude.{Option};

    // the bytes of each file by its name, on a shelf that tells them
    ghost files: { Self → Option (List ℕ → Option (List ℕ)) };

    // how many faults there were: it never falls, and stays once it is at its last value
    ghost faults: { Self → ℕ };

    /// All bytes of the file of this name, if they are no more than `limit`. The files stay as they
    /// are. `Failed` comes only if the count of faults rose.
    fn fetch(&mut self, name: &Text, limit: u64) -> Result<List<u8>, FetchError>
        ensures told { IfSome (files self.old) (λ f. FetchIs (f name.now) limit result) }
        ensures within { IfOk result (λ bytes. length bytes ≤ limit) }
        ensures same { files self.new ≡ files self.old }
        ensures later { faults self.old ≤ faults self.new }
        ensures limit { faults self.new ≤ last_count }
        ensures failed { FetchFails (faults self.old) (faults self.new) result };
}
