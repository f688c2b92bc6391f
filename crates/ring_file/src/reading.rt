ghost use Rattle.std.specs.Prelude.{◌≡◌, true};
ghost use Rattle.toml.specs.View.{table_view};
ghost use Rattle.ring_file.specs.Faults.{Gives, GivesAs};
ghost use Rattle.ring_file.specs.Documents.{heading_of, parts_of, document_of, fault_of, as_ring, ring_of};
ghost use Rattle.ring_types.specs.Rings.{is_in_range, built};

use crate::faults::{RingError, Within};
use crate::keys::check_keys;
use crate::tables::{
    name_at, names_at, number_at, read_clients, read_nodes, read_tables, tables_at,
};
use ring_types::{BuildError, List, Ring, RingParts, Schema, Text};
use std::alloc::Global;
use toml::Table;

fn read_document(alloc: Global, bytes: &[u8]) -> Result<Table, RingError>
    ensures { GivesAs (λ table. table_view table) (document_of bytes.now) result }
{
    match toml::table_from_slice(alloc, bytes) {
        Ok(table) => Ok(table),
        Err(fault) => {
            if fault.is_memory() {
                Err(RingError::Memory)
            } else {
                Err(RingError::NotToml)
            }
        }
    }
}

/// What the top table says beside its arrays of tables.
#[derive(Drop)]
struct Heading {
    home: Text,
    database: Text,
    regions: List<Text>,
}

#[tactic(auto, unfolding(crate::specs::Documents::heading_of))]
fn read_heading(alloc: Global, top: &Table) -> Result<Heading, RingError>
    ensures { Gives (heading_of (table_view top.now)) result }
{
    check_keys(alloc, Within::Top, top)?;
    let _version = number_at(alloc, 1, 1, Within::Top, "version", top)?;
    let home = name_at(alloc, Within::Top, "home", top)?;
    let database = name_at(alloc, Within::Top, "database", top)?;
    let regions = names_at(alloc, Within::Top, "regions", top)?;
    Ok(Heading {
        home,
        database,
        regions,
    })
}

#[tactic(auto, unfolding(crate::specs::Documents::parts_of))]
fn read_parts(alloc: Global, document: &Table) -> Result<RingParts, RingError>
    ensures { Gives (parts_of (table_view document.now)) result }
{
    let top = read_heading(alloc, document)?;
    let nodes = tables_at(alloc, "node", document)?;
    let clients = tables_at(alloc, "client", document)?;
    let tables = tables_at(alloc, "table", document)?;
    let members = read_nodes(alloc, nodes)?;
    let clients = read_clients(alloc, clients)?;
    let tables = read_tables(alloc, tables)?;
    Ok(RingParts {
        home: top.home,
        regions: top.regions,
        members,
        clients,
        schema: Schema {
            database: top.database,
            tables,
        },
    })
}

fn fault_of(cause: BuildError) -> RingError
    ensures { result ≡ fault_of cause }
{
    match cause {
        BuildError::Memory => RingError::Memory,
        _ => RingError::Build(cause),
    }
}

/// The ring of parts that are in their ranges.
fn build(alloc: Global, parts: RingParts) -> Result<Ring, RingError>
    requires { is_in_range parts ≡ true }
    ensures { Gives (as_ring (built parts)) result }
{
    match Ring::build(alloc, parts) {
        Ok(ring) => Ok(ring),
        Err(cause) => Err(fault_of(cause)),
    }
}

/// Reads a ring file. The faults come in this order: the whole as TOML, the top table, each node,
/// each client and each table, and then what the building of the ring refuses. Within one table the
/// unknown key that is least by bytes comes first, then a key that is missing, then a value that is
/// outside its range.
#[tactic(auto, using(crate::proofs::Ranges::parts_fit), unfolding(crate::specs::Documents::ring_of))]
pub fn read_ring(alloc: Global, bytes: &[u8]) -> Result<Ring, RingError>
    ensures { Gives (ring_of bytes.now) result }
{
    let document = read_document(alloc, bytes)?;
    let parts = read_parts(alloc, &document)?;
    build(alloc, parts)
}
