//! Whether what is declared is in its range: names, numbers, addresses and the limits of texts.
ghost use Rattle.std.specs.Prelude.{◌≡◌};
ghost use Rattle.std.specs.List.{list_all};
ghost use Rattle.ring_types.specs.Names.{is_name};
ghost use Rattle.ring_types.specs.Rings.{address_fits, client_fits, column_fits, is_in_range, part_fits, schema_fits, shape_fits, table_fits};

use crate::limits::{FIRST_CLIENT, LAST_NODE, TEXT_COLUMN_BYTES};
use crate::members::{Address, MemberPart, RingParts};
use crate::names::{is_address, is_name};
use crate::schemas::{Column, Schema, Shape, Table};
use crate::texts::Text;

fn address_fits(address: &Option<Text>) -> bool
    ensures { result ≡ address_fits address.now }
{
    match address {
        None => true,
        Some(at) => is_address(at.as_bytes()),
    }
}

fn part_fits(part: &MemberPart) -> bool
    ensures { result ≡ part_fits part.now }
{
    1 <= part.id
        && part.id <= LAST_NODE
        && is_name(part.region.as_bytes())
        && address_fits(&part.address)
}

fn client_fits(client: &Address) -> bool
    ensures { result ≡ client_fits client.now }
{
    FIRST_CLIENT <= client.id && is_address(client.at.as_bytes())
}

fn shape_fits(shape: Shape) -> bool
    ensures { result ≡ shape_fits shape }
{
    match shape {
        Shape::Int => true,
        Shape::Text { limit } => 1 <= limit && limit <= TEXT_COLUMN_BYTES,
    }
}

fn column_fits(column: &Column) -> bool
    ensures { result ≡ column_fits column.now }
{
    is_name(column.name.as_bytes()) && shape_fits(column.shape)
}

fn columns_fit(columns: &[Column]) -> bool
    ensures { result ≡ list_all column_fits columns.now }
{
    columns.iter().all(|column| column_fits(column))
}

fn table_fits(table: &Table) -> bool
    ensures { result ≡ table_fits table.now }
{
    is_name(table.name.as_bytes()) && columns_fit(table.columns.as_slice())
}

fn tables_fit(tables: &[Table]) -> bool
    ensures { result ≡ list_all table_fits tables.now }
{
    tables.iter().all(|table| table_fits(table))
}

fn schema_fits(schema: &Schema) -> bool
    ensures { result ≡ schema_fits schema.now }
{
    is_name(schema.database.as_bytes()) && tables_fit(schema.tables.as_slice())
}

fn have_names(regions: &[Text]) -> bool
    ensures { result ≡ list_all is_name regions.now }
{
    regions.iter().all(|region| is_name(region.as_bytes()))
}

fn parts_fit(members: &[MemberPart]) -> bool
    ensures { result ≡ list_all part_fits members.now }
{
    members.iter().all(|member| part_fits(member))
}

fn clients_fit(clients: &[Address]) -> bool
    ensures { result ≡ list_all client_fits clients.now }
{
    clients.iter().all(|client| client_fits(client))
}

impl RingParts {
    /// Whether every name, number, address and limit of a text is in its range. What a ring is built
    /// of has to be.
    #[tactic(auto, unfolding(crate::specs::Rings::is_in_range))]
    pub fn is_in_range(&self) -> bool
        ensures { result ≡ is_in_range self.now }
    {
        is_name(self.home.as_bytes())
            && have_names(self.regions.as_slice())
            && parts_fit(self.members.as_slice())
            && clients_fit(self.clients.as_slice())
            && schema_fits(&self.schema)
    }
}
