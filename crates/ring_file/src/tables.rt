ghost use Rattle.std.specs.Prelude.{◌≡◌, Some};
ghost use Rattle.toml.specs.View.{view, items_view, table_view};
ghost use Rattle.ring_file.specs.Faults.{Gives, GivesAs};
ghost use Rattle.ring_file.specs.Values.{name_in, address_in, number_in, kind_in, server_in, array_in};
ghost use Rattle.ring_file.specs.Columns.{column_in};
ghost use Rattle.ring_file.specs.Documents.{value_at, option_at, tables_at, each_table, node_of, client_of, table_of};

use crate::columns::columns_in;
use crate::faults::{RingError, Within, in_range, place};
use crate::keys::{check_keys, member};
use crate::values::{address_in, kind_in, name_in, names_in, number_in, server_in, tables_in};
use ring_types::{Address, Column, FIRST_CLIENT, Kind, LAST_NODE, List, MemberPart, Table, Text};
use std::alloc::Global;
use toml::Value;

/// The value at a key that the table needs.
fn found<'a>(
    alloc: Global,
    within: Within,
    key: &str,
    table: &'a toml::Table,
) -> Result<&'a Value, RingError>
    ensures { GivesAs (λ value. view value.now) (value_at Some within key.now (table_view table.now)) result }
{
    match member(table, key) {
        Some(value) => Ok(value),
        None => Err(RingError::Missing {
            place: place(alloc, within, key)?,
        }),
    }
}

/// The name at a key that the table needs.
pub(crate) fn name_at(
    alloc: Global,
    within: Within,
    key: &str,
    table: &toml::Table,
) -> Result<Text, RingError>
    ensures { Gives (value_at name_in within key.now (table_view table.now)) result }
{
    let value = found(alloc, within, key, table)?;
    in_range(alloc, within, key, name_in(alloc, value)?)
}

fn address_at(
    alloc: Global,
    within: Within,
    key: &str,
    table: &toml::Table,
) -> Result<Text, RingError>
    ensures { Gives (value_at address_in within key.now (table_view table.now)) result }
{
    let value = found(alloc, within, key, table)?;
    in_range(alloc, within, key, address_in(alloc, value)?)
}

/// The number from `low` to `high` at a key that the table needs.
pub(crate) fn number_at(
    alloc: Global,
    low: u32,
    high: u32,
    within: Within,
    key: &str,
    table: &toml::Table,
) -> Result<u32, RingError>
    ensures { Gives (value_at (number_in low high) within key.now (table_view table.now)) result }
{
    let value = found(alloc, within, key, table)?;
    in_range(alloc, within, key, number_in(low, high, value))
}

fn kind_at(alloc: Global, within: Within, key: &str, table: &toml::Table) -> Result<Kind, RingError>
    ensures { Gives (value_at kind_in within key.now (table_view table.now)) result }
{
    let value = found(alloc, within, key, table)?;
    in_range(alloc, within, key, kind_in(value))
}

fn server_at(
    alloc: Global,
    within: Within,
    key: &str,
    table: &toml::Table,
) -> Result<u128, RingError>
    ensures { Gives (value_at server_in within key.now (table_view table.now)) result }
{
    let value = found(alloc, within, key, table)?;
    in_range(alloc, within, key, server_in(value))
}

/// The names in the array at a key that the table needs.
pub(crate) fn names_at(
    alloc: Global,
    within: Within,
    key: &str,
    table: &toml::Table,
) -> Result<List<Text>, RingError>
    ensures { Gives (value_at (array_in name_in) within key.now (table_view table.now)) result }
{
    let value = found(alloc, within, key, table)?;
    in_range(alloc, within, key, names_in(alloc, value)?)
}

fn columns_at(
    alloc: Global,
    within: Within,
    key: &str,
    table: &toml::Table,
) -> Result<List<Column>, RingError>
    ensures { Gives (value_at (array_in column_in) within key.now (table_view table.now)) result }
{
    let value = found(alloc, within, key, table)?;
    in_range(alloc, within, key, columns_in(alloc, value)?)
}

/// The address at a key that may be left out.
fn optional_address(
    alloc: Global,
    within: Within,
    key: &str,
    table: &toml::Table,
) -> Result<Option<Text>, RingError>
    ensures { Gives (option_at address_in within key.now (table_view table.now)) result }
{
    match member(table, key) {
        Some(value) => Ok(Some(in_range(alloc, within, key, address_in(alloc, value)?)?)),
        None => Ok(None),
    }
}

/// The array of tables at a key of the top table, with no items where it is left out.
pub(crate) fn tables_at<'a>(
    alloc: Global,
    key: &str,
    top: &'a toml::Table,
) -> Result<&'a [Value], RingError>
    ensures { GivesAs (λ items. items_view items.now) (tables_at key.now (table_view top.now)) result }
{
    match member(top, key) {
        Some(value) => in_range(alloc, Within::Top, key, tables_in(value)),
        None => Ok(&[]),
    }
}

#[tactic(auto, unfolding(crate::specs::Documents::node_of))]
fn read_node(alloc: Global, number: usize, node: &toml::Table) -> Result<MemberPart, RingError>
    ensures { Gives (node_of number (table_view node.now)) result }
{
    let within = Within::Node(number);
    check_keys(alloc, within, node)?;
    let id = number_at(alloc, 1, LAST_NODE, within, "id", node)?;
    let region = name_at(alloc, within, "region", node)?;
    let kind = kind_at(alloc, within, "kind", node)?;
    let server = server_at(alloc, within, "uuid", node)?;
    let address = optional_address(alloc, within, "address", node)?;
    Ok(MemberPart {
        id,
        region,
        kind,
        server,
        address,
    })
}

#[tactic(auto, unfolding(crate::specs::Documents::client_of))]
fn read_client(alloc: Global, number: usize, client: &toml::Table) -> Result<Address, RingError>
    ensures { Gives (client_of number (table_view client.now)) result }
{
    let within = Within::Client(number);
    check_keys(alloc, within, client)?;
    let id = number_at(alloc, FIRST_CLIENT, u32::MAX, within, "id", client)?;
    let at = address_at(alloc, within, "address", client)?;
    Ok(Address { id, at })
}

#[tactic(auto, unfolding(crate::specs::Documents::table_of))]
fn read_table(alloc: Global, number: usize, table: &toml::Table) -> Result<Table, RingError>
    ensures { Gives (table_of number (table_view table.now)) result }
{
    let within = Within::Table(number);
    check_keys(alloc, within, table)?;
    let name = name_at(alloc, within, "name", table)?;
    let columns = columns_at(alloc, within, "columns", table)?;
    Ok(Table { name, columns })
}

/// What the nodes of an array of tables declare.
pub(crate) fn read_nodes(alloc: Global, array: &[Value]) -> Result<List<MemberPart>, RingError>
    ensures { Gives (each_table node_of 1 (items_view array.now)) result }
{
    let mut nodes = List::new(alloc);
    'items: for (index, item) in array.iter().enumerate() {
        if let Some(node) = item.as_table() {
            nodes.push(read_node(alloc, index + 1, node)?)?;
        }
    }
    Ok(nodes)
}

/// What the clients of an array of tables declare.
pub(crate) fn read_clients(alloc: Global, array: &[Value]) -> Result<List<Address>, RingError>
    ensures { Gives (each_table client_of 1 (items_view array.now)) result }
{
    let mut clients = List::new(alloc);
    'items: for (index, item) in array.iter().enumerate() {
        if let Some(client) = item.as_table() {
            clients.push(read_client(alloc, index + 1, client)?)?;
        }
    }
    Ok(clients)
}

/// What the tables of an array of tables declare.
pub(crate) fn read_tables(alloc: Global, array: &[Value]) -> Result<List<Table>, RingError>
    ensures { Gives (each_table table_of 1 (items_view array.now)) result }
{
    let mut tables = List::new(alloc);
    'items: for (index, item) in array.iter().enumerate() {
        if let Some(table) = item.as_table() {
            tables.push(read_table(alloc, index + 1, table)?)?;
        }
    }
    Ok(tables)
}
