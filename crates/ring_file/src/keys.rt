ghost use Rattle.std.specs.Prelude.{◌≡◌, [], ◌∷◌, option_map, option_copied};
ghost use Rattle.toml.specs.Data.{get_member};
ghost use Rattle.toml.specs.View.{view, table_view};
ghost use Rattle.ring_file.specs.Faults.{Gives};
ghost use Rattle.ring_file.specs.Keys.{LeastIsNamed, is_key, first_unknown, all_known, needed_keys, needs, needs_all, keys_fit};
ghost use Rattle.ring_file.specs.declared.faults.Within.TheVariants as kind;

use crate::faults::{RingError, Within, place};
use std::alloc::Global;
use toml::{Table, Value};

/// The value at a key.
pub(crate) fn member<'a>(table: &'a Table, key: &str) -> Option<&'a Value>
    ensures { option_map (λ v. view v.now) result ≡ get_member key.now (table_view table.now) }
{
    table.get(key)
}

/// Whether the tables of this kind have such a key.
fn is_key(within: Within, key: &str) -> bool
    ensures { result ≡ is_key within key.now }
{
    match within {
        Within::Top => is_top_key(key),
        Within::Node(_) => is_node_key(key),
        Within::Client(_) => key == "id" || key == "address",
        Within::Table(_) => key == "name" || key == "columns",
    }
}

fn is_top_key(key: &str) -> bool
    ensures { result ≡ is_key kind.Top key.now }
{
    key == "version"
        || key == "home"
        || key == "database"
        || key == "regions"
        || key == "node"
        || key == "client"
        || key == "table"
}

fn is_node_key(key: &str) -> bool
    ensures { result ≡ is_key (kind.Node 1) key.now }
{
    key == "id" || key == "region" || key == "kind" || key == "uuid" || key == "address"
}

/// Of the keys that no table of its kind has, the one that is named is the least by its bytes.
pub fn law_least_unknown()
    ensures { LeastIsNamed }
{}

/// The key that comes first in the table among those that no such table has.
fn first_unknown<'a>(within: Within, table: &'a Table) -> Option<&'a str>
    ensures { option_copied result ≡ first_unknown within (table_view table.now) }
{
    'members: for (key, _value) in table.iter() {
        if !is_key(within, key.as_str()) {
            return Some(key.as_str());
        }
    }
    None
}

/// Refuses a table with a key that no such table has.
fn all_known(alloc: Global, within: Within, table: &Table) -> Result<(), RingError>
    ensures { Gives (all_known within (table_view table.now)) result }
{
    match first_unknown(within, table) {
        Some(key) => Err(RingError::Unknown {
            place: place(alloc, within, key)?,
        }),
        None => Ok(()),
    }
}

fn needs(alloc: Global, within: Within, key: &str, table: &Table) -> Result<(), RingError>
    ensures { Gives (needs within key.now (table_view table.now)) result }
{
    match member(table, key) {
        Some(_) => Ok(()),
        None => Err(RingError::Missing {
            place: place(alloc, within, key)?,
        }),
    }
}

/// Refuses a table that has an unknown key, or lacks one that it needs.
#[tactic(auto, unfolding(crate::specs::Keys::keys_fit))]
pub(crate) fn check_keys(alloc: Global, within: Within, table: &Table) -> Result<(), RingError>
    ensures { Gives (keys_fit within (table_view table.now)) result }
{
    all_known(alloc, within, table)?;
    match within {
        Within::Top => needs_of_top(alloc, table),
        Within::Node(_) => needs_of_node(alloc, within, table),
        Within::Client(_) => needs_two(alloc, within, "id", "address", table),
        Within::Table(_) => needs_two(alloc, within, "name", "columns", table),
    }
}

fn needs_of_top(alloc: Global, table: &Table) -> Result<(), RingError>
    ensures { Gives (needs_all kind.Top (needed_keys kind.Top) (table_view table.now)) result }
{
    needs(alloc, Within::Top, "version", table)?;
    needs(alloc, Within::Top, "home", table)?;
    needs(alloc, Within::Top, "database", table)?;
    needs(alloc, Within::Top, "regions", table)?;
    needs(alloc, Within::Top, "node", table)
}

fn needs_of_node(alloc: Global, within: Within, table: &Table) -> Result<(), RingError>
    ensures { Gives (needs_all within (needed_keys (kind.Node 1)) (table_view table.now)) result }
{
    needs(alloc, within, "id", table)?;
    needs(alloc, within, "region", table)?;
    needs(alloc, within, "kind", table)?;
    needs(alloc, within, "uuid", table)
}

fn needs_two(
    alloc: Global,
    within: Within,
    first: &str,
    second: &str,
    table: &Table,
) -> Result<(), RingError>
    ensures { Gives (needs_all within (first.now ∷ second.now ∷ []) (table_view table.now)) result }
{
    needs(alloc, within, first, table)?;
    needs(alloc, within, second, table)
}
