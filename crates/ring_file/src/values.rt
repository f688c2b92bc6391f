ghost use Rattle.std.specs.Prelude.{◌≡◌, IfOk, option_map, option_copied};
ghost use Rattle.toml.specs.View.{view, array_view, items_view};
ghost use Rattle.ring_file.specs.Values.{name_in, address_in, number_in, kind_in, kind_named, server_in, uuid_of, each, array_in, are_tables, tables_in};

use ring_types::{Kind, List, Memory, Text, is_address, is_name};
use std::alloc::Global;
use toml::Value;
use uuid::Uuid;

/// The name that the value is.
pub(crate) fn name_in(alloc: Global, value: &Value) -> Result<Option<Text>, Memory>
    ensures { IfOk result (λ it. it ≡ name_in (view value.now)) }
{
    match value.as_str() {
        Some(text) => {
            if is_name(text.as_bytes()) {
                Ok(Some(Text::copy_of(alloc, text)?))
            } else {
                Ok(None)
            }
        }
        None => Ok(None),
    }
}

/// The address that the value is.
pub(crate) fn address_in(alloc: Global, value: &Value) -> Result<Option<Text>, Memory>
    ensures { IfOk result (λ it. it ≡ address_in (view value.now)) }
{
    match value.as_str() {
        Some(text) => {
            if is_address(text.as_bytes()) {
                Ok(Some(Text::copy_of(alloc, text)?))
            } else {
                Ok(None)
            }
        }
        None => Ok(None),
    }
}

/// The number from `low` to `high` that the value is.
pub(crate) fn number_in(low: u32, high: u32, value: &Value) -> Option<u32>
    ensures { result ≡ number_in low high (view value.now) }
{
    match value.as_integer() {
        Some(number) => {
            if i64::from(low) <= number && number <= i64::from(high) {
                Some(number as u32)
            } else {
                None
            }
        }
        None => None,
    }
}

fn kind_named(word: &str) -> Option<Kind>
    ensures { result ≡ kind_named word.now }
{
    if word == "full" {
        Some(Kind::Full)
    } else if word == "tailer" {
        Some(Kind::Tailer)
    } else if word == "learner" {
        Some(Kind::Learner)
    } else {
        None
    }
}

/// The kind of node that the value names.
pub(crate) fn kind_in(value: &Value) -> Option<Kind>
    ensures { result ≡ kind_in (view value.now) }
{
    match value.as_str() {
        Some(word) => kind_named(word),
        None => None,
    }
}

fn uuid_of(text: &str) -> Option<u128>
    ensures { result ≡ uuid_of text.now }
{
    match Uuid::parse_str(text) {
        Ok(id) => Some(id.as_u128()),
        Err(_) => None,
    }
}

/// The uuid that the value writes, as a number.
pub(crate) fn server_in(value: &Value) -> Option<u128>
    ensures { result ≡ server_in (view value.now) }
{
    match value.as_str() {
        Some(text) => uuid_of(text),
        None => None,
    }
}

fn each_name(alloc: Global, items: &[Value]) -> Result<Option<List<Text>>, Memory>
    ensures { IfOk result (λ it. it ≡ each name_in (items_view items.now)) }
{
    let mut names = List::new(alloc);
    'items: for item in items {
        match name_in(alloc, item)? {
            Some(name) => names.push(name)?,
            None => return Ok(None),
        }
    }
    Ok(Some(names))
}

/// The names that the array has, where all its items are names.
pub(crate) fn names_in(alloc: Global, value: &Value) -> Result<Option<List<Text>>, Memory>
    ensures { IfOk result (λ it. it ≡ array_in name_in (view value.now)) }
{
    match value.as_array() {
        Some(items) => each_name(alloc, items.as_slice()),
        None => Ok(None),
    }
}

fn are_tables(items: &[Value]) -> bool
    ensures { result ≡ are_tables (items_view items.now) }
{
    'items: for item in items {
        if !item.is_table() {
            return false;
        }
    }
    true
}

/// The items of an array that has only tables.
pub(crate) fn tables_in<'a>(value: &'a Value) -> Option<&'a [Value]>
    ensures { option_map (λ items. items_view items.now) result ≡ tables_in (view value.now) }
{
    match value.as_array() {
        Some(items) => {
            if are_tables(items.as_slice()) {
                Some(items.as_slice())
            } else {
                None
            }
        }
        None => None,
    }
}
