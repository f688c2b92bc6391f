ghost use Rattle.std.specs.Prelude.{◌≡◌, IfOk, option_map};
ghost use Rattle.std.specs.List.{list_all};
ghost use Rattle.toml.specs.View.{view, items_view};
ghost use Rattle.ring_file.specs.Values.{each, array_in};
ghost use Rattle.ring_file.specs.Columns.{word, after_word, is_digit, is_numeral, limit_of, shape_of, column_of, column_in};

use ring_types::{Column, List, Memory, Shape, TEXT_COLUMN_BYTES, Text, is_name};
use std::alloc::Global;
use toml::Value;

/// What stands before the first space and after it.
fn at_space<'a>(text: &'a str) -> (&'a str, &'a str)
    ensures first { result.0.now ≡ word text.now }
    ensures rest { result.1.now ≡ after_word text.now }
{
    match text.split_once(' ') {
        Some((first, rest)) => (first, rest),
        None => (text, ""),
    }
}

fn is_digit(byte: u8) -> bool
    ensures { result ≡ is_digit byte }
{
    b'0' <= byte && byte <= b'9'
}

fn are_digits(bytes: &[u8]) -> bool
    ensures { result ≡ list_all is_digit bytes.now }
{
    bytes.iter().all(|byte| is_digit(*byte))
}

fn is_numeral(text: &str) -> bool
    ensures { result ≡ is_numeral text.now }
{
    let bytes = text.as_bytes();
    1 <= bytes.len() && bytes[0] != b'0' && are_digits(bytes)
}

/// The limit of a text column.
fn limit_of(text: &str) -> Option<u16>
    ensures { result ≡ limit_of text.now }
{
    if !is_numeral(text) {
        return None;
    }
    match text.parse::<u16>() {
        Ok(limit) => {
            if 1 <= limit && limit <= TEXT_COLUMN_BYTES {
                Some(limit)
            } else {
                None
            }
        }
        Err(_) => None,
    }
}

fn shape_of(text: &str) -> Option<Shape>
    ensures { result ≡ shape_of text.now }
{
    if text == "int" {
        return Some(Shape::Int);
    }
    let (first, rest) = at_space(text);
    if first == "text" {
        match limit_of(rest) {
            Some(limit) => Some(Shape::Text { limit }),
            None => None,
        }
    } else {
        None
    }
}

/// The column that a text declares.
#[tactic(auto, unfolding(crate::specs::Columns::column_of))]
fn column_of(alloc: Global, text: &str) -> Result<Option<Column>, Memory>
    ensures { IfOk result (λ it. it ≡ column_of text.now) }
{
    let (name, rest) = at_space(text);
    if !is_name(name.as_bytes()) {
        return Ok(None);
    }
    match shape_of(rest) {
        Some(shape) => Ok(Some(Column {
            name: Text::copy_of(alloc, name)?,
            shape,
        })),
        None => Ok(None),
    }
}

fn column_in(alloc: Global, value: &Value) -> Result<Option<Column>, Memory>
    ensures { IfOk result (λ it. it ≡ column_in (view value.now)) }
{
    match value.as_str() {
        Some(text) => column_of(alloc, text),
        None => Ok(None),
    }
}

fn each_column(alloc: Global, items: &[Value]) -> Result<Option<List<Column>>, Memory>
    ensures { IfOk result (λ it. it ≡ each column_in (items_view items.now)) }
{
    let mut columns = List::new(alloc);
    'items: for item in items {
        match column_in(alloc, item)? {
            Some(column) => columns.push(column)?,
            None => return Ok(None),
        }
    }
    Ok(Some(columns))
}

/// The columns that the array declares, where each item declares one.
pub(crate) fn columns_in(alloc: Global, value: &Value) -> Result<Option<List<Column>>, Memory>
    ensures { IfOk result (λ it. it ≡ array_in column_in (view value.now)) }
{
    match value.as_array() {
        Some(items) => each_column(alloc, items.as_slice()),
        None => Ok(None),
    }
}
