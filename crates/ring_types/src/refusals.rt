//! Why a declared ring is refused: one function for each cause.
ghost use Rattle.std.specs.Prelude.{◌≡◌, ◌==◌, bytes_eq, map, not};
ghost use Rattle.std.specs.List.{list_any};
ghost use Rattle.ring_types.specs.Names.{has_text_twice, has_twice};
ghost use Rattle.ring_types.specs.Rings.{bad_schema, bad_table, has_voter, is_declared, is_voter, no_region, no_voter, too_many, twice_named};

use crate::limits::{MOST_CLIENTS, MOST_COLUMNS, MOST_MEMBERS, MOST_REGIONS, MOST_TABLES};
use crate::lists::List;
use crate::members::{Address, MemberPart, RingParts};
use crate::schemas::{Column, Schema, Table};
use crate::texts::Text;

pub(crate) fn too_many(parts: &RingParts) -> bool
    ensures { result ≡ too_many parts.now }
{
    parts.members.len() > MOST_MEMBERS
        || parts.regions.len() > MOST_REGIONS
        || parts.clients.len() > MOST_CLIENTS
        || parts.schema.tables.len() > MOST_TABLES
}

fn node_among(members: &[MemberPart], id: u32) -> bool
    ensures { result ≡ list_any (λ y. y == id) (map (λ (m : MemberPart). m.id) members.now) }
{
    members
        .iter()
        .map(|member| member.id)
        .any(|other| other == id)
}

#[tactic(auto, using(crate::proofs::Twice::twice_step))]
fn node_twice(members: &List<MemberPart>) -> bool
    ensures { result ≡ has_twice (map (λ (m : MemberPart). m.id) members.now) }
{
    let mut rest = members.as_slice();
    while let [first, others @ ..] = rest {
        if node_among(others, first.id) {
            return true;
        }
        rest = others;
    }
    false
}

fn server_among(members: &[MemberPart], server: u128) -> bool
    ensures { result ≡ list_any (λ y. y == server) (map (λ (m : MemberPart). m.server) members.now) }
{
    members
        .iter()
        .map(|member| member.server)
        .any(|other| other == server)
}

#[tactic(auto, using(crate::proofs::Twice::twice_step))]
fn server_twice(members: &List<MemberPart>) -> bool
    ensures { result ≡ has_twice (map (λ (m : MemberPart). m.server) members.now) }
{
    let mut rest = members.as_slice();
    while let [first, others @ ..] = rest {
        if server_among(others, first.server) {
            return true;
        }
        rest = others;
    }
    false
}

fn client_among(clients: &[Address], id: u32) -> bool
    ensures { result ≡ list_any (λ y. y == id) (map (λ (c : Address). c.id) clients.now) }
{
    clients
        .iter()
        .map(|client| client.id)
        .any(|other| other == id)
}

#[tactic(auto, using(crate::proofs::Twice::twice_step))]
fn client_twice(clients: &List<Address>) -> bool
    ensures { result ≡ has_twice (map (λ (c : Address). c.id) clients.now) }
{
    let mut rest = clients.as_slice();
    while let [first, others @ ..] = rest {
        if client_among(others, first.id) {
            return true;
        }
        rest = others;
    }
    false
}

fn region_among(regions: &[Text], name: &Text) -> bool
    ensures { result ≡ list_any (λ y. bytes_eq y name.now) regions.now }
{
    regions.iter().any(|other| other == name)
}

#[tactic(auto, using(crate::proofs::Twice::region_twice_step))]
fn region_twice(regions: &List<Text>) -> bool
    ensures { result ≡ has_text_twice regions.now }
{
    let mut rest = regions.as_slice();
    while let [first, others @ ..] = rest {
        if region_among(others, first) {
            return true;
        }
        rest = others;
    }
    false
}

pub(crate) fn twice_named(parts: &RingParts) -> bool
    ensures { result ≡ twice_named parts.now }
{
    node_twice(&parts.members)
        || client_twice(&parts.clients)
        || region_twice(&parts.regions)
        || server_twice(&parts.members)
}

fn is_declared(regions: &List<Text>, name: &Text) -> bool
    ensures { result ≡ is_declared regions.now name.now }
{
    regions.as_slice().iter().any(|region| region == name)
}

fn has_stray(regions: &List<Text>, members: &List<MemberPart>) -> bool
    ensures { result ≡ list_any (λ (m : MemberPart). not (is_declared regions.now m.region)) members.now }
{
    members
        .as_slice()
        .iter()
        .any(|member| !is_declared(regions, &member.region))
}

pub(crate) fn no_region(parts: &RingParts) -> bool
    ensures { result ≡ no_region parts.now }
{
    !is_declared(&parts.regions, &parts.home) || has_stray(&parts.regions, &parts.members)
}

fn has_voter(members: &List<MemberPart>, region: &Text) -> bool
    ensures { result ≡ has_voter members.now region.now }
{
    members.as_slice().iter().any(|member| member.region == *region && member.kind.is_voter())
}

pub(crate) fn no_voter(parts: &RingParts) -> bool
    ensures { result ≡ no_voter parts.now }
{
    parts
        .regions
        .as_slice()
        .iter()
        .any(|region| !has_voter(&parts.members, region))
}

fn column_named(columns: &[Column], name: &Text) -> bool
    ensures { result ≡ list_any (λ (c : Column). bytes_eq c.name name.now) columns.now }
{
    columns.iter().any(|other| other.name == *name)
}

fn column_among(columns: &[Column], name: &Text) -> bool
    ensures { result ≡ list_any (λ y. bytes_eq y name.now) (map (λ (c : Column). c.name) columns.now) }
{
    column_named(columns, name)
}

#[tactic(auto, using(crate::proofs::Twice::text_twice_step))]
fn column_twice(columns: &List<Column>) -> bool
    ensures { result ≡ has_text_twice (map (λ (c : Column). c.name) columns.now) }
{
    let mut rest = columns.as_slice();
    while let [first, others @ ..] = rest {
        if column_among(others, &first.name) {
            return true;
        }
        rest = others;
    }
    false
}

fn table_named(tables: &[Table], name: &Text) -> bool
    ensures { result ≡ list_any (λ (t : Table). bytes_eq t.name name.now) tables.now }
{
    tables.iter().any(|other| other.name == *name)
}

fn table_among(tables: &[Table], name: &Text) -> bool
    ensures { result ≡ list_any (λ y. bytes_eq y name.now) (map (λ (t : Table). t.name) tables.now) }
{
    table_named(tables, name)
}

#[tactic(auto, using(crate::proofs::Twice::text_twice_step))]
fn table_twice(tables: &List<Table>) -> bool
    ensures { result ≡ has_text_twice (map (λ (t : Table). t.name) tables.now) }
{
    let mut rest = tables.as_slice();
    while let [first, others @ ..] = rest {
        if table_among(others, &first.name) {
            return true;
        }
        rest = others;
    }
    false
}

fn bad_table(table: &Table) -> bool
    ensures { result ≡ bad_table table.now }
{
    table.columns.is_empty() || table.columns.len() > MOST_COLUMNS || column_twice(&table.columns)
}

fn has_bad_table(tables: &List<Table>) -> bool
    ensures { result ≡ list_any bad_table tables.now }
{
    tables.as_slice().iter().any(|table| bad_table(table))
}

pub(crate) fn bad_schema(schema: &Schema) -> bool
    ensures { result ≡ bad_schema schema.now }
{
    table_twice(&schema.tables) || has_bad_table(&schema.tables)
}
