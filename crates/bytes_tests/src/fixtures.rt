//! The ring of one node with the table `t (id int, name text 20)` in the database `app`, and rows of
//! that table. Want of memory ends the test.
ghost use Rattle.std.specs.Prelude.{◌≡◌, true};
ghost use Rattle.ring_types.specs.Rings.{is_schema};

use ring_types::{
    Column, Kind, List, MemberPart, Ring, RingParts, Schema, Shape, Table, Text, Value,
};
use std::process::Abort;

/// The node's server, as a GTID names it.
pub const SERVER: u128 = 0x3e11fa47_71ca_11e1_9e33_c80aa9429562;

// ---- lists and texts

pub fn text(rt: &(impl AllocGlobal + Abort), of: &str) -> Text {
    Text::copy_of(rt.alloc(), of).expect(rt, "memory")
}

pub fn one<T: Drop>(rt: &(impl AllocGlobal + Abort), item: T) -> List<T> {
    List::of_one(rt.alloc(), item).expect(rt, "memory")
}

pub fn pair<T: Drop>(rt: &(impl AllocGlobal + Abort), first: T, second: T) -> List<T> {
    let mut both = one(rt, first);
    both.push(second).expect(rt, "memory");
    both
}

// ---- the ring

fn column(rt: &(impl AllocGlobal + Abort), name: &str, shape: Shape) -> Column {
    Column {
        name: text(rt, name),
        shape,
    }
}

/// The table `t`.
pub fn table(rt: &(impl AllocGlobal + Abort)) -> Table {
    let id = column(rt, "id", Shape::Int);
    let name = column(rt, "name", Shape::Text { limit: 20 });
    Table {
        name: text(rt, "t"),
        columns: pair(rt, id, name),
    }
}

fn member(rt: &(impl AllocGlobal + Abort)) -> MemberPart {
    MemberPart {
        id: 1,
        region: text(rt, "east"),
        kind: Kind::Full,
        server: SERVER,
        address: None,
    }
}

fn schema(rt: &(impl AllocGlobal + Abort), tables: List<Table>) -> Schema {
    Schema {
        database: text(rt, "app"),
        tables,
    }
}

/// The ring of one node with these tables.
pub fn ring(rt: &(impl AllocGlobal + Abort), tables: List<Table>) -> Ring {
    let parts = RingParts {
        home: text(rt, "east"),
        regions: one(rt, text(rt, "east")),
        members: one(rt, member(rt)),
        clients: List::new(rt.alloc()),
        schema: schema(rt, tables),
    };
    assert!(rt; parts.is_in_range());
    Ring::build(rt.alloc(), parts).expect(rt, "a ring")
}

/// The ring of one node with the table `t`.
pub fn ring_of_one(rt: &(impl AllocGlobal + Abort)) -> Ring {
    ring(rt, one(rt, table(rt)))
}

pub fn schema_of(ring: &Ring) -> &Schema
    ensures { is_schema result.now ≡ true }
{
    ring.law_built();
    ring.schema()
}

// ---- rows

pub fn row(rt: &(impl AllocGlobal + Abort), key: i64, name: Value) -> List<Value> {
    pair(rt, Value::Int(key), name)
}
