use super::says;
use ring_file::read_ring;
use ring_types::{Kind, Ring, Shape};
use std::alloc::{AllocError, Global};
use std::process::Abort;

/// The server of the first node.
const FIRST: u128 = 0x3e11_fa47_71ca_11e1_9e33_c80a_a942_9562;

/// A ring text with a node for each letter: `e`, `w`, `n` and `s` are full nodes in these regions,
/// `t` is a logtailer and `l` a learner in the east.
fn ring_text(alloc: Global, regions: &str, nodes: &str) -> Result<String, AllocError> {
    let mut text = format!(in alloc;
        "version = 1\nhome = \"east\"\ndatabase = \"app\"\nregions = [{regions}]\n"
    )?;
    let mut number = 1u8;
    for letter in nodes.chars() {
        let (region, kind) = place_of(letter);
        let last = number.wrapping_add(0x61);
        write!(
            text,
            "[[node]]\nid = {number}\nregion = \"{region}\"\nkind = \"{kind}\"\n"
        )?;
        write!(
            text,
            "uuid = \"3e11fa47-71ca-11e1-9e33-c80aa94295{last:02x}\"\n"
        )?;
        number = number.wrapping_add(1);
    }
    text.push_str("[[table]]\nname = \"t\"\ncolumns = [\"id int\", \"name text 20\"]\n")?;
    Ok(text)
}

fn place_of(letter: char) -> (&'static str, &'static str) {
    match letter {
        'w' => ("west", "full"),
        'n' => ("north", "full"),
        's' => ("south", "full"),
        't' => ("east", "tailer"),
        'l' => ("east", "learner"),
        _ => ("east", "full"),
    }
}

fn letter_of(kind: Kind) -> char {
    match kind {
        Kind::Full => 'F',
        Kind::Tailer => 'T',
        Kind::Learner => 'L',
    }
}

/// The home region, the regions, and each member's number, kind and region.
fn described(alloc: Global, ring: &Ring) -> Result<String, AllocError> {
    let home = ring.home().0;
    let mut text = format!(in alloc; "{home}")?;
    for region in ring.regions().as_slice() {
        text.push(' ')?;
        text.push_str(region.as_str())?;
    }
    for member in ring.members().as_slice() {
        let (id, kind, region) = (member.id.0, letter_of(member.kind), member.region.0);
        write!(text, " {id}{kind}{region}")?;
    }
    Ok(text)
}

/// The database, and each table with its columns.
fn schema_of(alloc: Global, ring: &Ring) -> Result<String, AllocError> {
    let mut text = String::from_str(alloc, ring.schema().database.as_str())?;
    for table in ring.schema().tables.as_slice() {
        text.push(' ')?;
        text.push_str(table.name.as_str())?;
        for column in table.columns.as_slice() {
            text.push(' ')?;
            text.push_str(column.name.as_str())?;
            match column.shape {
                Shape::Int => text.push_str(":int")?,
                Shape::Text { limit } => write!(text, ":{limit}")?,
            }
        }
    }
    Ok(text)
}

/// Whether the servers stand one after another.
fn are_in_order(ring: &Ring) -> bool {
    let mut server = FIRST;
    for member in ring.members().as_slice() {
        if member.server != server {
            return false;
        }
        server = server.wrapping_add(1);
    }
    true
}

fn is_described(rt: &(impl AllocGlobal + Abort), ring: &Ring, wanted: &str) {
    let members = described(rt.alloc(), ring).expect(rt, "memory");
    assert_eq!(rt; members.as_str(), wanted);
    let schema = schema_of(rt.alloc(), ring).expect(rt, "memory");
    assert_eq!(rt; schema.as_str(), "app t id:int name:20");
}

fn ring_of(rt: &(impl AllocGlobal + Abort), regions: &str, nodes: &str) -> Ring {
    let text = ring_text(rt.alloc(), regions, nodes).expect(rt, "memory");
    read_ring(rt.alloc(), text.as_bytes()).expect(rt, "a ring")
}

/// Expects the ring text to be read as this ring, with the servers one after another.
fn reads(rt: &(impl AllocGlobal + Abort), regions: &str, nodes: &str, wanted: &str) {
    let ring = ring_of(rt, regions, nodes);
    is_described(rt, &ring, wanted);
    assert!(rt; are_in_order(&ring));
}

#[test]
fn rings_of_one_region_are_read(rt: HostRuntime) {
    let east = "\"east\"";
    reads(&rt, east, "e", "1 east 1F1");
    reads(&rt, east, "ee", "1 east 1F1 2F1");
    reads(&rt, east, "eee", "1 east 1F1 2F1 3F1");
    reads(&rt, east, "ete", "1 east 1F1 2T1 3F1");
    reads(&rt, east, "el", "1 east 1F1 2L1");
}

#[test]
fn rings_of_several_regions_are_read(rt: HostRuntime) {
    let both = "\"east\", \"west\"";
    let four = "\"east\", \"west\", \"north\", \"south\"";
    let seven = "1 east west 1F1 2F1 3F1 4F2 5F2 6F2 7F2";
    let six = "1 east west north south 1F1 2F1 3F1 4F2 5F3 6F4";
    reads(&rt, both, "eeewww", "1 east west 1F1 2F1 3F1 4F2 5F2 6F2");
    reads(&rt, both, "eeewwww", seven);
    reads(&rt, four, "eeewns", six);
}

/// The second node's address, and the first client's number and address.
fn addresses(alloc: Global, ring: &Ring) -> Result<String, AllocError> {
    let mut text = String::new(alloc);
    if let Some(node) = ring.members().get(1)
        && let Some(at) = &node.address
    {
        text.push_str(at.as_str())?;
    }
    if let Some(client) = ring.clients().get(0) {
        let (id, at) = (client.id, client.at.as_str());
        write!(text, " {id} {at}")?;
    }
    Ok(text)
}

#[test]
fn addresses_and_clients_are_read(rt: HostRuntime) {
    let text = super::edited(rt.alloc(), (99, ""), (99, "")).expect(&rt, "memory");
    let ring = read_ring(rt.alloc(), text.as_bytes()).expect(&rt, "a ring");
    let given = addresses(rt.alloc(), &ring).expect(&rt, "memory");
    assert_eq!(rt; given.as_str(), "10.0.0.2:3306 65536 10.0.1.1:9000");
}

/// Expects this answer to a ring of so many nodes of one region.
fn of_nodes(rt: &(impl AllocGlobal + Abort), count: u64, wanted: &str) {
    let mut nodes = String::new(rt.alloc());
    for _ in 0..count {
        nodes.push('e').expect(rt, "memory");
    }
    let text = ring_text(rt.alloc(), "\"east\"", nodes.as_str()).expect(rt, "memory");
    says(rt, text.as_bytes(), wanted);
}

#[test]
fn at_most_64_nodes(rt: HostRuntime) {
    of_nodes(&rt, 64, "ring");
    of_nodes(&rt, 65, "too many nodes, regions, clients or tables");
}
