//! What the building of a ring refuses, and the greatest and least values that are read.
use super::{answers, edited};
use ring_file::{RingError, read_ring};
use ring_types::BuildError;
use std::process::Abort;

const KEEP: (usize, &str) = (99, "");

/// Expects the building of the edited ring to be refused for this cause.
fn refused(rt: &(impl AllocGlobal + Abort), line: usize, text: &str, cause: BuildError) {
    let text = edited(rt.alloc(), (line, text), KEEP).expect(rt, "memory");
    let fault = read_ring(rt.alloc(), text.as_bytes()).err();
    assert_eq!(rt; fault, Some(RingError::Build(cause)));
}

#[test]
fn names_that_stand_twice(rt: HostRuntime) {
    let server = "uuid = \"3E11FA4771CA11E19E33C80AA9429562\"";
    refused(&rt, 10, "id = 1", BuildError::TwiceNamed);
    refused(
        &rt,
        3,
        "regions = [\"east\", \"east\"]",
        BuildError::TwiceNamed,
    );
    refused(&rt, 13, server, BuildError::TwiceNamed);
}

#[test]
fn regions_that_are_none_or_have_no_voter(rt: HostRuntime) {
    refused(&rt, 1, "home = \"west\"", BuildError::NoRegion);
    refused(&rt, 11, "region = \"west\"", BuildError::NoRegion);
    refused(
        &rt,
        3,
        "regions = [\"east\", \"west\"]",
        BuildError::NoVoter,
    );
}

#[test]
fn tables_that_no_schema_has(rt: HostRuntime) {
    let twice = "columns = [\"id int\", \"id int\"]";
    refused(&rt, 22, "name = \"t\"", BuildError::BadSchema);
    refused(&rt, 23, "columns = []", BuildError::BadSchema);
    refused(&rt, 20, twice, BuildError::BadSchema);
}

fn reads(rt: &(impl AllocGlobal + Abort), line: usize, text: &str) {
    answers(rt, (line, text), KEEP, "ring");
}

#[test]
fn the_greatest_and_least_values_are_read(rt: HostRuntime) {
    let columns = "columns = [\"id int\", \"name text 16000\", \"b text 1\"]";
    let server = "uuid = \"urn:uuid:3e11fa47-71ca-11e1-9e33-c80aa9429563\"";
    reads(&rt, 10, "id = 65535");
    reads(&rt, 10, "id = 0xFF");
    reads(&rt, 14, "");
    reads(&rt, 16, "id = 4294967295");
    reads(&rt, 20, columns);
    reads(&rt, 13, server);
}
