use ring_model::Event;
use ring_types::{List, Ring};

/// What is to be run: a ring, and the events of a schedule.
#[derive(Drop)]
pub(crate) struct Inputs {
    pub(crate) ring: Ring,
    pub(crate) events: List<Event>,
}
