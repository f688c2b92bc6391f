//! Lists and texts. Want of memory ends the test.
use ring_types::{List, Text};
use std::process::Abort;

pub fn text(rt: &(impl AllocGlobal + Abort), of: &str) -> Text {
    Text::copy_of(rt.alloc(), of).expect(rt, "memory")
}

pub fn with<T: Drop>(rt: &(impl AllocGlobal + Abort), front: List<T>, item: T) -> List<T> {
    let mut list = front;
    list.push(item).expect(rt, "memory");
    list
}

pub fn one<T: Drop>(rt: &(impl AllocGlobal + Abort), item: T) -> List<T> {
    with(rt, List::new(rt.alloc()), item)
}

pub fn pair<T: Drop>(rt: &(impl AllocGlobal + Abort), first: T, second: T) -> List<T> {
    with(rt, one(rt, first), second)
}
