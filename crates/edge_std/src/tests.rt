use crate::{FileShelf, StdSink};
use edge_traits::{FetchError, Shelf, Sink};
use ring_types::Text;
use std::fs;
use std::test::Fail;

const PATH: &str = "edge_std_of_a_test.txt";

#[test]
fn files_come_whole_or_not_at_all(rt: HostRuntime) -> Result<(), Fail> {
    fs::write(&rt, PATH, "12345")?;
    let mut shelf = FileShelf::new(rt.alloc(), &rt);
    let name = Text::copy_of(rt.alloc(), PATH)?;
    let whole = shelf.fetch(&name, 5);
    let short = shelf.fetch(&name, 4);
    fs::remove_file(&rt, PATH)?;
    let gone = shelf.fetch(&name, 5);
    let dot = Text::copy_of(rt.alloc(), ".")?;
    assert!(rt; whole.is_ok_and(|bytes| bytes.as_slice() == b"12345".as_slice()));
    assert!(rt; matches!(short, Err(FetchError::TooLarge)));
    assert!(rt; matches!(gone, Err(FetchError::Absent)));
    assert!(rt; matches!(shelf.fetch(&dot, 5), Err(FetchError::Failed)));
    Ok(())
}

#[test]
fn an_output_takes_bytes(rt: HostRuntime) -> Result<(), Fail> {
    let mut out = StdSink::new(rt.stdout());
    assert!(rt; out.put(b"put\n").is_ok());
    Ok(())
}
