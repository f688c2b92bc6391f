/// What stands for the line behind the last one.
const END: &str = "(the end)";

/// The first line in which two texts differ.
pub struct Difference<'a> {
    /// Counted from 1.
    pub line: u64,
    pub wanted: &'a str,
    pub came: &'a str,
}

/// Compares line by line. An ended line and one that is cut off are different lines, since behind an
/// ended one an empty line stands.
pub fn first_difference<'a>(wanted: &'a str, came: &'a str) -> Option<Difference<'a>> {
    let mut wanted = wanted.split('\n');
    let mut came = came.split('\n');
    for line in 1..u64::MAX {
        match (wanted.next(), came.next()) {
            (None, None) => return None,
            (wanted, came) if wanted != came => {
                let wanted = wanted.unwrap_or(END);
                let came = came.unwrap_or(END);
                return Some(Difference { line, wanted, came });
            }
            _ => {}
        }
    }
    None
}
