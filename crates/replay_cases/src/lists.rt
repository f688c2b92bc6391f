use crate::cases::Case;

/// What a line of the list says.
pub enum Line<'a> {
    /// An empty line, or a comment behind `#`.
    Nothing,
    /// The heading of a group, in its brackets.
    Heading(&'a str),
    Case(Case<'a>),
    Unreadable,
}

pub fn read_line(line: &str) -> Line<'_> {
    if line.is_empty() || line.starts_with('#') {
        return Line::Nothing;
    }
    if line.starts_with('[') {
        return Line::Heading(line);
    }
    match line.split_once(' ') {
        Some((name, ring)) => Line::Case(Case { name, ring }),
        None => Line::Unreadable,
    }
}
