// Lines, fields and words of a table.

/// The word that a line begins with, and what stands behind it.
pub fn worded(line: &str) -> (&str, &str) {
    match line.split_once(' ') {
        Some((word, rest)) => (word, rest),
        None => (line, ""),
    }
}

/// A first field, and the fields behind it, where there are any.
pub fn fields(rest: &str) -> (&str, Option<&str>) {
    match rest.split_once(" ~ ") {
        Some((first, behind)) => (first, Some(behind)),
        None => (rest, None),
    }
}

/// Whether a line belongs to the row before it.
pub fn is_inner(line: &str) -> bool {
    line.starts_with(' ')
}

/// Whether a line says nothing.
pub fn is_silent(line: &str) -> bool {
    line.is_empty() || line.starts_with('#')
}
