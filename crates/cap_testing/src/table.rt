//! The first rows of a table (`first`).

/// The first so many of a table's rows, or none where it has fewer.
pub fn first<T>(rows: &[T], count: usize) -> &[T] {
    rows.get(..count).unwrap_or(&[])
}
