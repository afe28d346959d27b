// What is said of rows that are left out of what is made of a set.
use std::fmt::Display;

// "1 row is", or "5 rows are"
fn counted(count: u64) -> (&'static str, &'static str) {
    if count == 1 {
        ("row", "is")
    } else {
        ("rows", "are")
    }
}

/// Says how many rows of tiles have no place in the grid: without numbers for a place, of zoom 31 or more, and outside
/// the grid of their zoom; and the zoom, column and row of the first one. Whether all have one.
pub fn say_misplaced<T: Display + Drop>(
    rt: &HostRuntime,
    tool: &str,
    path: &str,
    (odd, deep, outside): (u64, u64, u64),
    first: Option<(T, T, T)>,
) -> bool {
    let Some((zoom, column, row)) = first else {
        return true;
    };
    let count = odd.saturating_add(deep).saturating_add(outside);
    let (rows, are) = counted(count);
    let _ = eprintln!(rt;
        "{tool}: {path}: {count} {rows} of tiles {are} left out: {odd} without numbers for a place, {deep} of zoom 31 or more, {outside} outside the grid; the first has zoom_level {zoom}, tile_column {column}, tile_row {row}"
    );
    false
}

// Says how many rows of the metadata are left out for a reason. Whether there are none.
fn say_names(rt: &HostRuntime, tool: &str, path: &str, count: u64, reason: &str) -> bool {
    if count == 0 {
        return true;
    }
    let (rows, are) = counted(count);
    let _ = eprintln!(rt;
        "{tool}: {path}: {count} {rows} of the metadata {are} left out: {reason}"
    );
    false
}

/// Says how many rows of the metadata have no text as their name or value, and of how many the name stood before.
/// Whether there are none.
pub fn say_unnamed(rt: &HostRuntime, tool: &str, path: &str, odd: u64, repeated: u64) -> bool {
    let texts = say_names(rt, tool, path, odd, "their name or value is no text");
    let once = say_names(rt, tool, path, repeated, "their name stood before");
    texts && once
}
