//! What a mount may be opened with: each number at its limits, and one past them.
use eden_mount::Config;

#[derive(Clone, Copy)]
struct Row {
    passes: u32,
    flights: u32,
    history: u32,
    cache_entries: usize,
    cache_bytes: u64,
    cache_sizes: usize,
}

const LEAST: Row = Row {
    passes: 1,
    flights: 1,
    history: 1,
    cache_entries: 1,
    cache_bytes: 1,
    cache_sizes: 1,
};

const MOST: Row = Row {
    passes: 64,
    flights: 64,
    history: 4_294_967_295,
    cache_entries: 65_536,
    cache_bytes: 1_099_511_627_776,
    cache_sizes: 65_536,
};

fn is_taken(row: Row) -> bool {
    Config::new(
        row.passes,
        row.flights,
        row.history,
        row.cache_entries,
        row.cache_bytes,
        row.cache_sizes,
    )
    .is_some()
}

#[test]
fn limits_are_taken(rt: HostRuntime) {
    assert!(rt; is_taken(LEAST));
    assert!(rt; is_taken(MOST));
}

/// The least, but for one number.
const UNDER: [Row; 6] = [
    Row { passes: 0, ..LEAST },
    Row {
        flights: 0,
        ..LEAST
    },
    Row {
        history: 0,
        ..LEAST
    },
    Row {
        cache_entries: 0,
        ..LEAST
    },
    Row {
        cache_bytes: 0,
        ..LEAST
    },
    Row {
        cache_sizes: 0,
        ..LEAST
    },
];

/// The most, but for one number.
const OVER: [Row; 5] = [
    Row { passes: 65, ..MOST },
    Row {
        flights: 65,
        ..MOST
    },
    Row {
        cache_entries: 65_537,
        ..MOST
    },
    Row {
        cache_bytes: 1_099_511_627_777,
        ..MOST
    },
    Row {
        cache_sizes: 65_537,
        ..MOST
    },
];

fn none_is_taken(rows: &[Row]) -> bool {
    for row in rows {
        if is_taken(*row) {
            return false;
        }
    }
    true
}

#[test]
fn nothing_under_a_limit_is_taken(rt: HostRuntime) {
    assert!(rt; none_is_taken(&UNDER));
}

#[test]
fn nothing_over_a_limit_is_taken(rt: HostRuntime) {
    assert!(rt; none_is_taken(&OVER));
}
