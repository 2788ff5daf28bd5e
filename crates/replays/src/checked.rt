// What must hold of the second run.
use tables::{RECORD, State};

// Each record is the one that the line had: the first results' nine numbers of that index.
pub fn records(first: &[u64], order: &[u64], second: &[u64]) -> bool {
    let (first, _) = first.as_chunks::<RECORD>();
    let (second, _) = second.as_chunks::<RECORD>();
    order
        .iter()
        .zip(second)
        .all(|(i, record)| first.get(*i as usize) == Some(record))
}

// How many of the first n records are of a kind.
pub fn count(second: &[u64], n: usize, kind: u64) -> usize {
    let (records, _) = second.as_chunks::<RECORD>();
    records.iter().take(n).filter(|r| r[0] == kind).count()
}

// The owner tables hold the reservations and the rows of those records.
pub fn owners(t: &State, second: &[u64], n: usize) -> bool {
    let o = &t.owners;
    let h = &t.held;
    [
        (o.mmio.n, h.mmio.n, 1),
        (o.pio.n, h.pio.n, 2),
        (o.input.n, h.input.n, 3),
        (o.host.n, h.host.n, 4),
        (o.device.n, h.device.n, 5),
        (o.event.n, h.event.n, 5),
        (o.lpi.n, h.lpi.n, 5),
    ]
    .iter()
    .all(|(rows, held, kind)| rows.checked_sub(*held) == Some(count(second, n, *kind)))
}
