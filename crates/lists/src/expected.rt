// What is expected of a plan, worked out from the cases' own numbers.
use crate::input::Flaw;
use crate::{Case, MORE};
use tables::{RECORD, ROWS, State};

// The five numbers of the answer: its number and the request, and of a conflict the namespace, the owner and the detail.
pub fn answer(t: &State) -> [u64; 5] {
    [t.number, t.index, t.namespace, t.owner, t.detail]
}

// The rows of each owner table, in the order of the kinds: a reservation, and those of the first m requests.
pub fn rows(m: usize) -> [usize; 7] {
    let of = |kind: usize| (0..m).filter(|k| k % 5 == kind).count();
    let msi = of(4);
    [of(0).saturating_add(1), of(1), of(2), of(3), msi, msi, msi]
}

// A refused plan puts the tables back: not even an unused row is written.
pub fn owners(t: &State, c: Case) -> bool {
    let o = &t.owners;
    let used = [
        o.mmio.n, o.pio.n, o.input.n, o.host.n, o.device.n, o.event.n, o.lpi.n,
    ];
    match c.flaw {
        Flaw::Damaged => used == [1, 0, 0, ROWS + 1, 0, 0, 0],
        _ if c.answer[0] == 0 => used == rows(c.accepted),
        _ => o.mmio.end[1] == 0 && used == rows(0),
    }
}

// The number that a request is granted: a fixed one has what it asked for, an automatic one the next that is free.
pub fn base(turn: u32, fixed: u64, next: u64) -> u64 {
    if turn / 5 % 2 == 0 { next } else { fixed }
}

// The nine numbers of a request's record. An automatic MSI request has a device of its own, so that its events begin where their pool does.
pub fn record(turn: u32) -> [u64; RECORD] {
    let k = turn as u64;
    let next = k / 10;
    match turn % 5 {
        0 => {
            let start = base(turn, 2147483648 + 4096 * k, 4096 + 4096 * next);
            [1, k + 1, k, start, 4096, 0, 0, 0, 0]
        }
        1 => {
            let start = base(turn, 40960 + 16 * k, 16 * next);
            [2, k + 1, k, start, 16, 0, 0, 0, 0]
        }
        2 => {
            let input = base(turn, 4096 + k, next);
            [3, k + 1, k, 1, input, 1, 0, 0, 0]
        }
        3 => [4, k + 1, k, base(turn, 4096 + k, next), 0, 0, 0, 0, 0],
        _ => {
            let fixed = 12288 + 4 * k;
            let device = base(turn, fixed, 8192 + next);
            let event = base(turn, fixed, 8192);
            let lpi = base(turn, fixed, 8192 + 4 * next);
            [5, k + 1, k, 1, 2, device, event, lpi, 4]
        }
    }
}

// All results: these records, and behind them the nines that stood there.
pub fn results(accepted: usize) -> [u64; MORE] {
    let mut out = [9u64; MORE];
    for (turn, r) in (0u32..).zip(out.as_chunks_mut::<RECORD>().0).take(accepted) {
        *r = record(turn);
    }
    out
}
