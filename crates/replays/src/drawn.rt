// Random plans: every number is drawn from the plan's seed, the line and the place in it, so that nothing is kept.
ghost use Rattle.std.specs.Prelude.{◌≤◌, length};

use flat::REQUEST;

// One step of a small generator.
pub fn next(x: u32) -> u32 {
    (x as u64 * 48271 % 2147483647) as u32
}

// The j-th number that is drawn for the i-th line of a plan.
pub fn draw(seed: u32, i: u64, j: u64) -> u64 {
    let x = seed as u64 * 7919 + i % 65536 * 104729 + j % 65536 * 1299709 + 1;
    next(next((x % 2147483647) as u32)) as u64
}

// How many lines a plan has: more than eight.
pub fn lines(seed: u32) -> usize
    ensures { result ≤ 56 }
{
    (9 + draw(seed, 1000, 0) % 48) as usize
}

// How many of n lines are selected.
pub fn some_of(seed: u32, n: usize) -> usize
    requires { n ≤ 56 }
    ensures { result ≤ n }
{
    n.min((draw(seed, 1001, 0) % 57) as usize)
}

// One choice in four is fixed.
pub fn code(seed: u32, i: u64, j: u64) -> u64 {
    (draw(seed, i, j) % 4 == 0) as u64
}

// The numbers of a line past its third. Fixed ones stand where no automatic pool is, each at its line's own place.
pub fn mmio(seed: u32, i: u64) -> [u64; 9] {
    let size = 4096 + draw(seed, i, 3) % 16 * 4096;
    let at = 3221225472 + i % 64 * 1048576;
    [size, 4096, at, code(seed, i, 6), at, at, at, at, at]
}

pub fn pio(seed: u32, i: u64) -> [u64; 9] {
    let size = 1 + draw(seed, i, 3) % 8;
    let at = 40960 + i % 64 * 16;
    [size, 4, at, code(seed, i, 6), at, at, at, at, at]
}

// Shared inputs that are fixed all ask for the same one.
pub fn input(seed: u32, i: u64) -> [u64; 9] {
    let sharing = draw(seed, i, 5) % 2;
    let at = if sharing == 1 { 3000 } else { 2000 + i % 64 };
    [1, 1, sharing, code(seed, i, 6), at, at, at, at, at]
}

pub fn host(seed: u32, i: u64) -> [u64; 9] {
    let at = 1000 + i % 64;
    [at, at, at, code(seed, i, 6), at, at, at, at, at]
}

pub fn msi(seed: u32, i: u64) -> [u64; 9] {
    let count = 1 + draw(seed, i, 5) % 4;
    let at = 13000 + i % 64 * 16;
    let device = code(seed, i, 6);
    let event = code(seed, i, 8);
    let lpi = code(seed, i, 10);
    [1, 2, count, device, at, event, at, lpi, at]
}

// The i-th line.
pub fn line(seed: u32, i: u64) -> [u64; REQUEST] {
    let kind = draw(seed, i, 0) % 5;
    let requester = 1 + draw(seed, i, 1) % 9;
    let [a, b, c, d, e, f, g, h, k] = match kind {
        0 => mmio(seed, i),
        1 => pio(seed, i),
        2 => input(seed, i),
        3 => host(seed, i),
        _ => msi(seed, i),
    };
    [kind + 1, requester, i, a, b, c, d, e, f, g, h, k]
}

// All lines of a plan.
pub fn fill(seed: u32, requests: &mut [u64]) {
    let (lines, _) = requests.as_chunks_mut::<REQUEST>();
    for (i, to) in lines.iter_mut().enumerate() {
        *to = line(seed, i as u64);
    }
}

// A place up to i.
pub fn place(d: usize, i: usize) -> usize
    ensures { result ≤ i }
{
    if d % 64 <= i {
        d % 64
    } else if d % 8 <= i {
        d % 8
    } else {
        i
    }
}

// The indices of n lines in some order: each new one changes places with one before it.
pub fn shuffle(seed: u32, n: usize, order: &mut [u64])
    requires { n ≤ length order.old }
{
    for i in 0..n {
        let to = place(draw(seed, 1002, i as u64) as usize, i);
        order[i] = order[to];
        order[to] = i as u64;
    }
}
