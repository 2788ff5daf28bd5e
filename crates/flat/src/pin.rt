// The granted numbers of a plan written back into its requests: what was automatic then asks for what it was given.
ghost use Rattle.std.specs.Prelude.{◌≡◌, ◌+◌, ◌*◌, ◌≤◌, length};
ghost use Rattle.definition.specs.Tables.{record_size};
ghost use Rattle.flat.specs.Flat.{request_size};
ghost use Rattle.flat.specs.Pin.{pin_choice_at, pin_choices, own_record, pin_one, pinned_numbers};

use crate::{REQUEST, request_at};
use tables::RECORD;

// One choice, whose code stands at `to`: an automatic one is fixed at the number granted.
#[tactic(auto, unfolding(crate::specs::Pin::pin_choice_at))]
pub fn pin_choice(requests: &mut [u64], to: usize, granted: u64)
    requires { to + 2 ≤ length requests.old }
    ensures { requests.new ≡ pin_choice_at to granted requests.old }
{
    if requests[to] == 0 {
        requests[to] = 1;
        requests[to + 1] = granted;
    }
}

// The choices that the kind uses.
#[tactic(auto, unfolding(crate::specs::Pin::pin_choices))]
pub fn pin_choices(requests: &mut [u64], results: &[u64], i: usize)
    requires request_size_in_bounds { request_size * i + request_size ≤ length requests.old }
    requires record_size_in_bounds { record_size * i + record_size ≤ length results.now }
    ensures { requests.new ≡ pin_choices results.now i requests.old }
{
    let to = REQUEST * i;
    let from = RECORD * i;
    match requests[to] {
        1 | 2 | 4 => pin_choice(requests, to + 6, results[from + 3]),
        3 => pin_choice(requests, to + 6, results[from + 4]),
        5 => {
            pin_choice(requests, to + 6, results[from + 5]);
            pin_choice(requests, to + 8, results[from + 6]);
            pin_choice(requests, to + 10, results[from + 7]);
        }
        _ => {}
    }
}

// Whether a request's record is its own: of its kind, its requester and its slot. To requester 0 nothing is granted, and what cannot be read is read as one.
#[tactic(auto, unfolding(crate::specs::Pin::own_record, crate::specs::Pin::tells_of))]
pub fn own_record(requests: &[u64], results: &[u64], i: usize) -> bool
    requires request_size_in_bounds { request_size * i + request_size ≤ length requests.now }
    requires record_size_in_bounds { record_size * i + record_size ≤ length results.now }
    ensures { result ≡ own_record results.now i requests.now }
{
    let request = request_at(requests, i);
    let from = RECORD * i;
    request.requester != 0
        && results[from] == requests[REQUEST * i]
        && results[from + 1] == u64::from(request.requester)
        && results[from + 2] == u64::from(request.slot)
}

// A request whose record is its own: behind a refused plan's records the list holds what no plan wrote.
#[tactic(auto, unfolding(crate::specs::Pin::pin_one))]
pub fn pin_one(requests: &mut [u64], results: &[u64], i: usize)
    requires request_size_in_bounds { request_size * i + request_size ≤ length requests.old }
    requires record_size_in_bounds { record_size * i + record_size ≤ length results.now }
    ensures { requests.new ≡ pin_one results.now i requests.old }
{
    if own_record(requests, results, i) {
        pin_choices(requests, results, i);
    }
}

// Every whole request that has a whole record of its own.
#[tactic(auto, using(crate::proofs::PinLaws::one_length, crate::proofs::PinLaws::from_left, crate::proofs::PinLaws::from_end, crate::proofs::PinLaws::from_start), unfolding(crate::specs::Pin::pinned_numbers))]
pub fn pin(requests: &mut [u64], results: &[u64])
    ensures { requests.new ≡ pinned_numbers requests.old results.now }
{
    let n = (requests.len() / REQUEST).min(results.len() / RECORD);
    for i in 0..n {
        pin_one(requests, results, i);
    }
}
