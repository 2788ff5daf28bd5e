// One request over the whole state by value: the tables handed in are tested, then the request is answered in place on a copy. Nothing is written before all of it stands.
#![tactic(auto)]

ghost use Rattle.std.specs.Prelude.{◌≡◌, ◌≤◌, T, length};
ghost use Rattle.definition.specs.Tables.{record_size, kinds};
ghost use Rattle.definition.specs.Base.{tell};
ghost use Rattle.definition.specs.Calls.{sound, saying, want, serve};
ghost use Rattle.definition.specs.Plan.{written, lent, allocate_into};
ghost use Rattle.tables.specs.Views.{state_view};
ghost use Rattle.choose.specs.Told.{refusal_of};
ghost use Rattle.request.specs.Asked.{request_of};
ghost use Rattle.allocation.specs.Records.{record_in, Answers};

use choose::Refusal;
use decide::Bases;
use request::{Request, Said, Want};
use tables::{RECORD, State};

// The state afterwards, and the first numbers of the rows granted.
#[derive(Clone, Copy)]
pub struct Outcome {
    pub state: State,
    pub bases: Option<Bases>,
}

// The nine numbers of a result: kind, requester, slot, and what the kind has.
pub type Record = [u64; RECORD];

// The numbers of a refusal beside tables that stay as they were.
pub fn refuse(mut s: State, y: Refusal) -> State
    ensures { state_view result ≡ saying (tell 0 (refusal_of y)) (state_view s) }
{
    inplace::say(&mut s, Said::from(y));
    s
}

// One request on sound tables: 2, then 6, 7 or 8, then 9.
pub fn resolve(mut s: State, r: Request) -> Outcome
    requires { T (sound kinds (state_view s)) }
    ensures { Answers s (request_of r) result }
{
    let bases = inplace::resolve(&mut s, r);
    Outcome { state: s, bases }
}

// One request of any kind over the whole set of tables.
pub fn allocate(s: State, r: Request) -> State
    ensures { state_view result ≡ serve kinds (want (request_of r)) (state_view s) }
{
    if sound::lent::sound(&s) {
        resolve(s, r).state
    } else {
        refuse(s, Refusal::Malformed)
    }
}

// The record of an accepted request, from the first numbers of its rows.
pub fn record_of(r: Request, bases: Bases) -> Record
    ensures { result ≡ record_in r bases }
{
    let requester = u64::from(r.requester);
    let slot = u64::from(r.slot);
    let base = bases.base;
    match r.want {
        Want::Mmio { size, .. } => [1, requester, slot, base, size, 0, 0, 0, 0],
        Want::Pio { size, .. } => [2, requester, slot, base, size, 0, 0, 0, 0],
        Want::Input {
            controller,
            trigger,
            sharing,
            ..
        } => [
            3,
            requester,
            slot,
            u64::from(controller),
            base,
            u64::from(trigger),
            u64::from(sharing),
            0,
            0,
        ],
        Want::Host { .. } => [4, requester, slot, base, 0, 0, 0, 0, 0],
        Want::Msi {
            controller,
            its,
            count,
            ..
        } => [
            5,
            requester,
            slot,
            u64::from(controller),
            u64::from(its),
            u64::from(bases.device.0),
            u64::from(bases.event.0),
            u64::from(bases.lpi.0),
            u64::from(count),
        ],
    }
}

// The nine numbers in front: what lies past them is never written.
pub fn write_record(out: &mut [u64], n: Record)
    requires { record_size ≤ length out.old }
    ensures { out.new ≡ written n out.old }
{
    out[..RECORD].copy_from_slice(&n);
}

// The same request, with its record written into a lent list: 1, 11, 2 and the rest, all before anything is written.
pub fn allocate_into(s: State, r: Request, out: &mut [u64]) -> State
    ensures { lent (state_view result) out.new ≡ allocate_into kinds (request_of r) (state_view s) out.old }
{
    if !sound::lent::sound(&s) {
        return refuse(s, Refusal::Malformed);
    }
    if out.len() < RECORD {
        return refuse(s, Refusal::Short);
    }
    let answered = resolve(s, r);
    if let Some(bases) = answered.bases {
        write_record(out, record_of(r, bases));
    }
    answered.state
}
