// The test of a lent state: what 01 calls sound, no more and no less, kind by kind. No table is copied.
ghost use Rattle.std.specs.Prelude.{◌≡◌};
ghost use Rattle.definition.specs.Tables.{kinds};
ghost use Rattle.definition.specs.Calls.{given, sound};
ghost use Rattle.tables.specs.Views.{kind_of, state_view};
ghost use Rattle.table_tests.specs.Tests.{limits_of};
ghost use Rattle.sound.specs.Tests.{pools_in, given_ranges, set_ranges, given_inputs, set_inputs, given_of, set_of};

use super::wired::Wired;
use table_tests::limits::{Limits, limits_of};
use table_tests::{range, table};
use tables::{Inputs, Kind, Pool, Ranges, State};

// Whether the two pools of a kind are sound: the first test of each of the four below.
#[tactic(auto, unfolding(crate::specs::Tests::pools_in))]
pub fn pools_sound(l: &Limits, auto: &Pool, fixed: &Pool) -> bool
    ensures { result ≡ pools_in l.now auto.now fixed.now }
{
    table::sound(l, auto) && table::sound(l, fixed)
}

// Whether the pools and reservations of a kind of ranges are sound.
#[tactic(auto, unfolding(crate::specs::Tests::given_ranges))]
pub fn ranges_given(kind: Kind, auto: &Pool, fixed: &Pool, held: &Ranges) -> bool
    ensures { result ≡ given_ranges (limits_of (kind_of kind)) auto.now fixed.now held.now }
{
    let l = limits_of(kind);
    pools_sound(&l, auto, fixed) && table::sound(&l, held)
}

// Whether all tables of a kind of ranges are sound.
#[tactic(auto, unfolding(crate::specs::Tests::set_ranges))]
pub fn ranges_set(kind: Kind, auto: &Pool, fixed: &Pool, held: &Ranges, owners: &Ranges) -> bool
    ensures { result ≡ set_ranges (limits_of (kind_of kind)) auto.now fixed.now held.now owners.now }
{
    let l = limits_of(kind);
    pools_sound(&l, auto, fixed) && range::holders_sound(&l, held, owners)
}

// Whether the pools and reservations of inputs are sound. (Not one function with the ranges': another rule, and other limits.)
#[tactic(auto, unfolding(crate::specs::Tests::given_inputs))]
pub fn inputs_given(auto: &Pool, fixed: &Pool, held: &Inputs) -> bool
    ensures { result ≡ given_inputs auto.now fixed.now held.now }
{
    let l = limits_of(Kind::Input);
    pools_sound(&l, auto, fixed) && table::sound(&Wired { single: true }, held)
}

// Whether all tables of inputs are sound.
#[tactic(auto, using(crate::proofs::InputLaws::inputs_begin_is), unfolding(crate::specs::Tests::set_inputs))]
pub fn inputs_set(auto: &Pool, fixed: &Pool, held: &Inputs, owners: &Inputs) -> bool
    ensures { result ≡ set_inputs auto.now fixed.now held.now owners.now }
{
    inputs_given(auto, fixed, held)
        && table::sound(&Wired { single: false }, owners)
        && table::begins_with(held, owners)
}

// The kinds in the definition's order.
const KINDS: [Kind; 7] = [
    Kind::Mmio,
    Kind::Pio,
    Kind::Input,
    Kind::Host,
    Kind::Device,
    Kind::Event,
    Kind::Lpi,
];

// Whether the pools and reservations of one kind are sound.
pub fn given_at(s: &State, kind: Kind) -> bool
    ensures { result ≡ given_of s.now (kind_of kind) }
{
    let (a, f, h) = (&s.auto, &s.fixed, &s.held);
    match kind {
        Kind::Mmio => ranges_given(kind, &a.mmio, &f.mmio, &h.mmio),
        Kind::Pio => ranges_given(kind, &a.pio, &f.pio, &h.pio),
        Kind::Input => inputs_given(&a.input, &f.input, &h.input),
        Kind::Host => ranges_given(kind, &a.host, &f.host, &h.host),
        Kind::Device => ranges_given(kind, &a.device, &f.device, &h.device),
        Kind::Event => ranges_given(kind, &a.event, &f.event, &h.event),
        Kind::Lpi => ranges_given(kind, &a.lpi, &f.lpi, &h.lpi),
    }
}

// Whether all tables of one kind are sound.
pub fn sound_at(s: &State, kind: Kind) -> bool
    ensures { result ≡ set_of s.now (kind_of kind) }
{
    let (a, f, h, o) = (&s.auto, &s.fixed, &s.held, &s.owners);
    match kind {
        Kind::Mmio => ranges_set(kind, &a.mmio, &f.mmio, &h.mmio, &o.mmio),
        Kind::Pio => ranges_set(kind, &a.pio, &f.pio, &h.pio, &o.pio),
        Kind::Input => inputs_set(&a.input, &f.input, &h.input, &o.input),
        Kind::Host => ranges_set(kind, &a.host, &f.host, &h.host, &o.host),
        Kind::Device => ranges_set(kind, &a.device, &f.device, &h.device, &o.device),
        Kind::Event => ranges_set(kind, &a.event, &f.event, &h.event, &o.event),
        Kind::Lpi => ranges_set(kind, &a.lpi, &f.lpi, &h.lpi, &o.lpi),
    }
}

// Whether all pools and all reservations are sound: what adding a range, reserving and starting ask.
pub fn given(s: &State) -> bool
    ensures { result ≡ given kinds (state_view s.now) }
{
    KINDS.iter().all(|&kind| given_at(s, kind))
}

// Whether all tables are sound: what a request and a plan ask.
pub fn sound(s: &State) -> bool
    ensures { result ≡ sound kinds (state_view s.now) }
{
    KINDS.iter().all(|&kind| sound_at(s, kind))
}
