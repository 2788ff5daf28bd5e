// A `want` line, from its kind's word on: a form that 01 gives it. (A form holds each number to its field's width: `as u32` loses nothing.)
ghost use Rattle.std.specs.Prelude.{◌≡◌, ◌<◌, ℕ};
ghost use Rattle.lines.specs.Base.{tab, split};
ghost use Rattle.lines.specs.Forms.{want_forms, tries};
ghost use Rattle.reader.specs.declared.kind.Kind.TheVariants as K;
ghost use Rattle.reader.specs.Kinds.{word_of, want_says, Chooses};

use crate::kind::Kind;
use choose::Choice;
use lines::form::{Field, N16, N32, N64, read_numbers};
use request::Want;
use tables::{DeviceId, EventId, Lpi};

// The numbers of a form, of which the last says the choice: `auto` may stand for it.
fn read_choice<const N: usize>(rest: &[u8], form: [Field; N]) -> Option<([u64; N], Choice<u64>)>
    requires { 0 < N }
    ensures { Chooses N form.entry (split tab rest.now) result }
{
    let mut auto = form;
    auto[N - 1] = Field::Auto;
    if let Some(n) = read_numbers(rest, auto) {
        return Some((n, Choice::Auto));
    }
    let n = read_numbers(rest, form)?;
    Some((n, Choice::Fixed(n[N - 1])))
}

// What the fields behind a kind's word ask for.
pub fn read_wanted(kind: Kind, rest: &[u8]) -> Option<Want>
    ensures { (q : ℕ) (slot : ℕ) → want_says q slot result ≡ tries (want_forms q slot) (word_of kind) (split tab rest.now) }
{
    match kind {
        Kind::Mmio => {
            let ([size, alignment, _], choice) = read_choice(rest, [N64, N64, N64])?;
            Some(Want::Mmio {
                size,
                alignment,
                choice,
            })
        }
        Kind::Pio => {
            let ([size, alignment, _], choice) = read_choice(rest, [N16, N16, N16])?;
            Some(Want::Pio {
                size,
                alignment,
                choice,
            })
        }
        Kind::Host => {
            let (_, choice) = read_choice(rest, [N64])?;
            Some(Want::Host { choice })
        }
        Kind::Input => read_input(rest),
        Kind::Msi => read_msi(rest),
        Kind::Device | Kind::Event | Kind::Lpi => None,
    }
}

// .. of an input.
fn read_input(rest: &[u8]) -> Option<Want>
    ensures { (q : ℕ) (slot : ℕ) → want_says q slot result ≡ tries (want_forms q slot) (word_of K.Input) (split tab rest.now) }
{
    let ([controller, trigger, sharing, _], choice) = read_choice(rest, [N32, N32, N32, N64])?;
    Some(Want::Input {
        controller: controller as u32,
        trigger: trigger as u32,
        sharing: sharing as u32,
        choice,
    })
}

// .. of MSI: all three numbers, or none.
fn read_msi(rest: &[u8]) -> Option<Want>
    ensures { (q : ℕ) (slot : ℕ) → want_says q slot result ≡ tries (want_forms q slot) (word_of K.Msi) (split tab rest.now) }
{
    if let Some(n) = read_numbers(rest, [N32, N32, N32, Field::Auto]) {
        let [controller, its, count, _] = n;
        return Some(Want::Msi {
            controller: controller as u32,
            its: its as u32,
            count: count as u32,
            device: Choice::Auto,
            event: Choice::Auto,
            lpi: Choice::Auto,
        });
    }
    let [controller, its, count, device, event, lpi] = read_numbers(rest, [N32; 6])?;
    Some(Want::Msi {
        controller: controller as u32,
        its: its as u32,
        count: count as u32,
        device: Choice::Fixed(DeviceId(device as u32)),
        event: Choice::Fixed(EventId(event as u32)),
        lpi: Choice::Fixed(Lpi(lpi as u32)),
    })
}
