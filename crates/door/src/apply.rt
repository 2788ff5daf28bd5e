// A call that adds, or starts, on a lent state whose pools and reservations are sound, in place: tables are read through references, and only those of the call's use and kinds are written.
ghost use Rattle.std.specs.Prelude.{◌≡◌, T as Holds};
ghost use Rattle.definition.specs.Tables.{kinds, nature};
ghost use Rattle.definition.specs.Calls.{given, saying, starting};
ghost use Rattle.tables.specs.Views.{kind_of, pool_view, state_view};
ghost use Rattle.insert.specs.Answers.{heard};
ghost use Rattle.request.specs.Calls.{call_of};
ghost use Rattle.adding.specs.Adds.{ranges_in, rows_in};
ghost use Rattle.adding.specs.Looks.{Tidy, Fit, Tells};
ghost use Rattle.adding.specs.Judged.{entered_view};
ghost use Rattle.door.specs.Kept.{TidyPools, held_with, HeldFree, with_held, with_owners, PoolsKept, Kept, Ready, Looks};
ghost use Rattle.door.specs.Applied.{apply_of};

use adding::{Adds, Replies, Verdict, answer};
use insert::Reply;
use request::call::{Call, Use};
use table_tests::limits::limits_of;
use tables::{Kind, Pool, PoolRow, Pools, Ranges, State};

// ---- what is stored

// The range for one pool table, if it has one.
pub fn enter(t: &mut Pool, put: Option<PoolRow>)
    requires { Tidy t.old }
    ensures { pool_view t.new ≡ entered_view put (pool_view t.old) }
{
    if let Some(r) = put {
        insert::insert_range(t, r);
    }
}

// The ranges for the pools of a use. A verdict that has none for them touches no table.
#[tactic(auto, using(crate::proofs::KeptLaws::idle_pools, crate::proofs::GivenLaws::tidy_at))]
pub fn pools(p: &mut Pools, v: &Verdict, to: Use)
    requires { TidyPools p.old }
    ensures { PoolsKept v.now to p.old p.new }
{
    if adding::enter::idle(v, to) {
        return;
    }
    enter(&mut p.mmio, adding::enter::range(v, to, Kind::Mmio));
    enter(&mut p.pio, adding::enter::range(v, to, Kind::Pio));
    enter(&mut p.input, adding::enter::range(v, to, Kind::Input));
    enter(&mut p.host, adding::enter::range(v, to, Kind::Host));
    enter(&mut p.device, adding::enter::range(v, to, Kind::Device));
    enter(&mut p.event, adding::enter::range(v, to, Kind::Event));
    enter(&mut p.lpi, adding::enter::range(v, to, Kind::Lpi));
}

// The rows for the reservations, each at the end of its table, in place.
pub fn held(s: &mut State, v: &Verdict)
    requires { HeldFree v.now s.old.held }
    ensures { s.new ≡ with_held (held_with v.now s.old.held) s.old }
{
    lent_table::store::range(&mut s.held.mmio, adding::put::range(v, Kind::Mmio));
    lent_table::store::range(&mut s.held.pio, adding::put::range(v, Kind::Pio));
    lent_table::store::input(&mut s.held.input, adding::put::input(v));
    lent_table::store::range(&mut s.held.host, adding::put::range(v, Kind::Host));
    lent_table::store::range(&mut s.held.device, adding::put::range(v, Kind::Device));
    lent_table::store::range(&mut s.held.event, adding::put::range(v, Kind::Event));
    lent_table::store::range(&mut s.held.lpi, adding::put::range(v, Kind::Lpi));
}

// The five numbers.
pub fn say(s: &mut State, r: Reply)
    ensures { state_view s.new ≡ saying (heard r) (state_view s.old) }
{
    let (number, owner) = match r {
        Ok(()) => (0, 0),
        Err(y) => (y.number(), y.owner()),
    };
    s.number = number;
    s.index = 0;
    s.namespace = 0;
    s.owner = owner;
    s.detail = 0;
}

// All that a verdict stores.
pub fn keep(s: &mut State, v: &Verdict)
    requires { Ready v.now s.old }
    ensures { Kept v.now s.old s.new }
{
    pools(&mut s.auto, v, Use::Automatic);
    pools(&mut s.fixed, v, Use::Fixed);
    held(s, v);
    say(s, v.reply);
}

// ---- a start

// The owner tables become copies of the reservations, whatever they held.
pub fn copied(s: &mut State)
    ensures { s.new ≡ with_owners s.old.held s.old }
{
    s.owners = s.held;
}

pub fn start(s: &mut State)
    ensures { state_view s.new ≡ starting (state_view s.old) }
{
    copied(s);
    say(s, Ok(()));
}

// ---- a call

// What the tables of a kind answer, whose ranges start where the kind says.
fn told(kind: Kind, auto: &Pool, fixed: &Pool, held: &Ranges, q: Adds) -> Reply
    requires { Fit auto.now fixed.now held.now.n }
    ensures { Tells auto.now fixed.now held.now (nature (kind_of kind)).floor (ranges_in q kind) (rows_in q kind) result }
{
    answer::range(kind, auto, fixed, held, limits_of(kind).floor, q)
}

// What comes of a call that adds: nothing is stored yet.
pub fn look(s: &State, c: Call) -> Option<Verdict>
    requires { Holds (given kinds (state_view s.now)) }
    ensures { Looks s.now c result }
{
    let q = adding::asked(c)?;
    let (a, f, h) = (&s.auto, &s.fixed, &s.held);
    let replies = Replies {
        mmio: told(Kind::Mmio, &a.mmio, &f.mmio, &h.mmio, q),
        pio: told(Kind::Pio, &a.pio, &f.pio, &h.pio, q),
        input: answer::input(
            &a.input,
            &f.input,
            &h.input,
            limits_of(Kind::Input).floor,
            q,
        ),
        host: told(Kind::Host, &a.host, &f.host, &h.host, q),
        device: told(Kind::Device, &a.device, &f.device, &h.device, q),
        event: told(Kind::Event, &a.event, &f.event, &h.event, q),
        lpi: told(Kind::Lpi, &a.lpi, &f.lpi, &h.lpi, q),
    };
    Some(adding::judge(q, replies))
}

// One call on a state whose pools and reservations are sound. A request, and what cannot be read, leave it as it is.
pub fn apply(s: &mut State, c: Call)
    requires { Holds (given kinds (state_view s.old)) }
    ensures { state_view s.new ≡ apply_of (call_of c) (state_view s.old) }
{
    if let Call::Start = c {
        start(s);
        return;
    }
    if let Some(v) = look(s, c) {
        keep(s, &v);
    }
}
