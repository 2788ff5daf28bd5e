// A call that adds, over the tables of seven kinds: the rows that it has for them, what comes of their answers, and the rows that are then stored. All over plain values, but for `answer`, which reads tables.
#![tactic(auto)]

ghost use Rattle.std.specs.Prelude.{◌≡◌};
ghost use Rattle.adding.specs.Adds.{ranges_in, rows_in, inputs_in, Asked};
ghost use Rattle.adding.specs.Judged.{accepts, reply_at, verdict_of};

use holds::of_hold;
use insert::{Reply, earlier};
use pools::of_pool;
use request::call::{Call, Use};
use tables::{InputRow, Kind, PoolRow, RangeRow};

pub mod answer;
pub mod enter;
pub mod holds;
pub mod pools;
pub mod put;

// What a call adds: to the pools of a use a range of one kind, or an MSI domain's (devices, events, LPIs); to the reservations a range, an input, or a pair of an input and a host IRQ.
#[derive(Clone, Copy, Debug, PartialEq, Eq)]
pub enum Adds {
    Range(Use, Kind, PoolRow),
    Domain(Use, PoolRow, PoolRow, PoolRow),
    Row(Kind, RangeRow),
    Input(InputRow),
    Pair(InputRow, RangeRow),
}

// The answers of the tables of each kind.
#[derive(Clone, Copy, Debug, PartialEq, Eq)]
pub struct Replies {
    pub mmio: Reply,
    pub pio: Reply,
    pub input: Reply,
    pub host: Reply,
    pub device: Reply,
    pub event: Reply,
    pub lpi: Reply,
}

// What comes of the answers: what is said, and so whether all of the call's rows are stored, or none.
#[derive(Clone, Copy, Debug, PartialEq, Eq)]
pub struct Verdict {
    pub adds: Adds,
    pub reply: Reply,
}

// What a call adds, if it is one that does.
pub fn asked(c: Call) -> Option<Adds>
    ensures { Asked c result }
{
    match c {
        Call::Pool(u, p) => Some(of_pool(u, p)),
        Call::Hold(owner, h) => Some(of_hold(owner, h)),
        Call::Start | Call::Want(_) | Call::Bad => None,
    }
}

// ---- the rows for the tables of one kind

impl Adds {
    // The range for the pools of a use.
    pub fn range(self, k: Kind) -> Option<(Use, PoolRow)>
        ensures { result ≡ ranges_in self k }
    {
        match self {
            Adds::Range(u, kind, r) => (k == kind).then_some((u, r)),
            Adds::Domain(u, devices, events, lpis) => match k {
                Kind::Device => Some((u, devices)),
                Kind::Event => Some((u, events)),
                Kind::Lpi => Some((u, lpis)),
                _ => None,
            },
            _ => None,
        }
    }

    // The row for the reservations of a kind of ranges.
    pub fn row(self, k: Kind) -> Option<RangeRow>
        ensures { result ≡ rows_in self k }
    {
        match self {
            Adds::Row(kind, r) => (k == kind).then_some(r),
            Adds::Pair(_, r) => (k == Kind::Host).then_some(r),
            _ => None,
        }
    }

    // .. of inputs.
    pub fn input(self) -> Option<InputRow>
        ensures { result ≡ inputs_in self }
    {
        match self {
            Adds::Input(w) | Adds::Pair(w, _) => Some(w),
            _ => None,
        }
    }
}

// ---- what comes of the answers

impl Replies {
    pub fn of(self, k: Kind) -> Reply
        ensures { result ≡ reply_at self k }
    {
        match k {
            Kind::Mmio => self.mmio,
            Kind::Pio => self.pio,
            Kind::Input => self.input,
            Kind::Host => self.host,
            Kind::Device => self.device,
            Kind::Event => self.event,
            Kind::Lpi => self.lpi,
        }
    }
}

impl Verdict {
    // Whether the call is accepted.
    pub fn accepted(&self) -> bool
        ensures { result ≡ accepts self.now.reply }
    {
        self.reply.is_ok()
    }
}

// What comes of the answers of all tables: of those that are asked the answer whose turn comes first is said.
pub fn judge(adds: Adds, replies: Replies) -> Verdict
    ensures { result ≡ verdict_of adds replies }
{
    let reply = match adds {
        Adds::Range(_, k, _) | Adds::Row(k, _) => replies.of(k),
        Adds::Domain(_, _, _, _) => earlier(replies.device, earlier(replies.event, replies.lpi)),
        Adds::Input(_) => replies.input,
        Adds::Pair(_, _) => earlier(replies.input, replies.host),
    };
    Verdict { adds, reply }
}
