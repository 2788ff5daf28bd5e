// Requests as plain numbers, twelve a request: how one of them is read.
#![tactic(auto)]

ghost use Rattle.std.specs.Prelude.{◌≡◌, ◌+◌, ◌*◌, ◌≤◌, ◌&&◌, length, option_map};
ghost use Rattle.choose.specs.Told.{choice_of};
ghost use Rattle.request.specs.Asked.{want_of, request_of};
ghost use Rattle.flat.specs.Flat.{request_size, known, choice_at, fits, named, input, msi, form_at, readable, want_at, bad, request_at};
ghost use Rattle.flat.specs.Read.{if_read, id_at};

use choose::Choice;
use request::{Request, Want};
use tables::Id;

pub mod pin; // pin.rt: granted numbers written back

// The numbers of one request.
pub const REQUEST: usize = 12;

// A number that a field of 32 bits holds.
fn narrow(n: u64) -> Option<u32>
    ensures { result ≡ if_read (fits n) n }
{
    u32::try_from(n).ok()
}

// Code 0 leaves the choice to the planner, any other names the number.
pub fn choice_of(code: u64, n: u64) -> Choice<u64>
    ensures { choice_of result ≡ choice_at code n }
{
    if code == 0 {
        return Choice::Auto;
    }
    Choice::Fixed(n)
}

// A choice as the caller's list has it: code 0 leaves it to the planner, code 1 asks for the number. Not an Option: another code can't be read, and pinning writes both.
#[derive(Clone, Copy, Debug, PartialEq, Eq)]
pub struct Coded {
    pub code: u64,
    pub number: u64,
}

impl Coded {
    // No other code is known.
    pub fn choice(self) -> Option<Choice<u64>>
        ensures { option_map choice_of result ≡ if_read (known self.code) (choice_at self.code self.number) }
    {
        (self.code <= 1).then_some(choice_of(self.code, self.number))
    }

    // A DeviceID, an EventID or an LPI: a number that is asked for has 32 bits.
    pub fn id<T: Id>(self) -> Option<Choice<T>>
        ensures { result ≡ if_read (named self.code self.number) (id_at T.of self.code self.number) }
    {
        match self.code {
            0 => Some(Choice::Auto),
            1 => Some(Choice::Fixed(T::new(narrow(self.number)?))),
            _ => None,
        }
    }
}

// The twelve numbers of a request. MMIO and PIO: a size, b alignment; an input: a controller, b trigger, c sharing; MSI: a controller, b ITS, c count, and its three choices device, event, LPI.
#[derive(Clone, Copy, Debug, PartialEq, Eq)]
pub struct Numbers {
    pub kind: u64,
    pub requester: u64,
    pub slot: u64,
    pub a: u64,
    pub b: u64,
    pub c: u64,
    pub x: Coded,
    pub y: Coded,
    pub z: Coded,
}

impl Numbers {
    // What is asked of an input.
    #[tactic(auto, using(crate::proofs::ReadLaws::none_read, crate::proofs::ReadLaws::some_read), unfolding(crate::specs::Flat::readable, crate::specs::Flat::want_at))]
    fn wired(self) -> Option<Want>
        ensures { option_map want_of result ≡ if_read (readable input self.a self.b self.c self.x.code self.x.number self.y.code self.y.number self.z.code self.z.number) (want_at input self.a self.b self.c (choice_at self.x.code self.x.number) (choice_at self.y.code self.y.number) (choice_at self.z.code self.z.number)) }
    {
        Some(Want::Input {
            controller: narrow(self.a)?,
            trigger: narrow(self.b)?,
            sharing: narrow(self.c)?,
            choice: self.x.choice()?,
        })
    }

    // What is asked of an MSI domain.
    #[tactic(auto, using(crate::proofs::ReadLaws::none_read, crate::proofs::ReadLaws::some_read), unfolding(crate::specs::Flat::readable, crate::specs::Flat::want_at))]
    fn msi(self) -> Option<Want>
        ensures { option_map want_of result ≡ if_read (readable msi self.a self.b self.c self.x.code self.x.number self.y.code self.y.number self.z.code self.z.number) (want_at msi self.a self.b self.c (choice_at self.x.code self.x.number) (choice_at self.y.code self.y.number) (choice_at self.z.code self.z.number)) }
    {
        Some(Want::Msi {
            controller: narrow(self.a)?,
            its: narrow(self.b)?,
            count: narrow(self.c)?,
            device: self.x.id()?,
            event: self.y.id()?,
            lpi: self.z.id()?,
        })
    }

    // What is wanted, by the kind, if what it uses of the numbers can be read.
    #[tactic(auto, using(crate::proofs::ReadLaws::none_read, crate::proofs::ReadLaws::some_read), unfolding(crate::specs::Flat::readable, crate::specs::Flat::want_at))]
    fn want(self) -> Option<Want>
        ensures { option_map want_of result ≡ if_read (readable (form_at self.kind) self.a self.b self.c self.x.code self.x.number self.y.code self.y.number self.z.code self.z.number) (want_at (form_at self.kind) self.a self.b self.c (choice_at self.x.code self.x.number) (choice_at self.y.code self.y.number) (choice_at self.z.code self.z.number)) }
    {
        match self.kind {
            1 => Some(Want::Mmio {
                size: self.a,
                alignment: self.b,
                choice: self.x.choice()?,
            }),
            2 => Some(Want::Pio {
                size: self.a,
                alignment: self.b,
                choice: self.x.choice()?,
            }),
            3 => self.wired(),
            4 => Some(Want::Host {
                choice: self.x.choice()?,
            }),
            5 => self.msi(),
            _ => None,
        }
    }

    // The request, if it can be read.
    #[tactic(auto, using(crate::proofs::ReadLaws::none_read, crate::proofs::ReadLaws::some_read), unfolding(crate::specs::Flat::readable, crate::specs::Flat::want_at))]
    pub fn request(self) -> Option<Request>
        ensures { option_map request_of result ≡ if_read (fits self.requester && (fits self.slot && readable (form_at self.kind) self.a self.b self.c self.x.code self.x.number self.y.code self.y.number self.z.code self.z.number)) (record { requester = self.requester; slot = self.slot; want = want_at (form_at self.kind) self.a self.b self.c (choice_at self.x.code self.x.number) (choice_at self.y.code self.y.number) (choice_at self.z.code self.z.number) }) }
    {
        Some(Request {
            requester: narrow(self.requester)?,
            slot: narrow(self.slot)?,
            want: self.want()?,
        })
    }
}

// What cannot be read: a request of requester 0 is bad input.
pub fn bad() -> Request
    ensures { request_of result ≡ bad }
{
    Request {
        requester: 0,
        slot: 0,
        want: Want::Host {
            choice: Choice::Auto,
        },
    }
}

// The i-th request of a list.
pub fn request_at(requests: &[u64], i: usize) -> Request
    requires { request_size * i + request_size ≤ length requests.now }
    ensures { request_of result ≡ request_at requests.now i }
{
    let at = REQUEST * i;
    let numbers = Numbers {
        kind: requests[at],
        requester: requests[at + 1],
        slot: requests[at + 2],
        a: requests[at + 3],
        b: requests[at + 4],
        c: requests[at + 5],
        x: Coded {
            code: requests[at + 6],
            number: requests[at + 7],
        },
        y: Coded {
            code: requests[at + 8],
            number: requests[at + 9],
        },
        z: Coded {
            code: requests[at + 10],
            number: requests[at + 11],
        },
    };
    numbers.request().unwrap_or(bad())
}
