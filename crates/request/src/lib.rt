// A request as it is handed in, whether its numbers make sense, and the numbers of a refusal.
#![tactic(auto)]

ghost use Rattle.std.specs.Prelude.{◌≡◌};
ghost use Rattle.definition.specs.Base.{tell};
ghost use Rattle.definition.specs.Request.{good_choice, good_want, good_request, input_want, msi_want};
ghost use Rattle.choose.specs.Told.{choice_of, refusal_of};
ghost use Rattle.choose.specs.Ids.{device_choice, event_choice, lpi_choice};
ghost use Rattle.request.specs.Asked.{want_of, request_of, said_of, good_span};

use choose::{Choice, Refusal};
use tables::{DeviceId, EventId, Lpi};

pub mod call;

const TOP_16: u64 = 65535;

// What is wanted. PIO numbers have 16 bits: one that is too large is bad input. All numbers of MSI have 32 by their types.
#[derive(Clone, Copy, Debug, PartialEq, Eq)]
pub enum Want {
    Mmio {
        size: u64,
        alignment: u64,
        choice: Choice<u64>,
    },
    Pio {
        size: u64,
        alignment: u64,
        choice: Choice<u64>,
    },
    Input {
        controller: u32,
        trigger: u32,
        sharing: u32,
        choice: Choice<u64>,
    },
    Host {
        choice: Choice<u64>,
    },
    Msi {
        controller: u32,
        its: u32,
        count: u32,
        device: Choice<DeviceId>,
        event: Choice<EventId>,
        lpi: Choice<Lpi>,
    },
}

#[derive(Clone, Copy, Debug, PartialEq, Eq)]
pub struct Request {
    pub requester: u32,
    pub slot: u32,
    pub want: Want,
}

// The numbers of an answer beside the index, 0 where it is accepted: as the C interface has them.
#[derive(Clone, Copy, Debug, PartialEq, Eq)]
pub struct Said {
    pub number: u64,
    pub namespace: u64,
    pub owner: u64,
    pub detail: u64,
}

// A number that is asked for by name is no larger than `most`.
#[tactic(auto, unfolding(definition::specs::Request::good_choice))]
pub fn good_choice(most: u64, choice: Choice<u64>) -> bool
    ensures { result ≡ good_choice most (choice_of choice) }
{
    match choice {
        Choice::Auto => true,
        Choice::Fixed(b) => b <= most,
    }
}

// A range: some numbers, aligned by one bit, all within the width.
#[tactic(auto, unfolding(crate::specs::Asked::good_span))]
pub fn good_span(most: u64, size: u64, alignment: u64, choice: Choice<u64>) -> bool
    ensures { result ≡ good_span most size alignment (choice_of choice) }
{
    0 < size
        && size <= most
        && alignment <= most
        && search::one_bit(alignment)
        && good_choice(most, choice)
}

// A wired request's codes are known.
#[tactic(auto, unfolding(definition::specs::Request::good_want))]
pub fn good_input(controller: u32, trigger: u32, sharing: u32, choice: Choice<u64>) -> bool
    ensures { result ≡ good_want (input_want controller trigger sharing (choice_of choice)) }
{
    trigger <= 3 && sharing <= 1 && good_choice(u64::MAX, choice)
}

// An MSI request wants some events.
pub fn good_msi(
    controller: u32,
    its: u32,
    count: u32,
    device: Choice<DeviceId>,
    event: Choice<EventId>,
    lpi: Choice<Lpi>,
) -> bool
    ensures { result ≡ good_want (msi_want controller its count (device_choice device) (event_choice event) (lpi_choice lpi)) }
{
    count != 0
}

#[tactic(auto, using(crate::proofs::GoodLaws::mmio_good, crate::proofs::GoodLaws::pio_good), unfolding(definition::specs::Request::good_want))]
pub fn good_want(want: Want) -> bool
    ensures { result ≡ good_want (want_of want) }
{
    match want {
        Want::Mmio {
            size,
            alignment,
            choice,
        } => good_span(u64::MAX, size, alignment, choice),
        Want::Pio {
            size,
            alignment,
            choice,
        } => good_span(TOP_16, size, alignment, choice),
        Want::Input {
            controller,
            trigger,
            sharing,
            choice,
        } => good_input(controller, trigger, sharing, choice),
        Want::Host { choice } => good_choice(u64::MAX, choice),
        Want::Msi {
            controller,
            its,
            count,
            device,
            event,
            lpi,
        } => good_msi(controller, its, count, device, event, lpi),
    }
}

// Whether a request makes sense: 2 if not.
#[tactic(auto, unfolding(definition::specs::Request::good_request))]
pub fn good_request(r: Request) -> bool
    ensures { result ≡ good_request (request_of r) }
{
    r.requester != 0 && good_want(r.want)
}

// The numbers of a refusal.
impl From<Refusal> for Said {
    ghost from_gives = { λ y said. said_of said ≡ tell 0 (refusal_of y) };

    fn from(y: Refusal) -> Said {
        match y {
            Refusal::Malformed => Said::plain(1),
            Refusal::BadInput => Said::plain(2),
            Refusal::FixedNotAllowed(namespace) => Said::naming(6, namespace, 0, 0),
            Refusal::Exhausted(namespace) => Said::naming(7, namespace, 0, 0),
            Refusal::Conflict(namespace, owner, detail) => {
                Said::naming(8, namespace, owner, detail)
            }
            Refusal::Full => Said::plain(9),
            Refusal::Short => Said::plain(11),
        }
    }
}

impl Said {
    // A number that names nothing.
    pub fn plain(number: u64) -> Said
        ensures { result ≡ record { number = number; namespace = 0; owner = 0; detail = 0 } }
    {
        Said {
            number,
            namespace: 0,
            owner: 0,
            detail: 0,
        }
    }

    pub fn naming(number: u64, namespace: u32, owner: u32, detail: u32) -> Said
        ensures { result ≡ record { number = number; namespace = namespace; owner = owner; detail = detail } }
    {
        Said {
            number,
            namespace: u64::from(namespace),
            owner: u64::from(owner),
            detail: u64::from(detail),
        }
    }
}
