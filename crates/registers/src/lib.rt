// The requests of a PCI device, sized from the words of its base address registers, as the plain numbers that a plan takes.
#![tactic(auto)]

ghost use Rattle.std.specs.Prelude.{◌≡◌, ◌*◌, ◌≤◌, T, length, nat_le};
ghost use Rattle.definition.specs.Tables.{top};
ghost use Rattle.definition.specs.Base.{all_of};
ghost use Rattle.definition.specs.Registers.{register_count, asked_from};
ghost use Rattle.flat.specs.Flat.{request_size};
ghost use Rattle.registers.specs.Sizing.{registers_into};
ghost use Rattle.registers.specs.Told.{next_said};
ghost use Rattle.registers.specs.Gathered.{first_of, past_in, sized_said, sized_into, Collected};

use crate::fault::Fault;
use crate::register::{judge, register_of, takes_next};
use flat::REQUEST;

pub mod fault; // fault.rt: why a device is refused
pub mod mask; // mask.rt: masks, and the sizes that they say
pub mod register; // register.rt: what one register asks for

// The base address registers of a device.
pub const REGISTERS: usize = 6;

// The numbers of as many requests.
pub const MOST: usize = REGISTERS * REQUEST;

const TOP_32: u64 = u32::MAX as u64;

// Whether all are words of 32 bits.
fn words_fit(words: &[u64]) -> bool
    ensures { result ≡ all_of (λ w. nat_le w (top 32)) words.now }
{
    words.iter().all(|w| *w <= TOP_32)
}

// The first of the words, if there is one.
#[tactic(auto, unfolding(definition::specs::Base::all_of))]
fn next_word(words: &[u64]) -> Option<u32>
    requires { T (all_of (λ w. nat_le w (top 32)) words.now) }
    ensures { next_said result ≡ first_of words.now }
{
    match words {
        [next, ..] => Some(*next as u32),
        [] => None,
    }
}

// The words behind a register: a pair has taken the next one.
fn past(pair: bool, behind: &[u64]) -> &[u64]
    ensures { result.now ≡ past_in pair behind.now }
{
    match behind {
        [_, after @ ..] if pair => after,
        _ => behind,
    }
}

// The registers in order, up to the first fault; their requests from the front of a list that has room for all that there can be.
fn collect(words: &[u64], requester: u64, list: &mut [u64]) -> Result<usize, Fault>
    requires words_len { length words.now ≡ register_count }
    requires t { T (all_of (λ w. nat_le w (top 32)) words.now) }
    requires register_count_in_bounds { request_size * register_count ≤ length list.old }
    ensures { Collected (asked_from requester 0 words.now) result list.new }
{
    let mut count: usize = 0;
    let mut rest = words;
    // not a `for`: a pair takes the next word too
    while let Some((word, behind)) = rest.split_first() {
        let w = *word as u32;
        if let Some(ask) = judge(w, next_word(behind))? {
            let slot = REGISTERS - rest.len();
            let at = REQUEST * count;
            list[at..at + REQUEST].copy_from_slice(&ask.numbers(requester, slot as u64));
            count += 1;
        }
        rest = past(takes_next(register_of(w)), behind);
    }
    Ok(count)
}

// The requests of six words, for a requester that can be one: all are made before the first is written, and Short is given last.
fn size_all(words: &[u64], requester: u64, list: &mut [u64]) -> Result<usize, Fault>
    requires words_len { length words.now ≡ register_count }
    requires t { T (all_of (λ w. nat_le w (top 32)) words.now) }
    ensures { sized_said result list.new ≡ sized_into (asked_from requester 0 words.now) list.old }
{
    let mut made = [0u64; MOST];
    let count = collect(words, requester, &mut made)?;
    if list.len() / REQUEST < count {
        return Err(Fault::Short);
    }
    let n = REQUEST * count;
    list[..n].copy_from_slice(&made[..n]);
    Ok(count)
}

// A device's requests, from the words read from its base address registers after all ones were written, in front of the caller's list.
#[tactic(auto, unfolding(crate::specs::Sizing::registers_into, definition::specs::Registers::registers, definition::specs::Base::require))]
pub fn registers(words: &[u64], requester: u64, list: &mut [u64]) -> Result<usize, Fault>
    ensures { sized_said result list.new ≡ registers_into words.now requester list.old }
{
    let six = words.get(..REGISTERS).ok_or(Fault::Short)?;
    if requester == 0 || TOP_32 < requester || !words_fit(six) {
        return Err(Fault::BadInput);
    }
    size_all(six, requester, list)
}
