// The planner for callers in C and Rust. The state is the caller's memory, lent with its size: with another number for its size a state is left as it was, and the answer is 1.
// Numbers come and go in lists. Nothing is required of them: whatever cannot be read gets its refusal.
#![tactic(auto)]

ghost use Rattle.std.specs.Prelude.{◌≡◌, length};
ghost use Rattle.definition.specs.Plan.{lent};
ghost use Rattle.tables.specs.Views.{state_view};
ghost use Rattle.flat.specs.Flat.{flat_plan, flat_allocate};
ghost use Rattle.numbers.specs.Rows.{told};
ghost use Rattle.numbers.specs.Reading.{code_of};
ghost use Rattle.numbers.specs.Lent.{call_told, read_told, filled_by};
ghost use Rattle.flat.specs.Pin.{pinned_numbers};
ghost use Rattle.registers.specs.Sizing.{registers_into};
ghost use Rattle.text.specs.Respond.{responds_to};
ghost use Rattle.lines.specs.Back.{pins_to};
ghost use Rattle.export.specs.Export.{state_size, begun, sized_fresh, answered, sized, numbered, counted, sized_read, bytes_told, text_pinned, pin_told, device_sized, size_told};

use inplace::marks::Marks;
use insert::Reply;
use numbers::back::{filled, read};
use numbers::{ANSWER, tell_five};
use registers::registers;
use tables::{POOL_ROWS, ROWS, State, fresh};
use text::respond;
use write_back::pin_text;

// The bytes of a table: its count, and its rows, column by column. (Were ROWS odd, columns would be padded: `size_is` then refuses these numbers.)
const POOL: usize = 8 + POOL_ROWS * (4 + 4 + 8 + 8);

const RANGES: usize = 8 + ROWS * (4 + 4 + 4 + 8 + 8 + 4);

const WIRES: usize = 8 + ROWS * (4 + 8 + 4 + 4 + 4);

// The bytes of a state: automatic and fixed pools of seven kinds; reservations and owners of inputs and of six kinds of ranges; the answer.
const STATE: u64 = (2 * 7 * POOL + 2 * (WIRES + 6 * RANGES) + 8 * ANSWER) as u64;

// How many bytes a state has.
#[unsafe(no_mangle)]
pub extern "C" fn planner_state_size() -> u64
    ensures { result ≡ state_size }
{
    STATE
}

// A fresh state: tables without rows, five zeros.
#[unsafe(no_mangle)]
pub extern "C" fn planner_fresh(state: &mut State, size: u64) -> u64
    ensures { begun state.new result ≡ sized_fresh size state.old }
{
    if size == STATE {
        *state = fresh();
        return 0;
    }
    1
}

// A call that adds or starts, one request, or a withdrawal, from its numbers. It answers with the number of the answer; all five are told where the list has room for them.
#[unsafe(no_mangle)]
pub extern "C" fn planner_call(
    state: &mut State,
    size: u64,
    numbers: &[u64],
    answer: &mut [u64],
) -> u64
    ensures { answered (lent (state_view state.new) answer.new) result ≡ sized size (state_view state.old) answer.old (numbered (call_told numbers.now (state_view state.old) answer.old)) }
{
    if size == STATE {
        numbers::call_in(state, numbers, answer);
        let m = inplace::marks::peek(state);
        return m.number;
    }
    1
}

// One request of twelve numbers, with its record of nine.
#[unsafe(no_mangle)]
pub extern "C" fn planner_allocate(
    state: &mut State,
    size: u64,
    request: &[u64],
    out: &mut [u64],
) -> u64
    ensures { answered (lent (state_view state.new) out.new) result ≡ sized size (state_view state.old) out.old (numbered (flat_allocate request.now (state_view state.old) out.old)) }
{
    if size == STATE {
        plan::numbers::allocate_in(state, request, out);
        let m = inplace::marks::peek(state);
        return m.number;
    }
    1
}

// How many numbers a plan has filled, by what it leaves.
fn filled_by(m: Marks, long: usize) -> u64
    ensures { result ≡ filled_by m.number m.index long }
{
    filled(m.number, m.index, long)
}

// A plan of requests, twelve numbers each. It answers with how many numbers of `results` it has filled, nine for each request granted; the answer itself stands in the state.
#[unsafe(no_mangle)]
pub extern "C" fn planner_plan(
    state: &mut State,
    size: u64,
    requests: &[u64],
    results: &mut [u64],
) -> u64
    ensures { answered (lent (state_view state.new) results.new) result ≡ sized size (state_view state.old) results.old (counted (length requests.now) (flat_plan requests.now (state_view state.old) results.old)) }
{
    if size == STATE {
        plan::numbers::plan_in(state, requests, results);
        let m = inplace::marks::peek(state);
        return filled_by(m, requests.len());
    }
    1
}

// The number of an answer: 0, or its refusal's.
fn code(answer: Reply) -> u64
    ensures { result ≡ code_of answer }
{
    match answer {
        Ok(()) => 0,
        Err(refused) => refused.number(),
    }
}

// Reading back: the last answer's five numbers (0), or one row of a table (part, kind, row).
#[unsafe(no_mangle)]
pub extern "C" fn planner_read(state: &State, size: u64, what: &[u64], out: &mut [u64]) -> u64
    ensures { told result out.new ≡ sized_read size out.old (read_told what.now (state_view state.now) out.old) }
{
    if size == STATE {
        return code(read(state, what, out));
    }
    1
}

// The granted numbers of a plan written back into its requests.
#[unsafe(no_mangle)]
pub extern "C" fn planner_pin(requests: &mut [u64], results: &[u64])
    ensures { requests.new ≡ pinned_numbers requests.old results.now }
{
    flat::pin::pin(requests, results);
}

// The text call: what the program answers, in front of `out`. It answers with how many bytes were written: 0 where `out` is shorter than the longest output there is.
#[unsafe(no_mangle)]
pub extern "C" fn planner_text(text: &[u8], out: &mut [u8]) -> u64
    ensures { told result out.new ≡ bytes_told (responds_to text.now out.old) }
{
    respond(text, out).unwrap_or(0) as u64
}

// A plan's text written back with its answers: the pinned text in front of `out`. It answers with how many bytes were written; the five numbers of a `no` line, line first, are
// told where `answer` has room for them, zeros where the text was written.
#[unsafe(no_mangle)]
pub extern "C" fn planner_pin_text(text: &[u8], out: &mut [u8], answer: &mut [u64]) -> u64
    ensures { text_pinned result out.new answer.new ≡ pin_told (pins_to text.now out.old) answer.old }
{
    let written = pin_text(text, out);
    let five = match written {
        Ok(_) => [0; ANSWER],
        Err(no) => [no.line, no.number, no.namespace, no.owner, no.detail],
    };
    let _ = tell_five(five, answer);
    written.unwrap_or(0) as u64
}

// A PCI device's requests, from the words read from its six base address registers after all ones were written: twelve numbers each, in front of `requests`. It answers
// with how many requests there are; the answer's five numbers are told where `answer` has room for them.
#[unsafe(no_mangle)]
pub extern "C" fn planner_registers(
    words: &[u64],
    requester: u64,
    requests: &mut [u64],
    answer: &mut [u64],
) -> u64
    ensures { device_sized result requests.new answer.new ≡ size_told (registers_into words.now requester requests.old) answer.old }
{
    let (number, count) = match registers(words, requester, requests) {
        Ok(count) => (0, count),
        Err(fault) => (fault.number(), 0),
    };
    let _ = tell_five([number, 0, 0, 0, 0], answer);
    count as u64
}
