// The filled front part of a results list: nine numbers for each request that the plan accepted.
ghost use Rattle.std.specs.Prelude.{◌≡◌, ◌*◌, take};
ghost use Rattle.definition.specs.Tables.{record_size};
ghost use Rattle.plan.specs.Front.{accepted_of};

use tables::RECORD;

// How many of n requests an answer's number and index say were accepted: all of them, or those before the refused one.
pub fn accepted(number: u64, index: u64, n: usize) -> usize
    ensures { result ≡ accepted_of number index n }
{
    if number == 0 { n } else { index as usize }
}

// The part of the list that holds their records. It is the caller's own memory: it begins where the list begins.
pub fn front<'a>(results: &'a mut [u64], number: u64, index: u64, n: usize) -> &'a mut [u64]
    ensures { (result.now ≡ take (record_size * accepted_of number index n) results.old) × (result.ref_ptr ≡ results.entry.ref_ptr) }
{
    let k = accepted(number, index, n);
    if results.len() / RECORD < k {
        return results;
    }
    let end = RECORD * k;
    &mut results[..end]
}
