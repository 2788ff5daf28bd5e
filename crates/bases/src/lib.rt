// Where a range may start, over plain numbers: no table and no loop.
#![tactic(auto)]

ghost use Rattle.std.specs.Prelude.{◌<◌};
ghost use Rattle.bases.specs.Bases.{Up, Below};

// The least multiple of `alignment` from `value` on, or `stop` where that is not below `stop`. Nothing wraps.
pub fn align_up(value: u64, alignment: u64, stop: u64) -> u64
    requires { 0 < alignment }
    ensures { Up value alignment stop result }
{
    if stop <= value {
        return stop;
    }
    let over = value % alignment;
    if over == 0 {
        return value;
    }
    let step = alignment - over;
    if step < stop - value {
        value + step
    } else {
        stop
    }
}

// The first base too high for a range of `size` that ends at `hi` or before: 0 where none fits.
pub fn bases_below(hi: u64, size: u64) -> u64
    requires { 0 < size }
    ensures { Below hi size result }
{
    if hi < size { 0 } else { hi - size + 1 }
}
