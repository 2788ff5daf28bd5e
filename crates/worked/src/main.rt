// Worked cases of pools, reservations and start. Each expectation is proved, and run.
#![tactic(auto)]

mod searched; // searched.rt: searches over one pool

fn main() {
    searched::ranges();
    // a range is reserved, and one that overlaps it is refused and names its owner
    let begun = tables::fresh();
    let pooled = pool::address::add_auto_mmio(begun, 4096, 12288);
    check::expect(pooled.number == 0);
    let held = pool::address::reserve_mmio(pooled, 7, 4096, 8192);
    check::expect(held.number == 0);
    let over = pool::address::reserve_mmio(held, 9, 8191, 8193);
    check::expect(over.number == 5);
    check::expect(over.owner == 7);
    // the pair call is refused by its second half, and keeps no input
    let irq = pool::host_irq::reserve_host_irq(over, 4, 40);
    check::expect(irq.number == 0);
    let pair = pool::reserve_wired_host_irq(irq, 5, 1, 32, 40, 0);
    check::expect(pair.number == 5);
    check::expect(pair.owner == 4);
    let again = pool::wired::reserve_controller_input(pair, 6, 1, 32, 0, 0);
    check::expect(again.number == 0);
    let started = pool::start(again);
    check::expect(started.number == 0);
}
