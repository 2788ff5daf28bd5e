// Searches over one pool, by the calls themselves: what is found, and what is granted of it. Each expectation is proved, and run.
use choose::{Refusal, Run, automatic};
use search::{Need, find};
use tables::{Kind, fresh_pool, fresh_ranges};

// A range behind an owner, and one that has no room there.
#[tactic(auto, using(crate::proofs::SearchedLaws::ordered))]
pub(crate) fn ranges() {
    let mut pools = fresh_pool();
    pools.n = 1;
    pools.start[0] = 4096;
    pools.end[0] = 12288;
    let mut owners = fresh_ranges();
    owners.n = 1;
    owners.start[0] = 4096;
    owners.end[0] = 8192;
    owners.owner[0] = 7;
    let need = Need {
        kind: Kind::Mmio,
        controller: 0,
        its: 0,
        device: 0,
        size: 4096,
        alignment: 4096,
        requester: 9,
    };
    check::expect(find(&pools, &owners, need) == Some(8192));
    let run = Run {
        start: 8192,
        end: 12288,
    };
    check::expect(automatic(&pools, &owners, need) == Ok(run));
    let large = Need { size: 4097, ..need };
    check::expect(find(&pools, &owners, large).is_none());
    check::expect(automatic(&pools, &owners, large) == Err(Refusal::Exhausted(1)));
}
