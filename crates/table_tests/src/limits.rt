// What the rows of a kind keep to.
ghost use Rattle.std.specs.Prelude.{◌≡◌};
ghost use Rattle.tables.specs.Views.{kind_of};
ghost use Rattle.table_tests.specs.Tests.{limits_of};

use tables::Kind;

// The least number at which a kind's ranges may start, the largest of its width, and of each number of its domain: 0 where the kind does not use it.
#[derive(Clone, Copy)]
pub struct Limits {
    pub floor: u64,
    pub top: u64,
    pub controller: u32,
    pub its: u32,
    pub device: u32,
}

// C-12: LPIs start here.
const FIRST_LPI: u64 = 8192;

const TOP_16: u64 = 65535;

const TOP_32: u64 = 4294967295;

// Numbers of 64 bits in no domain.
const WIDE: Limits = Limits {
    floor: 0,
    top: u64::MAX,
    controller: 0,
    its: 0,
    device: 0,
};

// The limits of a kind.
pub fn limits_of(kind: Kind) -> Limits
    ensures { result ≡ limits_of (kind_of kind) }
{
    match kind {
        Kind::Mmio | Kind::Host => WIDE,
        Kind::Pio => Limits {
            top: TOP_16,
            ..WIDE
        },
        Kind::Input => Limits {
            controller: u32::MAX,
            ..WIDE
        },
        Kind::Device => Limits {
            top: TOP_32,
            controller: u32::MAX,
            its: u32::MAX,
            ..WIDE
        },
        Kind::Event => Limits {
            top: TOP_32,
            controller: u32::MAX,
            its: u32::MAX,
            device: u32::MAX,
            ..WIDE
        },
        Kind::Lpi => Limits {
            floor: FIRST_LPI,
            top: TOP_32,
            controller: u32::MAX,
            ..WIDE
        },
    }
}
