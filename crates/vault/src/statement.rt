// The figures of a statement: those of a role name, and those of a line.
ghost use Rattle.std.specs.Prelude.{◌≤◌};

mod rows;
pub mod writing;

// Of one role name: offers given, offers declined, leases handed back, and leases open.
// A vault gives at most 999,999 offers, and its book has 256 records.
#[derive(Clone, Copy, Debug)]
pub struct Tally {
    pub given: u32,
    pub declined: u32,
    pub handed_back: u32,
    pub open: u32,
    ghost given_few: { given ≤ 999999 },
    ghost declined_few: { declined ≤ 999999 },
    ghost handed_back_few: { handed_back ≤ 999999 },
    ghost open_few: { «open» ≤ 256 },
}

// The five figures of a line.
#[derive(Clone, Copy, Default)]
struct Row {
    given: u32,
    declined: u32,
    handed_back: u32,
    open: u32,
    units: u32,
}
