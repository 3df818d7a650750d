// The types of the rules' values and answers, and the numbers that have a name. The rules are the definitions in specs/.
#![tactic(auto)]

pub mod checks;
pub mod inner;
mod refusal;

pub use refusal::{Fault, NETWORK_OPENING, Opening, REQUEST_OPENING, Refusal};

// How many nodes and links a network may have, how many riders a request, and how much the bus or a rider may weigh.
pub const MOST_NODES: usize = 512;

pub const MOST_LINKS: usize = 2048;

pub const MOST_RIDERS: usize = 7;

pub const MOST_WEIGHT: usize = 100;

// What a link costs for a use that it is closed to. Costs stay numbers in the code, as the record and the rules have them (1.4).
pub const CLOSED: u64 = 65535;

// What a place of walking distances holds where there is no walk.
pub const NO_DISTANCE: u32 = 4294967295;

// What a place of the search's table holds where there is no finish (3.3). Sums of what finishes take stop there, so that the least
// is found without a test for none.
pub const NO_FINISH: u64 = 18446744073709551615;

// In a place of the table the cost counts for so much, and a step for 1.
pub const STEP_RANGE: u64 = 4096;

// The step that drives link 0; lower steps meet riders.
pub const FIRST_DRIVE: usize = 8;

// How many steps a right plan may have: each rider is met, and fewer links than nodes are driven before, between and
// after that.
pub const MOST_STEPS: usize = MOST_RIDERS + (MOST_RIDERS + 1) * (MOST_NODES - 1);

// How many links a route that is priced may have.
pub const LONGEST_ROUTE: usize = 4095;

// A host gets a refusal as this number or more.
pub const FIRST_REFUSAL: u64 = 9223372036854775808;

// What reading a network gives: its sizes, or 0 for each where the verdict is a refusal. The rules ask for both (1.8), so this is
// no `Result`; nor is what reading a request gives (1.9).
#[derive(Clone, Copy)]
pub struct NetworkRead {
    pub verdict: Result<(), Refusal>,
    pub n: usize,
    pub m: usize,
}

// A request as one value: what its record says, and zeros where it has no rider.
#[derive(Clone, Copy, Default)]
pub struct Request {
    pub source: usize,
    pub target: usize,
    pub bus_weight: u64,
    pub rider_count: usize,
    pub nodes: [usize; MOST_RIDERS],
    pub weights: [u64; MOST_RIDERS],
}

// What reading a request gives: its value, or zeros throughout where the verdict is a refusal.
#[derive(Clone, Copy)]
pub struct RequestRead {
    pub verdict: Result<(), Refusal>,
    pub request: Request,
}

// What the search finds: what the right plan costs, and how many steps it has.
#[derive(Clone, Copy, PartialEq, Eq)]
pub struct Plan {
    pub cost: u64,
    pub count: usize,
}
