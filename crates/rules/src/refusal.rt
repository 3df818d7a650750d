// Why an input is refused.
ghost use Rattle.std.specs.Prelude.{◌≡◌};
ghost use Rattle.rules.specs.Checks.{number_of, refuse};

// What can be wrong; each fault is told by its number (4.2 to 4.7, 4.12).
#[derive(Clone, Copy, PartialEq, Eq)]
pub enum Fault {
    // the network record
    NetworkShort = 1,
    NetworkVersion = 2,
    NetworkLength = 3,
    NetworkLimits = 4,
    NetworkParts = 5,
    LinkNode = 6,
    // the request record
    RequestShort = 11,
    RequestVersion = 12,
    RequestLength = 13,
    ManyRiders = 14,
    RequestParts = 15,
    RequestNode = 16,
    RequestWeight = 17,
    // the search
    DistancesRoom = 21,
    TableRoom = 22,
    StepsRoom = 23,
    NoRoute = 24,
    // pricing
    MeetingRoom = 31,
    LongRoute = 32,
    UnknownLink = 33,
    ClosedLink = 34,
    LinkStart = 35,
    RouteEnd = 36,
    NoWalk = 37,
    OddRoute = 38,
    // walking
    WalkStart = 41,
    WalkRoom = 42,
    // writing a record
    GivenNumber = 81,
    GivenNode = 82,
    RecordRoom = 83,
}

impl Fault {
    // The number that tells it.
    pub fn number(self) -> u16
        ensures { result ≡ number_of self }
    {
        self as u16
    }

    // The refusal for it, at a place.
    pub fn at(self, place: usize) -> Refusal
        ensures { result ≡ refuse self place }
    {
        Refusal { fault: self, place }
    }
}

// A refusal: what is wrong, and the place it names (0 where it names none).
#[derive(Clone, Copy, PartialEq, Eq)]
pub struct Refusal {
    pub fault: Fault,
    pub place: usize,
}

// How a record opens: its latest version, how many bytes its length has, and what refuses it if it is too short, of another
// version, or not as long as it states (4.2, 4.3).
#[derive(Clone, Copy)]
pub struct Opening {
    pub latest: usize,
    pub size: usize,
    pub short: Fault,
    pub version: Fault,
    pub length: Fault,
}

pub const NETWORK_OPENING: Opening = Opening {
    latest: 1,
    size: 4,
    short: Fault::NetworkShort,
    version: Fault::NetworkVersion,
    length: Fault::NetworkLength,
};

pub const REQUEST_OPENING: Opening = Opening {
    latest: 1,
    size: 2,
    short: Fault::RequestShort,
    version: Fault::RequestVersion,
    length: Fault::RequestLength,
};
