// The words that every room shares: a gate's place, a label and a primitive, which are three counters kept apart,
// the refusal that every entry point may answer, a gate on its way into a table, and the limits.

#![tactic(auto)]

ghost use Rattle.std.specs.Prelude.{◌≡◌};
ghost use Rattle.terms.specs.Refusals.{number_of};

// The number of a primitive.
#[derive(Clone, Copy, Default)]
pub struct Primitive(pub u16);

// A place that a gate leads to: another gate's number, or one of the two ends beyond the last gate.
#[derive(Clone, Copy, Default)]
pub struct Place(pub u16);

impl From<Place> for usize {
    ghost from_gives = { λ place r. r ≡ place.0 };

    fn from(place: Place) -> usize {
        usize::from(place.0)
    }
}

// A label that a place holds.
#[derive(Clone, Copy, Default, PartialEq, Eq)]
pub struct Label(pub u8);

// Why a text, a buffer, a table or a step is refused.
#[derive(Clone, Copy)]
pub enum Reason {
    TooLong,
    NotAllowed,
    BadNumber,
    TooDeep,
    NotASum,
    TooMany,
    TooManyLabels,
    TooLittleRoom,
    NotWellFormed,
    NotAtEnd,
    PastGates,
    NeitherEnd,
}

// The number that a reason has for its users.
impl From<Reason> for u8 {
    ghost from_gives = { λ reason r. r ≡ number_of reason };

    fn from(reason: Reason) -> u8 {
        match reason {
            Reason::TooLong => 1,
            Reason::NotAllowed => 2,
            Reason::BadNumber => 3,
            Reason::TooDeep => 4,
            Reason::NotASum => 5,
            Reason::TooMany => 6,
            Reason::TooManyLabels => 7,
            Reason::TooLittleRoom => 8,
            Reason::NotWellFormed => 9,
            Reason::NotAtEnd => 10,
            Reason::PastGates => 11,
            Reason::NeitherEnd => 12,
        }
    }
}

// One refusal with its place.
#[derive(Clone, Copy)]
pub struct Refusal {
    pub reason: Reason,
    pub at: usize,
}

// A gate on its way into a table: what its literal carries, the places that it leads to, and the labels that it is entered and
// left on. Sense 0 is a complemented gate's, any other a plain one's; it is a byte, since `write` takes any.
#[derive(Clone, Copy, Default)]
pub struct LaidGate {
    pub primitive: Primitive,
    pub true_place: Place,
    pub false_place: Place,
    pub sense: u8,
    pub own: Label,
    pub on_true: Label,
    pub on_false: Label,
}

// The labels of True and False.
#[derive(Clone, Copy)]
pub struct Ends {
    pub on_true: Label,
    pub on_false: Label,
}

// The limits and the first label, once for all rooms, as the definitions have them.
pub const FIRST_LABEL: u8 = 0;

pub const LONGEST_TEXT: usize = 16384;

pub const MOST_DIGITS: usize = 4;

pub const GREATEST_PRIMITIVE: u16 = 1023;

pub const DEEPEST: i64 = 64;

pub const MOST_LITERALS: u16 = 1024;

pub const LEAST_LABELS: u8 = 2;

pub const MOST_LABELS: u8 = 15;
