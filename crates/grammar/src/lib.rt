// What a byte of a text stands for, the tests on it, and how close an operator binds. The rest of the room is definitions and
// laws: what a text means, and the rows of refusals 1 to 6.

#![tactic(auto)]

ghost use Rattle.std.specs.Prelude.{◌≡◌};
ghost use Rattle.grammar.specs.Bytes.{sign_of, is_other, is_digit};
ghost use Rattle.grammar.specs.Twins.Places.{is_open, is_close};
ghost use Rattle.grammar.specs.Twins.Reader.{level};

// What joins two operands.
#[derive(Clone, Copy)]
pub enum Operator {
    Plus,
    Times,
    Minus,
}

// What a byte of a text stands for.
#[derive(Clone, Copy)]
pub enum Sign {
    Digit(u8),
    Joins(Operator),
    Bang,
    Open,
    Close,
    Blank,
    Other,
}

impl From<u8> for Sign {
    ghost from_gives = { λ byte r. r ≡ sign_of byte };

    #[tactic(auto, unfolding(crate::specs::Bytes::sign_of))]
    fn from(byte: u8) -> Sign {
        match byte {
            b'0'..=b'9' => Sign::Digit(byte - b'0'),
            b'+' => Sign::Joins(Operator::Plus),
            b'*' => Sign::Joins(Operator::Times),
            b'-' => Sign::Joins(Operator::Minus),
            b'!' => Sign::Bang,
            b'(' => Sign::Open,
            b')' => Sign::Close,
            b' ' | b'\n' => Sign::Blank,
            _ => Sign::Other,
        }
    }
}

// The tests of a sign, one line each. Not one test, here and in text: a sign to compare with would tell a digit from another too.
pub fn is_other(sign: Sign) -> bool
    ensures { result ≡ is_other sign }
{
    matches!(sign, Sign::Other)
}

pub fn is_digit(sign: Sign) -> bool
    ensures { result ≡ is_digit sign }
{
    matches!(sign, Sign::Digit(_))
}

pub fn is_open(sign: Sign) -> bool
    ensures { result ≡ is_open sign }
{
    matches!(sign, Sign::Open)
}

pub fn is_close(sign: Sign) -> bool
    ensures { result ≡ is_close sign }
{
    matches!(sign, Sign::Close)
}

// How close an operator binds: one that joins products into a sum, and one that joins factors into a product. Numbers, since they
// are compared.
pub const OF_SUMS: u8 = 1;

pub const OF_PRODUCTS: u8 = 2;

// The level that an operator binds at.
pub fn level(operator: Operator) -> u8
    ensures { result ≡ level operator }
{
    match operator {
        Operator::Plus => OF_SUMS,
        Operator::Times => OF_PRODUCTS,
        Operator::Minus => OF_SUMS,
    }
}
