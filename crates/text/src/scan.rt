// Flat passes over a text, each from the first byte on with nothing built: a byte not allowed, a run of digits that is no number,
// parentheses too deep, the first number beyond the most literals, and whether the text is a sum by the grammar. Two of them find
// where runs of digits start, by the byte before a digit; `bad_run` then looks over the run from there, at five bytes at most.
ghost use Rattle.std.specs.Prelude.{◌≡◌, ◌+◌, ◌<◌, length};
ghost use Rattle.std.specs.Int.{w64};
ghost use Rattle.std.proofs.Common.{Fits};
ghost use Rattle.grammar.specs.Twins.Places.{run_starts, leading_digits, too_large, foreign_byte, bad_run_at, bad_run, too_deep, surplus};
ghost use Rattle.grammar.specs.Twins.Reader.{read};
ghost use Rattle.text.specs.Code.Flat.{flat_wanted, flat_complete, flat_step, flat_end, verdict};
ghost use Rattle.text.specs.Code.Found.{found_as};

use crate::Stop;
use grammar::{Sign, is_digit, is_other};
use terms::{DEEPEST, GREATEST_PRIMITIVE, MOST_DIGITS, MOST_LITERALS};

// The first byte that is not allowed.
pub fn foreign(text: &[u8]) -> Option<usize>
    ensures { found_as result ≡ foreign_byte text.now }
{
    text.iter().position(|&byte| is_other(Sign::from(byte)))
}

// Whether a run of digits starts at a place: a digit stands there, and none before it.
fn run_starts(text: &[u8], at: usize) -> bool
    requires { at < length text.now }
    ensures { result ≡ run_starts text.now at }
{
    is_digit(Sign::from(text[at])) && (at == 0 || !is_digit(Sign::from(text[at - 1])))
}

// Whether the digits that bytes begin with are too many for a number, or their value too great.
fn begins_large(bytes: &[u8]) -> bool
    ensures { result ≡ too_large (leading_digits bytes.now) }
{
    let mut value = 0;
    for (before, byte) in bytes.iter().enumerate() {
        let Sign::Digit(digit) = Sign::from(*byte) else {
            return false;
        };
        value = 10 * value + u16::from(digit);
        if MOST_DIGITS <= before || GREATEST_PRIMITIVE < value {
            return true;
        }
    }
    false
}

// Whether a run that is no number starts at a place.
fn bad_run_at(text: &[u8], at: usize) -> bool
    requires { at < length text.now }
    ensures { result ≡ bad_run_at text.now at }
{
    run_starts(text, at) && begins_large(&text[at..])
}

// The first digit of the first run that is no number.
pub fn bad_run(text: &[u8]) -> Option<usize>
    ensures { found_as result ≡ bad_run text.now }
{
    (0..text.len()).find(|&i| bad_run_at(text, i))
}

// The first `(` that takes the running count of `(` less `)`, which may fall under nought, past the deepest.
pub fn too_deep(text: &[u8]) -> Option<usize>
    ensures { found_as result ≡ too_deep text.now }
{
    let mut count: i64 = 0;
    for (i, byte) in text.iter().enumerate() {
        match Sign::from(*byte) {
            Sign::Open => {
                count += 1;
                if DEEPEST < count {
                    return Some(i);
                }
            }
            Sign::Close => count -= 1,
            _ => {}
        }
    }
    None
}

// The first digit of the first number beyond the most literals.
pub fn surplus(text: &[u8]) -> Option<usize>
    ensures { found_as result ≡ surplus text.now }
{
    (0..text.len())
        .filter(|&i| run_starts(text, i))
        .nth(usize::from(MOST_LITERALS))
}

// Where a reader stands: an operand is wanted, or it is inside a number, or an operand is complete.
#[derive(Clone, Copy)]
pub enum Mode {
    Wanted,
    Inside,
    Complete,
}

// The mode that a sign leads to where an operand is wanted, and how many parentheses are open then; or none, where no ending
// completes what has been read.
fn on_wanted(sign: Sign, depth: usize) -> Option<(Mode, usize)>
    requires { Fits w64 (depth + 1) }
    ensures { result ≡ flat_wanted sign depth }
{
    match sign {
        Sign::Digit(_) => Some((Mode::Inside, depth)),
        Sign::Bang | Sign::Blank => Some((Mode::Wanted, depth)),
        Sign::Open => Some((Mode::Wanted, depth + 1)),
        _ => None,
    }
}

// The same where an operand is complete.
fn on_complete(sign: Sign, depth: usize) -> Option<(Mode, usize)>
    ensures { result ≡ flat_complete sign depth }
{
    match sign {
        Sign::Joins(_) => Some((Mode::Wanted, depth)),
        Sign::Close if depth != 0 => Some((Mode::Complete, depth - 1)),
        Sign::Blank => Some((Mode::Complete, depth)),
        _ => None,
    }
}

// The same by the mode; a number goes on with a digit, and ends with anything else. By a mode and not by a closure each, since
// the end of the text asks the mode too.
fn flat_step(mode: Mode, sign: Sign, depth: usize) -> Option<(Mode, usize)>
    requires { Fits w64 (depth + 1) }
    ensures { result ≡ flat_step mode sign depth }
{
    match mode {
        Mode::Wanted => on_wanted(sign, depth),
        Mode::Inside if is_digit(sign) => Some((mode, depth)),
        _ => on_complete(sign, depth),
    }
}

// At the end of a text: an operand has been read, and every parenthesis is closed.
fn flat_end(mode: Mode, depth: usize, at: usize) -> Result<(), Stop>
    ensures { result ≡ flat_end mode depth at }
{
    match mode {
        Mode::Inside | Mode::Complete if depth == 0 => Ok(()),
        _ => Err(Stop(at)),
    }
}

// Whether the text is a sum by the grammar, decided as the reader does, with nothing built.
pub fn flat(text: &[u8]) -> Result<(), Stop>
    ensures { result ≡ verdict (read text.now) }
{
    let mut mode = Mode::Wanted;
    let mut depth = 0;
    for (i, byte) in text.iter().enumerate() {
        let Some((then, deeper)) = flat_step(mode, Sign::from(*byte), depth) else {
            return Err(Stop(i));
        };
        mode = then;
        depth = deeper;
    }
    flat_end(mode, depth, text.len())
}
