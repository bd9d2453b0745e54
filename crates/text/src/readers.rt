// The readers: sum, product and factor call each other in a cycle and build the positive form as they read, an operator
// behind its left and its right operand. They stop where no ending completes what stands before.
ghost use Rattle.std.specs.Prelude.{◌≡◌, true, ◌+◌, ◌-◌, ◌*◌, ◌≤◌, ◌<◌, length, set};
ghost use Rattle.std.specs.List.{take_while};
ghost use Rattle.std.proofs.Math.Option.{none};
ghost use Rattle.formula.specs.Code.Held.{kinds_of, spans_of, join_number};
ghost use Rattle.grammar.specs.Bytes.{sign_of, is_digit};
ghost use Rattle.grammar.specs.Twins.Places.{sign_at, no_digit_before, bad_run};
ghost use Rattle.text.specs.Code.Readers.{is_blank, leads, behind, meets, binding, of_factors, most_slots, slots_of, Ready, Skipped, OperandAt, Numbered, FactorMeans, Built, FactorRead, ProductRead, SumRead, Closed, WholeRead};

use crate::Stop;
use formula::{Slot, join_number, literal_number, put};
use grammar::{OF_PRODUCTS, OF_SUMS, Operator, Sign, is_close, level};
use terms::Primitive;

// Where reading stands: the next place in the text, and the next free slot. The text and the slots stay parameters beside it: of
// a struct that lent both, each contract would have to promise that the text is kept.
#[derive(Clone, Copy)]
struct Cursor {
    at: usize,
    free: usize,
}

// Where an operand is to stand, and the sense that it is read in.
#[derive(Clone, Copy)]
struct Operand {
    at: usize,
    sense: bool,
}

// A number, and the place behind it.
#[derive(Clone, Copy)]
struct Numeral {
    value: Primitive,
    next: usize,
}

fn is_blank(sign: Sign) -> bool
    ensures { result ≡ is_blank sign }
{
    matches!(sign, Sign::Blank)
}

// Whether a sign stands before an operand: blanks and complements do.
fn leads(sign: Sign) -> bool
    ensures { result ≡ leads sign }
{
    matches!(sign, Sign::Bang | Sign::Blank)
}

// The sense of an operand behind a sign.
fn behind(sign: Sign, sense: bool) -> bool
    ensures { result ≡ behind sign sense }
{
    match sign {
        Sign::Bang | Sign::Joins(Operator::Minus) => !sense,
        _ => sense,
    }
}

// Whether a sign joins its operands by an intersection of the positive form, where it is read in a sense.
fn meets(sign: Sign, sense: bool) -> bool
    ensures { result ≡ meets sign sense }
{
    match sign {
        Sign::Joins(Operator::Plus) => !sense,
        _ => sense,
    }
}

// The level that a sign binds at; nought where it is no operator, which is less than any, as in the definition.
fn binding(sign: Sign) -> u8
    ensures { result ≡ binding sign }
{
    match sign {
        Sign::Joins(operator) => level(operator),
        _ => 0,
    }
}

// What the byte at a place stands for; nothing allowed at the end.
#[tactic(auto, using(crate::proofs::ReadSteps::beyond))]
fn look(text: &[u8], at: usize) -> Sign
    ensures { result ≡ sign_at text.now at }
{
    match text.get(at) {
        Some(byte) => Sign::from(*byte),
        None => Sign::Other,
    }
}

// How many blanks stand before anything else.
fn blanks(bytes: &[u8]) -> usize
    ensures { result ≡ length (take_while (λ b. is_blank (sign_of b)) bytes.now) }
{
    bytes
        .iter()
        .take_while(|byte| is_blank(Sign::from(**byte)))
        .count()
}

// The first place from `at` on that has no blank.
fn skip(text: &[u8], at: usize) -> usize
    requires { at ≤ length text.now }
    ensures { Skipped text.now at result }
{
    at + blanks(&text[at..])
}

// Past blanks and complements to an operand, with the sense that the complements leave it.
fn operand_at(text: &[u8], at: usize, sense: bool) -> Operand
    requires within { at ≤ length text.now }
    requires clear { no_digit_before text.now at ≡ true }
    ensures { OperandAt text.now at sense result }
{
    let mut turned = sense;
    for (i, byte) in text[at..].iter().enumerate() {
        let sign = Sign::from(*byte);
        if !leads(sign) {
            return Operand {
                at: at + i,
                sense: turned,
            };
        }
        turned = behind(sign, turned);
    }
    Operand {
        at: text.len(),
        sense: turned,
    }
}

// The number that starts at `at`.
fn number(text: &[u8], at: usize) -> Numeral
    requires digit { is_digit (sign_at text.now at) ≡ true }
    requires clear { no_digit_before text.now at ≡ true }
    requires sound { bad_run text.now ≡ none }
    ensures { Numbered text.now at result }
{
    let mut value = 0;
    for (i, byte) in text[at..].iter().enumerate() {
        let Sign::Digit(digit) = Sign::from(*byte) else {
            return Numeral {
                value: Primitive(value),
                next: at + i,
            };
        };
        value = 10 * value + u16::from(digit);
    }
    Numeral {
        value: Primitive(value),
        next: text.len(),
    }
}

// A number as an operand: its literal in the next slot, and the blanks behind it passed over.
fn literal(text: &[u8], slots: &mut [Slot], from: Cursor, sense: bool) -> Cursor
    requires digit { is_digit (sign_at text.now from.at) ≡ true }
    requires ready { Ready text.now from.at from.free (slots_of slots.old) }
    ensures { Built FactorMeans of_factors text.now from.at sense from.free (slots_of slots.old) (slots_of slots.new) result.at result.free }
{
    let read = number(text, from.at);
    put(slots, from.free, literal_number(read.value, sense), 1);
    Cursor {
        at: skip(text, read.next),
        free: from.free + 1,
    }
}

// The `)` behind what was read in parentheses, and the blanks behind it passed over.
#[tactic(auto, using(crate::proofs::ReadFactors::close_stands))]
fn closed(text: &[u8], inner: Cursor) -> Result<Cursor, Stop>
    ensures { Closed text.now inner result }
{
    if is_close(look(text, inner.at)) {
        return Ok(Cursor {
            at: skip(text, inner.at + 1),
            free: inner.free,
        });
    }
    Err(Stop(inner.at))
}

// An operator behind its right operand, where the left operand stands from the slot `start` on.
fn join(slots: &mut [Slot], start: usize, right: Cursor, intersection: bool) -> Cursor
    requires before { start ≤ right.free }
    requires below { right.free < most_slots }
    requires room { most_slots ≤ length slots.old }
    ensures cursor { result ≡ record { at = right.at; free = right.free + 1 } }
    ensures kinds_after { kinds_of slots.new ≡ set (kinds_of slots.old) right.free (join_number intersection) }
    ensures spans_after { spans_of slots.new ≡ set (spans_of slots.old) right.free (right.free + 1 - start) }
{
    // at most 2,047 slots, so the cast loses nothing
    let span = (right.free + 1 - start) as u16;
    put(slots, right.free, join_number(intersection), span);
    Cursor {
        at: right.at,
        free: right.free + 1,
    }
}

// A factor: what stands behind its complements is a number, or an expression in parentheses.
#[cycle(expression_factor_product_sum)]
fn factor(text: &[u8], slots: &mut [Slot], from: Cursor, sense: bool) -> Result<Cursor, Stop>
    requires { Ready text.now from.at from.free (slots_of slots.old) }
    ensures { FactorRead text.now from.at sense from.free (slots_of slots.old) (slots_of slots.new) result }
{
    let Operand { at, sense } = operand_at(text, from.at, sense);
    match look(text, at) {
        Sign::Digit(_) => Ok(literal(text, slots, Cursor { at, ..from }, sense)),
        Sign::Open => {
            let inner = expression(text, slots, Cursor { at: at + 1, ..from }, sense)?;
            closed(text, inner)
        }
        _ => Err(Stop(at)),
    }
}

// A product: factors joined by `*`, from the left. It and the sum stay two functions, each a sentence of the grammar: one
// over the level would take what a part means by the level in each clause.
// Inlined: every level of parentheses would take 112 bytes more of the stack.
#[cycle(expression_factor_product_sum)]
#[inline(always)]
fn product(text: &[u8], slots: &mut [Slot], from: Cursor, sense: bool) -> Result<Cursor, Stop>
    requires { Ready text.now from.at from.free (slots_of slots.old) }
    ensures { ProductRead text.now from.at sense from.free (slots_of slots.old) (slots_of slots.new) result }
{
    let mut made = factor(text, slots, from, sense)?;
    while OF_PRODUCTS <= binding(look(text, made.at)) {
        let next = Cursor {
            at: made.at + 1,
            ..made
        };
        let right = factor(text, slots, next, sense)?;
        made = join(slots, from.free, right, sense);
    }
    Ok(made)
}

// A sum: products joined by `+` or `-`, from the left.
#[cycle(expression_factor_product_sum)]
fn sum(text: &[u8], slots: &mut [Slot], from: Cursor, sense: bool) -> Result<Cursor, Stop>
    requires { Ready text.now from.at from.free (slots_of slots.old) }
    ensures { SumRead text.now from.at sense from.free (slots_of slots.old) (slots_of slots.new) result }
{
    let mut made = product(text, slots, from, sense)?;
    loop {
        let sign = look(text, made.at);
        if binding(sign) < OF_SUMS {
            return Ok(made);
        }
        let next = Cursor {
            at: made.at + 1,
            ..made
        };
        let right = product(text, slots, next, behind(sign, sense))?;
        made = join(slots, from.free, right, meets(sign, sense));
    }
}

// What a whole text is, and what stands in parentheses: a sum. One name for both, so that a level above sums has one place.
// Inlined, so that no parenthesis takes a frame more of the stack for it.
#[cycle(expression_factor_product_sum)]
#[inline(always)]
fn expression(text: &[u8], slots: &mut [Slot], from: Cursor, sense: bool) -> Result<Cursor, Stop>
    requires { Ready text.now from.at from.free (slots_of slots.old) }
    ensures { SumRead text.now from.at sense from.free (slots_of slots.old) (slots_of slots.new) result }
{
    sum(text, slots, from, sense)
}

// How many slots the expression takes that a whole text is; or where reading it stops.
pub fn whole(text: &[u8], slots: &mut [Slot]) -> Result<usize, Stop>
    requires { Ready text.now 0 0 (slots_of slots.old) }
    ensures { WholeRead text.now (slots_of slots.new) result }
{
    let end = expression(text, slots, Cursor { at: 0, free: 0 }, true)?;
    if end.at < text.len() {
        return Err(Stop(end.at));
    }
    Ok(end.free)
}
