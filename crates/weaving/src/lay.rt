// The gates of a held expression as its marks arrange it, written out with their places. No recursion: the slots are taken from the
// root down, so that an operator comes before its operands and has handed them their first gate and their places. No two of the
// operands that wait share a gate, so where one leads as a whole stands at its first gate.
ghost use Rattle.std.specs.Prelude.{◌≡◌, suc, ◌+◌, ◌*◌, ◌/◌, ◌≤◌, ◌<◌, length};
ghost use Rattle.terms.specs.Terms.{most_literals};
ghost use Rattle.terms.specs.Laid.{primitives_of, senses_of, true_places_of, false_places_of};
ghost use Rattle.formula.specs.Code.Held.{kinds_of, spans_of};
ghost use Rattle.weaving.specs.Code.Laid.{places_of, laying_of, SameLiterals, SamePlaces, SameLabels, GateLaid, HandedTo, HandedDown, slot_laid, in_order_of, Pending, Operating, Layable, LaidOut};

use formula::{Kind, Node, Slot};
use terms::{LaidGate, Place, Primitive};

// The slots of an operator's operands, in the order of the gates.
#[derive(Clone, Copy)]
pub struct Operands {
    pub first: usize,
    pub second: usize,
}

fn in_order(mark: u8, left: usize, right: usize) -> Operands
    ensures { result ≡ in_order_of mark left right }
{
    let (first, second) = match mark {
        1 => (right, left),
        _ => (left, right),
    };
    Operands { first, second }
}

// The place after the gates of a subtree of so many slots that starts at b: of every two slots but one, one is a literal's.
fn after(b: Place, span: u16) -> Place
    requires { b.0 + (span + 1) / 2 ≤ most_literals }
    ensures { result.0 ≡ b.0 + (span + 1) / 2 }
{
    Place(b.0 + span.div_ceil(2))
}

// One gate: what its literal carries. Its two places stand there already, as they were handed down.
fn lay_gate(b: Place, primitive: Primitive, sense: bool, gates: &mut [LaidGate])
    requires { b.0 < length gates.old }
    ensures laid { GateLaid b.0 primitive.0 sense (primitives_of gates.old) (senses_of gates.old) (primitives_of gates.new) (senses_of gates.new) }
    ensures places_kept { SamePlaces gates.old gates.new }
    ensures labels_kept { SameLabels gates.old gates.new }
{
    let gate = &mut gates[usize::from(b)];
    gate.primitive = primitive;
    gate.sense = u8::from(sense);
}

// Hands the operand in the slot `at` its first gate b, and writes there where it leads as a whole, if true and if false.
fn hand(at: usize, b: Place, t: Place, f: Place, firsts: &mut [Place; 2047], gates: &mut [LaidGate])
    requires at_bound { at < 2047 }
    requires b_in_bounds { b.0 < length gates.old }
    ensures handed { HandedTo at b.0 t.0 f.0 (places_of firsts.old) (true_places_of gates.old) (false_places_of gates.old) (places_of firsts.new) (true_places_of gates.new) (false_places_of gates.new) }
    ensures literals_kept { SameLiterals gates.old gates.new }
    ensures labels_kept { SameLabels gates.old gates.new }
{
    firsts[at] = b;
    let gate = &mut gates[usize::from(b)];
    gate.true_place = t;
    gate.false_place = f;
}

// What gates carry besides stays as it was, here as above and in `label`: it is said of before and after, which no invariant of a
// type can say.
// An operator whose first gate is b reads there where it leads as a whole, and hands both operands their part. The first one's
// gates come first, so that b is handed on to it.
fn lay_operator(
    kind: Kind,
    operands: Operands,
    slots: &[Slot; 2047],
    b: Place,
    firsts: &mut [Place; 2047],
    gates: &mut [LaidGate],
)
    requires operating { Operating operands (spans_of slots.now) b.0 (length gates.old) }
    requires few { length gates.old ≤ most_literals }
    ensures handed { HandedDown kind operands (spans_of slots.now) b.0 (places_of firsts.old) (true_places_of gates.old) (false_places_of gates.old) (places_of firsts.new) (true_places_of gates.new) (false_places_of gates.new) }
    ensures literals_kept { SameLiterals gates.old gates.new }
    ensures labels_kept { SameLabels gates.old gates.new }
{
    let LaidGate {
        true_place: t,
        false_place: f,
        ..
    } = gates[usize::from(b)];
    let Operands { first, second } = operands;
    let next = after(b, slots[first].span);
    hand(second, next, t, f, firsts, gates);
    let (on_true, on_false) = match kind {
        Kind::Union => (t, next),
        Kind::Intersection => (next, f),
        Kind::Literal { .. } => (t, f),
    };
    hand(first, b, on_true, on_false, firsts, gates);
}

// The slot i: a literal is a gate, with the places that it was handed, and an operator hands down.
// The four lists go one by one: a method of a struct of them would have to promise besides that they are the ones it was given.
fn lay_slot(
    slots: &[Slot; 2047],
    marks: &[u8; 2047],
    i: usize,
    firsts: &mut [Place; 2047],
    gates: &mut [LaidGate],
)
    requires pending { Pending (kinds_of slots.now) (spans_of slots.now) (places_of firsts.old) (length gates.old) (suc i) }
    requires few { length gates.old ≤ most_literals }
    ensures laid { laying_of firsts.new gates.new ≡ slot_laid (kinds_of slots.now) (spans_of slots.now) marks.now i (laying_of firsts.old gates.old) }
    ensures labels_kept { SameLabels gates.old gates.new }
{
    let Node { kind, left, right } = formula::node_at(slots, i);
    let b = firsts[i];
    match kind {
        Kind::Literal { primitive, sense } => lay_gate(b, primitive, sense, gates),
        kind => {
            let operands = in_order(marks[i], left, right);
            lay_operator(kind, operands, slots, b, firsts, gates);
        }
    }
}

// Lays out the gates of the held expression, one a literal: what each literal carries, and its true and false place.
// Not inlined: the list of first gates would lie on the stack all the while that turning is at its deepest.
#[inline(never)]
pub fn lay(slots: &[Slot; 2047], marks: &[u8; 2047], gates: &mut [LaidGate])
    requires { Layable (kinds_of slots.now) (spans_of slots.now) marks.now (length gates.old) }
    ensures laid { LaidOut (kinds_of slots.now) (spans_of slots.now) marks.now (length gates.old) (primitives_of gates.old) (senses_of gates.old) (true_places_of gates.old) (false_places_of gates.old) (primitives_of gates.new) (senses_of gates.new) (true_places_of gates.new) (false_places_of gates.new) }
    ensures labels_kept { SameLabels gates.old gates.new }
{
    // at most 1,024 gates, so the cast loses nothing; the first gates of the slots are kept here alone: in the slots
    // they would take 4,094 bytes of the stack for as long as a compilation runs
    let n = gates.len() as u16;
    let root = 2 * gates.len() - 2;
    let mut firsts = [Place(0); 2047];
    hand(root, Place(0), Place(n), Place(n + 1), &mut firsts, gates);
    for i in (0..=root).rev() {
        lay_slot(slots, marks, i, &mut firsts, gates);
    }
}
