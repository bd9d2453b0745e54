// The expression: as typed, in positive form, and as its marks arrange it; its truth; and how it stands in lent slots.
// A node stands behind its left and its right operand; its slot has a number for its kind, and how many slots its subtree takes.

#![tactic(auto)]

ghost use Rattle.std.specs.Prelude.{◌≡◌, true, false, ℕ, ◌+◌, ◌-◌, ◌*◌, ◌≤◌, ◌<◌, length, get_or, set};
ghost use Rattle.terms.specs.Terms.{greatest_primitive};
ghost use Rattle.formula.specs.Code.Held.{kinds_of, spans_of, node_kind, node_at, is_leaf, literal_number, join_number};

use terms::Primitive;

// What a node is.
#[derive(Clone, Copy)]
pub enum Kind {
    Union,
    Intersection,
    Literal { primitive: Primitive, sense: bool },
}

// A node in two numbers: its kind's, and that of the slots of its subtree. Slots and no boxes, since there is no heap. An enum in
// place of the kind's number would take 4,094 bytes more of the stack of a compilation.
#[derive(Clone, Copy, Default)]
pub struct Slot {
    pub kind: u16,
    pub span: u16,
}

// A node with the slots of its operands; a literal has none, and the slots mean nothing.
#[derive(Clone, Copy)]
pub struct Node {
    pub kind: Kind,
    pub left: usize,
    pub right: usize,
}

// The kind that a number stands for: union, intersection, or one of the two senses of a primitive.
impl From<u16> for Kind {
    ghost from_gives = { λ number r. r ≡ node_kind number };

    fn from(number: u16) -> Kind {
        match number {
            0 => Kind::Union,
            1 => Kind::Intersection,
            _ => Kind::Literal {
                primitive: Primitive((number - 2) / 2),
                sense: number % 2 == 1,
            },
        }
    }
}

pub fn is_literal(kind: Kind) -> bool
    ensures { result ≡ is_leaf kind }
{
    matches!(kind, Kind::Literal { .. })
}

// The number that stands for a literal, and for an operator. No `From`: a literal's takes no primitive past the greatest, and
// an operator's is told by this name from any other truth.
pub fn literal_number(primitive: Primitive, sense: bool) -> u16
    requires { primitive.0 ≤ greatest_primitive }
    ensures { result ≡ literal_number primitive.0 sense }
{
    2 * primitive.0 + 2 + u16::from(sense)
}

pub fn join_number(intersection: bool) -> u16
    ensures { result ≡ join_number intersection }
{
    u16::from(intersection)
}

// The node in the slot i: its right operand stands directly before it, and its left operand before that one's subtree.
pub fn node_at(slots: &[Slot], i: usize) -> Node
    requires { i < length slots.now }
    ensures { result ≡ node_at (kinds_of slots.now) (spans_of slots.now) i }
{
    let right = i.saturating_sub(1);
    let left = right.saturating_sub(usize::from(slots[right].span));
    Node {
        kind: Kind::from(slots[i].kind),
        left,
        right,
    }
}

// A node in the slot i.
pub fn put(slots: &mut [Slot], i: usize, kind: u16, span: u16)
    requires { i < length slots.old }
    ensures kinds_after { kinds_of slots.new ≡ set (kinds_of slots.old) i kind }
    ensures spans_after { spans_of slots.new ≡ set (spans_of slots.old) i span }
{
    slots[i] = Slot { kind, span };
}
