// Turning: each operator is priced in both orders, its children first, and keeps the smaller row; and the price of the
// arrangement that marks make.
ghost use Rattle.std.specs.Prelude.{◌≡◌, cond, ◌<◌, eqb, length, set};
ghost use Rattle.formula.specs.Code.Held.{kinds_of, spans_of};
ghost use Rattle.formula.specs.Code.Marked.{mark_byte};
ghost use Rattle.turning.specs.Tags.{priced};
ghost use Rattle.turning.specs.Code.Coded.{meant, joining, intersecting, Small, SettledAs, Site, Turned, MarkedSite, PricedBy};

use crate::price;
use crate::price::Tag;
use formula::{Kind, Node, Slot};

// The tag that is kept, and whether it is that of the exchanged order.
#[derive(Clone, Copy)]
pub struct Settled {
    pub tag: Tag,
    pub exchanged: bool,
}

// Whether a node is an intersection.
fn is_intersection(kind: Kind) -> bool
    ensures { result ≡ intersecting kind }
{
    matches!(kind, Kind::Intersection)
}

// Prices an operator over settled children as it stands and exchanged, and keeps the exchanged order if its row is smaller.
// Not inlined: every level of `turn` would take sixteen bytes more of the stack.
#[inline(never)]
pub fn settle(intersection: bool, l: Tag, r: Tag) -> Settled
    requires small { Small (meant l) }
    requires small_2 { Small (meant r) }
    ensures { SettledAs (joining intersection) (meant l) (meant r) result }
{
    let typed = price::price(intersection, l, r);
    let turned = price::price(intersection, r, l);
    if price::row_less(price::row(turned.costs), price::row(typed.costs)) {
        Settled {
            tag: turned,
            exchanged: true,
        }
    } else {
        Settled {
            tag: typed,
            exchanged: false,
        }
    }
}

// Puts the mark of the slot i beside it.
fn put_mark(marks: &mut [u8], i: usize, exchanged: bool)
    requires { i < length marks.old }
    ensures { marks.new ≡ set marks.old i (mark_byte exchanged) }
{
    marks[i] = u8::from(exchanged);
}

// Turns the expression held up to the slot i: settles both children and then the operator, and puts its mark beside it. The
// kind is looked up again behind the children, so that no level keeps it across them.
pub fn turn(slots: &[Slot; 2047], marks: &mut [u8; 2047], i: usize) -> Tag
    requires { Site (kinds_of slots.now) (spans_of slots.now) i }
    ensures { Turned (kinds_of slots.now) (spans_of slots.now) marks.old marks.new i (meant result) }
{
    let Node { kind, left, right } = formula::node_at(slots, i);
    if formula::is_literal(kind) {
        return price::leaf();
    }
    let l = turn(slots, marks, left);
    let r = turn(slots, marks, right);
    let to_settle = formula::node_at(slots, i).kind;
    let settled = settle(is_intersection(to_settle), l, r);
    put_mark(marks, i, settled.exchanged);
    settled.tag
}

// The tag of an operator over its children as its mark places them.
fn price_placed(mark: u8, intersection: bool, l: Tag, r: Tag) -> Tag
    requires small { Small (meant l) }
    requires small_2 { Small (meant r) }
    ensures { meant result ≡ cond (eqb mark 1) (priced (joining intersection) (meant r) (meant l)) (priced (joining intersection) (meant l) (meant r)) }
{
    if mark == 1 {
        return price::price(intersection, r, l);
    }
    price::price(intersection, l, r)
}

// The tag of the expression held up to the slot i, arranged by the marks beside it. The kind is looked up again, as in `turn`. The
// two stay apart: the one writes marks and the other reads them, and one walk with a closure for that would be no plainer.
pub fn price_by(slots: &[Slot; 2047], marks: &[u8; 2047], i: usize) -> Tag
    requires { MarkedSite (kinds_of slots.now) (spans_of slots.now) marks.now i }
    ensures { PricedBy (kinds_of slots.now) (spans_of slots.now) marks.now i (meant result) }
{
    let Node { kind, left, right } = formula::node_at(slots, i);
    if formula::is_literal(kind) {
        return price::leaf();
    }
    let l = price_by(slots, marks, left);
    let r = price_by(slots, marks, right);
    let to_price = formula::node_at(slots, i).kind;
    price_placed(marks[i], is_intersection(to_price), l, r)
}
