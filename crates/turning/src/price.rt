// Price tags: the tag of an operator over its children's, and the row of a tag's costs, largest first, compared place by place.
ghost use Rattle.std.specs.Prelude.{◌≡◌, Bool, cond};
ghost use Rattle.turning.specs.Tags.{leaf, priced, row, smaller, greatest};
ghost use Rattle.turning.specs.Code.Coded.{with_costs, meant, joining, Small};

// A mark and three costs.
#[derive(Clone, Copy)]
pub struct Tag {
    pub mark: bool,
    pub costs: [u16; 3],
}

// The one cost or the other.
fn either(test: bool, a: u16, b: u16) -> u16
    ensures { result ≡ cond test a b }
{
    if test { a } else { b }
}

pub fn leaf() -> Tag
    ensures { meant result ≡ leaf }
{
    Tag {
        mark: true,
        costs: [1, 0, 2],
    }
}

// The tag of an intersection or a union over children with the tags l and r. That costs leave room for one more is asked and not
// kept in the type: it is the number of literals that says so, which a tag does not know.
pub fn price(intersection: bool, l: Tag, r: Tag) -> Tag
    requires { Small (meant r) }
    ensures { meant result ≡ priced (joining intersection) (meant l) (meant r) }
{
    let a = l.costs;
    let b = r.costs;
    let left = l.mark == intersection;
    let right = r.mark == intersection;
    let c1 = either(left, a[0], a[0].max(a[1]));
    let own = a[2].max(b[0] + 1);
    let c2 = own.max(either(left, a[1], 0).max(either(right, b[1], 0)));
    let c3 = either(right, b[2], b[2].max(b[1] + 1));
    Tag {
        mark: intersection,
        costs: [c1, c2, c3],
    }
}

// The costs in order, largest first. A sort would promise some order of them, of which it would still be to show that it is this.
pub fn row(costs: [u16; 3]) -> [u16; 3]
    ensures { (m : Bool) → result ≡ row (with_costs m costs) }
{
    let high = costs[1].max(costs[2]);
    let low = costs[1].min(costs[2]);
    let first = costs[0];
    [first.max(high), low.max(first.min(high)), low.min(first)]
}

// Whether the one row is smaller, compared place by place.
pub fn row_less(a: [u16; 3], b: [u16; 3]) -> bool
    ensures { result ≡ smaller a b }
{
    a < b
}

// The greatest of the three costs.
pub fn greatest(costs: [u16; 3]) -> u16
    ensures { (m : Bool) → result ≡ greatest (with_costs m costs) }
{
    costs[0].max(costs[1].max(costs[2]))
}
