// The labels of the gates, taken in order: a gate gives back its own label, and then its two places get theirs.
ghost use Rattle.std.specs.Prelude.{◌≡◌, ◌+◌, ◌≤◌, ◌<◌, length, get_or, set};
ghost use Rattle.terms.specs.Terms.{first_label};
ghost use Rattle.terms.specs.Laid.{true_places_of, false_places_of, owns_of, on_trues_of, on_falses_of};
ghost use Rattle.weaving.specs.Code.Laid.{SameLiterals, SamePlaces};
ghost use Rattle.weaving.specs.Code.Kept.{numbers_of, SomeFree, HasOne, Handed, GaveBack};
ghost use Rattle.weaving.specs.Code.Labelled.{Labelled, Labelling, Stepped, Steppable};

use crate::label_store::Store;
use terms::{Ends, FIRST_LABEL, Label, LaidGate, Place};

// The labels in use: the store of the free ones, and which of them each place holds.
#[derive(Drop)]
struct Keeper {
    store: Store,
    held: [Option<Label>; 1026],
}

impl Keeper {
    // The label that a place holds.
    fn label_of(&self, place: Place) -> Label
        requires { 1 ≤ get_or (numbers_of self.now.held) place.0 0 }
        ensures { result.0 + 1 ≡ get_or (numbers_of self.now.held) place.0 0 }
    {
        self.held[usize::from(place)].unwrap()
    }

    // A place that has no label gets the lowest free one.
    fn hold(&mut self, place: Place)
        requires place_in_bounds { place.0 < 1026 }
        requires some_free { SomeFree self.old.store }
        ensures { Handed self.old.store (numbers_of self.old.held) self.new.store (numbers_of self.new.held) place.0 }
    {
        let at = usize::from(place);
        if self.held[at].is_none() {
            let label = self.store.lowest_free();
            self.held[at] = Some(label);
            self.store = self.store.take(label);
        }
    }

    // The label that gate k is entered on, which a gate after the first gives back.
    fn leave(&mut self, k: Place) -> Label
        requires { 0 < k.0 → HasOne (numbers_of self.old.held) k.0 }
        ensures first { k.0 ≡ 0 → result.0 ≡ first_label }
        ensures later { 0 < k.0 → result.0 + 1 ≡ get_or (numbers_of self.old.held) k.0 0 }
        ensures gave_back { GaveBack self.old.store (numbers_of self.old.held) self.new.store (numbers_of self.new.held) k.0 }
    {
        if k.0 == 0 {
            return Label(FIRST_LABEL);
        }
        let own = self.held[usize::from(k)].take().unwrap();
        self.store = self.store.give_back(own);
        own
    }

    // The labels that two places hold.
    fn ends(&self, t: Place, f: Place) -> Ends
        requires { (1 ≤ get_or (numbers_of self.now.held) t.0 0) × (1 ≤ get_or (numbers_of self.now.held) f.0 0) }
        ensures on_true_value { result.on_true.0 + 1 ≡ get_or (numbers_of self.now.held) t.0 0 }
        ensures on_false_value { result.on_false.0 + 1 ≡ get_or (numbers_of self.now.held) f.0 0 }
    {
        Ends {
            on_true: self.label_of(t),
            on_false: self.label_of(f),
        }
    }

    // Gate k with its two places: the label that it is entered on, and the labels of its places after it.
    fn step(&mut self, k: Place, gates: &mut [LaidGate])
        requires { Steppable self.old.store (numbers_of self.old.held) k.0 (get_or (true_places_of gates.old) k.0 0) (get_or (false_places_of gates.old) k.0 0) (owns_of gates.old) (on_trues_of gates.old) (on_falses_of gates.old) }
        ensures stepped { Stepped self.old.store (numbers_of self.old.held) k.0 (get_or (true_places_of gates.old) k.0 0) (get_or (false_places_of gates.old) k.0 0) self.new.store (numbers_of self.new.held) (owns_of gates.old) (on_trues_of gates.old) (on_falses_of gates.old) (owns_of gates.new) (on_trues_of gates.new) (on_falses_of gates.new) }
        ensures literals_kept { SameLiterals gates.old gates.new }
        ensures places_kept { SamePlaces gates.old gates.new }
    {
        let at = usize::from(k);
        let gate = gates[at];
        let own = self.leave(k);
        self.hold(gate.true_place);
        self.hold(gate.false_place);
        let Ends { on_true, on_false } = self.ends(gate.true_place, gate.false_place);
        gates[at] = LaidGate {
            own,
            on_true,
            on_false,
            ..gate
        };
    }
}

// Labels the gates by their places, and answers the labels of True and False.
// Not inlined: the labels held would lie on the stack all the while that turning is at its deepest.
#[inline(never)]
pub fn label(gates: &mut [LaidGate]) -> Ends
    requires { Labelling (true_places_of gates.old) (false_places_of gates.old) (length gates.old) (owns_of gates.old) (on_trues_of gates.old) (on_falses_of gates.old) }
    ensures labelled { Labelled (true_places_of gates.old) (false_places_of gates.old) (length gates.old) (owns_of gates.old) (on_trues_of gates.old) (on_falses_of gates.old) (owns_of gates.new) (on_trues_of gates.new) (on_falses_of gates.new) result }
    ensures literals_kept { SameLiterals gates.old gates.new }
    ensures places_kept { SamePlaces gates.old gates.new }
{
    // at most 1,024 gates, so the cast loses nothing
    let n = gates.len() as u16;
    let mut keeper = Keeper {
        store: Store::all_free(),
        held: [None; 1026],
    };
    // by number, since `Stepped` is of the rows of all gates, so that `step` takes them all and the number of one
    for k in 0..n {
        keeper.step(Place(k), gates);
    }
    keeper.ends(Place(n), Place(n + 1))
}
