// The store of labels as one word, a bit a label: set where it is free, clear where a place holds it. It promises the lowest free label.
ghost use Rattle.std.specs.Prelude.{◌≡◌, true, false, ◌^◌, ◌<◌};
ghost use Rattle.terms.specs.First.{First};
ghost use Rattle.weaving.specs.Code.Kept.{label_room, Free, SomeFree, Emptied, Changed};

use terms::Label;

#[derive(Clone, Copy)]
pub struct Store {
    pub free: u16,
}

// The word in which the bit of a label is set, and no other.
// A bound of its own a label cannot have: one of a table from elsewhere may be any byte.
fn bit_of(label: Label) -> u16
    requires { label.0 < label_room }
    ensures { result ≡ 2 ^ label.0 }
{
    1 << label.0
}

impl Store {
    // A store whose labels are all free.
    pub fn all_free() -> Store
        ensures { Emptied result }
    {
        Store { free: u16::MAX }
    }

    // The lowest free label: so many bits are clear below the lowest that is set.
    pub fn lowest_free(self) -> Label
        requires { SomeFree self }
        ensures { First (Free self) result.0 }
    {
        // sixteen bits, so the cast loses nothing
        Label(self.free.trailing_zeros() as u8)
    }

    // The store with the label taken.
    pub fn take(self, label: Label) -> Store
        requires { label.0 < label_room }
        ensures { Changed self result label.0 false }
    {
        Store {
            free: self.free & !bit_of(label),
        }
    }

    // The store with the label free again.
    pub fn give_back(self, label: Label) -> Store
        requires { label.0 < label_room }
        ensures { Changed self result label.0 true }
    {
        Store {
            free: self.free | bit_of(label),
        }
    }
}
