// The listing: the lines of a table or of a refusal, written into a lent buffer.

#![tactic(auto)]

ghost use Rattle.std.specs.Prelude.{◌≡◌, [], ◌∷◌, ◌++◌, ◌+◌, ◌≤◌, ◌<◌, length};
ghost use Rattle.terms.specs.Terms.{most_literals};
ghost use Rattle.terms.specs.Texts.{bytes};
ghost use Rattle.table.specs.Shown.{shown_gate};
ghost use Rattle.listing.specs.Lines.{sign, three_labels, gate_line, pair_line, ends_line, lines, refusal_line};
ghost use Rattle.listing.specs.Code.Written.{Written, WrittenWithin, Printed, Listable};

use itoa::{Buffer, Integer};
use table::Gate;
use terms::{Label, Place};

// A lent buffer, and where its next byte goes. Not a slice of what is left: the clauses name the whole buffer, before and after.
#[derive(Drop)]
struct Page<'a> {
    out: &'a mut [u8; 32768],
    at: usize,
}

impl<'a> Page<'a> {
    // Nothing is written on it.
    fn new(out: &'a mut [u8; 32768]) -> Page<'a>
        ensures same_buffer { result.out.ghost_name ≡ out.entry.ghost_name }
        ensures buffer { result.out.now ≡ out.old }
        ensures start { result.at ≡ 0 }
    {
        Page { out, at: 0 }
    }

    fn word(&mut self, word: &[u8])
        requires { self.old.at + length word.now ≤ 32768 }
        ensures { Written self.old self.new word.now }
    {
        let out = &mut *self.out;
        let end = self.at + word.len();
        out[self.at..end].copy_from_slice(word);
        self.at = end;
    }

    // A number's decimal digits.
    fn number<I: Integer>(&mut self, n: I)
        requires { self.old.at + I.MAX_STR_LEN ≤ 32768 }
        ensures { WrittenWithin I.MAX_STR_LEN self.old self.new (I.text n) }
    {
        let mut buffer = Buffer::new();
        self.word(buffer.format(n).as_bytes());
    }

    // A space, and a number.
    fn spaced<I: Integer>(&mut self, n: I)
        requires { self.old.at + (1 + I.MAX_STR_LEN) ≤ 32768 }
        ensures { WrittenWithin (1 + I.MAX_STR_LEN) self.old self.new (bytes " " ++ I.text n) }
    {
        self.word(b" ");
        self.number(n);
    }

    // `+` for a plain gate, `-` for a complemented one.
    fn sign(&mut self, kind: u8)
        requires { self.old.at + 2 ≤ 32768 }
        ensures { WrittenWithin 2 self.old self.new (sign kind) }
    {
        if kind == table::P {
            self.word(b" +");
        } else {
            self.word(b" -");
        }
    }

    fn labels(&mut self, own: Label, on_true: Label, on_false: Label)
        requires { self.old.at + 12 ≤ 32768 }
        ensures { WrittenWithin 12 self.old self.new (three_labels own.0 on_true.0 on_false.0) }
    {
        self.spaced(own.0);
        self.spaced(on_true.0);
        self.spaced(on_false.0);
    }

    // The line of gate k: a byte less where it is one of the gates that a table may have.
    fn gate(&mut self, k: Place, gate: Gate)
        requires { self.old.at + 26 ≤ 32768 }
        ensures line { WrittenWithin 26 self.old self.new (gate_line k.0 (shown_gate gate)) }
        ensures few { k.0 < most_literals → WrittenWithin 25 self.old self.new (gate_line k.0 (shown_gate gate)) }
    {
        self.number(k.0);
        self.spaced(gate.primitive.0);
        self.sign(gate.kind);
        self.labels(gate.own, gate.on_true, gate.on_false);
        self.word(b"\n");
    }

    // A line of two words, each with a number behind it.
    fn pair(&mut self, first: &[u8], m: usize, second: &[u8], n: usize)
        requires { self.old.at + (length first.now + (length second.now + 41)) ≤ 32768 }
        ensures { WrittenWithin (length first.now + (length second.now + 41)) self.old self.new (pair_line first.now m second.now n) }
    {
        self.word(first);
        self.number(m);
        self.word(second);
        self.number(n);
        self.word(b"\n");
    }

    // The line of the two end labels, which is the last one.
    fn ends(&mut self, on_true: Label, on_false: Label)
        requires { self.old.at + 53 ≤ 32768 }
        ensures { WrittenWithin 53 self.old self.new (ends_line on_true.0 on_false.0) }
    {
        self.pair(
            b"true ",
            usize::from(on_true.0),
            b" false ",
            usize::from(on_false.0),
        );
    }
}

// Writes the lines of a table, and answers how many bytes they are.
pub fn print_table(table: &[u8], out: &mut [u8; 32768]) -> usize
    requires { Listable table.now }
    ensures { Printed out.old out.new (lines table.now) result }
{
    let header = table::header_at(table);
    let end = table::end_at(table, header);
    let mut page = Page::new(out);
    page.pair(
        b"gates ",
        usize::from(header.gates),
        b" labels ",
        usize::from(header.labels),
    );
    for k in 0..header.gates {
        page.gate(Place(k), table::gate_at(table, header, Place(k)));
    }
    page.ends(end.on_true, end.on_false);
    page.at
}

// Writes the line of a refusal, by its number and its place, and answers how many bytes it is.
// By number: it prints any, where a `Reason` would ask more of its callers.
pub fn print_refusal(number: u8, at: usize, out: &mut [u8; 32768]) -> usize
    ensures { Printed out.old out.new (refusal_line number at) result }
{
    let mut page = Page::new(out);
    page.pair(b"refused ", usize::from(number), b" at ", at);
    page.at
}
