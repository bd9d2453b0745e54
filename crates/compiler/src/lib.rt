// Compile: read, plan, finish. The order of refusals 1 to 8, and nothing written on refusal.
// The working slots are local; only the output buffer is lent.

#![tactic(auto)]

ghost use Rattle.std.specs.Prelude.{◌≡◌, ℕ, ◌+◌, ◌*◌, ◌≤◌, ◌<◌, length};
ghost use Rattle.formula.specs.Code.Held.{kinds_of, spans_of};
ghost use Rattle.compiler.specs.Shown.{CompiledRight};
ghost use Rattle.compiler.specs.Code.Finished.{root_of, HeldTree, Marking, Planned, Weavable, WovenInto, FinishedBy};

use formula::Slot;
use terms::{LaidGate, MOST_LABELS, Reason, Refusal};

// The slot of the root of an expression with n literals.
fn root(n: usize) -> usize
    requires { (1 ≤ n) × (n ≤ 1024) }
    ensures { result ≡ root_of n }
{
    2 * n - 2
}

// Turns the held expression: one mark an operator. How many literals are held goes beside the slots, here and below, since that
// is what a marking and a table are said of.
pub fn plan(slots: &[Slot; 2047], marks: &mut [u8; 2047], n: usize)
    requires { HeldTree (kinds_of slots.now) (spans_of slots.now) n }
    ensures { Planned (kinds_of slots.now) (spans_of slots.now) marks.new n }
{
    turning::turn::turn(slots, marks, root(n));
}

// Lays out the gates, labels them and writes the table, with working room of its own.
fn weave(slots: &[Slot; 2047], marks: &[u8; 2047], n: usize, labels: u8, out: &mut [u8])
    requires { Weavable (kinds_of slots.now) (spans_of slots.now) marks.now n labels out.old }
    ensures { WovenInto (kinds_of slots.now) (spans_of slots.now) marks.now n labels out.old out.new }
{
    let mut room = [LaidGate::default(); 1024];
    let gates = &mut room[..n];
    weaving::lay::lay(slots, marks, gates);
    let ends = weaving::label::label(gates);
    table::write::write(out, labels, gates, ends);
}

// Decides refusals 7 and 8 before a byte is written, and then writes the table of the marked expression.
pub fn finish(
    slots: &[Slot; 2047],
    marks: &[u8; 2047],
    n: usize,
    out: &mut [u8],
) -> Result<usize, Refusal>
    requires { Marking (kinds_of slots.now) (spans_of slots.now) marks.now n }
    ensures { FinishedBy (kinds_of slots.now) (spans_of slots.now) marks.now n out.old out.new result }
{
    let tag = turning::turn::price_by(slots, marks, root(n));
    let labels = turning::price::greatest(tag.costs);
    if labels > u16::from(MOST_LABELS) {
        return Err(Refusal {
            reason: Reason::TooManyLabels,
            at: 0,
        });
    }
    // Here and below a cast loses nothing: so many literals and labels fit, and a `try_from` would answer an error that cannot come.
    let length = table::table_length(n as u16);
    if out.len() < length {
        return Err(Refusal {
            reason: Reason::TooLittleRoom,
            at: length,
        });
    }
    weave(slots, marks, n, labels as u8, out);
    Ok(length)
}

// From a text to the table's bytes at the front of `out`, and how many they are; or the first refusal that holds.
pub fn compile(text: &[u8], out: &mut [u8]) -> Result<usize, Refusal>
    ensures { CompiledRight text.now out.old out.new result }
{
    let mut slots = [Slot::default(); 2047];
    // A mark is a byte beside the slots: in a slot it would take two, and as a truth it would ask more of those who hand marks to
    // `finish`.
    let mut marks = [0u8; 2047];
    let n = text::read(text, &mut slots)?;
    plan(&slots, &mut marks, n);
    finish(&slots, &marks, n, out)
}
