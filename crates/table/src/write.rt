// The one writer of a table: its header, a record for each gate, and its end.
ghost use Rattle.std.specs.Prelude.{◌≡◌, ◌++◌, ◌+◌, ◌≤◌, length, drop};
ghost use Rattle.std.proofs.lemmas.List.Edits.{sets};
ghost use Rattle.terms.specs.Terms.{most_literals};
ghost use Rattle.terms.specs.Laid.{primitives_of, senses_of, owns_of, on_trues_of, on_falses_of};
ghost use Rattle.table.specs.Layout.{header_length, table_length, header_for, kind_by_sense, header_bytes, gate_bytes};
ghost use Rattle.table.specs.Code.Written.{plain, table_bytes};

use crate::{E, H, Header, N, P, end_start, record_start};
use terms::{Ends, LaidGate, Place};

// The kind of a plain gate, or of a complemented one, whose sense is 0. No `From`: both are bytes, and from a byte to a byte there
// is one.
fn kind_byte(sense: u8) -> u8
    ensures { result ≡ kind_by_sense (plain sense) }
{
    if sense == 0 { N } else { P }
}

// Stores bytes from a place on.
fn put(out: &mut [u8], at: usize, bytes: &[u8])
    requires { at + length bytes.now ≤ length out.old }
    ensures { out.new ≡ sets out.old at bytes.now }
{
    out[at..at + bytes.len()].copy_from_slice(bytes);
}

fn put_header(out: &mut [u8], header: Header)
    requires { header_length (header_for header.gates header.labels) ≤ length out.old }
    ensures { out.new ≡ sets out.old 0 (header_bytes header.gates header.labels) }
{
    let [low, high] = header.gates.to_le_bytes();
    put(out, 0, &[H, low, high, header.labels]);
}

fn put_gate(out: &mut [u8], at: usize, gate: &LaidGate)
    requires { at + length (gate_bytes (plain gate.now.sense) gate.now.primitive.0 gate.now.own.0 gate.now.on_true.0 gate.now.on_false.0) ≤ length out.old }
    ensures { out.new ≡ sets out.old at (gate_bytes (plain gate.now.sense) gate.now.primitive.0 gate.now.own.0 gate.now.on_true.0 gate.now.on_false.0) }
{
    let kind = kind_byte(gate.sense);
    let [low, high] = gate.primitive.0.to_le_bytes();
    let record = [kind, low, high, gate.own.0, gate.on_true.0, gate.on_false.0];
    put(out, at, &record);
}

// Writes the table of these gates to the front of `out`, and nothing behind it. Sense 0 is a complemented gate's, any other a plain one's.
pub fn write(out: &mut [u8], labels: u8, gates: &[LaidGate], ends: Ends)
    requires few { length gates.now ≤ most_literals }
    requires out_long { table_length (length gates.now) ≤ length out.old }
    ensures { out.new ≡ table_bytes (length gates.now) labels (primitives_of gates.now) (senses_of gates.now) (owns_of gates.now) (on_trues_of gates.now) (on_falses_of gates.now) ends.on_true.0 ends.on_false.0 ++ drop (table_length (length gates.now)) out.old }
{
    // at most 1,024 gates, so the casts lose nothing
    let header = Header {
        kind: H,
        gates: gates.len() as u16,
        labels,
    };
    put_header(out, header);
    for (k, gate) in gates.iter().enumerate() {
        put_gate(out, record_start(header, Place(k as u16)), gate);
    }
    let end = [E, ends.on_true.0, ends.on_false.0];
    put(out, end_start(header), &end);
}
