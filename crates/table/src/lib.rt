// The table's bytes: where each record stands, how it is written, and how a table from anywhere is checked.

#![tactic(auto)]

pub mod write;

ghost use Rattle.std.specs.Prelude.{◌≡◌, ◌+◌, ◌*◌, ◌≤◌, length};
ghost use Rattle.terms.specs.Terms.{in_range};
ghost use Rattle.terms.specs.declared.Reason.TheVariants.{NotWellFormed};
ghost use Rattle.table.specs.Layout.{header_length, gate_length, record_start, length_by, table_length, header_of};
ghost use Rattle.table.specs.Shown.{shown_header, shown_gate, shown_end};
ghost use Rattle.table.specs.Twins.Faults.{header_fields_fit, gate_fields_fit, end_fields_fit};
ghost use Rattle.table.specs.Code.Checked.{header_said, coded_gate, coded_end, gate_under, end_under, checked_header, checked_gate, checked_end, checked_table};

use terms::{
    FIRST_LABEL, GREATEST_PRIMITIVE, LEAST_LABELS, Label, MOST_LABELS, MOST_LITERALS, Place,
    Primitive, Reason, Refusal,
};

// The kinds: a header, a plain gate, a complemented gate, an end.
pub const H: u8 = b'H';

pub const P: u8 = b'P';

pub const N: u8 = b'N';

pub const E: u8 = b'E';

const HEADER_LENGTH: usize = 4;

const GATE_LENGTH: usize = 6;

const END_LENGTH: usize = 3;

// What the header says: its kind, the number of gates and the label count. A kind, here and in the two structs below, is the byte
// that stands there: header_at, gate_at and end_at answer what any bytes say, also a byte that is no kind.
#[derive(Clone, Copy)]
pub struct Header {
    pub kind: u8,
    pub gates: u16,
    pub labels: u8,
}

// What the record of a gate says.
#[derive(Clone, Copy)]
pub struct Gate {
    pub kind: u8,
    pub primitive: Primitive,
    pub own: Label,
    pub on_true: Label,
    pub on_false: Label,
}

// What the last record says.
#[derive(Clone, Copy)]
pub struct End {
    pub kind: u8,
    pub on_true: Label,
    pub on_false: Label,
}

// Where the record starts that is at fault. Not one type with where the reading of a text stopped: each turns into a refusal of its
// own.
#[derive(Clone, Copy)]
pub struct Fault(pub usize);

impl From<Fault> for Refusal {
    ghost from_gives = { λ fault r. r ≡ record { reason = NotWellFormed; at = fault.0 } };

    fn from(fault: Fault) -> Refusal {
        Refusal {
            reason: Reason::NotWellFormed,
            at: fault.0,
        }
    }
}

// How long the record of a gate is under this header.
fn gate_length(header: Header) -> usize
    ensures { result ≡ gate_length (shown_header header) }
{
    GATE_LENGTH
}

// Where the record of gate k starts under this header; that of the end, where k is the number of gates.
pub fn record_start(header: Header, k: Place) -> usize
    ensures { result ≡ record_start (shown_header header) k.0 }
{
    gate_length(header) * usize::from(k) + HEADER_LENGTH
}

// Where the record of the end starts.
pub fn end_start(header: Header) -> usize
    ensures { result ≡ record_start (shown_header header) header.gates }
{
    record_start(header, Place(header.gates))
}

// How long a table with this header is.
pub fn length_by(header: Header) -> usize
    ensures { result ≡ length_by (shown_header header) }
{
    end_start(header) + END_LENGTH
}

// How long the table that is written for so many gates is.
pub fn table_length(gates: u16) -> usize
    ensures { result ≡ table_length gates }
{
    length_by(Header {
        kind: H,
        gates,
        labels: LEAST_LABELS,
    })
}

fn header_fits(header: Header) -> bool
    ensures { result ≡ header_fields_fit (shown_header header) }
{
    header.kind == H
        && (1..=MOST_LITERALS).contains(&header.gates)
        && (LEAST_LABELS..=MOST_LABELS).contains(&header.labels)
}

fn label_fits(labels: u8, label: Label) -> bool
    ensures { result ≡ in_range labels label.0 }
{
    FIRST_LABEL <= label.0 && label.0 - FIRST_LABEL < labels
}

// The record of gate k is right under this header. Gate 0 is entered on the first label; any other gate on any label.
fn gate_fits(header: Header, k: Place, gate: Gate) -> bool
    ensures { result ≡ gate_fields_fit (shown_header header) k.0 (shown_gate gate) }
{
    matches!(gate.kind, P | N)
        && gate.primitive.0 <= GREATEST_PRIMITIVE
        && label_fits(header.labels, gate.own)
        && label_fits(header.labels, gate.on_true)
        && label_fits(header.labels, gate.on_false)
        && (k.0 != 0 || gate.own == Label(FIRST_LABEL))
}

fn end_fits(header: Header, end: End) -> bool
    ensures { result ≡ end_fields_fit (shown_header header) (shown_end end) }
{
    end.kind == E
        && label_fits(header.labels, end.on_true)
        && label_fits(header.labels, end.on_false)
        && end.on_true != end.on_false
}

// What a table that holds a header says in it.
pub fn header_at(table: &[u8]) -> Header
    requires { header_length (header_of table.now) ≤ length table.now }
    ensures { result ≡ header_said table.now }
{
    Header {
        kind: table[0],
        gates: u16::from_le_bytes([table[1], table[2]]),
        labels: table[3],
    }
}

// What a table that holds the record of gate k says in it.
pub fn gate_at(table: &[u8], header: Header, k: Place) -> Gate
    requires { record_start (shown_header header) k.0 + gate_length (shown_header header) ≤ length table.now }
    ensures { result ≡ coded_gate (gate_under (shown_header header) table.now k.0) }
{
    let at = record_start(header, k);
    Gate {
        kind: table[at],
        primitive: Primitive(u16::from_le_bytes([table[at + 1], table[at + 2]])),
        own: Label(table[at + 3]),
        on_true: Label(table[at + 4]),
        on_false: Label(table[at + 5]),
    }
}

// What a table that holds its last record says in it.
pub fn end_at(table: &[u8], header: Header) -> End
    requires { length_by (shown_header header) ≤ length table.now }
    ensures { result ≡ coded_end (end_under (shown_header header) table.now) }
{
    let at = end_start(header);
    End {
        kind: table[at],
        on_true: Label(table[at + 1]),
        on_false: Label(table[at + 2]),
    }
}

// Header and length: the header is read where the table holds one, and the length is tested after it.
pub fn check_header(table: &[u8]) -> Result<Header, Fault>
    ensures { result ≡ checked_header table.now }
{
    if table.len() < HEADER_LENGTH {
        return Err(Fault(0));
    }
    let header = header_at(table);
    if header_fits(header) && table.len() == length_by(header) {
        Ok(header)
    } else {
        Err(Fault(0))
    }
}

// The record of gate k under this header, whether or not the rest of the table is right; a record that the table does not
// hold whole is at fault.
pub fn check_gate(table: &[u8], header: Header, k: Place) -> Result<Gate, Fault>
    ensures { result ≡ checked_gate table.now (shown_header header) k.0 }
{
    let at = record_start(header, k);
    if table.len() < at + gate_length(header) {
        return Err(Fault(at));
    }
    let gate = gate_at(table, header, k);
    if gate_fits(header, k, gate) {
        Ok(gate)
    } else {
        Err(Fault(at))
    }
}

// The last record, likewise; apart from `check_gate`, since each reads and tests a record of its own.
pub fn check_end(table: &[u8], header: Header) -> Result<End, Fault>
    ensures { result ≡ checked_end table.now (shown_header header) }
{
    let at = end_start(header);
    if table.len() < at + END_LENGTH {
        return Err(Fault(at));
    }
    let end = end_at(table, header);
    if end_fits(header, end) {
        Ok(end)
    } else {
        Err(Fault(at))
    }
}

// The whole table: header and length, the gates in order, the end. The fault's place is the start of the first record at fault.
pub fn check_table(table: &[u8]) -> Result<Header, Fault>
    ensures { result ≡ checked_table table.now }
{
    let header = check_header(table)?;
    for k in 0..header.gates {
        check_gate(table, header, Place(k))?;
    }
    check_end(table, header)?;
    Ok(header)
}
