// The functions for a viewer in C or Rust, which crates/blist_c exports. Each makes one plain struct of an entry point's answer: a
// refusal's number, nought for none, with its place, and the values of the result; nought where a field has no meaning. Bytes and
// noughts, since no enum crosses to C, and a `From` for each struct, since C knows each by its own fields.

#![tactic(auto)]

ghost use Rattle.std.specs.Prelude.{◌≡◌};
ghost use Rattle.terms.specs.Refusals.{shown};
ghost use Rattle.blist.specs.Plain.{plain_table, plain_run, plain_truth, plain_counts, plain_record, plain_ends, ends_read, version, CompileRight, StartRight, FeedRight, AnswerRight, HeaderRight, GateRight, EndsRight};
ghost use Rattle.table.specs.Shown.{shown_header, shown_gate, shown_end};
ghost use Rattle.run.specs.Shown.{shown_run};

use run::Run;
use table::{End, Gate, Header};
use terms::{FIRST_LABEL, Label, Refusal};

// What compiling returns.
#[repr(C)]
#[derive(Clone, Copy, Default)]
pub struct PlainTable {
    pub refusal: u8,
    pub at: usize,
    pub length: usize,
}

// What a start and a feed return.
#[repr(C)]
#[derive(Clone, Copy, Default)]
pub struct PlainRun {
    pub refusal: u8,
    pub at: usize,
    pub gate: usize,
    pub label: u8,
}

// What an answer returns.
#[repr(C)]
#[derive(Clone, Copy, Default)]
pub struct PlainTruth {
    pub refusal: u8,
    pub at: usize,
    pub truth: u8,
}

// What a header, a gate's record and the last record return.
#[repr(C)]
#[derive(Clone, Copy, Default)]
pub struct PlainCounts {
    pub refusal: u8,
    pub at: usize,
    pub gates: usize,
    pub labels: u8,
    pub first_label: u8,
}

#[repr(C)]
#[derive(Clone, Copy, Default)]
pub struct PlainRecord {
    pub refusal: u8,
    pub at: usize,
    pub primitive: u16,
    pub complemented: u8,
    pub own: u8,
    pub on_true: u8,
    pub on_false: u8,
}

#[repr(C)]
#[derive(Clone, Copy, Default)]
pub struct PlainEnds {
    pub refusal: u8,
    pub at: usize,
    pub on_true: u8,
    pub on_false: u8,
}

impl From<Result<usize, Refusal>> for PlainTable {
    ghost from_gives = { λ answer r. r ≡ plain_table (shown (λ n. n) answer) };

    fn from(answer: Result<usize, Refusal>) -> PlainTable {
        match answer {
            Ok(length) => PlainTable {
                length,
                ..PlainTable::default()
            },
            Err(refusal) => PlainTable {
                refusal: u8::from(refusal.reason),
                at: refusal.at,
                ..PlainTable::default()
            },
        }
    }
}

// A run that goes on, or a refusal with the gate number and the label to be shown beside it.
fn plain_run(answer: Result<Run, Refusal>, gate: usize, label: u8) -> PlainRun
    ensures { result ≡ plain_run gate label (shown shown_run answer) }
{
    match answer {
        Ok(run) => PlainRun {
            gate: run.gate,
            label: run.label.0,
            ..PlainRun::default()
        },
        Err(refusal) => {
            let number = u8::from(refusal.reason);
            let at = refusal.at;
            PlainRun {
                refusal: number,
                at,
                gate,
                label,
            }
        }
    }
}

impl From<Result<bool, Refusal>> for PlainTruth {
    ghost from_gives = { λ answer r. r ≡ plain_truth (shown (λ t. t) answer) };

    fn from(answer: Result<bool, Refusal>) -> PlainTruth {
        match answer {
            Ok(truth) => PlainTruth {
                truth: u8::from(truth),
                ..PlainTruth::default()
            },
            Err(refusal) => PlainTruth {
                refusal: u8::from(refusal.reason),
                at: refusal.at,
                ..PlainTruth::default()
            },
        }
    }
}

// What a header says, with the label that a run starts on.
impl From<Result<Header, Refusal>> for PlainCounts {
    ghost from_gives = { λ answer r. r ≡ plain_counts (shown shown_header answer) };

    fn from(answer: Result<Header, Refusal>) -> PlainCounts {
        match answer {
            Ok(header) => PlainCounts {
                gates: usize::from(header.gates),
                labels: header.labels,
                first_label: FIRST_LABEL,
                ..PlainCounts::default()
            },
            Err(refusal) => PlainCounts {
                refusal: u8::from(refusal.reason),
                at: refusal.at,
                ..PlainCounts::default()
            },
        }
    }
}

impl From<Result<Gate, Refusal>> for PlainRecord {
    ghost from_gives = { λ answer r. r ≡ plain_record (shown shown_gate answer) };

    fn from(answer: Result<Gate, Refusal>) -> PlainRecord {
        match answer {
            Ok(gate) => PlainRecord {
                primitive: gate.primitive.0,
                complemented: u8::from(gate.kind == table::N),
                own: gate.own.0,
                on_true: gate.on_true.0,
                on_false: gate.on_false.0,
                ..PlainRecord::default()
            },
            Err(refusal) => PlainRecord {
                refusal: u8::from(refusal.reason),
                at: refusal.at,
                ..PlainRecord::default()
            },
        }
    }
}

impl From<Result<End, Refusal>> for PlainEnds {
    ghost from_gives = { λ answer r. r ≡ plain_ends (shown shown_end answer) };

    fn from(answer: Result<End, Refusal>) -> PlainEnds {
        match answer {
            Ok(end) => PlainEnds {
                on_true: end.on_true.0,
                on_false: end.on_false.0,
                ..PlainEnds::default()
            },
            Err(refusal) => PlainEnds {
                refusal: u8::from(refusal.reason),
                at: refusal.at,
                ..PlainEnds::default()
            },
        }
    }
}

// The last record of a table, asked for at its own gate number.
fn ends_read(table: &[u8]) -> Result<End, Refusal>
    ensures { shown shown_end result ≡ ends_read table.now }
{
    let header = run::header_read(table)?;
    run::end_read(table, usize::from(header.gates))
}

// Compiles a text to a table at the start of the lent buffer; a refusal leaves the buffer as it was.
pub fn blist_compile(text: &[u8], out: &mut [u8]) -> PlainTable
    ensures { CompileRight text.now out.old out.new result }
{
    PlainTable::from(compiler::compile(text, out))
}

// Starts a run over a table that may have come from anywhere.
pub fn blist_start(table: &[u8]) -> PlainRun
    ensures { StartRight table.now result }
{
    plain_run(run::start(table), 0, 0)
}

// Feeds a run the truth of its gate's primitive: nought is false, all else true. A refused feed shows the run handed in.
pub fn blist_feed(gate: usize, label: u8, table: &[u8], truth: u8) -> PlainRun
    ensures { FeedRight gate label table.now truth result }
{
    let held = Run {
        gate,
        label: Label(label),
    };
    let fed = run::feed(held, table, truth != 0);
    plain_run(fed.map_err(|back| back.refusal), gate, label)
}

// Asks a run that has passed every gate for its truth.
pub fn blist_answer(gate: usize, label: u8, table: &[u8]) -> PlainTruth
    ensures { AnswerRight gate label table.now result }
{
    let held = Run {
        gate,
        label: Label(label),
    };
    PlainTruth::from(run::answer(held, table))
}

// Reads what a table says of itself as a whole: its gates, its label count, and the label that a run starts on.
pub fn blist_header(table: &[u8]) -> PlainCounts
    ensures { HeaderRight table.now result }
{
    PlainCounts::from(run::header_read(table))
}

// Reads the record of a gate.
pub fn blist_gate(table: &[u8], gate: usize) -> PlainRecord
    ensures { GateRight table.now gate result }
{
    PlainRecord::from(run::gate_read(table, gate))
}

// Reads the labels of the two ends.
pub fn blist_ends(table: &[u8]) -> PlainEnds
    ensures { EndsRight table.now result }
{
    PlainEnds::from(ends_read(table))
}

// The version of this library, which the header's macros repeat.
pub fn blist_version() -> u32
    ensures { result ≡ version }
{
    10101
}
