// The library for C: exports each function of crates/blist under its name, with the same promise, and holds nothing else. They stand
// twice, since no crate can stand on a static library.

#![tactic(auto)]

ghost use Rattle.std.specs.Prelude.{◌≡◌};
ghost use Rattle.blist.specs.Plain.{version, CompileRight, StartRight, FeedRight, AnswerRight, HeaderRight, GateRight, EndsRight};

use blist::{PlainCounts, PlainEnds, PlainRecord, PlainRun, PlainTable, PlainTruth};

// Compiles a text to a table at the start of the lent buffer; a refusal leaves the buffer as it was.
#[unsafe(no_mangle)]
pub extern "C" fn blist_compile(text: &[u8], out: &mut [u8]) -> PlainTable
    ensures { CompileRight text.now out.old out.new result }
{
    blist::blist_compile(text, out)
}

// Starts a run over a table that may have come from anywhere.
#[unsafe(no_mangle)]
pub extern "C" fn blist_start(table: &[u8]) -> PlainRun
    ensures { StartRight table.now result }
{
    blist::blist_start(table)
}

// Feeds a run the truth of its gate's primitive: nought is false, all else true. A refused feed shows the run handed in.
#[unsafe(no_mangle)]
pub extern "C" fn blist_feed(gate: usize, label: u8, table: &[u8], truth: u8) -> PlainRun
    ensures { FeedRight gate label table.now truth result }
{
    blist::blist_feed(gate, label, table, truth)
}

// Asks a run that has passed every gate for its truth.
#[unsafe(no_mangle)]
pub extern "C" fn blist_answer(gate: usize, label: u8, table: &[u8]) -> PlainTruth
    ensures { AnswerRight gate label table.now result }
{
    blist::blist_answer(gate, label, table)
}

// Reads what a table says of itself as a whole: its gates, its label count, and the label that a run starts on.
#[unsafe(no_mangle)]
pub extern "C" fn blist_header(table: &[u8]) -> PlainCounts
    ensures { HeaderRight table.now result }
{
    blist::blist_header(table)
}

// Reads the record of a gate.
#[unsafe(no_mangle)]
pub extern "C" fn blist_gate(table: &[u8], gate: usize) -> PlainRecord
    ensures { GateRight table.now gate result }
{
    blist::blist_gate(table, gate)
}

// Reads the labels of the two ends.
#[unsafe(no_mangle)]
pub extern "C" fn blist_ends(table: &[u8]) -> PlainEnds
    ensures { EndsRight table.now result }
{
    blist::blist_ends(table)
}

// The version of this library, which the header's macros repeat.
#[unsafe(no_mangle)]
pub extern "C" fn blist_version() -> u32
    ensures { result ≡ version }
{
    blist::blist_version()
}
