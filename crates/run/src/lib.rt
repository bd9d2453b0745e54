// The run over a table that may have come from anywhere: what it reads of it, start it, feed it one truth per gate, ask its answer.

#![tactic(auto)]

ghost use Rattle.std.specs.Prelude.{◌≡◌};
ghost use Rattle.table.specs.Shown.{shown_gate, shown_end};
ghost use Rattle.run.specs.Run.{taken, moved};
ghost use Rattle.run.specs.Twins.Answers.{ended};
ghost use Rattle.terms.specs.Refusals.{shown};
ghost use Rattle.run.specs.Shown.{HeaderReadRight, GateReadRight, EndReadRight, StartedRight, FedRight, AnsweredRight};

use table::{End, Gate, Header};
use terms::{FIRST_LABEL, Label, Place, Reason, Refusal};

// The gate number and the label of a run, which its holder may have altered.
#[derive(Clone, Copy)]
pub struct Run {
    pub gate: usize,
    pub label: Label,
}

// Why a feed is refused, with the run that was handed in.
#[derive(Clone, Copy)]
pub struct FeedRefused {
    pub refusal: Refusal,
    pub run: Run,
}

// Checks header and length, and no record besides.
pub fn header_read(table: &[u8]) -> Result<Header, Refusal>
    ensures { HeaderReadRight table.now result }
{
    Ok(table::check_header(table)?)
}

// Checks header, length and the record of this gate, and no other.
// Inlined, and the record is read again once it is checked: passed on through a call and two results it would go through memory, and
// a feed would take two to four times as long.
#[inline(always)]
pub fn gate_read(table: &[u8], gate: usize) -> Result<Gate, Refusal>
    ensures { GateReadRight table.now gate result }
{
    let header = header_read(table)?;
    if usize::from(header.gates) <= gate {
        return Err(Refusal {
            reason: Reason::PastGates,
            at: gate,
        });
    }
    // one of the header's gates, so the cast loses nothing
    let k = Place(gate as u16);
    table::check_gate(table, header, k)?;
    Ok(table::gate_at(table, header, k))
}

// Checks header, length and the last record, and that the gate number reached is that of the end.
pub fn end_read(table: &[u8], reached: usize) -> Result<End, Refusal>
    ensures { EndReadRight table.now reached result }
{
    let header = header_read(table)?;
    let end = table::check_end(table, header)?;
    if reached != usize::from(header.gates) {
        return Err(Refusal {
            reason: Reason::NotAtEnd,
            at: reached,
        });
    }
    Ok(end)
}

// Checks the whole table; the run is at gate 0 with the first label.
#[tactic(auto, unfolding(crate::specs::Twins::Answers::started))]
pub fn start(table: &[u8]) -> Result<Run, Refusal>
    ensures { StartedRight table.now result }
{
    table::check_table(table)?;
    Ok(Run {
        gate: 0,
        label: Label(FIRST_LABEL),
    })
}

// The truth that a gate of this kind takes.
fn taken(kind: u8, truth: bool) -> bool
    ensures { result ≡ taken kind truth }
{
    if kind == table::N { !truth } else { truth }
}

// The label of a run after this gate.
fn moved(record: Gate, truth: bool, label: Label) -> Label
    ensures { result.0 ≡ moved (shown_gate «record») truth label.0 }
{
    if label != record.own {
        label
    } else if taken(record.kind, truth) {
        record.on_true
    } else {
        record.on_false
    }
}

// Reads the record of the run's gate, and takes the run past that gate.
#[tactic(auto, unfolding(crate::specs::Twins::Answers::fed))]
pub fn feed(run: Run, table: &[u8], truth: bool) -> Result<Run, FeedRefused>
    ensures { FedRight run table.now truth result }
{
    let record = gate_read(table, run.gate).map_err(|refusal| FeedRefused { refusal, run })?;
    Ok(Run {
        gate: run.gate + 1,
        label: moved(record, truth, run.label),
    })
}

// The truth that a label stands for at the end.
fn ended(end: End, label: Label) -> Result<bool, Refusal>
    ensures { shown (λ t. t) result ≡ ended (shown_end end) label.0 }
{
    if label == end.on_true {
        Ok(true)
    } else if label == end.on_false {
        Ok(false)
    } else {
        Err(Refusal {
            reason: Reason::NeitherEnd,
            at: usize::from(label.0),
        })
    }
}

// Reads the last record, and says which end the run has come to.
#[tactic(auto, unfolding(crate::specs::Twins::Answers::answered))]
pub fn answer(run: Run, table: &[u8]) -> Result<bool, Refusal>
    ensures { AnsweredRight run table.now result }
{
    let end = end_read(table, run.gate)?;
    ended(end, run.label)
}
