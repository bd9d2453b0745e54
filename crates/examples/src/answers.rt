// Compiles one text and writes its line.
ghost use Rattle.compiler.specs.Shown.{CompiledRight};

use std::io::{Print, Stdout};
use terms::Refusal;

// The counts that stand in a table's header. What standard output does not take is lost, here and below.
fn say_counts(output: &Stdout, table: &[u8]) {
    if let [_, low, high, labels, ..] = table {
        let gates = u16::from_le_bytes([*low, *high]);
        let _ = println!(output; ": gates {gates} labels {labels}");
    }
}

fn say_refusal(output: &Stdout, refusal: Refusal) {
    let number = u8::from(refusal.reason);
    let at = refusal.at;
    let _ = println!(output; ": refused {number} at {at}");
}

// Compiles the text into `out`, writes the name and the answer, and answers the same.
pub fn show(output: &Stdout, name: &[u8], text: &[u8], out: &mut [u8]) -> Result<usize, Refusal>
    ensures { CompiledRight text.now out.old out.new result }
{
    let _ = output.write_all(name);
    let answer = compiler::compile(text, out);
    match answer {
        Ok(_) => say_counts(output, out),
        Err(refusal) => say_refusal(output, refusal),
    }
    answer
}
