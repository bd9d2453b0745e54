// Compiles each text of the stored corpus into a buffer of the room that its record names, and compares the answer and the
// whole buffer with what the record says. The second program wrote the records; second/README.md has their form.

#![tactic(auto)]

ghost use Rattle.std.specs.Prelude.{◌≡◌, ◌+◌, ◌*◌};

use std::io::{Print, Read, Stdin};
use terms::Refusal;

// What every byte of a buffer holds before it is lent.
const BLANK: u8 = 170;

// A text, the room for its table, and the answer that is due.
#[derive(Clone, Copy)]
struct Record<'a> {
    text: &'a [u8],
    room: usize,
    answer: &'a [u8],
}

// A two-byte number, low byte first.
fn number(low: u8, high: u8) -> usize
    ensures { result ≡ low + 256 * high }
{
    usize::from(u16::from_le_bytes([low, high]))
}

// The next n bytes of the input, if there are as many, and the buffer has room for them.
fn fill<'a>(input: &mut Stdin, buffer: &'a mut [u8], n: usize) -> Option<&'a [u8]> {
    let part = buffer.get_mut(..n)?;
    input.read_exact(part).ok()?;
    Some(part)
}

// The next record, if it is whole: its text at the front of one buffer, and its answer at the front of the other.
fn take<'a>(input: &mut Stdin, text: &'a mut [u8], answer: &'a mut [u8]) -> Option<Record<'a>> {
    let mut head = [0; 6];
    input.read_exact(&mut head).ok()?;
    let text = fill(input, text, number(head[0], head[1]))?;
    let room = number(head[2], head[3]);
    let answer = fill(input, answer, number(head[4], head[5]))?;
    Some(Record { text, room, answer })
}

fn is_blank(bytes: &[u8]) -> bool {
    bytes.iter().all(|byte| *byte == BLANK)
}

// Whether the buffer holds the table that is due, of n bytes, and is blank behind it.
fn table_agrees(n: usize, due: &[u8], out: &[u8]) -> bool {
    out.split_at_checked(n)
        .is_some_and(|(table, rest)| table == due && is_blank(rest))
}

// Whether the refusal is the one that is due, and the buffer is blank.
fn refusal_agrees(refusal: Refusal, due: &[u8], out: &[u8]) -> bool {
    matches!(
        due,
        [b'R', reason, low, high]
            if *reason == u8::from(refusal.reason)
                && number(*low, *high) == refusal.at
                && is_blank(out)
    )
}

// Whether the compiler gives the answer that is due, in a buffer of the room that the record names.
fn agrees(record: Record, out: &mut [u8]) -> bool {
    let Some(out) = out.get_mut(..record.room) else {
        return false;
    };
    out.fill(BLANK);
    match compiler::compile(record.text, out) {
        Ok(n) => table_agrees(n, record.answer, out),
        Err(refusal) => refusal_agrees(refusal, record.answer, out),
    }
}

// Compares record after record, as long as one is whole and a million at most, and writes the counts. What standard output does not take is lost.
fn main(rt: HostRuntime) {
    let mut text = [0; 16385];
    let mut answer = [0; 6151];
    let mut out = [0; 6151];
    let mut input = rt.stdin();
    let mut texts = 0u64;
    let mut differences = 0u64;
    for _ in 0..1_000_000u64 {
        let Some(record) = take(&mut input, &mut text, &mut answer) else {
            break;
        };
        texts += 1;
        if !agrees(record, &mut out) {
            differences += 1;
            let _ = println!(rt; "corpus: text {texts} differs");
        }
    }
    let _ = println!(rt; "corpus: {texts} texts, {differences} differences");
}
