// The listing program: reads an expression from standard input and writes the lines of its table, or its refusal.

#![tactic(auto)]

ghost use Rattle.std.specs.Prelude.{◌≡◌, length, IfOk};
ghost use Rattle.io.specs.Counts.{IsPrefixLen};
ghost use Rattle.listing.specs.Code.Written.{Printed};
ghost use Rattle.list.specs.Listed.{roomy, listed};

use std::io;
use std::io::{Print, Read, Stdin};

// The lines of the text into `out`, with room for its table. Answers how many bytes they are.
fn listed(text: &[u8], table: &mut [u8], out: &mut [u8; 32768]) -> usize
    requires { length table.old ≡ roomy }
    ensures { Printed out.old out.new (listed text.now) result }
{
    match compiler::compile(text, table) {
        Ok(n) => listing::print_table(&table[..n], out),
        Err(refusal) => listing::print_refusal(u8::from(refusal.reason), refusal.at, out),
    }
}

// Reads standard input to its end, or until the buffer is full, and answers how many bytes stand at the front of the buffer.
// A read that gives nothing is the end, and none comes after it. A loop, since what std reads to the end with fills a `Vec`; it
// answers a number of bytes, as `read` does.
fn read_in(input: &mut Stdin, text: &mut [u8]) -> io::Result<usize>
    ensures { IfOk result (λ n. IsPrefixLen n text.new) }
{
    let mut length = 0;
    while length < text.len() {
        let more = input.read(&mut text[length..])?;
        if more == 0 {
            break;
        }
        length += more;
    }
    Ok(length)
}

fn main(rt: HostRuntime) -> io::Result<()> {
    let mut text = [0u8; 16385];
    let Ok(n) = read_in(&mut rt.stdin(), &mut text) else {
        return rt.stderr().write_all(b"list: cannot read standard input\n");
    };
    let mut table = [0u8; 6151];
    let mut out = [0u8; 32768];
    let m = listed(&text[..n], &mut table, &mut out);
    if rt.stdout().write_all(&out[..m]).is_err() {
        return rt
            .stderr()
            .write_all(b"list: cannot write standard output\n");
    }
    Ok(())
}
