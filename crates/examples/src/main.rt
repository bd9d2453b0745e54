// Compiles the examples of document 01 and of request 1, and the worst texts, and writes a line for each: its name, and then
// the counts of its table or its refusal. The stack holds one text and one table. Output, text and table are handed on one by one,
// as `show` takes them: the text to read and the table to write.

#![tactic(auto)]

mod answers;
mod texts;

use answers::show;
use std::io::Stdout;
use texts::Text;

// The examples that are written as they stand.
const TYPED: &[&str] = &["5", "1-2", "!(1+2)", "!!5", "1*2+3*4", "1+2*3", "1+2-3"];

// Chains of `+`, `-` and `*`: with `-` in the product the last would have two labels.
const CHAINS: &[&str] = &["1-2*3", "1*2-3", "1-2-3", "1-2+3", "1-(2-3)", "1+2-3*4"];

// The examples that are refused where they stand, and a neighbour.
const REFUSED: &[&str] = &["1+", "1-", "1 2", "()", "1024 &", "1024", "1023", "00001"];

// Texts that are their own names.
fn as_typed(output: &Stdout, texts: &[&str], out: &mut [u8; 6151]) {
    for text in texts {
        let _ = show(output, text.as_bytes(), text.as_bytes(), out);
    }
}

// Room for `5` and one byte less, and the two large examples.
fn large(output: &Stdout, out: &mut [u8; 6151]) {
    let _ = show(output, b"5 in 13 bytes", b"5", &mut [0; 13]);
    let _ = show(output, b"5 in 12 bytes", b"5", &mut [0; 12]);
    for (name, text) in [
        ("most labels of ten", "(1*2+3*4)*5+(6*7+8*9)*10"),
        ("figure 16", "(1+2)*((3+4)*5)+(6*7+(8+9)*(10+11*12))"),
    ] {
        let _ = show(output, name.as_bytes(), text.as_bytes(), out);
    }
}

// Both sides of the limits on parentheses and numbers.
fn limits(output: &Stdout, text: &mut Text, out: &mut [u8; 6151]) {
    for (name, depth) in [("64 parentheses", 64), ("65 parentheses", 65)] {
        text.nested(depth);
        let _ = show(output, name.as_bytes(), text.as_bytes(), out);
    }
    for (name, times, last) in [
        ("1024 numbers", 1023, "1"),
        ("1025 numbers", 1024, "1"),
        ("1025 numbers and +", 1025, ""),
    ] {
        text.row(b"1+", times, last.as_bytes());
        let _ = show(output, name.as_bytes(), text.as_bytes(), out);
    }
}

// The longest texts.
fn longest(output: &Stdout, text: &mut Text, out: &mut [u8; 6151]) {
    for (name, word, times, last) in [
        ("16383 complements", "!", 16383, "1"),
        ("16384 complements", "!", 16384, "1"),
        ("16384 blanks", " ", 16384, ""),
        ("16384 openings", "(", 16384, ""),
        ("16384 digits", "1", 16384, ""),
    ] {
        text.row(word.as_bytes(), times, last.as_bytes());
        let _ = show(output, name.as_bytes(), text.as_bytes(), out);
    }
}

// The deepest expressions: 1,024 literals, but for the one that leans to the right.
fn deepest(output: &Stdout, text: &mut Text, out: &mut [u8; 6151]) {
    text.row(b"1+1*", 511, b"1+1");
    let _ = show(
        output,
        b"1024 in a row of sums and products",
        text.as_bytes(),
        out,
    );
    text.row(b"1-", 1023, b"1");
    let _ = show(
        output,
        b"1024 in a row of differences",
        text.as_bytes(),
        out,
    );
    text.left_deep();
    let _ = show(output, b"1024 left-deep", text.as_bytes(), out);
    text.balanced();
    let _ = show(output, b"1024 balanced", text.as_bytes(), out);
    text.right_deep();
    let _ = show(output, b"131 right-deep", text.as_bytes(), out);
    text.crossed();
    let _ = show(output, b"10 closings and 70 openings", text.as_bytes(), out);
}

// The texts that take the most stack: 1,024 literals, nearly as deep as they are many.
fn worst(output: &Stdout, text: &mut Text, out: &mut [u8; 6151]) {
    for (name, depth, pairs) in [
        ("1024 exchanged", 0, 340),
        ("1024 exchanged in 63 parentheses", 63, 319),
    ] {
        text.exchanged(depth, pairs);
        let _ = show(output, name.as_bytes(), text.as_bytes(), out);
    }
    text.deep_chain();
    let _ = show(
        output,
        b"1024 in a row in 64 parentheses",
        text.as_bytes(),
        out,
    );
}

fn main(rt: HostRuntime) {
    let output = rt.stdout();
    let mut text = Text::new();
    let mut out = [0u8; 6151];
    as_typed(&output, TYPED, &mut out);
    as_typed(&output, CHAINS, &mut out);
    let _ = show(&output, b"no text", b"", &mut out);
    as_typed(&output, REFUSED, &mut out);
    large(&output, &mut out);
    limits(&output, &mut text, &mut out);
    longest(&output, &mut text, &mut out);
    deepest(&output, &mut text, &mut out);
    worst(&output, &mut text, &mut out);
}
