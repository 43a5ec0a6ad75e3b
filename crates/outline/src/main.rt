// The document that a text writes, shown: the text on standard input, at most 32,768 bytes; on standard output `refused 2` where it is
// longer, `refused 3` where it is no document, and else a line for each start (`<` and the name), attribute (`@`, its name, a space and its
// value), run (`#`) and end (`>`), in the order of the text. Values and runs are decoded, in hexadecimal.
#![tactic(auto)]

ghost use Rattle.std.specs.Prelude.{◌≤◌, length};

use elements::children::root_of;
use lines::Lines;
use markup::well_formed;
use std::io::{Read, Write};

// The bytes of lines.
mod lines;
// The walk over the document.
mod walk;

// The lines of the text.
fn put_lines(out: &mut Lines, text: &[u8]) {
    match root_of(text) {
        Some(root) if well_formed(text) => walk::outlined(out, text, root),
        _ => out.put_all(b"refused 3\n"),
    }
}

// Until the bytes lent are full, the input ends, or a read fails.
fn read_full<R: Read>(from: &mut R, bytes: &mut [u8]) -> usize
    ensures { result ≤ length bytes.new }
{
    let mut n = 0;
    while n < bytes.len() {
        match from.read(&mut bytes[n..]) {
            Ok(0) => return n,
            Ok(more) => n += more,
            Err(_) => return n,
        }
    }
    n
}

fn print<W: Write, E: Write>(to: &mut W, told: &mut E, out: &[u8]) {
    if to.write_all(out).is_err() {
        let _ = told.write_all(b"outline: writing failed\n");
    }
}

fn main(rt: HostRuntime) {
    let mut text = [0u8; 32769];
    let mut out = Lines::new();
    let mut from = rt.stdin();
    let mut to = rt.stdout();
    let mut told = rt.stderr();
    let size = read_full(&mut from, &mut text);
    if 32768 < size {
        print(&mut to, &mut told, b"refused 2\n");
        return;
    }
    put_lines(&mut out, &text[..size]);
    print(&mut to, &mut told, out.all());
}
