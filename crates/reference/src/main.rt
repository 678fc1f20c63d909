// Replays stored answers: rows, each followed by the two texts that the Rust formatters print of it. Says which of ours
// differ, and how many.
#![tactic(auto)]

mod replay;

use jobs::command::Command;
use jobs::command::read::read_command;
use jobs::fields::cut;
use replay::differs;
use std::io;
use std::io::{BufReader, BufWriter, Read, Write};

// The first line, and what follows it. By `cut`, whose clause says where a line ends.
fn line_of<'a>(text: &'a [u8]) -> (&'a [u8], &'a [u8]) {
    let (line, after) = cut(text, b'\n');
    (line, after.unwrap_or(b""))
}

// Rows are counted from 0. A line that is neither a row nor passed over is a difference too. The lines are cut one after another:
// a list of them would take memory beside the text.
fn run<W: Write>(text: &[u8], out: &mut W) -> io::Result<()> {
    // Counted by hand, since a row takes three lines, and a line that is no row is a difference too.
    let mut rows: u64 = 0;
    let mut differences: u64 = 0;
    let mut rest = text;
    for _ in 0..u64::MAX {
        if rest.is_empty() {
            break;
        }
        let (line, after) = line_of(rest);
        rest = after;
        // Lent, since a command is as large as a row.
        match &read_command(line) {
            Command::Nothing => {}
            Command::Row(form, naming) => {
                let (op, after) = line_of(rest);
                let (sig, after) = line_of(after);
                rest = after;
                if differs(out, rows, form, naming, op, sig)? {
                    differences += 1;
                }
                rows += 1;
            }
            _ => {
                out.write_all(b"no row: ")?;
                out.write_all(line)?;
                out.write_all(b"\n")?;
                differences += 1;
            }
        }
    }
    writeln!(out, "{rows} rows, {differences} differences")
}

fn main(rt: HostRuntime) -> io::Result<()> {
    let heap = rt.alloc();
    let mut text = Vec::new(heap);
    BufReader::new(heap, rt.stdin())?.read_to_end(&mut text)?;
    let mut out = BufWriter::new(heap, rt.stdout())?;
    run(text.as_slice(), &mut out)?;
    out.flush()
}
