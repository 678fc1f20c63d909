// Runs a job from standard input: rows of instruction forms, and commands over them. Answers go to standard output.
#![tactic(auto)]

mod archive;
mod check;
mod job;
mod texts;

use job::{Job, MOST_SEGMENTS};
use jobs::command::Command;
use jobs::command::read::read_command;
use jobs::fields::cut;
use std::alloc::Global;
use std::io;
use std::io::{BufReader, BufWriter, Read, Write};

// Performs the command of the line with this number.
fn perform<'a, W: Write>(
    job: &mut Job<'a>,
    out: &mut W,
    number: u64,
    command: &Command<'a>,
) -> io::Result<()> {
    match *command {
        Command::Nothing => Ok(()),
        Command::Row(form, naming) => {
            job.add(form, naming)?;
            Ok(())
        }
        // A job has at most four segments; rows after a fifth still belong to the last.
        Command::Segment(name) => {
            if job.segments.len() < MOST_SEGMENTS {
                job.start(name)?;
                Ok(())
            } else {
                writeln!(out, "line {number}: too many segments")
            }
        }
        Command::Check => check::check(job, out),
        Command::Open(opening) => {
            job.opening = opening;
            archive::open(job, out)
        }
        Command::Texts => texts::texts(job, out),
        Command::Entries => archive::entries(job, out),
        Command::Unknown => writeln!(out, "line {number}: not understood"),
    }
}

// Runs the job line by line; lines are counted from 1. By `cut`, whose clause says where a line ends.
fn run<W: Write>(heap: Global, text: &[u8], out: &mut W) -> io::Result<()> {
    let mut job = Job::new(heap);
    let mut rest = text;
    for number in 1..u64::MAX {
        let (line, after) = cut(rest, b'\n');
        // Lent, since a command is as large as a row.
        let command = read_command(line);
        if command != Command::Nothing {
            perform(&mut job, out, number, &command)?;
        }
        match after {
            Some(after) => rest = after,
            None => break,
        }
    }
    Ok(())
}

fn main(rt: HostRuntime) -> io::Result<()> {
    let heap = rt.alloc();
    let mut text = Vec::new(heap);
    BufReader::new(heap, rt.stdin())?.read_to_end(&mut text)?;
    let mut out = BufWriter::new(heap, rt.stdout())?;
    run(heap, text.as_slice(), &mut out)?;
    out.flush()
}
