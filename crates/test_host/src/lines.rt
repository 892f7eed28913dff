// An answer as document 01's line, on standard output.
use drive_lines::answers::write_line;
use drive_shows::shows::write_reading;
use drive_text::Writer;
use session::{Answer, Refusal, Shown};
use std::io::{Stdout, Write};

// A write that fails changes nothing else.
fn print(mut stdout: Stdout, line: &Writer) {
    if line.at <= line.out.len() {
        let _ = stdout.write_all(&line.out[..line.at]);
    }
}

// The answer of an event or of `eager`, and the calls of a wait.
pub(crate) fn print_answer(stdout: Stdout, number: u64, answer: Answer, calls: &[u64]) {
    let mut out = [0; 8192];
    let mut line = Writer::new(&mut out, 0);
    write_line(&mut line, number, answer, calls);
    print(stdout, &line);
}

pub(crate) fn print_shown(
    stdout: Stdout,
    number: u64,
    reading: Result<Shown, Refusal>,
    places: &[u64],
) {
    let mut out = [0; 1024];
    let mut line = Writer::new(&mut out, 0);
    write_reading(&mut line, number, reading, places);
    print(stdout, &line);
}
