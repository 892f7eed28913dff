// The program of document 01: records from standard input, one line an event to standard output. It stops after an 11's line, and where a write fails.
#![tactic(auto)]

ghost use Rattle.std.specs.Prelude.{◌+◌, ◌≤◌, ◌≡◌, length, drop};
ghost use Rattle.std.proofs.Math.Seq.{paste};
ghost use Rattle.drive_lines.specs.Lines.{line_limit};
ghost use Rattle.drive_reader.specs.Windows.{record_limit};
ghost use Rattle.drive_window.specs.Input.{Refilled, Readied};

use asyncio::{OBJECTS, OBJECTS_LEN, PLACES_LEN, TASKS_LEN};
use drive_window::RECORD_BYTES;
use queue::ReadyQueue;
use std::io::{Stdin, Stdout, Write};

// The bytes of the buffer that are read and not used: from `from` up to `filled`.
#[derive(Drop)]
struct Input {
    from: usize,
    filled: usize,
}

// The bytes from `from` on, `count` of them, go to the front; those behind them stay.
fn move_up(src: &mut [u8], from: usize, count: usize)
    requires { from + count ≤ length src.old }
    ensures { src.new ≡ paste src.old 0 (drop from src.old) count }
{
    for i in 0..count {
        src[i] = src[from + i];
    }
}

// What is read and not used goes to the front, and the buffer is filled behind it unless the input ends first.
fn refill(stdin: Stdin, src: &mut [u8], from: usize, filled: usize) -> Input
    requires from_le_filled { from ≤ filled }
    requires filled_in_bounds { filled ≤ length src.old }
    ensures { Refilled src.old src.new from filled result.from result.filled }
{
    let rest = filled - from;
    move_up(src, from, rest);
    let got = drive_input::read_full(stdin, &mut src[rest..]);
    Input {
        from: 0,
        filled: rest + got,
    }
}

// More is read where a record could be cut short, unless the input has ended: then the buffer is not full.
fn ready(stdin: Stdin, src: &mut [u8], from: usize, filled: usize) -> Input
    requires from_le_filled { from ≤ filled }
    requires filled_in_bounds { filled ≤ length src.old }
    ensures { Readied src.old src.new from filled result.from result.filled }
{
    if filled == src.len() && filled - from < RECORD_BYTES {
        return refill(stdin, src, from, filled);
    }
    Input { from, filled }
}

// A fresh session, and its records window by window, until the input ends, one is refused with 11, or a write fails. The loop's own end is never met before the
// numbers of 64 bits are used up: each window takes a record or is the last (`window_goes_up`; the loop's measure rests on it). Its invariant
// says that the windows so far are those of the input that was read (`Stands`): their lines together are the driver's (`program_is_drive`).
fn run(stdin: Stdin, mut stdout: Stdout, src: &mut [u8], out: &mut [u8])
    requires record_limit_in_bounds { record_limit ≤ length src.old }
    requires line_limit_in_bounds { line_limit ≤ length out.old }
{
    let mut tasks: [u64; TASKS_LEN] = [0; TASKS_LEN];
    let mut objects: [u64; OBJECTS_LEN] = [0; OBJECTS_LEN];
    let mut places: [u64; PLACES_LEN] = [0; PLACES_LEN];
    let mut calls: [u64; OBJECTS] = [0; OBJECTS];
    let begun = session_begin::begin(&mut tasks, &mut objects, &mut places, ReadyQueue::new());
    let mut queue = begun.queue;
    let mut input = refill(stdin, src, 0, 0);
    let mut number: u64 = 1;
    while number < u64::MAX {
        let ended = input.filled < src.len();
        let window = drive_window::drive_window(
            &mut tasks,
            &mut objects,
            &mut places,
            &mut calls,
            queue,
            &src[..input.filled],
            input.from,
            ended,
            out,
            number,
        );
        if stdout.write_all(&out[..window.at]).is_err() || !window.going {
            return;
        }
        queue = window.queue;
        number = window.number;
        input = ready(stdin, src, window.next, input.filled);
    }
}

fn main(rt: HostRuntime) {
    let mut src = [0u8; 65536];
    let mut out = [0u8; 65536];
    run(rt.stdin(), rt.stdout(), &mut src, &mut out);
}
