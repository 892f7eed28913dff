// The commands.
ghost use Rattle.std.specs.Prelude.{◌<◌, length};

use crate::answers::write_entry;
use crate::entries::entered;
use crate::store::Store;
use crate::text::{Command, read_command, split_before};
use drive_text::Writer;
use std::io::{Stdout, Write};
use test_print::write_store;

// The store without the words too many.
fn write_lent(out: &mut Writer, store: &Store) {
    if let (Some(tasks), Some(objects)) = (store.tasks.first_chunk(), store.objects.first_chunk()) {
        write_store(out, tasks, objects, &store.queue);
    }
}

// What a command prints, and what it makes of the store.
fn run_command(out: &mut Writer, store: &mut Store, c: Command) {
    match c.letter {
        b':' | b',' => write_entry(out, store, c),
        b'.' => out.put_byte(b'\n'),
        b'd' => write_lent(out, store),
        b'e' => {
            let _ = entered(store, &mut [7; 257], c.a, c.b);
        }
        _ => store.damage(c),
    }
}

// The commands of a text; what they print goes to the buffer.
fn run(out: &mut Writer, store: &mut Store, text: &[u8]) {
    let mut rest = text;
    while let Some((c, behind)) = read_command(rest) {
        run_command(out, store, c);
        rest = behind;
    }
}

// The store to begin with. `w`: main awaits a call, and its value has come. `g`: the coroutines 0 and 1 and the external 2 are in gather 3, which
// main awaits, and it has its three values. `s`: the same before the values; task 1 runs, task 2 is ready, and task 1 has made the external 4,
// of call 1, and gather 5 of it.
fn store_named(letter: u8) -> Store {
    let events: &[u8] = match letter {
        b'w' => b"e0 e2 e3=0 e6=0 e9",
        b'g' => b"e0 e1=7 e1=8 e2 e3=0 e5=3 e6=3 e7=0 e7=0 e9",
        _ => b"e0 e1=7 e1=8 e2 e3=0 e5=3 e6=3 e2 e3=1 e5=41",
    };
    let mut store = Store::unused();
    run(&mut Writer::new(&mut [0; 1], 0), &mut store, events);
    store
}

// A line: its name, and from the bar on the letter of a store, and commands. A write that fails changes nothing else.
fn run_line(mut stdout: Stdout, name: &[u8], from_bar: &[u8]) {
    let Some((_, [letter, commands @ ..])) = read_command(from_bar) else {
        return;
    };
    let mut out = [0; 1024];
    let mut line = Writer::new(&mut out, 0);
    line.put_text(name);
    run(&mut line, &mut store_named(*letter), commands);
    let end = line.at;
    if end <= out.len() {
        let _ = stdout.write_all(&out[..end]);
    }
}

pub(crate) fn run_lines(stdout: Stdout, text: &[u8]) {
    let mut rest = text;
    while !rest.is_empty() {
        let (line, behind) = split_before(rest, b'\n');
        let (name, from_bar) = split_before(line, b'|');
        run_line(stdout, name, from_bar);
        rest = match behind {
            [_, next @ ..] => next,
            [] => behind,
        };
    }
}
