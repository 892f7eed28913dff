// Standard input, read into a buffer: what `drive` and `test_stores` read by.
#![tactic(auto)]

ghost use Rattle.std.specs.Prelude.{◌≤◌, length};

use std::io::{Read, Stdin};

// Reads until `buf` is full, the input ends or a read fails, and returns how many bytes it put at the front of `buf`.
pub fn read_full(mut stdin: Stdin, buf: &mut [u8]) -> usize
    ensures { result ≤ length buf.new }
{
    let mut done: usize = 0;
    while done < buf.len() {
        match stdin.read(&mut buf[done..]) {
            Ok(0) | Err(_) => break,
            Ok(n) => done += n,
        }
    }
    done
}
