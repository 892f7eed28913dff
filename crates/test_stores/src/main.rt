// Damages good stores, a word, a queue entry or a length at a time, and prints what the entries answer. Standard input says it, a line for each
// damage: its name, which is printed, `|`, the letter of a good store, and commands. A command is a letter, a number a, and, behind `=`, a number b.
//   s w g      the good stores: task 1 runs; main is ready; main has a list
//   t o p      word a of the tasks, objects or places is b
//   q n        entry a of the queue is b; the queue's count is a
//   T O P C    a words of the tasks, objects, places and of the call list are lent
//   e          entry a is called with b
//   : ,        prints the letter, a space, and what entry a answers to b; the store stays
//   d .        prints the store; ends the line
// Entry 0 begins a session, the others are document 01's kinds: 1 to 11 the events, 12 `show`, 13 `eager`. A line "changed" would follow where a
// refused call changed something.
#![tactic(auto)]

ghost use Rattle.std.specs.Prelude.{◌≤◌, length};

mod answers; // what an answer prints
mod entries; // an entry of the library, by its number
mod commands; // the commands
mod store; // a store as one value, and its damages
mod text; // bytes and numbers of the text

fn main(rt: HostRuntime) {
    let mut input = [0u8; 8192];
    let n = drive_input::read_full(rt.stdin(), &mut input);
    if n <= 8192 {
        commands::run_lines(rt.stdout(), &input[..n]);
    }
}
