// The host's example of docs/HOST.md: every entry of `session`, and refusals.
// Document 01's worked example goes event by event through the entries, and
// then comes what else a host meets: a wait that is repeated, refusals 1, 2 and others, reads, a session that ends with an error, a task cancelled. Each
// line is the answer as `drive` writes it; a line that begins with 0 is that of a beginning.
#![tactic(auto)]

mod host; // the memory that the host lends, and keeps
mod lines; // an answer's line

use asyncio::Value;
use host::Host;
use session::Event;

// Records 1 to 5 of document 01's worked example: main awaits the gather of objects 0, 1 and 0, and task 1 starts.
fn await_gather(host: &mut Host) {
    host.enter(1, Event::Coroutine(7));
    host.enter(2, Event::Call);
    host.enter(
        3,
        Event::Pending {
            call: 0,
            stored: None,
        },
    );
    host.enter(4, Event::Gather);
    host.enter(5, Event::Await(2));
}

// The example to its record 8, and a resume more at 7, which repeats the wait. The results are one: plain 5 for call 0.
fn worked_example(host: &mut Host) {
    await_gather(host);
    host.enter(6, Event::Complete(Value::Plain(40)));
    host.enter(7, Event::Resume);
    host.enter(8, Event::Results);
    host.enter(9, Event::Resume);
    host.read(10, 2);
}

// Task 1 is cancelled while it waits for call 1: the gather stays awaited. The same task again is not live (5); main is 9.
fn cancels(host: &mut Host) {
    await_gather(host);
    host.enter(6, Event::Call);
    host.enter(
        7,
        Event::Pending {
            call: 1,
            stored: None,
        },
    );
    host.enter(8, Event::Await(3));
    host.enter(9, Event::Cancel(1));
    host.enter(10, Event::Cancel(1));
    host.enter(11, Event::Cancel(0));
    host.read(12, 2);
}

// A call list of 255 words is 1; a store that is not sound is 2; an object not made 5; a resume while a task runs 4.
fn refusals(host: &mut Host) {
    host.enter_short(11, Event::Call);
    host.enter_damaged(12, Event::Call);
    host.enter(13, Event::Await(9));
    host.enter(14, Event::Resume);
}

fn main(rt: HostRuntime) {
    let stdout = rt.stdout();
    let mut host = Host::begin(stdout);
    worked_example(&mut host);
    refusals(&mut host);
    host.enter(15, Event::Settled(Value::Plain(3)));
    host.enter(16, Event::Complete(Value::Plain(9)));
    host.enter(17, Event::Call);
    Host::begin(stdout).enter(18, Event::Fail(5));
    cancels(&mut Host::begin(stdout));
}
