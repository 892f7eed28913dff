// Clause 6: in a session not ended, pending calls and pending externals match one to one: no two have one call.
ghost use Rattle.std.specs.Prelude.{◌≡◌, ◌+◌, ◌<◌, ◌≤◌};
ghost use Rattle.asyncio.specs.Limits.{object_limit};
ghost use Rattle.rows.specs.Slices.{object_in};
ghost use Rattle.machine.specs.Tests.{all_below};
ghost use Rattle.machine.specs.Sound.{call_new, calls_distinct};
ghost use Rattle.sound_tasks.specs.CallLaws.{pending_call, other_call};

use asyncio::{CallId, Header, HeapId, Moment, Objects};
use rows::parts::{call_at, kind_at};

// The call of a pending external. No other object has one.
fn pending_call(objects: &Objects, o: HeapId) -> Option<CallId>
    requires { o.0 < object_limit }
    ensures { result ≡ pending_call objects.now o.0 }
{
    if kind_at(objects, o).is_pending_external() {
        Some(call_at(objects, o))
    } else {
        None
    }
}

// Object `p` has no pending call, or another than `c`.
fn other_call(objects: &Objects, c: CallId, p: HeapId) -> bool
    requires { p.0 < object_limit }
    ensures { result ≡ other_call objects.now (c.0 + 1) p.0 }
{
    match pending_call(objects, p) {
        Some(d) => d != c,
        None => true,
    }
}

// No object below `n` has the pending call `c`.
fn others_differ(objects: &Objects, c: CallId, n: u16) -> bool
    requires { n ≤ object_limit }
    ensures { result ≡ all_below n (other_call objects.now (c.0 + 1)) }
{
    (0..n).all(|p| other_call(objects, c, HeapId(p)))
}

// The pending calls so far are all below `free`. A call from there on is new, and only another one is looked for among those before it.
fn calls_new(objects: &Objects, made: u16) -> bool
    requires { made ≤ object_limit }
    ensures { result ≡ all_below made (call_new (object_in objects)) }
{
    let mut free: u64 = 0;
    for o in 0..made {
        if let Some(c) = pending_call(objects, HeapId(o)) {
            if free <= c.word() {
                free = c.word() + 1;
            } else if !others_differ(objects, c, o) {
                return false;
            }
        }
    }
    true
}

pub fn calls_distinct(header: Header, objects: &Objects) -> bool
    requires { header.made ≤ object_limit }
    ensures { result ≡ calls_distinct header (object_in objects) }
{
    matches!(header.moment, Moment::Ended) || calls_new(objects, header.made)
}
