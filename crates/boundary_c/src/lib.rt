// What the archive exports: the functions of `boundary` under their names in C. A session's memory is lent as plain arrays, and the
// answer comes back by value, as document 01's numbers; the calls of a wait stand in the list. Functions that end in _unchecked check no store: their
// caller owes a sound one, as memory is that began with `sozgarru_begin` and that only these functions wrote. Made by tools/boundary.py from its table: change it there.
#![tactic(auto)]

ghost use Rattle.std.specs.Prelude.{◌≡◌, None, Some};
ghost use Rattle.asyncio.specs.Numbers.{heap_id};
ghost use Rattle.asyncio.specs.declared.Value.{Value};
ghost use Rattle.machine.specs.Machine as machine;
ghost use Rattle.exec_futures.specs.Results.{results_in};
ghost use Rattle.boundary_lent.specs.Boundary.{BoundaryStep, BoundaryRead, BoundaryPlace, BoundaryBegin, SoundLent, SoundRead, is_sound_lent};

use asyncio::{OBJECTS, Objects, Places, TASKS, Tasks};
use boundary_numbers::Numbers;

// The version of this boundary and of the layout: a host compares it with the one that it was built for.
#[unsafe(no_mangle)]
pub extern "C" fn sozgarru_version() -> u64
    ensures { result ≡ 1 }
{
    boundary::sozgarru_version()
}

// A fresh session, whatever the memory held: main runs, and nothing else exists.
#[unsafe(no_mangle)]
pub extern "C" fn sozgarru_begin(
    tasks: &mut Tasks,
    objects: &mut Objects,
    places: &mut Places,
    ids: &mut [u16; TASKS],
    len: &mut usize,
)
    ensures { BoundaryBegin tasks objects places ids len }
{
    boundary::sozgarru_begin(tasks, objects, places, ids, len);
}

// Is the memory a sound store? For memory that comes from outside, as a snapshot does.
#[unsafe(no_mangle)]
pub extern "C" fn sozgarru_is_sound(
    tasks: &Tasks,
    objects: &Objects,
    places: &Places,
    ids: &[u16; TASKS],
    len: usize,
) -> bool
    ensures { result ≡ is_sound_lent tasks.now objects.now places.now ids.now len }
{
    boundary::sozgarru_is_sound(tasks, objects, places, ids, len)
}

// The running task makes a coroutine of a function. Made: its object.
// Refused with 3 the session has ended, 4 no task runs, 7 a 257th object. Refused also with 2, where the store is not sound.
#[unsafe(no_mangle)]
pub extern "C" fn sozgarru_coroutine(
    tasks: &mut Tasks,
    objects: &mut Objects,
    places: &mut Places,
    calls: &mut [u64; OBJECTS],
    ids: &mut [u16; TASKS],
    len: &mut usize,
    function: u32,
) -> Numbers
    ensures { BoundaryStep tasks objects places calls ids len (machine.Event.coroutine function) result }
{
    boundary::sozgarru_coroutine(tasks, objects, places, calls, ids, len, function)
}

// The running task calls the host. Call: the call's number.
// Refused with 3 the session has ended, 4 no task runs, 8 all numbers are handed out. Refused also with 2, where the store is not sound.
#[unsafe(no_mangle)]
pub extern "C" fn sozgarru_call(
    tasks: &mut Tasks,
    objects: &mut Objects,
    places: &mut Places,
    calls: &mut [u64; OBJECTS],
    ids: &mut [u16; TASKS],
    len: &mut usize,
) -> Numbers
    ensures { BoundaryStep tasks objects places calls ids len machine.Event.call result }
{
    boundary::sozgarru_call(tasks, objects, places, calls, ids, len)
}

// The external future of a call, without a stored result. Made: its object.
// Refused with 3 the session has ended, 4 no task runs, 5 the number was not handed out, 6 it is pending already, 7. Refused also with 2, where the store is not sound.
#[unsafe(no_mangle)]
pub extern "C" fn sozgarru_pending(
    tasks: &mut Tasks,
    objects: &mut Objects,
    places: &mut Places,
    calls: &mut [u64; OBJECTS],
    ids: &mut [u16; TASKS],
    len: &mut usize,
    call: u32,
) -> Numbers
    ensures { BoundaryStep tasks objects places calls ids len (machine.Event.pending call None) result }
{
    boundary::sozgarru_pending(tasks, objects, places, calls, ids, len, call)
}

// The external future of a call, with a stored plain value, which replaces the host's. Made: its object.
// Refused with 3 the session has ended, 4 no task runs, 5, 6, 7. Refused also with 2, where the store is not sound.
#[unsafe(no_mangle)]
pub extern "C" fn sozgarru_pending_plain(
    tasks: &mut Tasks,
    objects: &mut Objects,
    places: &mut Places,
    calls: &mut [u64; OBJECTS],
    ids: &mut [u16; TASKS],
    len: &mut usize,
    call: u32,
    number: u64,
) -> Numbers
    ensures { BoundaryStep tasks objects places calls ids len (machine.Event.pending call (Some (Value.Plain number))) result }
{
    boundary::sozgarru_pending_plain(tasks, objects, places, calls, ids, len, call, number)
}

// The external future of a call, with the list of a gather stored. Made: its object.
// Refused with 3 the session has ended, 4 no task runs, 5 also: the gather is not completed, 6, 7. Refused also with 2, where the store is not sound.
#[unsafe(no_mangle)]
pub extern "C" fn sozgarru_pending_list(
    tasks: &mut Tasks,
    objects: &mut Objects,
    places: &mut Places,
    calls: &mut [u64; OBJECTS],
    ids: &mut [u16; TASKS],
    len: &mut usize,
    call: u32,
    gather: u16,
) -> Numbers
    ensures { BoundaryStep tasks objects places calls ids len (machine.Event.pending call (Some (Value.List (heap_id gather)))) result }
{
    boundary::sozgarru_pending_list(tasks, objects, places, calls, ids, len, call, gather)
}

// An external future that has a plain value already; it is handed a call number too. Made: its object.
// Refused with 3 the session has ended, 4 no task runs, 7, 8. Refused also with 2, where the store is not sound.
#[unsafe(no_mangle)]
pub extern "C" fn sozgarru_settled_plain(
    tasks: &mut Tasks,
    objects: &mut Objects,
    places: &mut Places,
    calls: &mut [u64; OBJECTS],
    ids: &mut [u16; TASKS],
    len: &mut usize,
    number: u64,
) -> Numbers
    ensures { BoundaryStep tasks objects places calls ids len (machine.Event.settled (Value.Plain number)) result }
{
    boundary::sozgarru_settled_plain(tasks, objects, places, calls, ids, len, number)
}

// An external future that has the list of a gather already. Made: its object.
// Refused with 3 the session has ended, 4 no task runs, 5 the gather is not completed, 7, 8. Refused also with 2, where the store is not sound.
#[unsafe(no_mangle)]
pub extern "C" fn sozgarru_settled_list(
    tasks: &mut Tasks,
    objects: &mut Objects,
    places: &mut Places,
    calls: &mut [u64; OBJECTS],
    ids: &mut [u16; TASKS],
    len: &mut usize,
    gather: u16,
) -> Numbers
    ensures { BoundaryStep tasks objects places calls ids len (machine.Event.settled (Value.List (heap_id gather))) result }
{
    boundary::sozgarru_settled_list(tasks, objects, places, calls, ids, len, gather)
}

// A gather of objects, by their numbers, however many. Made: its object.
// Refused with 3 the session has ended, 4 no task runs, 5 an object is not made, 7 (also over 32 items, over 512 places). Refused also with 2, where the store is not sound.
#[unsafe(no_mangle)]
pub extern "C" fn sozgarru_gather(
    tasks: &mut Tasks,
    objects: &mut Objects,
    places: &mut Places,
    calls: &mut [u64; OBJECTS],
    ids: &mut [u16; TASKS],
    len: &mut usize,
    items: &[u16],
) -> Numbers
    ensures { BoundaryStep tasks objects places calls ids len (machine.Event.gather items.now) result }
{
    boundary::sozgarru_gather(tasks, objects, places, calls, ids, len, items)
}

// The running task awaits an object. Runs or waits, and the commit steps.
// Refused with 3 the session has ended, 4 no task runs, 5 the object is not made. Refused also with 2, where the store is not sound.
#[unsafe(no_mangle)]
pub extern "C" fn sozgarru_await(
    tasks: &mut Tasks,
    objects: &mut Objects,
    places: &mut Places,
    calls: &mut [u64; OBJECTS],
    ids: &mut [u16; TASKS],
    len: &mut usize,
    object: u16,
) -> Numbers
    ensures { BoundaryStep tasks objects places calls ids len (machine.Event.await object) result }
{
    boundary::sozgarru_await(tasks, objects, places, calls, ids, len, object)
}

// The running task returns a plain value. Runs or waits; of main: finished.
// Refused with 3 the session has ended, 4 no task runs. Refused also with 2, where the store is not sound.
#[unsafe(no_mangle)]
pub extern "C" fn sozgarru_complete_plain(
    tasks: &mut Tasks,
    objects: &mut Objects,
    places: &mut Places,
    calls: &mut [u64; OBJECTS],
    ids: &mut [u16; TASKS],
    len: &mut usize,
    number: u64,
) -> Numbers
    ensures { BoundaryStep tasks objects places calls ids len (machine.Event.complete (Value.Plain number)) result }
{
    boundary::sozgarru_complete_plain(tasks, objects, places, calls, ids, len, number)
}

// The running task returns the list of a gather. Runs or waits; of main: finished.
// Refused with 3 the session has ended, 4 no task runs, 5 the gather is not completed. Refused also with 2, where the store is not sound.
#[unsafe(no_mangle)]
pub extern "C" fn sozgarru_complete_list(
    tasks: &mut Tasks,
    objects: &mut Objects,
    places: &mut Places,
    calls: &mut [u64; OBJECTS],
    ids: &mut [u16; TASKS],
    len: &mut usize,
    gather: u16,
) -> Numbers
    ensures { BoundaryStep tasks objects places calls ids len (machine.Event.complete (Value.List (heap_id gather))) result }
{
    boundary::sozgarru_complete_list(tasks, objects, places, calls, ids, len, gather)
}

// The running task raises the error script n. Runs or waits; of main: finished.
// Refused with 3 the session has ended, 4 no task runs. Refused also with 2, where the store is not sound.
#[unsafe(no_mangle)]
pub extern "C" fn sozgarru_fail(
    tasks: &mut Tasks,
    objects: &mut Objects,
    places: &mut Places,
    calls: &mut [u64; OBJECTS],
    ids: &mut [u16; TASKS],
    len: &mut usize,
    number: u32,
) -> Numbers
    ensures { BoundaryStep tasks objects places calls ids len (machine.Event.fail number) result }
{
    boundary::sozgarru_fail(tasks, objects, places, calls, ids, len, number)
}

// The host answers calls: 14 bytes each (call 4, kind 1, tag 1, value 8), a rest of 1 to 13 bytes is not read. Tasks woken go to the queue's back, lowest first. Done.
// Refused with 3 the session has ended, 5 a list of a gather not completed, 10 over 64 results or one that is none; then nothing is applied. Refused also with 2, where the store is not sound.
#[unsafe(no_mangle)]
pub extern "C" fn sozgarru_results(
    tasks: &mut Tasks,
    objects: &mut Objects,
    places: &mut Places,
    calls: &mut [u64; OBJECTS],
    ids: &mut [u16; TASKS],
    len: &mut usize,
    results: &[u8],
) -> Numbers
    ensures { BoundaryStep tasks objects places calls ids len (machine.Event.results (results_in results.now)) result }
{
    boundary::sozgarru_results(tasks, objects, places, calls, ids, len, results)
}

// The host hands control back. Runs; waits, where nothing is ready; stalled, where no call is pending either.
// Refused with 3 the session has ended, 4 a task runs. Refused also with 2, where the store is not sound.
#[unsafe(no_mangle)]
pub extern "C" fn sozgarru_resume(
    tasks: &mut Tasks,
    objects: &mut Objects,
    places: &mut Places,
    calls: &mut [u64; OBJECTS],
    ids: &mut [u16; TASKS],
    len: &mut usize,
) -> Numbers
    ensures { BoundaryStep tasks objects places calls ids len machine.Event.resume result }
{
    boundary::sozgarru_resume(tasks, objects, places, calls, ids, len)
}

// The operator cancels a task, and the tasks below the gather that it waits for. Done, with the number of removed tasks that stood in the ready queue.
// Refused with 3 the session has ended, 4 a task runs, 5 the task is not live, 9 it is main. Refused also with 2, where the store is not sound.
#[unsafe(no_mangle)]
pub extern "C" fn sozgarru_cancel(
    tasks: &mut Tasks,
    objects: &mut Objects,
    places: &mut Places,
    calls: &mut [u64; OBJECTS],
    ids: &mut [u16; TASKS],
    len: &mut usize,
    task: u16,
) -> Numbers
    ensures { BoundaryStep tasks objects places calls ids len (machine.Event.cancel task) result }
{
    boundary::sozgarru_cancel(tasks, objects, places, calls, ids, len, task)
}

// May the host answer a call at once: is no task ready and no call pending? Eager: 1 yes, 0 no.
// Refused also with 2, where the store is not sound.
#[unsafe(no_mangle)]
pub extern "C" fn sozgarru_eager(
    tasks: &Tasks,
    objects: &Objects,
    places: &Places,
    ids: &[u16; TASKS],
    len: usize,
) -> Numbers
    ensures { BoundaryRead tasks.now objects.now places.now ids.now len machine.Event.eager result }
{
    boundary::sozgarru_eager(tasks, objects, places, ids, len)
}

// What an object is and has. Shows: sort, state, and what document 01 lists; of an awaited or completed gather how many places it has.
// Refused with 5 the object is not made. Refused also with 2, where the store is not sound.
#[unsafe(no_mangle)]
pub extern "C" fn sozgarru_show(
    tasks: &Tasks,
    objects: &Objects,
    places: &Places,
    ids: &[u16; TASKS],
    len: usize,
    object: u16,
) -> Numbers
    ensures { BoundaryRead tasks.now objects.now places.now ids.now len (machine.Event.show object) result }
{
    boundary::sozgarru_show(tasks, objects, places, ids, len, object)
}

// A place of an awaited or completed gather, from 0. Shows: 0 where it is open; 1 and the value's tag and number.
// Refused with 5 the object is not made, or shows no such place. Refused also with 2, where the store is not sound.
#[unsafe(no_mangle)]
pub extern "C" fn sozgarru_place(
    tasks: &Tasks,
    objects: &Objects,
    places: &Places,
    ids: &[u16; TASKS],
    len: usize,
    object: u16,
    place: u16,
) -> Numbers
    ensures { BoundaryPlace tasks.now objects.now places.now ids.now len object place result }
{
    boundary::sozgarru_place(tasks, objects, places, ids, len, object, place)
}

// The running task makes a coroutine of a function. Made: its object.
// Refused with 3 the session has ended, 4 no task runs, 7 a 257th object. The caller owes a sound store: nothing is checked.
#[unsafe(no_mangle)]
pub extern "C" fn sozgarru_coroutine_unchecked(
    tasks: &mut Tasks,
    objects: &mut Objects,
    places: &mut Places,
    calls: &mut [u64; OBJECTS],
    ids: &mut [u16; TASKS],
    len: &mut usize,
    function: u32,
) -> Numbers
    requires { SoundLent tasks.old objects.old places.old ids.old len.old }
    ensures { BoundaryStep tasks objects places calls ids len (machine.Event.coroutine function) result }
{
    boundary::sozgarru_coroutine_unchecked(tasks, objects, places, calls, ids, len, function)
}

// The running task calls the host. Call: the call's number.
// Refused with 3 the session has ended, 4 no task runs, 8 all numbers are handed out. The caller owes a sound store: nothing is checked.
#[unsafe(no_mangle)]
pub extern "C" fn sozgarru_call_unchecked(
    tasks: &mut Tasks,
    objects: &mut Objects,
    places: &mut Places,
    calls: &mut [u64; OBJECTS],
    ids: &mut [u16; TASKS],
    len: &mut usize,
) -> Numbers
    requires { SoundLent tasks.old objects.old places.old ids.old len.old }
    ensures { BoundaryStep tasks objects places calls ids len machine.Event.call result }
{
    boundary::sozgarru_call_unchecked(tasks, objects, places, calls, ids, len)
}

// The external future of a call, without a stored result. Made: its object.
// Refused with 3 the session has ended, 4 no task runs, 5 the number was not handed out, 6 it is pending already, 7. The caller owes a sound store: nothing is checked.
#[unsafe(no_mangle)]
pub extern "C" fn sozgarru_pending_unchecked(
    tasks: &mut Tasks,
    objects: &mut Objects,
    places: &mut Places,
    calls: &mut [u64; OBJECTS],
    ids: &mut [u16; TASKS],
    len: &mut usize,
    call: u32,
) -> Numbers
    requires { SoundLent tasks.old objects.old places.old ids.old len.old }
    ensures { BoundaryStep tasks objects places calls ids len (machine.Event.pending call None) result }
{
    boundary::sozgarru_pending_unchecked(tasks, objects, places, calls, ids, len, call)
}

// The external future of a call, with a stored plain value, which replaces the host's. Made: its object.
// Refused with 3 the session has ended, 4 no task runs, 5, 6, 7. The caller owes a sound store: nothing is checked.
#[unsafe(no_mangle)]
pub extern "C" fn sozgarru_pending_plain_unchecked(
    tasks: &mut Tasks,
    objects: &mut Objects,
    places: &mut Places,
    calls: &mut [u64; OBJECTS],
    ids: &mut [u16; TASKS],
    len: &mut usize,
    call: u32,
    number: u64,
) -> Numbers
    requires { SoundLent tasks.old objects.old places.old ids.old len.old }
    ensures { BoundaryStep tasks objects places calls ids len (machine.Event.pending call (Some (Value.Plain number))) result }
{
    boundary::sozgarru_pending_plain_unchecked(
        tasks, objects, places, calls, ids, len, call, number,
    )
}

// The external future of a call, with the list of a gather stored. Made: its object.
// Refused with 3 the session has ended, 4 no task runs, 5 also: the gather is not completed, 6, 7. The caller owes a sound store: nothing is checked.
#[unsafe(no_mangle)]
pub extern "C" fn sozgarru_pending_list_unchecked(
    tasks: &mut Tasks,
    objects: &mut Objects,
    places: &mut Places,
    calls: &mut [u64; OBJECTS],
    ids: &mut [u16; TASKS],
    len: &mut usize,
    call: u32,
    gather: u16,
) -> Numbers
    requires { SoundLent tasks.old objects.old places.old ids.old len.old }
    ensures { BoundaryStep tasks objects places calls ids len (machine.Event.pending call (Some (Value.List (heap_id gather)))) result }
{
    boundary::sozgarru_pending_list_unchecked(tasks, objects, places, calls, ids, len, call, gather)
}

// An external future that has a plain value already; it is handed a call number too. Made: its object.
// Refused with 3 the session has ended, 4 no task runs, 7, 8. The caller owes a sound store: nothing is checked.
#[unsafe(no_mangle)]
pub extern "C" fn sozgarru_settled_plain_unchecked(
    tasks: &mut Tasks,
    objects: &mut Objects,
    places: &mut Places,
    calls: &mut [u64; OBJECTS],
    ids: &mut [u16; TASKS],
    len: &mut usize,
    number: u64,
) -> Numbers
    requires { SoundLent tasks.old objects.old places.old ids.old len.old }
    ensures { BoundaryStep tasks objects places calls ids len (machine.Event.settled (Value.Plain number)) result }
{
    boundary::sozgarru_settled_plain_unchecked(tasks, objects, places, calls, ids, len, number)
}

// An external future that has the list of a gather already. Made: its object.
// Refused with 3 the session has ended, 4 no task runs, 5 the gather is not completed, 7, 8. The caller owes a sound store: nothing is checked.
#[unsafe(no_mangle)]
pub extern "C" fn sozgarru_settled_list_unchecked(
    tasks: &mut Tasks,
    objects: &mut Objects,
    places: &mut Places,
    calls: &mut [u64; OBJECTS],
    ids: &mut [u16; TASKS],
    len: &mut usize,
    gather: u16,
) -> Numbers
    requires { SoundLent tasks.old objects.old places.old ids.old len.old }
    ensures { BoundaryStep tasks objects places calls ids len (machine.Event.settled (Value.List (heap_id gather))) result }
{
    boundary::sozgarru_settled_list_unchecked(tasks, objects, places, calls, ids, len, gather)
}

// A gather of objects, by their numbers, however many. Made: its object.
// Refused with 3 the session has ended, 4 no task runs, 5 an object is not made, 7 (also over 32 items, over 512 places). The caller owes a sound store: nothing is checked.
#[unsafe(no_mangle)]
pub extern "C" fn sozgarru_gather_unchecked(
    tasks: &mut Tasks,
    objects: &mut Objects,
    places: &mut Places,
    calls: &mut [u64; OBJECTS],
    ids: &mut [u16; TASKS],
    len: &mut usize,
    items: &[u16],
) -> Numbers
    requires { SoundLent tasks.old objects.old places.old ids.old len.old }
    ensures { BoundaryStep tasks objects places calls ids len (machine.Event.gather items.now) result }
{
    boundary::sozgarru_gather_unchecked(tasks, objects, places, calls, ids, len, items)
}

// The running task awaits an object. Runs or waits, and the commit steps.
// Refused with 3 the session has ended, 4 no task runs, 5 the object is not made. The caller owes a sound store: nothing is checked.
#[unsafe(no_mangle)]
pub extern "C" fn sozgarru_await_unchecked(
    tasks: &mut Tasks,
    objects: &mut Objects,
    places: &mut Places,
    calls: &mut [u64; OBJECTS],
    ids: &mut [u16; TASKS],
    len: &mut usize,
    object: u16,
) -> Numbers
    requires { SoundLent tasks.old objects.old places.old ids.old len.old }
    ensures { BoundaryStep tasks objects places calls ids len (machine.Event.await object) result }
{
    boundary::sozgarru_await_unchecked(tasks, objects, places, calls, ids, len, object)
}

// The running task returns a plain value. Runs or waits; of main: finished.
// Refused with 3 the session has ended, 4 no task runs. The caller owes a sound store: nothing is checked.
#[unsafe(no_mangle)]
pub extern "C" fn sozgarru_complete_plain_unchecked(
    tasks: &mut Tasks,
    objects: &mut Objects,
    places: &mut Places,
    calls: &mut [u64; OBJECTS],
    ids: &mut [u16; TASKS],
    len: &mut usize,
    number: u64,
) -> Numbers
    requires { SoundLent tasks.old objects.old places.old ids.old len.old }
    ensures { BoundaryStep tasks objects places calls ids len (machine.Event.complete (Value.Plain number)) result }
{
    boundary::sozgarru_complete_plain_unchecked(tasks, objects, places, calls, ids, len, number)
}

// The running task returns the list of a gather. Runs or waits; of main: finished.
// Refused with 3 the session has ended, 4 no task runs, 5 the gather is not completed. The caller owes a sound store: nothing is checked.
#[unsafe(no_mangle)]
pub extern "C" fn sozgarru_complete_list_unchecked(
    tasks: &mut Tasks,
    objects: &mut Objects,
    places: &mut Places,
    calls: &mut [u64; OBJECTS],
    ids: &mut [u16; TASKS],
    len: &mut usize,
    gather: u16,
) -> Numbers
    requires { SoundLent tasks.old objects.old places.old ids.old len.old }
    ensures { BoundaryStep tasks objects places calls ids len (machine.Event.complete (Value.List (heap_id gather))) result }
{
    boundary::sozgarru_complete_list_unchecked(tasks, objects, places, calls, ids, len, gather)
}

// The running task raises the error script n. Runs or waits; of main: finished.
// Refused with 3 the session has ended, 4 no task runs. The caller owes a sound store: nothing is checked.
#[unsafe(no_mangle)]
pub extern "C" fn sozgarru_fail_unchecked(
    tasks: &mut Tasks,
    objects: &mut Objects,
    places: &mut Places,
    calls: &mut [u64; OBJECTS],
    ids: &mut [u16; TASKS],
    len: &mut usize,
    number: u32,
) -> Numbers
    requires { SoundLent tasks.old objects.old places.old ids.old len.old }
    ensures { BoundaryStep tasks objects places calls ids len (machine.Event.fail number) result }
{
    boundary::sozgarru_fail_unchecked(tasks, objects, places, calls, ids, len, number)
}

// The host answers calls: 14 bytes each (call 4, kind 1, tag 1, value 8), a rest of 1 to 13 bytes is not read. Tasks woken go to the queue's back, lowest first. Done.
// Refused with 3 the session has ended, 5 a list of a gather not completed, 10 over 64 results or one that is none; then nothing is applied. The caller owes a sound store: nothing is checked.
#[unsafe(no_mangle)]
pub extern "C" fn sozgarru_results_unchecked(
    tasks: &mut Tasks,
    objects: &mut Objects,
    places: &mut Places,
    calls: &mut [u64; OBJECTS],
    ids: &mut [u16; TASKS],
    len: &mut usize,
    results: &[u8],
) -> Numbers
    requires { SoundLent tasks.old objects.old places.old ids.old len.old }
    ensures { BoundaryStep tasks objects places calls ids len (machine.Event.results (results_in results.now)) result }
{
    boundary::sozgarru_results_unchecked(tasks, objects, places, calls, ids, len, results)
}

// The host hands control back. Runs; waits, where nothing is ready; stalled, where no call is pending either.
// Refused with 3 the session has ended, 4 a task runs. The caller owes a sound store: nothing is checked.
#[unsafe(no_mangle)]
pub extern "C" fn sozgarru_resume_unchecked(
    tasks: &mut Tasks,
    objects: &mut Objects,
    places: &mut Places,
    calls: &mut [u64; OBJECTS],
    ids: &mut [u16; TASKS],
    len: &mut usize,
) -> Numbers
    requires { SoundLent tasks.old objects.old places.old ids.old len.old }
    ensures { BoundaryStep tasks objects places calls ids len machine.Event.resume result }
{
    boundary::sozgarru_resume_unchecked(tasks, objects, places, calls, ids, len)
}

// The operator cancels a task, and the tasks below the gather that it waits for. Done, with the number of removed tasks that stood in the ready queue.
// Refused with 3 the session has ended, 4 a task runs, 5 the task is not live, 9 it is main. The caller owes a sound store: nothing is checked.
#[unsafe(no_mangle)]
pub extern "C" fn sozgarru_cancel_unchecked(
    tasks: &mut Tasks,
    objects: &mut Objects,
    places: &mut Places,
    calls: &mut [u64; OBJECTS],
    ids: &mut [u16; TASKS],
    len: &mut usize,
    task: u16,
) -> Numbers
    requires { SoundLent tasks.old objects.old places.old ids.old len.old }
    ensures { BoundaryStep tasks objects places calls ids len (machine.Event.cancel task) result }
{
    boundary::sozgarru_cancel_unchecked(tasks, objects, places, calls, ids, len, task)
}

// May the host answer a call at once: is no task ready and no call pending? Eager: 1 yes, 0 no.
// The caller owes a sound store: nothing is checked.
#[unsafe(no_mangle)]
pub extern "C" fn sozgarru_eager_unchecked(
    tasks: &Tasks,
    objects: &Objects,
    places: &Places,
    ids: &[u16; TASKS],
    len: usize,
) -> Numbers
    requires { SoundRead tasks.now objects.now places.now ids.now len }
    ensures { BoundaryRead tasks.now objects.now places.now ids.now len machine.Event.eager result }
{
    boundary::sozgarru_eager_unchecked(tasks, objects, places, ids, len)
}

// What an object is and has. Shows: sort, state, and what document 01 lists; of an awaited or completed gather how many places it has.
// Refused with 5 the object is not made. The caller owes a sound store: nothing is checked.
#[unsafe(no_mangle)]
pub extern "C" fn sozgarru_show_unchecked(
    tasks: &Tasks,
    objects: &Objects,
    places: &Places,
    ids: &[u16; TASKS],
    len: usize,
    object: u16,
) -> Numbers
    requires { SoundRead tasks.now objects.now places.now ids.now len }
    ensures { BoundaryRead tasks.now objects.now places.now ids.now len (machine.Event.show object) result }
{
    boundary::sozgarru_show_unchecked(tasks, objects, places, ids, len, object)
}

// A place of an awaited or completed gather, from 0. Shows: 0 where it is open; 1 and the value's tag and number.
// Refused with 5 the object is not made, or shows no such place. The caller owes a sound store: nothing is checked.
#[unsafe(no_mangle)]
pub extern "C" fn sozgarru_place_unchecked(
    tasks: &Tasks,
    objects: &Objects,
    places: &Places,
    ids: &[u16; TASKS],
    len: usize,
    object: u16,
    place: u16,
) -> Numbers
    requires { SoundRead tasks.now objects.now places.now ids.now len }
    ensures { BoundaryPlace tasks.now objects.now places.now ids.now len object place result }
{
    boundary::sozgarru_place_unchecked(tasks, objects, places, ids, len, object, place)
}
