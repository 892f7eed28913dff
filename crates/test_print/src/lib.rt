// What `test_stores` prints of a store: a line for each row and for the queue, the words of docs/LAYOUT.md in decimal.
#![tactic(auto)]

ghost use Rattle.std.specs.Prelude.{◌*◌, ◌<◌, ◌≤◌};
ghost use Rattle.asyncio.specs.Limits.{task_limit, object_limit};
ghost use Rattle.drive_text.specs.Writing.{Puts};
ghost use Rattle.test_print.specs.Printing.{task_text, object_text, entry_text, queue_text, rows_text, store_text, store_limit, PutsRow};

use asyncio::words::{object_words, task_words};
use asyncio::{HeapId, Objects, TASKS, TaskId, Tasks};
use drive_text::Writer;
use queue::ReadyQueue;
use rows::tables::{load_header, load_object, load_task};

// A line: a name and numbers.
pub fn write_row(out: &mut Writer, name: &[u8], words: &[u64])
    ensures { PutsRow out name.now words.now }
{
    out.put_text(name);
    out.put_numbers(words);
    out.put_byte(b'\n');
}

pub fn write_object(out: &mut Writer, objects: &Objects, o: HeapId)
    requires { o.0 < object_limit }
    ensures { Puts 175 out (object_text objects.now o.0) }
{
    write_row(out, b"object", &object_words(load_object(objects, o)));
}

pub fn write_task(out: &mut Writer, tasks: &Tasks, t: TaskId)
    requires { t.0 < task_limit }
    ensures { Puts 173 out (task_text tasks.now t.0) }
{
    write_row(out, b"task", &task_words(load_task(tasks, t)));
}

// The numbers in a queue, each after a space.
fn put_entries(out: &mut Writer, queue: &ReadyQueue)
    requires { queue.now.len ≤ task_limit }
    ensures { Puts (21 * queue.now.len) out (rows_text (entry_text queue.now) queue.now.len) }
{
    for &t in &queue.ids[..queue.len] {
        out.put_field(t as u64);
    }
}

// The numbers of the queued tasks, front first. A queue whose count is above 513 is none, and nothing is written.
pub fn write_queue(out: &mut Writer, queue: &ReadyQueue)
    ensures { Puts 10779 out (queue_text queue.now) }
{
    if queue.len > TASKS {
        return;
    }
    out.put_text(b"ready");
    put_entries(out, queue);
    out.put_byte(b'\n');
}

// ---- a whole store

// The tasks below `n`.
pub fn write_tasks(out: &mut Writer, tasks: &Tasks, n: u16)
    requires { n ≤ task_limit }
    ensures { Puts (173 * n) out (rows_text (task_text tasks.now) n) }
{
    for t in 0..n {
        write_task(out, tasks, TaskId(t));
    }
}

// The objects below `n`.
pub fn write_objects(out: &mut Writer, objects: &Objects, n: u16)
    requires { n ≤ object_limit }
    ensures { Puts (175 * n) out (rows_text (object_text objects.now) n) }
{
    for o in 0..n {
        write_object(out, objects, HeapId(o));
    }
}

// The tasks and objects in use, by number, and the queue.
pub fn write_store(out: &mut Writer, tasks: &Tasks, objects: &Objects, queue: &ReadyQueue)
    ensures { Puts store_limit out (store_text tasks.now objects.now queue.now) }
{
    let header = load_header(objects);
    write_tasks(out, tasks, header.next);
    write_objects(out, objects, header.made);
    write_queue(out, queue);
}
