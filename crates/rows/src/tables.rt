// The rows of the lent slices, loaded and stored: 513 tasks; a header and 256 objects; 512 places. Each function equals its accessor
// in specs/Tables.
ghost use Rattle.std.specs.Prelude.{◌≡◌, ◌+◌, ◌≤◌, ◌<◌, length};
ghost use Rattle.asyncio.specs.Limits.{task_limit, object_limit, place_limit};
ghost use Rattle.rows.specs.Rows.{row_from, put_from};
ghost use Rattle.rows.specs.Tables.{task_start, object_start, place_start, task_put, place_put, object_put, header_at, header_put};
ghost use Rattle.rows.specs.Slices.{task_in, object_in, place_in};

use asyncio::words::{
    header_words, object_words, place_words, task_words, to_header, to_object, to_place, to_task,
};
use asyncio::{Header, HeapId, Object, Objects, Place, Places, Task, TaskId, Tasks};

// ---- a row of any width

fn load<const N: usize>(w: &[u64], at: usize) -> [u64; N]
    requires { at + N ≤ length w.now }
    ensures { result ≡ row_from w.now at 0 N }
{
    let mut row = [0; N];
    row.copy_from_slice(&w[at..at + N]);
    row
}

fn store(w: &mut [u64], at: usize, row: &[u64])
    requires { at + length row.now ≤ length w.old }
    ensures { w.new ≡ put_from w.old at 0 row.now }
{
    w[at..at + row.len()].copy_from_slice(row);
}

// ---- tasks

// The words of its row.
pub fn task_row(tasks: &Tasks, t: usize) -> [u64; 8]
    requires { t < task_limit }
    ensures { result ≡ row_from tasks.now (task_start t) 0 8 }
{
    load(tasks, t * 8)
}

pub fn load_task(tasks: &Tasks, t: TaskId) -> Task
    requires { t.0 < task_limit }
    ensures { result ≡ task_in tasks t.0 }
{
    to_task(task_row(tasks, t.0 as usize))
}

pub fn store_task(tasks: &mut Tasks, t: TaskId, r: Task)
    requires { t.0 < task_limit }
    ensures { tasks.new ≡ task_put tasks.old t.0 r }
{
    store(tasks, t.0 as usize * 8, &task_words(r));
}

// ---- objects, behind the header's row

// The words of its row.
pub fn object_row(objects: &Objects, o: usize) -> [u64; 8]
    requires { o < object_limit }
    ensures { result ≡ row_from objects.now (object_start o) 0 8 }
{
    load(objects, o * 8 + 8)
}

pub fn load_object(objects: &Objects, o: HeapId) -> Object
    requires { o.0 < object_limit }
    ensures { result ≡ object_in objects o.0 }
{
    to_object(object_row(objects, o.0 as usize))
}

pub fn store_object(objects: &mut Objects, o: HeapId, r: Object)
    requires { o.0 < object_limit }
    ensures { objects.new ≡ object_put objects.old o.0 r }
{
    store(objects, o.0 as usize * 8 + 8, &object_words(r));
}

// The words of the header's row.
pub fn header_row(objects: &Objects) -> [u64; 8]
    ensures { result ≡ row_from objects.now 0 0 8 }
{
    load(objects, 0)
}

pub fn load_header(objects: &Objects) -> Header
    ensures { result ≡ header_at objects.now }
{
    to_header(header_row(objects))
}

pub fn store_header(objects: &mut Objects, h: Header)
    ensures { objects.new ≡ header_put objects.old h }
{
    store(objects, 0, &header_words(h));
}

// ---- places

// The words of its row.
pub fn place_row(places: &Places, p: usize) -> [u64; 4]
    requires { p < place_limit }
    ensures { result ≡ row_from places.now (place_start p) 0 4 }
{
    load(places, p * 4)
}

pub fn load_place(places: &Places, p: usize) -> Place
    requires { p < place_limit }
    ensures { result ≡ place_in places p }
{
    to_place(place_row(places, p))
}

pub fn store_place(places: &mut Places, p: usize, r: Place)
    requires { p < place_limit }
    ensures { places.new ≡ place_put places.old p r }
{
    store(places, p * 4, &place_words(r));
}
