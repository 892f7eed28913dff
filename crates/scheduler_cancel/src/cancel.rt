// cancel_task: the task goes, and with it the live tasks of the open items of what it is blocked on, and so on.
ghost use Rattle.std.specs.Prelude.{◌≡◌, ℕ, ◌<◌, ◌≤◌, ◌+◌};
ghost use Rattle.asyncio.specs.Limits.{task_limit, object_limit, place_limit, item_limit};
ghost use Rattle.asyncio.specs.Ranges.{PlacesFit};
ghost use Rattle.rows.specs.Tables.{task_at, object_at};
ghost use Rattle.machine.specs.Scheduler.{as_awaited, blocked_on, task_of_in, still_live, reach, remove_blocked, visit, visit_place, visit_open, walk_gather, cancel_task};
ghost use Rattle.scheduler.specs.Search.{found_task, found_object};
ghost use Rattle.scheduler_states.specs.Awaited.{awaited_gather_of};
ghost use Rattle.scheduler_cancel.specs.Cancel.{put_task_of, tasks_of_in, KeepsTable, Reaches, WalksKeepingPlaces, Walks, HasRoom};
ghost use Rattle.contract.specs.Contract.{kept, Changes};

use asyncio::{HeapId, OBJECTS, Objects, Places, TaskId, TaskState, Tasks};
use queue::ReadyQueue;
use scheduler_states::awaited::{AwaitedGather, as_awaited};
use scheduler_states::places::is_bit_open;
use scheduler_states::states::remove_task;

// ---- which task drives a coroutine: a table of one word for each object, 0 where no task does (task 0 is main)

// Task `t` is noted at its coroutine, if it lives.
fn put_task_of(tasks: &Tasks, table: &mut [u64; OBJECTS], t: TaskId)
    requires { t.0 < task_limit }
    ensures { table.new ≡ put_task_of tasks.now t.0 table.old }
{
    if rows::parts::state_at(tasks, t).is_live() {
        let i = rows::parts::coroutine_at(tasks, t).0 as usize;
        table[i] = t.word();
    }
}

// The tasks of all coroutines, in one pass over the tasks: downward, so that the lowest number stays.
fn find_tasks(tasks: &Tasks, next: u16) -> [u64; OBJECTS]
    requires { next ≤ task_limit }
    ensures { (c : ℕ) → tasks_of_in result c ≡ task_of_in tasks.now next c }
{
    let mut table = [0u64; OBJECTS];
    for t in (1..next).rev() {
        put_task_of(tasks, &mut table, TaskId::new(t));
    }
    table
}

// What a task in that state is blocked on.
fn blocked_on(state: TaskState) -> Option<HeapId>
    ensures { result ≡ found_object (blocked_on state) }
{
    match state {
        TaskState::Blocked(o) => Some(o),
        _ => None,
    }
}

// ---- the walk: the table, marks for the gathers that were reached, and a stack of those still to be walked

// Kept: table and stack hold words, since the laws of specs/CancelLaws and specs/TaskOfLaws (`cancel-turn`, `tasks_of_turn`) speak of words.
#[derive(Drop)]
struct Walk {
    table: [u64; OBJECTS],
    marks: [bool; OBJECTS],
    stack: [u64; OBJECTS],
    depth: usize,
}

impl Walk {
    // The task that drives object `o` by the table, if it still lives.
    fn live_task_of(&self, tasks: &Tasks, o: HeapId) -> Option<TaskId>
        requires { o.0 < object_limit }
        ensures { result ≡ found_task (still_live tasks.now (tasks_of_in self.now.table o.0)) }
    {
        let t = TaskId::from_word(self.table[o.0 as usize]);
        if t.is_main() {
            return None;
        }
        if rows::parts::state_at(tasks, t).is_live() {
            return Some(t);
        }
        None
    }

    // Gather `g` is marked and put on the stack, if it is awaited and was not marked.
    fn reach(&mut self, objects: &Objects, g: HeapId)
        requires { HasRoom self.old.marks self.old.depth × (g.0 < object_limit) }
        ensures keeps { KeepsTable self }
        ensures reaches { Reaches self (kept objects.now) (λ w. reach w g.0) }
    {
        let i = g.0 as usize;
        if rows::parts::kind_at(objects, g).is_awaited() && !self.marks[i] {
            self.marks[i] = true;
            self.stack[self.depth] = g.word();
            self.depth += 1;
        }
    }

    // Task `t` goes, and what it is blocked on is reached.
    fn remove_blocked(
        &mut self,
        tasks: &mut Tasks,
        objects: &Objects,
        queue: &mut ReadyQueue,
        t: TaskId,
    )
        requires { HasRoom self.old.marks self.old.depth × (t.0 < task_limit) }
        ensures keeps { KeepsTable self }
        ensures walks { WalksKeepingPlaces self tasks (kept objects.now) queue
            (λ w. remove_blocked w t.0 (blocked_on (task_at tasks.old t.0).state)) }
    {
        let blocked = blocked_on(rows::parts::state_at(tasks, t));
        remove_task(tasks, queue, t);
        if let Some(o) = blocked {
            self.reach(objects, o);
        }
    }

    // Item `o`: its live task goes; without one it is reached as a nested gather.
    fn visit(&mut self, tasks: &mut Tasks, objects: &Objects, queue: &mut ReadyQueue, o: HeapId)
        requires { HasRoom self.old.marks self.old.depth × (o.0 < object_limit) }
        ensures keeps { KeepsTable self }
        ensures walks { WalksKeepingPlaces self tasks (kept objects.now) queue (λ w. visit w o.0) }
    {
        match self.live_task_of(tasks, o) {
            Some(t) => self.remove_blocked(tasks, objects, queue, t),
            None => self.reach(objects, o),
        }
    }

    // The item of place `p`, which is place `i` of its gather, if it is open.
    fn visit_place(
        &mut self,
        tasks: &mut Tasks,
        objects: &Objects,
        places: &Places,
        queue: &mut ReadyQueue,
        p: usize,
        i: usize,
        open_places: u32,
    )
        requires { HasRoom self.old.marks self.old.depth × (p < place_limit) × (i < item_limit) }
        ensures keeps { KeepsTable self }
        ensures walks { Walks self tasks (kept objects.now) (kept places.now) queue (λ w. visit_place w p i open_places) }
    {
        if is_bit_open(open_places, i) {
            let o = rows::parts::item_at(places, p);
            self.visit(tasks, objects, queue, o);
        }
    }

    // The items of the open places of a gather.
    fn visit_open(
        &mut self,
        tasks: &mut Tasks,
        objects: &Objects,
        places: &Places,
        queue: &mut ReadyQueue,
        gather: AwaitedGather,
    )
        requires { HasRoom self.old.marks self.old.depth × PlacesFit gather.first gather.count }
        ensures keeps { KeepsTable self }
        ensures walks { Walks self tasks (kept objects.now) (kept places.now) queue (λ w. visit_open w (awaited_gather_of gather) 0 gather.count) }
    {
        for i in 0..gather.count as usize {
            let p = gather.first as usize + i;
            self.visit_place(tasks, objects, places, queue, p, i, gather.open_places);
        }
    }

    // Gather `g`, taken off the stack: its open items are visited.
    fn walk_gather(
        &mut self,
        tasks: &mut Tasks,
        objects: &Objects,
        places: &Places,
        queue: &mut ReadyQueue,
        g: HeapId,
    )
        requires { HasRoom self.old.marks self.old.depth × (g.0 < object_limit) }
        ensures keeps { KeepsTable self }
        ensures walks { Walks self tasks (kept objects.now) (kept places.now) queue (λ w. walk_gather w (as_awaited (object_at objects.now g.0))) }
    {
        if let Some(gather) = as_awaited(objects, g) {
            self.visit_open(tasks, objects, places, queue, gather);
        }
    }
}

// Task `t` goes; then each gather on the stack is walked. A gather comes there once, so that a place for each object is enough.
pub fn cancel_task(
    tasks: &mut Tasks,
    objects: &Objects,
    places: &Places,
    queue: &mut ReadyQueue,
    t: TaskId,
)
    requires { t.0 < task_limit }
    ensures { Changes tasks (kept objects.now) (kept places.now) queue.old queue.new (λ s. cancel_task s t.0) }
{
    let header = rows::tables::load_header(objects);
    let mut walk = Walk {
        table: find_tasks(tasks, header.next),
        marks: [false; OBJECTS],
        stack: [0u64; OBJECTS],
        depth: 0,
    };
    walk.remove_blocked(tasks, objects, queue, t);
    while 0 < walk.depth {
        walk.depth -= 1;
        let g = HeapId::from_word(walk.stack[walk.depth]);
        walk.walk_gather(tasks, objects, places, queue, g);
    }
}
