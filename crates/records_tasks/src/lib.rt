// A task record: document 01's four fields of a task, its copies to and from the tasks' words.
#![tactic(auto)]

ghost use Rattle.std.specs.Prelude.{◌≡◌, ◌<◌, ◌≤◌, length, set, get_or};
ghost use Rattle.asyncio.specs.Limits.{task_limit};
ghost use Rattle.records_tasks.specs.TaskRecord.{no_record, record_of, fits, task_of};
ghost use Rattle.records_tasks.specs.TaskRows.{rows_of, saved};

use asyncio::{Awaiter, Error, HeapId, TASKS_LEN, Task, TaskId, TaskState, Tasks, Value};
use rows::tables::{load_task, store_task};

// A task's state, without the value that a woken task has.
#[derive(Clone, Copy, PartialEq, Eq, Debug)]
pub enum RecordState {
    Absent,
    Unstarted,
    Running,
    Woken,
    Raised(Error),
    Blocked(HeapId),
}

// A task, in the four fields of document 01: its state, where its result goes, its coroutine (0 for main, which has none), and the value delivered to it,
// which a woken task has and no other.
#[derive(Clone, Copy, PartialEq, Eq, Debug)]
pub struct TaskRecord {
    pub state: RecordState,
    pub awaiter: Awaiter,
    pub coroutine: HeapId,
    pub delivered: Option<Value>,
}

impl TaskRecord {
    // Has it a value just where it is woken?
    pub fn fits(&self) -> bool
        ensures { result ≡ fits self.now }
    {
        matches!(self.state, RecordState::Woken) == self.delivered.is_some()
    }
}

// The record of a task.
impl From<Task> for TaskRecord {
    fn from(task: Task) -> TaskRecord
        ensures { result ≡ record_of task }
    {
        let (state, delivered) = match task.state {
            TaskState::Absent => (RecordState::Absent, None),
            TaskState::Unstarted => (RecordState::Unstarted, None),
            TaskState::Running => (RecordState::Running, None),
            TaskState::Woken(v) => (RecordState::Woken, Some(v)),
            TaskState::Raised(e) => (RecordState::Raised(e), None),
            TaskState::Blocked(o) => (RecordState::Blocked(o), None),
        };
        TaskRecord {
            state,
            awaiter: task.awaiter,
            coroutine: task.coroutine,
            delivered,
        }
    }
}

// The task that a record stands for. A record that does not fit stands for a task whose coroutine's number is out of range, so that its words are refused
// with 2 (specs/TaskRecord).
impl From<TaskRecord> for Task {
    fn from(from: TaskRecord) -> Task
        ensures { result ≡ task_of from }
    {
        let state = match (from.state, from.delivered) {
            (RecordState::Absent, None) => TaskState::Absent,
            (RecordState::Unstarted, None) => TaskState::Unstarted,
            (RecordState::Running, None) => TaskState::Running,
            (RecordState::Woken, Some(v)) => TaskState::Woken(v),
            (RecordState::Raised(e), None) => TaskState::Raised(e),
            (RecordState::Blocked(o), None) => TaskState::Blocked(o),
            _ => {
                return Task {
                    state: TaskState::Absent,
                    awaiter: Awaiter::Nobody,
                    coroutine: HeapId::new(256),
                };
            }
        };
        Task {
            state,
            awaiter: from.awaiter,
            coroutine: from.coroutine,
        }
    }
}

// ---- a lent slice of records

// One record is copied out.
pub fn task_at(tasks: &[TaskRecord], t: usize) -> TaskRecord
    requires { t < length tasks.now }
    ensures { result ≡ get_or tasks.now t no_record }
{
    tasks[t]
}

// One record is stored.
pub fn put_task(tasks: &mut [TaskRecord], t: usize, task: TaskRecord)
    requires { t < length tasks.old }
    ensures { tasks.new ≡ set tasks.old t task }
{
    tasks[t] = task;
}

// The words of the first `n` records; the other rows are 0.
pub fn load(tasks: &[TaskRecord], n: u16) -> Tasks
    requires { (n ≤ length tasks.now) × (n ≤ task_limit) }
    ensures { result ≡ rows_of tasks.now n }
{
    let mut words = [0u64; TASKS_LEN];
    for t in 0..n {
        let task = Task::from(task_at(tasks, t as usize));
        store_task(&mut words, TaskId::new(t), task);
    }
    words
}

// The first `n` records are made of the words.
pub fn save(tasks: &mut [TaskRecord], words: &Tasks, n: u16)
    requires { (n ≤ length tasks.old) × (n ≤ task_limit) }
    ensures { tasks.new ≡ saved words.now n tasks.old }
{
    for t in 0..n {
        let task = load_task(words, TaskId::new(t));
        put_task(tasks, t as usize, TaskRecord::from(task));
    }
}
