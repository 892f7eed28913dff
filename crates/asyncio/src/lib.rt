// Numbers and states: document 01's module 1 (asyncio.rs; Task and TaskState are scheduler.rs's), and tests on them.
#![tactic(auto)]

pub mod words; // the words of each type (docs/LAYOUT.md)

ghost use Rattle.std.specs.Prelude.{◌≡◌};
ghost use Rattle.asyncio.specs.Numbers.{call_id, task_id, heap_id, to_call_id, to_task_id, to_heap_id};
ghost use Rattle.asyncio.specs.States.{is_main, is_live, is_unstarted, is_ready, is_running, is_blocked, is_nobody};
ghost use Rattle.asyncio.specs.Kinds.{has_awaiter, is_coroutine, is_external, is_pending_external, is_gather, is_awaited, is_completed, is_committed};

// How many numbers there are of each sort (specs/Limits). A count takes one value more than the numbers that it counts.
pub const TASKS: usize = 513;

pub const OBJECTS: usize = 256;

pub const PLACES: usize = 512;

// Places of one gather.
pub const ITEMS: usize = 32;

// Call numbers that are handed out: one less than 32 bits have, so that their count has 32 bits too.
pub const CALLS: u32 = 4294967295;

// Numbers of 32 bits: functions, calls, error numbers, the open places of a gather.
pub const U32_LIMIT: u64 = 4294967296;

// Results of one batch, and the bytes of one.
pub const RESULTS: usize = 64;

pub const RESULT_BYTES: usize = 14;

// Words of each lent slice; the objects' rows stand behind one row for the header.
pub const TASKS_LEN: usize = 4104;

pub const OBJECTS_LEN: usize = 2056;

pub const PLACES_LEN: usize = 2048;

// The lent words, once their number is known: a lent slice has another number or this one (`as_mut_array`).
pub type Tasks = [u64; TASKS_LEN];

pub type Objects = [u64; OBJECTS_LEN];

pub type Places = [u64; PLACES_LEN];

// Three number types of two widths, each with its one-line functions: a trait over them would be longer and hide which widths there are.
// `from_word` reads any word, also one out of range, and `word` goes beside it: From is for what loses nothing.
// The ranges of tasks and objects stand in clauses (`t.0 < task_limit`): the machine's definitions make a number of any word (`to_task_id`,
// `task_id`), and a ghost field would be a field of all their records.

// The number of an external call.
#[derive(Clone, Copy, PartialEq, Eq, Debug)]
pub struct CallId(pub u32);

impl CallId {
    pub fn new(n: u32) -> CallId
        ensures { result ≡ call_id n }
    {
        CallId(n)
    }

    pub fn from_word(n: u64) -> CallId
        ensures { result ≡ to_call_id n }
    {
        CallId::new((n % U32_LIMIT) as u32)
    }

    pub fn word(self) -> u64
        ensures { result ≡ self.0 }
    {
        self.0 as u64
    }
}

// The number of a task. Task 0 is main; spawned tasks are numbered from 1.
#[derive(Clone, Copy, PartialEq, Eq, Debug)]
pub struct TaskId(pub u16);

impl TaskId {
    pub const MAIN: TaskId = TaskId(0);

    pub fn new(n: u16) -> TaskId
        ensures { result ≡ task_id n }
    {
        TaskId(n)
    }

    pub fn from_word(n: u64) -> TaskId
        ensures { result ≡ to_task_id n }
    {
        TaskId::new((n % TASKS as u64) as u16)
    }

    pub fn word(self) -> u64
        ensures { result ≡ self.0 }
    {
        self.0 as u64
    }

    pub fn is_main(self) -> bool
        ensures { result ≡ is_main self }
    {
        self.0 == 0
    }
}

// The number of an object (coroutine, external future or gather), in order of making from 0.
#[derive(Clone, Copy, PartialEq, Eq, Debug)]
pub struct HeapId(pub u16);

impl HeapId {
    pub fn new(n: u16) -> HeapId
        ensures { result ≡ heap_id n }
    {
        HeapId(n)
    }

    pub fn from_word(n: u64) -> HeapId
        ensures { result ≡ to_heap_id n }
    {
        HeapId::new((n % OBJECTS as u64) as u16)
    }

    pub fn word(self) -> u64
        ensures { result ≡ self.0 }
    {
        self.0 as u64
    }
}

// A value is plain, or the list of the results of a completed gather.
#[derive(Clone, Copy, PartialEq, Eq, Debug)]
pub enum Value {
    Plain(u64),
    List(HeapId),
}

// An error, in the order of document 01's list.
#[derive(Clone, Copy, PartialEq, Eq, Debug)]
pub enum Error {
    Host(u32),
    Script(u32),
    CoroutineReuse,
    FutureReuse,
    GatherReuse,
    NotFound,
    ModuleFile,
}

// Where the result or error of an awaitable goes: to nobody, to a task, or to the open places of a gather that name the source.
#[derive(Clone, Copy, PartialEq, Eq, Debug)]
pub enum Awaiter {
    Nobody,
    Task(TaskId),
    GatherSlot { gather: HeapId, source: HeapId },
}

impl Awaiter {
    pub fn is_nobody(self) -> bool
        ensures { result ≡ is_nobody self }
    {
        matches!(self, Awaiter::Nobody)
    }
}

// New: not run yet, though a task may be spawned for it. Running: for ever, where it was run inline. Completed: by the end of its task.
#[derive(Clone, Copy, PartialEq, Eq, Debug)]
pub enum CoroutineState {
    New,
    Running,
    Completed,
}

// Pending: not answered yet; a stored result will replace the host's value (sleep_result).
#[derive(Clone, Copy, PartialEq, Eq, Debug)]
pub enum ExternalFutureState {
    Pending {
        awaiter: Awaiter,
        stored: Option<Value>,
    },
    Resolved(Value),
    Failed(Error),
}

// Pending: never awaited. Awaited: bit i of the open places is set while place i waits for its item (PendingChildren).
#[derive(Clone, Copy, PartialEq, Eq, Debug)]
pub enum GatherState {
    Pending,
    Awaited { awaiter: Awaiter, open_places: u32 },
    Completed,
    Failed(Error),
}

// An object. A gather has the places first, first + 1, .. first + count - 1.
#[derive(Clone, Copy, PartialEq, Eq, Debug)]
pub enum Object {
    Unmade,
    Coroutine {
        function: u32,
        state: CoroutineState,
    },
    ExternalFuture {
        call: CallId,
        state: ExternalFutureState,
    },
    GatherFuture {
        first: u16,
        count: u16,
        state: GatherState,
    },
}

// The sort and the state of an object, without what they hold.
#[derive(Clone, Copy, PartialEq, Eq, Debug)]
pub enum Kind {
    Unmade,
    NewCoroutine,
    RunningCoroutine,
    CompletedCoroutine,
    PendingExternal,
    ResolvedExternal,
    FailedExternal,
    PendingGather,
    AwaitedGather,
    CompletedGather,
    FailedGather,
}

// A place of a gather: the object that it names, and the result delivered for it.
#[derive(Clone, Copy, PartialEq, Eq, Debug)]
pub struct Place {
    pub item: HeapId,
    pub result: Option<Value>,
}

// Absent: not live (never spawned, ended or removed). Unstarted: spawned, not yet run. Running: the current task.
// Woken and Raised: ready with a delivered value, or with an error to raise. Blocked: waits for an object.
#[derive(Clone, Copy, PartialEq, Eq, Debug)]
pub enum TaskState {
    Absent,
    Unstarted,
    Running,
    Woken(Value),
    Raised(Error),
    Blocked(HeapId),
}

// A task: its state with the value delivered to it, where its result goes, and its coroutine (0 for main, which has none).
#[derive(Clone, Copy, PartialEq, Eq, Debug)]
pub struct Task {
    pub state: TaskState,
    pub awaiter: Awaiter,
    pub coroutine: HeapId,
}

// The moment of a session: a task runs, all wait for the host, or main has ended.
#[derive(Clone, Copy, PartialEq, Eq, Debug)]
pub enum Moment {
    Running(TaskId),
    Waiting,
    Ended,
}

// The counts of a session (objects made, places used by gathers, calls handed out, the number of the next task) and its moment.
#[derive(Clone, Copy, PartialEq, Eq, Debug)]
pub struct Header {
    pub made: u16,
    pub used: u16,
    pub calls: u32,
    pub next: u16,
    pub moment: Moment,
}

impl TaskState {
    pub fn is_live(self) -> bool
        ensures { result ≡ is_live self }
    {
        !matches!(self, TaskState::Absent)
    }

    pub fn is_unstarted(self) -> bool
        ensures { result ≡ is_unstarted self }
    {
        matches!(self, TaskState::Unstarted)
    }

    // Live, and neither running nor blocked: it may stand in the queue.
    pub fn is_ready(self) -> bool
        ensures { result ≡ is_ready self }
    {
        matches!(
            self,
            TaskState::Unstarted | TaskState::Woken(_) | TaskState::Raised(_)
        )
    }

    pub fn is_running(self) -> bool
        ensures { result ≡ is_running self }
    {
        matches!(self, TaskState::Running)
    }

    pub fn is_blocked(self) -> bool
        ensures { result ≡ is_blocked self }
    {
        matches!(self, TaskState::Blocked(_))
    }
}

impl Kind {
    // A pending external or an awaited gather: the objects that have an awaiter's words.
    pub fn has_awaiter(self) -> bool
        ensures { result ≡ has_awaiter self }
    {
        matches!(self, Kind::PendingExternal | Kind::AwaitedGather)
    }

    pub fn is_coroutine(self) -> bool
        ensures { result ≡ is_coroutine self }
    {
        matches!(
            self,
            Kind::NewCoroutine | Kind::RunningCoroutine | Kind::CompletedCoroutine
        )
    }

    pub fn is_external(self) -> bool
        ensures { result ≡ is_external self }
    {
        matches!(
            self,
            Kind::PendingExternal | Kind::ResolvedExternal | Kind::FailedExternal
        )
    }

    pub fn is_pending_external(self) -> bool
        ensures { result ≡ is_pending_external self }
    {
        matches!(self, Kind::PendingExternal)
    }

    pub fn is_gather(self) -> bool
        ensures { result ≡ is_gather self }
    {
        matches!(
            self,
            Kind::PendingGather | Kind::AwaitedGather | Kind::CompletedGather | Kind::FailedGather
        )
    }

    // An awaited gather.
    pub fn is_awaited(self) -> bool
        ensures { result ≡ is_awaited self }
    {
        matches!(self, Kind::AwaitedGather)
    }

    // A completed gather: a list value may name it.
    pub fn is_completed(self) -> bool
        ensures { result ≡ is_completed self }
    {
        matches!(self, Kind::CompletedGather)
    }

    // A gather that was committed: no longer pending.
    pub fn is_committed(self) -> bool
        ensures { result ≡ is_committed self }
    {
        matches!(
            self,
            Kind::AwaitedGather | Kind::CompletedGather | Kind::FailedGather
        )
    }
}
