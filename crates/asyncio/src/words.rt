// The words of each type (docs/LAYOUT.md), and what any words are read as: each function equals its definition in specs/Layout.
ghost use Rattle.std.specs.Prelude.{◌≡◌, ◌≤◌};
ghost use Rattle.asyncio.specs.Limits.{place_limit};
ghost use Rattle.asyncio.specs.Numbers.{to_u32, to_first, to_count};
ghost use Rattle.asyncio.specs.Layout.{value_words, to_value, option_words, to_option, error_words, to_error, awaiter_words, to_awaiter};
ghost use Rattle.asyncio.specs.Layout.{kind_word, to_kind, object_row, coroutine_words, external_words, gather_words, object_words};
ghost use Rattle.asyncio.specs.Layout.{row_awaiter, row_coroutine, row_external, row_gather, to_object, state_words, to_state, task_words, to_task};
ghost use Rattle.asyncio.specs.Layout.{place_words, to_place, moment_words, to_moment, header_words, to_header};

use crate::{
    Awaiter, CALLS, CallId, CoroutineState, Error, ExternalFutureState, GatherState, Header,
    HeapId, ITEMS, Kind, Moment, OBJECTS, Object, PLACES, Place, TASKS, Task, TaskId, TaskState,
    U32_LIMIT, Value,
};

// Functions and no From or TryFrom: they read any words, two or three at a time, and a word that means nothing reads as some value, so
// that none fails. The definitions of specs/Layout have the same names.

// A tag and its number; a tag and its two numbers: the layout's definitions name both.
#[derive(Clone, Copy)]
pub struct Words2(pub u64, pub u64);

#[derive(Clone, Copy)]
pub struct Words3(pub u64, pub u64, pub u64);

// ---- numbers

pub fn to_u32(n: u64) -> u32
    ensures { result ≡ to_u32 n }
{
    (n % U32_LIMIT) as u32
}

pub fn to_first(n: u64) -> u16
    ensures { result ≡ to_first n }
{
    (n % (PLACES as u64 + 1)) as u16
}

pub fn to_count(first: u16, n: u64) -> u16
    requires { first ≤ place_limit }
    ensures { result ≡ to_count first n }
{
    (n as usize % (ITEMS + 1)).min(PLACES - first as usize) as u16
}

// ---- values, errors, awaiters

pub fn value_words(v: Value) -> Words2
    ensures { result ≡ value_words v }
{
    match v {
        Value::Plain(n) => Words2(0, n),
        Value::List(h) => Words2(1, h.word()),
    }
}

pub fn to_value(tag: u64, n: u64) -> Value
    ensures { result ≡ to_value tag n }
{
    match tag {
        0 => Value::Plain(n),
        _ => Value::List(HeapId::from_word(n)),
    }
}

fn option_words(x: Option<Value>) -> Words2
    ensures { result ≡ option_words x }
{
    match x {
        None => Words2(0, 0),
        Some(v) => {
            let w = value_words(v);
            Words2(w.0 + 1, w.1)
        }
    }
}

pub fn to_option(tag: u64, n: u64) -> Option<Value>
    ensures { result ≡ to_option tag n }
{
    match tag {
        0 => None,
        _ => Some(to_value(tag - 1, n)),
    }
}

pub fn error_words(e: Error) -> Words2
    ensures { result ≡ error_words e }
{
    match e {
        Error::Host(n) => Words2(0, n as u64),
        Error::Script(n) => Words2(1, n as u64),
        Error::CoroutineReuse => Words2(2, 0),
        Error::FutureReuse => Words2(3, 0),
        Error::GatherReuse => Words2(4, 0),
        Error::NotFound => Words2(5, 0),
        Error::ModuleFile => Words2(6, 0),
    }
}

pub fn to_error(tag: u64, n: u64) -> Error
    ensures { result ≡ to_error tag n }
{
    match tag {
        0 => Error::Host(to_u32(n)),
        1 => Error::Script(to_u32(n)),
        2 => Error::CoroutineReuse,
        3 => Error::FutureReuse,
        4 => Error::GatherReuse,
        5 => Error::NotFound,
        _ => Error::ModuleFile,
    }
}

fn awaiter_words(w: Awaiter) -> Words3
    ensures { result ≡ awaiter_words w }
{
    match w {
        Awaiter::Nobody => Words3(0, 0, 0),
        Awaiter::Task(t) => Words3(1, t.word(), 0),
        Awaiter::GatherSlot { gather, source } => Words3(2, gather.word(), source.word()),
    }
}

pub fn to_awaiter(tag: u64, a: u64, b: u64) -> Awaiter
    ensures { result ≡ to_awaiter tag a b }
{
    match tag {
        0 => Awaiter::Nobody,
        1 => Awaiter::Task(TaskId::from_word(a)),
        _ => {
            let gather = HeapId::from_word(a);
            let source = HeapId::from_word(b);
            Awaiter::GatherSlot { gather, source }
        }
    }
}

// ---- objects

fn kind_word(k: Kind) -> u64
    ensures { result ≡ kind_word k }
{
    k as u64
}

pub fn to_kind(n: u64) -> Kind
    ensures { result ≡ to_kind n }
{
    match n {
        0 => Kind::Unmade,
        1 => Kind::NewCoroutine,
        2 => Kind::RunningCoroutine,
        3 => Kind::CompletedCoroutine,
        4 => Kind::PendingExternal,
        5 => Kind::ResolvedExternal,
        6 => Kind::FailedExternal,
        7 => Kind::PendingGather,
        8 => Kind::AwaitedGather,
        9 => Kind::CompletedGather,
        _ => Kind::FailedGather,
    }
}

fn object_row(k: Kind, w: Words3, a: u64, b: u64, c: u64, d: u64) -> [u64; 8]
    ensures { result ≡ object_row k w a b c d }
{
    [kind_word(k), w.0, w.1, w.2, a, b, c, d]
}

fn coroutine_words(function: u32, state: CoroutineState) -> [u64; 8]
    ensures { result ≡ coroutine_words function state }
{
    let f = function as u64;
    match state {
        CoroutineState::New => object_row(Kind::NewCoroutine, Words3(0, 0, 0), f, 0, 0, 0),
        CoroutineState::Running => object_row(Kind::RunningCoroutine, Words3(0, 0, 0), f, 0, 0, 0),
        CoroutineState::Completed => object_row(
            Kind::CompletedCoroutine,
            Words3(0, 0, 0),
            f,
            0,
            0,
            0,
        ),
    }
}

fn external_words(call: CallId, state: ExternalFutureState) -> [u64; 8]
    ensures { result ≡ external_words call state }
{
    let c = call.word();
    match state {
        ExternalFutureState::Pending { awaiter, stored } => {
            let w = awaiter_words(awaiter);
            let x = option_words(stored);
            object_row(Kind::PendingExternal, w, c, x.0, x.1, 0)
        }
        ExternalFutureState::Resolved(v) => {
            let x = value_words(v);
            object_row(Kind::ResolvedExternal, Words3(0, 0, 0), c, x.0, x.1, 0)
        }
        ExternalFutureState::Failed(e) => {
            let x = error_words(e);
            object_row(Kind::FailedExternal, Words3(0, 0, 0), c, x.0, x.1, 0)
        }
    }
}

fn gather_words(first: u16, count: u16, state: GatherState) -> [u64; 8]
    ensures { result ≡ gather_words first count state }
{
    let i = first as u64;
    let n = count as u64;
    match state {
        GatherState::Pending => object_row(Kind::PendingGather, Words3(0, 0, 0), i, n, 0, 0),
        GatherState::Awaited {
            awaiter,
            open_places,
        } => {
            let w = awaiter_words(awaiter);
            object_row(Kind::AwaitedGather, w, i, n, open_places as u64, 0)
        }
        GatherState::Completed => object_row(Kind::CompletedGather, Words3(0, 0, 0), i, n, 0, 0),
        GatherState::Failed(e) => {
            let x = error_words(e);
            object_row(Kind::FailedGather, Words3(0, 0, 0), i, n, x.0, x.1)
        }
    }
}

pub fn object_words(o: Object) -> [u64; 8]
    ensures { result ≡ object_words o }
{
    match o {
        Object::Unmade => [0, 0, 0, 0, 0, 0, 0, 0],
        Object::Coroutine { function, state } => coroutine_words(function, state),
        Object::ExternalFuture { call, state } => external_words(call, state),
        Object::GatherFuture {
            first,
            count,
            state,
        } => gather_words(first, count, state),
    }
}

fn row_awaiter(w: [u64; 8]) -> Awaiter
    ensures { result ≡ row_awaiter w }
{
    to_awaiter(w[1], w[2], w[3])
}

fn row_coroutine(w: [u64; 8], state: CoroutineState) -> Object
    ensures { result ≡ row_coroutine w state }
{
    let function = to_u32(w[4]);
    Object::Coroutine { function, state }
}

fn row_external(w: [u64; 8], state: ExternalFutureState) -> Object
    ensures { result ≡ row_external w state }
{
    let call = CallId::from_word(w[4]);
    Object::ExternalFuture { call, state }
}

fn row_gather(w: [u64; 8], state: GatherState) -> Object
    ensures { result ≡ row_gather w state }
{
    let first = to_first(w[4]);
    let count = to_count(first, w[5]);
    Object::GatherFuture {
        first,
        count,
        state,
    }
}

pub fn to_object(w: [u64; 8]) -> Object
    ensures { result ≡ to_object w }
{
    let kind = to_kind(w[0]);
    match kind {
        Kind::Unmade => Object::Unmade,
        Kind::NewCoroutine => row_coroutine(w, CoroutineState::New),
        Kind::RunningCoroutine => row_coroutine(w, CoroutineState::Running),
        Kind::CompletedCoroutine => row_coroutine(w, CoroutineState::Completed),
        Kind::PendingExternal => {
            let awaiter = row_awaiter(w);
            let stored = to_option(w[5], w[6]);
            row_external(w, ExternalFutureState::Pending { awaiter, stored })
        }
        Kind::ResolvedExternal => row_external(
            w,
            ExternalFutureState::Resolved(to_value(w[5], w[6])),
        ),
        Kind::FailedExternal => row_external(w, ExternalFutureState::Failed(to_error(w[5], w[6]))),
        Kind::PendingGather => row_gather(w, GatherState::Pending),
        Kind::AwaitedGather => {
            let awaiter = row_awaiter(w);
            let open_places = to_u32(w[6]);
            row_gather(
                w,
                GatherState::Awaited {
                    awaiter,
                    open_places,
                },
            )
        }
        Kind::CompletedGather => row_gather(w, GatherState::Completed),
        Kind::FailedGather => row_gather(w, GatherState::Failed(to_error(w[6], w[7]))),
    }
}

// ---- tasks

fn state_words(s: TaskState) -> Words3
    ensures { result ≡ state_words s }
{
    match s {
        TaskState::Absent => Words3(0, 0, 0),
        TaskState::Unstarted => Words3(1, 0, 0),
        TaskState::Running => Words3(2, 0, 0),
        TaskState::Woken(v) => {
            let x = value_words(v);
            Words3(3, x.0, x.1)
        }
        TaskState::Raised(e) => {
            let x = error_words(e);
            Words3(4, x.0, x.1)
        }
        TaskState::Blocked(h) => Words3(5, h.word(), 0),
    }
}

pub fn to_state(tag: u64, a: u64, b: u64) -> TaskState
    ensures { result ≡ to_state tag a b }
{
    match tag {
        0 => TaskState::Absent,
        1 => TaskState::Unstarted,
        2 => TaskState::Running,
        3 => TaskState::Woken(to_value(a, b)),
        4 => TaskState::Raised(to_error(a, b)),
        _ => TaskState::Blocked(HeapId::from_word(a)),
    }
}

pub fn task_words(t: Task) -> [u64; 8]
    ensures { result ≡ task_words t }
{
    let state = t.state;
    let awaiter = t.awaiter;
    let coroutine = t.coroutine;
    let s = state_words(state);
    let w = awaiter_words(awaiter);
    [s.0, w.0, w.1, w.2, coroutine.word(), s.1, s.2, 0]
}

pub fn to_task(w: [u64; 8]) -> Task
    ensures { result ≡ to_task w }
{
    let state = to_state(w[0], w[5], w[6]);
    let awaiter = row_awaiter(w);
    let coroutine = HeapId::from_word(w[4]);
    Task {
        state,
        awaiter,
        coroutine,
    }
}

// ---- places and the header

pub fn place_words(p: Place) -> [u64; 4]
    ensures { result ≡ place_words p }
{
    let item = p.item;
    let result = p.result;
    let x = option_words(result);
    [item.word(), x.0, x.1, 0]
}

pub fn to_place(w: [u64; 4]) -> Place
    ensures { result ≡ to_place w }
{
    let item = HeapId::from_word(w[0]);
    let result = to_option(w[1], w[2]);
    Place { item, result }
}

fn moment_words(m: Moment) -> Words2
    ensures { result ≡ moment_words m }
{
    match m {
        Moment::Running(t) => Words2(0, t.word()),
        Moment::Waiting => Words2(1, 0),
        Moment::Ended => Words2(2, 0),
    }
}

fn to_moment(tag: u64, t: u64) -> Moment
    ensures { result ≡ to_moment tag t }
{
    match tag {
        0 => Moment::Running(TaskId::from_word(t)),
        1 => Moment::Waiting,
        _ => Moment::Ended,
    }
}

pub fn header_words(h: Header) -> [u64; 8]
    ensures { result ≡ header_words h }
{
    let moment = h.moment;
    let m = moment_words(moment);
    [
        h.made as u64,
        h.used as u64,
        h.calls as u64,
        h.next as u64,
        m.0,
        m.1,
        0,
        0,
    ]
}

pub fn to_header(w: [u64; 8]) -> Header
    ensures { result ≡ to_header w }
{
    let moment = to_moment(w[4], w[5]);
    Header {
        made: (w[0] % (OBJECTS as u64 + 1)) as u16,
        used: (w[1] % (PLACES as u64 + 1)) as u16,
        calls: (w[2] % (CALLS as u64 + 1)) as u32,
        next: (w[3] % (TASKS as u64 + 1)) as u16,
        moment,
    }
}
