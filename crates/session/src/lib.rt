// The library that a host links: a session is begun, gets its events, and is read. docs/HOST.md says how, with an example that is run (`test_host`).
#![tactic(auto)]

pub use asyncio::{CallId, CoroutineState, Error, HeapId, TaskId, Value};
pub use exec_switch::answer::{Answer, Refusal, Stepped};
pub use exec_switch::control::{Control, How};
pub use queue::ReadyQueue;
pub use rows::total::result_at;
pub use session_begin::begin;
pub use session_dispatch::dispatch;
pub use session_host::{cancel, results, resume};
pub use session_make::{call, coroutine, gather, pending, settled};
pub use session_reads::{eager, show};
pub use session_run::{await_object, complete, fail};
pub use step_event::{Answered, Event};
pub use step_read::Shown;
