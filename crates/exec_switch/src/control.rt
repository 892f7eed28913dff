// Who has control: a task, and how it goes on, or the host.
ghost use Rattle.std.specs.Prelude.{◌≡◌, ◌<◌};
ghost use Rattle.asyncio.specs.Limits.{task_limit};
ghost use Rattle.machine.specs.Events.{run, yield};
ghost use Rattle.exec_switch.specs.Control.{moment_put, how_of, SwitchesKeepingLog, SwitchesOfObjects};

use asyncio::{Error, Header, HeapId, Moment, Objects, TaskId, TaskState, Tasks, Value};

// How a task goes on: it starts a coroutine with its function, receives a value, raises an error, or runs a coroutine inline.
#[derive(Clone, Copy, PartialEq, Eq, Debug)]
pub enum How {
    Start { coroutine: HeapId, function: u32 },
    Value(Value),
    Raised(Error),
    Inline(HeapId),
}

// The calls that the host waits for are those pending in the store.
#[derive(Clone, Copy, PartialEq, Eq, Debug)]
pub enum Control {
    Runs { task: TaskId, how: How },
    Waits,
}

// The moment of the session.
#[tactic(auto, unfolding(crate::specs::Control::moment_put))]
fn set_moment(objects: &mut Objects, moment: Moment)
    ensures { objects.new ≡ moment_put objects.old moment }
{
    let header = rows::tables::load_header(objects);
    rows::tables::store_header(objects, Header { moment, ..header });
}

// Task `t` runs.
pub(crate) fn run(tasks: &mut Tasks, objects: &mut Objects, t: TaskId, how: How) -> Control
    requires { t.0 < task_limit }
    ensures { SwitchesKeepingLog tasks objects
        (λ s. run s t.0 (how_of how)) result }
{
    scheduler_states::states::set_state(tasks, t, TaskState::Running);
    set_moment(objects, Moment::Running(t));
    Control::Runs { task: t, how }
}

// The host has control.
pub(crate) fn yield_control(objects: &mut Objects) -> Control
    ensures { SwitchesOfObjects objects yield result }
{
    set_moment(objects, Moment::Waiting);
    Control::Waits
}
