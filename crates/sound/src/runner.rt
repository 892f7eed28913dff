// Clause 11: in running one live unblocked task runs, in waiting none.
ghost use Rattle.std.specs.Prelude.{◌≡◌, ◌<◌, ◌≤◌};
ghost use Rattle.std.specs.Bool.{beq};
ghost use Rattle.asyncio.specs.Limits.{task_limit};
ghost use Rattle.asyncio.specs.States.{is_running};
ghost use Rattle.rows.specs.Slices.{task_in};
ghost use Rattle.machine.specs.Tests.{all_below};
ghost use Rattle.machine.specs.Sound.{runs_now, runner_in_range, one_runs};

use asyncio::{Header, Moment, TaskId, Tasks};
use rows::parts::state_at;

// Is `t` the running task?
#[tactic(auto, unfolding(machine::specs::Sound::runs_now))]
fn runs_now(m: Moment, t: TaskId) -> bool
    ensures { result ≡ runs_now m t.0 }
{
    matches!(m, Moment::Running(u) if u == t)
}

// The running task is below the next number.
#[tactic(auto, unfolding(machine::specs::Sound::runner_in_range))]
fn runner_in_range(next: u16, m: Moment) -> bool
    ensures { result ≡ runner_in_range next m }
{
    match m {
        Moment::Running(t) => t.0 < next,
        Moment::Waiting | Moment::Ended => true,
    }
}

// The state of task `t` is running where the moment says so, and nowhere else.
fn runs_as_told(m: Moment, tasks: &Tasks, t: TaskId) -> bool
    requires { t.0 < task_limit }
    ensures { result ≡ beq (is_running (task_in tasks t.0).state) (runs_now m t.0) }
{
    state_at(tasks, t).is_running() == runs_now(m, t)
}

fn tasks_as_told(header: Header, tasks: &Tasks) -> bool
    requires { header.next ≤ task_limit }
    ensures { result ≡ all_below header.next (λ t. beq (is_running (task_in tasks t).state) (runs_now header.moment t)) }
{
    (0..header.next).all(|t| runs_as_told(header.moment, tasks, TaskId(t)))
}

// The tasks whose state is running: the one of the moment.
#[tactic(auto, using(sound_words::specs::Loops::both), unfolding(machine::specs::Sound::one_runs))]
pub fn one_runs(header: Header, tasks: &Tasks) -> bool
    requires { header.next ≤ task_limit }
    ensures { result ≡ one_runs header (task_in tasks) }
{
    runner_in_range(header.next, header.moment) && tasks_as_told(header, tasks)
}
