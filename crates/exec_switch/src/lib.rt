// Who runs next: activate_task to switch_or_yield; the answers (async_exec.rs).
#![tactic(auto)]

pub mod control; // who has control: a task runs, or the host
pub mod cycle; // activate_task, start_task, handle_task_failure, resume_after_task_exit, switch_or_yield
pub mod answer; // the answers
