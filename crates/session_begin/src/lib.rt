// The beginning of a session: it meets only refusal 1, and overwrites the rest.
#![tactic(auto)]

ghost use Rattle.session_begin.specs.Begin.{StoresMain, LentBegin};

use asyncio::{
    Awaiter, Header, HeapId, Moment, OBJECTS_LEN, Objects, PLACES_LEN, Places, TASKS_LEN, Task,
    TaskId, TaskState, Tasks,
};
use exec_switch::answer::{Answer, Refusal, Stepped};
use queue::ReadyQueue;
use step_checks::lent::slices_right;

// Main runs, and nothing else exists.
fn store_main(tasks: &mut Tasks, objects: &mut Objects)
    ensures { StoresMain tasks objects }
{
    rows::tables::store_header(
        objects,
        Header {
            made: 0,
            used: 0,
            calls: 0,
            next: 1,
            moment: Moment::Running(TaskId::MAIN),
        },
    );
    rows::tables::store_task(
        tasks,
        TaskId::MAIN,
        Task {
            state: TaskState::Running,
            awaiter: Awaiter::Nobody,
            coroutine: HeapId::new(0),
        },
    );
}

// A fresh session: main runs, and nothing else exists, whatever the slices held. Done, with the queue to pass back. Refused with 1 where a slice has
// another length than 4,104, 2,056 and 2,048; then nothing is changed.
pub fn begin(
    tasks: &mut [u64],
    objects: &mut [u64],
    places: &mut [u64],
    queue: ReadyQueue,
) -> Stepped
    ensures { LentBegin tasks objects places queue result }
{
    if !slices_right(tasks, objects, places) {
        return Stepped {
            queue,
            answer: Answer::Refused(Refusal::WrongLength),
        };
    }
    let store_tasks: &mut Tasks = tasks.as_mut_array().unwrap();
    let store_objects: &mut Objects = objects.as_mut_array().unwrap();
    let store_places: &mut Places = places.as_mut_array().unwrap();
    *store_tasks = [0; TASKS_LEN];
    *store_objects = [0; OBJECTS_LEN];
    *store_places = [0; PLACES_LEN];
    store_main(store_tasks, store_objects);
    Stepped {
        queue: ReadyQueue::new(),
        answer: Answer::Done,
    }
}
