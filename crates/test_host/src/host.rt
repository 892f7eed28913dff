// The memory of a session, which the host lends at every call and keeps between calls; and the entries, one for each event.
use crate::lines::{print_answer, print_shown};
use session::{
    Answered, Event, ReadyQueue, await_object, call, cancel, complete, coroutine, dispatch, fail,
    gather, pending, results, resume, settled,
};
use std::io::Stdout;

// Where the answers go, three slices, a list for calls, and the queue that the last call returned.
#[derive(Clone, Copy)]
pub struct Host {
    pub stdout: Stdout,
    pub tasks: [u64; 4104],
    pub objects: [u64; 2056],
    pub places: [u64; 2048],
    pub calls: [u64; 256],
    pub queue: ReadyQueue,
}

impl Host {
    // A fresh session, and its line.
    pub(crate) fn begin(stdout: Stdout) -> Host {
        let mut tasks = [7; 4104];
        let mut objects = [7; 2056];
        let mut places = [7; 2048];
        let begun = session::begin(&mut tasks, &mut objects, &mut places, ReadyQueue::new());
        print_answer(stdout, 0, begun.answer, &[]);
        Host {
            stdout,
            tasks,
            objects,
            places,
            calls: [0; 256],
            queue: begun.queue,
        }
    }

    // The event, and its line.
    pub(crate) fn enter(&mut self, number: u64, event: Event) {
        let mut lent = *self;
        let answered = entered(
            &mut lent.tasks,
            &mut lent.objects,
            &mut lent.places,
            &mut lent.calls,
            lent.queue,
            event,
        );
        lent.queue = answered.queue;
        *self = lent;
        if answered.calls <= self.calls.len() {
            let calls = &self.calls[..answered.calls];
            print_answer(self.stdout, number, answered.answer, calls);
        }
    }

    // The event through `dispatch`, with a call list that is too short: nothing is changed.
    pub(crate) fn enter_short(&mut self, number: u64, event: Event) {
        let mut lent = *self;
        let answered = dispatch(
            &mut lent.tasks,
            &mut lent.objects,
            &mut lent.places,
            &mut [0; 255],
            lent.queue,
            event,
            &[],
            &[],
        );
        lent.queue = answered.queue;
        *self = lent;
        print_answer(self.stdout, number, answered.answer, &[]);
    }

    // The event on a store whose count of objects is 300, which no session has; the word is then put back.
    pub(crate) fn enter_damaged(&mut self, number: u64, event: Event) {
        let made = self.objects[0];
        self.objects[0] = 300;
        self.enter(number, event);
        self.objects[0] = made;
    }

    // The two reads: whether a call may be answered at once, and object `o`. They change nothing.
    pub(crate) fn read(&self, number: u64, o: u16) {
        let eager = session::eager(&self.tasks, &self.objects, &self.places, self.queue);
        print_answer(self.stdout, number, eager, &[]);
        let shown = session::show(&self.tasks, &self.objects, &self.places, self.queue, o);
        print_shown(self.stdout, number, shown, &self.places);
    }
}

// An event by its own entry. The items of a gather and the results are always the same ones.
fn entered(
    tasks: &mut [u64],
    objects: &mut [u64],
    places: &mut [u64],
    calls: &mut [u64],
    queue: ReadyQueue,
    event: Event,
) -> Answered {
    match event {
        Event::Coroutine(f) => coroutine(tasks, objects, places, calls, queue, f),
        Event::Call => call(tasks, objects, places, calls, queue),
        Event::Pending { call, stored } => {
            pending(tasks, objects, places, calls, queue, call, stored)
        }
        Event::Settled(v) => settled(tasks, objects, places, calls, queue, v),
        Event::Gather => gather(tasks, objects, places, calls, queue, &[0, 1, 0]),
        Event::Await(o) => await_object(tasks, objects, places, calls, queue, o),
        Event::Complete(v) => complete(tasks, objects, places, calls, queue, v),
        Event::Fail(n) => fail(tasks, objects, places, calls, queue, n),
        Event::Results => {
            let plain_5 = [0, 0, 0, 0, 0, 0, 5, 0, 0, 0, 0, 0, 0, 0];
            results(tasks, objects, places, calls, queue, &plain_5)
        }
        Event::Resume => resume(tasks, objects, places, calls, queue),
        Event::Cancel(t) => cancel(tasks, objects, places, calls, queue, t),
    }
}
