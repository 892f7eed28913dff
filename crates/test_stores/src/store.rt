// A store as one value, each slice with room for a word too many, and its damages.
use crate::text::Command;
use queue::ReadyQueue;

// How many words of each slice are lent.
#[derive(Clone, Copy, PartialEq, Eq, Debug)]
pub struct Lengths {
    pub tasks: usize,
    pub objects: usize,
    pub places: usize,
    pub calls: usize,
}

#[derive(Clone, Copy, PartialEq, Eq, Debug)]
pub struct Store {
    pub tasks: [u64; 4105],
    pub objects: [u64; 2057],
    pub places: [u64; 2049],
    pub queue: ReadyQueue,
    pub lent: Lengths,
}

impl Store {
    // Words of 9s.
    pub(crate) fn unused() -> Store {
        Store {
            tasks: [9; 4105],
            objects: [9; 2057],
            places: [9; 2049],
            queue: ReadyQueue::new(),
            lent: Lengths {
                tasks: 4104,
                objects: 2056,
                places: 2048,
                calls: 256,
            },
        }
    }

    // A word of a slice, an entry of the queue or its count, or a length is another.
    pub(crate) fn damage(&mut self, c: Command) {
        let at = c.a as usize;
        match c.letter {
            b't' => self.tasks[at % 4105] = c.b,
            b'o' => self.objects[at % 2057] = c.b,
            b'p' => self.places[at % 2049] = c.b,
            b'q' => self.queue.ids[at % 513] = (c.b % 65536) as u16,
            b'n' => self.queue.len = at,
            b'T' => self.lent.tasks = at,
            b'O' => self.lent.objects = at,
            b'P' => self.lent.places = at,
            b'C' => self.lent.calls = at,
            _ => {}
        }
    }
}
