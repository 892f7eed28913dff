// The gathers of a commit that wait for the one nested in them.
ghost use Rattle.std.specs.Prelude.{◌≡◌, ◌<◌, ◌≤◌, [], ◌∷◌, length};
ghost use Rattle.asyncio.specs.Limits.{object_limit};
ghost use Rattle.exec_commit.specs.Stack.{frame_of, stack_of, Pops};

use crate::OBJECTS;
use asyncio::HeapId;

// A gather, and its place that is stepped next.
#[derive(Clone, Copy)]
pub(crate) struct Frame {
    pub gather: HeapId,
    pub next: u16,
}

// A stack with room for a frame of each object: the first `depth`, the lowest first.
#[derive(Drop)]
pub(crate) struct Frames {
    frames: [Frame; OBJECTS],
    depth: usize,
}

impl Frames {
    #[tactic(auto, unfolding(crate::specs::Stack::below))]
    pub fn new() -> Frames
        ensures { stack_of result ≡ [] }
    {
        let none = Frame {
            gather: HeapId(0),
            next: 0,
        };
        Frames {
            frames: [none; OBJECTS],
            depth: 0,
        }
    }

    pub fn push(&mut self, frame: Frame)
        requires { length (stack_of self.old) < object_limit }
        ensures { stack_of self.new ≡ frame_of frame ∷ stack_of self.old }
    {
        self.frames[self.depth] = frame;
        self.depth += 1;
    }

    // The frame on top, taken off.
    pub fn pop(&mut self) -> Option<Frame>
        requires { length (stack_of self.old) ≤ object_limit }
        ensures { Pops result (stack_of self.old) (stack_of self.new) }
    {
        if self.depth == 0 {
            return None;
        }
        self.depth -= 1;
        Some(self.frames[self.depth])
    }
}
