// commit_gather_tree: the walk through a gather and the gathers nested in it.
ghost use Rattle.std.specs.Prelude.{◌<◌};
ghost use Rattle.asyncio.specs.Limits.{object_limit};
ghost use Rattle.machine.specs.Commit.{commit_gather_tree};
ghost use Rattle.exec_commit.specs.Frames.{Commits};

use crate::frames::{Frame, Frames};
use crate::settle::{
    open_gather_commit, resume_after_child, settle_gather_commit, unwind_gather_commits,
};
use crate::step::{Stop, step_gather_commit};
use asyncio::{Awaiter, HeapId, Objects, Places, Tasks};
use exec_poll::item::Poll;
use queue::ReadyQueue;

// What the await sees after a commit, and the number of commit steps.
#[derive(Clone, Copy, PartialEq, Eq, Debug)]
pub struct Committed {
    pub poll: Poll,
    pub steps: u16,
}

// Gather `root`, for its awaiter, and every gather nested in it. The innermost is on `top`; those that it is nested in wait. One comes to
// wait when a pending gather is opened, so that a frame for each object is enough.
pub fn commit_gather_tree(
    tasks: &mut Tasks,
    objects: &mut Objects,
    places: &mut Places,
    queue: &mut ReadyQueue,
    root: HeapId,
    awaiter: Awaiter,
) -> Committed
    requires { root.0 < object_limit }
    ensures { Commits tasks objects places queue
        (λ s. commit_gather_tree s root.0 awaiter) result }
{
    open_gather_commit(objects, root, awaiter);
    let mut waiting = Frames::new();
    let mut top = Frame {
        gather: root,
        next: 0,
    };
    let mut steps: u16 = 0;
    loop {
        let stop = step_gather_commit(tasks, objects, places, queue, top.gather, top.next);
        steps += 1;
        match stop {
            Stop::Nested { at, item } => {
                waiting.push(Frame { next: at, ..top });
                let slot = Awaiter::GatherSlot {
                    gather: top.gather,
                    source: item,
                };
                open_gather_commit(objects, item, slot);
                top = Frame {
                    gather: item,
                    next: 0,
                };
            }
            Stop::End => {
                let poll = settle_gather_commit(objects, top.gather);
                let Some(outer) = waiting.pop() else {
                    return Committed { poll, steps };
                };
                resume_after_child(objects, places, outer.gather, outer.next as usize, poll);
                top = Frame {
                    next: outer.next + 1,
                    ..outer
                };
            }
            Stop::Raised(e) => {
                unwind_gather_commits(objects, top.gather, waiting, e);
                return Committed {
                    poll: Poll::Raised(e),
                    steps,
                };
            }
        }
    }
}
