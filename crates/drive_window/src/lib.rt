// A window of the driver's input: the records that are whole in it and have room for their lines.
#![tactic(auto)]

ghost use Rattle.std.specs.Prelude.{◌≡◌, ◌-◌};
ghost use Rattle.drive_window.specs.Window.{takes};
ghost use Rattle.drive_window.specs.OneWindow.{SoundSession, DrivesOneWindow};

use drive_answer::answered::Driven;
use queue::ReadyQueue;

// A record has at most so many bytes: results, 255 of 14 behind a head of 4 (record_limit).
pub const RECORD_BYTES: usize = 3574;

// A line has at most so many bytes (line_limit).
pub const LINE_BYTES: usize = 8192;

// The queue; the place and the number of the next record; how many bytes of lines were written; and whether the driver goes on.
#[derive(Drop)]
pub struct Window {
    pub queue: ReadyQueue,
    pub next: usize,
    pub at: usize,
    pub number: u64,
    pub going: bool,
}

// What is left of `all` behind a place.
fn bytes_left(all: usize, place: usize) -> usize
    ensures { result ≡ all - place }
{
    all.saturating_sub(place)
}

// Is the record at `from` taken? It is whole, or the input has ended with the window, there is room for its line, and a number behind its own.
#[tactic(auto, unfolding(crate::specs::Window::takes))]
fn takes(ended: bool, bytes: usize, from: usize, size: usize, at: usize, number: u64) -> bool
    ensures { result ≡ takes ended bytes from size at number }
{
    LINE_BYTES <= bytes_left(size, at)
        && number < u64::MAX
        && (ended || RECORD_BYTES <= bytes_left(bytes, from))
}

// Takes the records of `src` from `from` on, the first with the number `number`, and writes their lines from the front of `out` on, until the next one is not
// whole in a window that is not the input's last, there is no room for its line, the input ends, or what stands there is no record (11). The store is that of a
// session and is not checked.
pub fn drive_window(
    tasks: &mut [u64],
    objects: &mut [u64],
    places: &mut [u64],
    calls: &mut [u64],
    queue: ReadyQueue,
    src: &[u8],
    from: usize,
    ended: bool,
    out: &mut [u8],
    number: u64,
) -> Window
    requires { SoundSession tasks.old objects.old places.old calls.old queue }
    ensures { DrivesOneWindow tasks objects places calls queue src.now from ended out number result }
{
    let mut driven = Driven {
        queue,
        at: 0,
        next: from,
        going: true,
    };
    let mut count = number;
    while takes(ended, src.len(), driven.next, out.len(), driven.at, count) {
        let left_queue = driven.queue;
        driven = drive_record::drive_record(
            tasks,
            objects,
            places,
            calls,
            left_queue,
            src,
            driven.next,
            out,
            driven.at,
            count,
        );
        if !driven.going {
            let last_queue = driven.queue;
            return Window {
                queue: last_queue,
                next: driven.next,
                at: driven.at,
                number: count,
                going: false,
            };
        }
        count += 1;
    }
    let last_queue = driven.queue;
    Window {
        queue: last_queue,
        next: driven.next,
        at: driven.at,
        number: count,
        going: true,
    }
}
