// One record of document 01's driver to one line: the record is read, the library answers, the line is written.
#![tactic(auto)]

ghost use Rattle.contract.specs.Entries.{SoundMemory};
ghost use Rattle.drive_answer.specs.Drove.{DrivesRecord};

use drive_answer::answered::Driven;
use drive_lines::answers::write_refused;
use drive_reader::{Found, NoRecord};
use drive_text::Writer;
use queue::ReadyQueue;

// The record at `from` and its line, which is written at `at`. `number` is the record's. The store is sound, as it is in a session: it is
// not checked at each record. Inlined, since a call of its own copies the queue, 1 KB, once more at each record (docs/LOOK-BACK.md, d).
#[inline(always)]
pub fn drive_record(
    tasks: &mut [u64],
    objects: &mut [u64],
    places: &mut [u64],
    calls: &mut [u64],
    queue: ReadyQueue,
    src: &[u8],
    from: usize,
    out: &mut [u8],
    at: usize,
    number: u64,
) -> Driven
    requires { SoundMemory tasks.old objects.old places.old calls.old queue }
    ensures { DrivesRecord tasks objects places calls queue src.now from out at number result }
{
    match drive_reader::parse_record(src, from) {
        Ok(None) => Driven {
            queue,
            at,
            next: from,
            going: false,
        },
        Err(NoRecord) => {
            let mut line = Writer::new(out, at);
            write_refused(&mut line, number, 11);
            Driven {
                queue,
                at: line.at,
                next: from,
                going: false,
            }
        }
        Ok(Some(Found { what, next })) => drive_answer::answered::answered(
            tasks, objects, places, calls, queue, src, what, next, out, at, number,
        ),
    }
}
