// Where a search begins: objects that it need not look at are passed over, four or eight at a time.
ghost use Rattle.std.specs.Prelude.{◌≡◌, Bool, ℕ, ◌+◌, ◌<◌, ◌≤◌};
ghost use Rattle.asyncio.specs.Limits.{object_limit};
ghost use Rattle.machine.specs.Scheduler.{is_call};
ghost use Rattle.scheduler.specs.Skips.{is_pending, any_of, BeginsAt, CallableOnObjects, TestsObjects};

use crate::tasks::is_call;
use asyncio::{HeapId, Objects};

// Is object `o` a pending external?
pub(crate) fn is_pending(objects: &Objects, o: HeapId) -> bool
    requires { o.0 < object_limit }
    ensures { result ≡ is_pending objects.now o.0 }
{
    rows::parts::kind_at(objects, o).is_pending_external()
}

// Does one of the `N` objects from `o` on pass the test?
fn any_of<const N: u16, F: Fn(HeapId) -> bool>(test: &F, o: u16) -> bool
    requires { (o + N ≤ object_limit) × CallableOnObjects (F.pre test.now) }
    ensures { (p : ℕ → Bool) → TestsObjects (F.post test.now) p → result ≡ any_of p o N }
{
    for i in 0..N {
        if test(HeapId::new(o + i)) {
            return true;
        }
    }
    false
}

// Where a search below `made` may begin: `N` objects at a time are passed over, as long as none of them passes the test.
fn skip<const N: u16, F: Fn(HeapId) -> bool>(made: u16, test: F) -> u16
    requires { (0 < N) × (made ≤ object_limit) × CallableOnObjects (F.pre test) }
    ensures { (p : ℕ → Bool) → TestsObjects (F.post test) p → BeginsAt p made result }
{
    let mut o = 0;
    // Kept: a `for` over the groups would have to count them, and `o` would be a product; that is no plainer.
    while N <= made - o {
        if any_of::<N, F>(&test, o) {
            return o;
        }
        o += N;
    }
    o
}

// Where a search for a pending external below `made` may begin.
pub(crate) fn skip_not_pending(objects: &Objects, made: u16) -> u16
    requires { made ≤ object_limit }
    ensures { BeginsAt (is_pending objects.now) made result }
{
    skip::<4, _>(made, |o| is_pending(objects, o))
}

// Where the search for that call's pending external below `made` may begin.
pub(crate) fn skip_other_calls(objects: &Objects, call: u32, made: u16) -> u16
    requires { made ≤ object_limit }
    ensures { BeginsAt (is_call objects.now call) made result }
{
    skip::<8, _>(made, |o| is_call(objects, call, o))
}
