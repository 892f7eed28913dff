// Soundness: canonical rows. Each row in use is tested by its groups of words.
// The header is decoded and encoded, and its words have to come back.
#![tactic(auto)]

mod groups; // groups of words, and an object's row by its kind

ghost use Rattle.std.specs.Prelude.{◌≡◌, ◌<◌, ◌≤◌};
ghost use Rattle.asyncio.specs.Limits.{task_limit, object_limit, place_limit};
ghost use Rattle.rows.specs.Canonical.{same_words, task_canonical, object_canonical, place_canonical, header_canonical};
ghost use Rattle.machine.specs.Tests.{all_below};

use crate::groups::{is_object, is_place, is_task};
use asyncio::words::{header_words, to_header};
use asyncio::{Objects, Places, Tasks};
use rows::tables::{header_row, object_row, place_row, task_row};

pub fn header_same(objects: &Objects) -> bool
    ensures { result ≡ header_canonical objects.now }
{
    let row = header_row(objects);
    header_words(to_header(row)) == row
}

pub fn tasks_same(tasks: &Tasks, n: usize) -> bool
    requires { n ≤ task_limit }
    ensures { result ≡ all_below n (λ t. task_canonical tasks.now t) }
{
    (0..n).all(|t| is_task(task_row(tasks, t)))
}

pub fn objects_same(objects: &Objects, n: usize) -> bool
    requires { n ≤ object_limit }
    ensures { result ≡ all_below n (λ o. object_canonical objects.now o) }
{
    (0..n).all(|o| is_object(object_row(objects, o)))
}

pub fn places_same(places: &Places, n: usize) -> bool
    requires { n ≤ place_limit }
    ensures { result ≡ all_below n (λ p. place_canonical places.now p) }
{
    (0..n).all(|p| is_place(place_row(places, p)))
}
