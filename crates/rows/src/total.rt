// A part of a row, read from a slice of any length: a word behind its end is 0, as in the definitions.
ghost use Rattle.std.specs.Prelude.{◌≡◌, ◌+◌, get_or};
ghost use Rattle.rows.specs.Tables.{place_at};

use asyncio::Value;
use asyncio::words::to_option;

fn word_at(words: &[u64], i: usize) -> u64
    ensures { result ≡ get_or words.now i 0 }
{
    words.get(i).copied().unwrap_or(0)
}

// The result of place `i` of a gather that starts at `first`.
pub fn result_at(places: &[u64], first: u16, i: u16) -> Option<Value>
    ensures { result ≡ (place_at places.now (first + i)).result }
{
    let p = first as usize + i as usize;
    let at = p * 4;
    to_option(word_at(places, at + 1), word_at(places, at + 2))
}
