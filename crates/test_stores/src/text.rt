// Numbers, commands and lines of a text. Each is read at the front, and what stands behind it is handed on.
ghost use Rattle.std.specs.Prelude.{◌<◌, ◌≤◌, length, IfSome};

// A number in decimal.
fn read_number(text: &[u8]) -> (u64, &[u8])
    ensures { length result.1.now ≤ length text.now }
{
    let mut value: u64 = 0;
    for i in 0..text.len() {
        let b = text[i];
        if !b.is_ascii_digit() {
            return (value, &text[i..]);
        }
        value = value % 100000000000000000 * 10 + (b - b'0') as u64;
    }
    (value, &[])
}

// A letter and up to two numbers.
#[derive(Clone, Copy, PartialEq, Eq, Debug)]
pub struct Command {
    pub letter: u8,
    pub a: u64,
    pub b: u64,
}

pub(crate) fn read_command(text: &[u8]) -> Option<(Command, &[u8])>
    ensures { IfSome result (λ r. length r.1.now < length text.now) }
{
    let [letter, behind @ ..] = text else {
        return None;
    };
    let (a, rest) = read_number(behind);
    let (b, rest) = match rest {
        [b'=', behind @ ..] => read_number(behind),
        _ => (0, rest),
    };
    Some((
        Command {
            letter: *letter,
            a,
            b,
        },
        rest,
    ))
}

// What stands before the first such byte, and from there on, the byte too: nothing, where there is none.
pub(crate) fn split_before(text: &[u8], byte: u8) -> (&[u8], &[u8])
    ensures { length result.1.now ≤ length text.now }
{
    let end = text.iter().position(|&b| b == byte).unwrap_or(text.len());
    text.split_at(end)
}
