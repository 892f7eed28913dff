// What an entry prints.
use crate::entries::entered;
use crate::store::Store;
use crate::text::Command;
use drive_text::Writer;
use exec_switch::answer::Answer;

// The answer, as far as this program tells answers apart; "refused 0" where more words are lent than there are.
fn write_told(out: &mut Writer, answer: Option<Answer>) {
    match answer {
        None => out.put_named(b"refused", 0),
        Some(Answer::Refused(refusal)) => out.put_named(b"refused", refusal.number() as u64),
        Some(Answer::Eager(true)) => out.put_text(b"eager yes"),
        Some(Answer::Eager(false)) => out.put_text(b"eager no"),
        Some(_) => out.put_text(b"accepted"),
    }
}

// The command's letter, and what its entry answers; the store stays, and the list of calls holds 7s.
pub(crate) fn write_entry(out: &mut Writer, store: &Store, c: Command) {
    let mut after = *store;
    let mut calls = [7; 257];
    let answer = entered(&mut after, &mut calls, c.a, c.b);
    out.put_byte(c.letter);
    out.put_byte(b' ');
    write_told(out, answer);
    let refused = matches!(answer, None | Some(Answer::Refused(_)));
    if refused && (calls != [7; 257] || after != *store) {
        out.put_text(b"\nchanged");
    }
}
