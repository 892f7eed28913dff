// Bytes, texts and numbers written into a lent buffer, one behind the other. Where the buffer ends nothing more is written.
#![tactic(auto)]

// A lent buffer, and the place of the next byte.
#[derive(Drop)]
pub struct Writer<'a> {
    pub out: &'a mut [u8],
    pub at: usize,
}

impl<'a> Writer<'a> {
    ghost use Rattle.std.specs.Prelude.{◌≡◌, ◌+◌, ◌*◌, [], ◌∷◌, ◌++◌, length};
    ghost use Rattle.drive_text.specs.Writing.{Puts};
    ghost use Rattle.drive_text.specs.Text.{decimal, field, fields};

    // Writes into a buffer from a place on.
    pub fn new(out: &'a mut [u8], at: usize) -> Writer<'a>
        ensures same_buffer { result.out.ghost_name ≡ out.entry.ghost_name }
        ensures bytes { result.out.now ≡ out.old }
        ensures place { result.at ≡ at }
    {
        Writer { out, at }
    }

    // One byte.
    pub fn put_byte(&mut self, b: u8)
        ensures { Puts 1 self (b ∷ []) }
    {
        if self.at < self.out.len() {
            self.out[self.at] = b;
            self.at += 1;
        }
    }

    // The bytes of a text. The place is a variable meanwhile: behind `self` each byte would read and write it.
    pub fn put_text(&mut self, text: &[u8])
        ensures { Puts (length text.now) self text.now }
    {
        let mut at = self.at;
        for &b in text {
            if at < self.out.len() {
                self.out[at] = b;
                at += 1;
            }
        }
        self.at = at;
    }

    // A number in decimal. Its digits are made in an array, from the last one on, and written as one text.
    pub fn put_decimal(&mut self, n: u64)
        ensures { Puts 20 self (decimal n) }
    {
        let mut digits = [0u8; 20];
        let mut first: usize = 19;
        let mut rest = n;
        while rest >= 10 {
            digits[first] = 48 + (rest % 10) as u8;
            rest /= 10;
            first -= 1;
        }
        digits[first] = 48 + rest as u8;
        self.put_text(&digits[first..]);
    }

    // A number after a space.
    pub fn put_field(&mut self, n: u64)
        ensures { Puts 21 self (field n) }
    {
        self.put_byte(b' ');
        self.put_decimal(n);
    }

    // A text, and a number after a space.
    pub fn put_named(&mut self, text: &[u8], n: u64)
        ensures { Puts (length text.now + 21) self (text.now ++ field n) }
    {
        self.put_text(text);
        self.put_field(n);
    }

    // Numbers, each after a space.
    pub fn put_numbers(&mut self, numbers: &[u64])
        ensures { Puts (21 * length numbers.now) self (fields numbers.now) }
    {
        for &n in numbers {
            self.put_field(n);
        }
    }
}
