// Text in a lent buffer, put piece by piece. `write!` does not say when it succeeds, so a line that has room is put by these.

ghost use Rattle.std.specs.Prelude.{◌≡◌, ◌+◌, ◌≤◌, ◌<◌, [], ◌∷◌, ◌++◌, length};
ghost use Rattle.pala.specs.Lines.{digits, spaced};
ghost use Rattle.lines.specs.Text.{Put, line_most};

pub const SPACE: u8 = b' ';

pub const NEW_LINE: u8 = b'\n';

// A number's digits are decimal; `cases` has a ten of its own for the digits that it reads.
const TEN: u64 = 10;

// A lent buffer, and the index past what is written so far.
#[derive(Drop)]
pub struct Line<'a> {
    pub text: &'a mut [u8],
    pub at: usize,
}

// Each says what it puts and that the buffer is the one that was lent: a caller's proof needs both after each call.
impl Line<'_> {
    pub fn put_byte(&mut self, b: u8)
        requires { self.old.at < length self.old.text.now }
        ensures lent { self.new.text.ghost_name ≡ self.old.text.ghost_name }
        ensures put { Put self.old.text.now self.old.at (b ∷ []) self.new.at self.new.text.now }
    {
        self.text[self.at] = b;
        self.at += 1;
    }

    pub fn put_bytes(&mut self, bytes: &[u8])
        requires { self.old.at + length bytes.now ≤ length self.old.text.now }
        ensures lent { self.new.text.ghost_name ≡ self.old.text.ghost_name }
        ensures put { Put self.old.text.now self.old.at bytes.now self.new.at self.new.text.now }
    {
        let past = self.at + bytes.len();
        self.text[self.at..past].copy_from_slice(bytes);
        self.at = past;
    }

    // A number in decimal. Division gives the last digit first, so a recursion puts those before it: a loop would need a second buffer.
    pub fn put_digits(&mut self, k: u64)
        requires { self.old.at + length (digits k) ≤ length self.old.text.now }
        ensures lent { self.new.text.ghost_name ≡ self.old.text.ghost_name }
        ensures put { Put self.old.text.now self.old.at (digits k) self.new.at self.new.text.now }
    {
        if TEN <= k {
            self.put_digits(k / TEN);
        }
        self.put_byte(b'0' + (k % TEN) as u8);
    }

    // A number and the byte that ends it.
    pub fn put_number(&mut self, k: u64, end: u8)
        requires { self.old.at + length (digits k) < length self.old.text.now }
        ensures lent { self.new.text.ghost_name ≡ self.old.text.ghost_name }
        ensures put { Put self.old.text.now self.old.at (digits k ++ (end ∷ [])) self.new.at self.new.text.now }
    {
        self.put_digits(k);
        self.put_byte(end);
    }

    // "Per record a line: record number, answer, local epoch, bar, length of the final list."
    pub fn put_record(&mut self, k: u64, answer: u32, local: u32, bar: u32, names: u32)
        requires room { self.old.at + line_most ≤ length self.old.text.now }
        requires few { (answer < 100) × (names < 100) }
        ensures lent { self.new.text.ghost_name ≡ self.old.text.ghost_name }
        ensures put { Put self.old.text.now self.old.at (spaced (k ∷ answer ∷ local ∷ bar ∷ names ∷ [])) self.new.at self.new.text.now }
        ensures most { self.new.at ≤ self.old.at + line_most }
    {
        self.put_number(k, SPACE);
        self.put_number(u64::from(answer), SPACE);
        self.put_number(u64::from(local), SPACE);
        self.put_number(u64::from(bar), SPACE);
        self.put_number(u64::from(names), NEW_LINE);
    }
}
