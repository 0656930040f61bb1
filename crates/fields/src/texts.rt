// A text put behind what stands in a list so far, as far as there is room.
ghost use Rattle.std.specs.Prelude.{◌≡◌, ◌++◌, ◌∷◌, [], ◌≤◌, ◌+◌, length};
ghost use Rattle.fields.specs.Printing.{decimal_of, tabbed, line_end, spell_capitals, key_text, capital_digit};

// How many digits a number has. By comparisons and not by `ilog10`, which has no branch: that a processor has seen how many digits
// there are is why it foresees the end of `spell`.
fn digits(n: u32) -> usize
    ensures count { result ≡ length (decimal_of n) }
    ensures few { result ≤ 10 }
{
    match n {
        0..=9 => 1,
        10..=99 => 2,
        100..=999 => 3,
        1_000..=9_999 => 4,
        10_000..=99_999 => 5,
        100_000..=999_999 => 6,
        1_000_000..=9_999_999 => 7,
        10_000_000..=99_999_999 => 8,
        100_000_000..=999_999_999 => 9,
        _ => 10,
    }
}

// Writes a number in decimal, without leading zeros, over as many places as it has digits: from the last to the first, which is
// left of it and wants no division. By hand, since of std's printing a proof knows what it puts only where that is a String, which
// needs a heap.
fn spell(places: &mut [u8], n: u32)
    requires { length places.old ≡ length (decimal_of n) }
    ensures { places.new ≡ decimal_of n }
{
    let mut left = n;
    for i in (1..places.len()).rev() {
        places[i] = b'0' + (left % 10) as u8;
        left /= 10;
    }
    places[0] = b'0' + left as u8;
}

// A digit of base 16 in capitals.
fn capital(digit: u8) -> u8
    requires { digit ≤ 15 }
    ensures { result ≡ capital_digit digit }
{
    if digit < 10 {
        b'0' + digit
    } else {
        b'A' + (digit - 10)
    }
}

// Writes the last digits of a key in base 16 over all places, from the last to the first.
fn spell_key(places: &mut [u8], key: u64)
    ensures { places.new ≡ spell_capitals (length places.old) key [] }
{
    let mut left = key;
    for i in (0..places.len()).rev() {
        places[i] = capital((left % 16) as u8);
        left /= 16;
    }
}

// A text that grows in the first places of a list, which is lent, since there is no heap.
#[derive(Drop)]
pub struct Text<'a> {
    pub out: &'a mut [u8],
    pub len: usize,
    pub ghost fits: { len ≤ length out.now },
}

// What there is room for. `SameList` in each contract: a struct's field that is `&mut` could be another list after a call, so each
// says that it is the same.
impl Text<'_> {
    ghost use Rattle.fields.specs.Texts.{HasRoom, SameList, Put, Puts};

    fn write_byte(&mut self, byte: u8)
        requires { HasRoom self.old 1 }
        ensures lent { SameList self.old self.new }
        ensures puts { Puts self.old (byte ∷ []) self.new }
    {
        self.out[self.len] = byte;
        self.len += 1;
    }

    fn write(&mut self, bytes: &[u8])
        requires { HasRoom self.old (length bytes.now) }
        ensures lent { SameList self.old self.new }
        ensures puts { Puts self.old bytes.now self.new }
    {
        let end = self.len + bytes.len();
        self.out[self.len..end].copy_from_slice(bytes);
        self.len = end;
    }

    fn write_number(&mut self, n: u32)
        requires { HasRoom self.old 10 }
        ensures lent { SameList self.old self.new }
        ensures puts { Puts self.old (decimal_of n) self.new }
    {
        let end = self.len + digits(n);
        spell(&mut self.out[self.len..end], n);
        self.len = end;
    }

    fn write_tabbed(&mut self, n: u32)
        requires { HasRoom self.old 11 }
        ensures lent { SameList self.old self.new }
        ensures puts { Puts self.old (tabbed n) self.new }
    {
        self.write_byte(b'\t');
        self.write_number(n);
    }

    #[inline(always)]
    fn write_one(&mut self, word: &[u8], n: u32)
        requires { HasRoom self.old (length word.now + 12) }
        ensures lent { SameList self.old self.new }
        ensures puts { Puts self.old (word.now ++ tabbed n ++ line_end) self.new }
    {
        self.write(word);
        self.write_tabbed(n);
        self.write_byte(b'\n');
    }

    // Three numbers and the line's end from a place on, and the place after them. In a text of its own: a byte that is written to one
    // that is lent could be its length's, so that length and list would be read anew after each byte.
    fn three_from(out: &mut [u8], at: usize, a: u32, b: u32, c: u32) -> usize
        requires { at + 33 ≤ length out.old }
        ensures within { result ≤ length out.new }
        ensures puts { Put out.old at (decimal_of a ++ tabbed b ++ tabbed c ++ line_end) out.new result }
    {
        let mut line = Text { out, len: at };
        line.write_number(a);
        line.write_tabbed(b);
        line.write_tabbed(c);
        line.write_byte(b'\n');
        line.len
    }

    fn write_three(&mut self, a: u32, b: u32, c: u32)
        requires { HasRoom self.old 33 }
        ensures lent { SameList self.old self.new }
        ensures puts { Puts self.old (decimal_of a ++ tabbed b ++ tabbed c ++ line_end) self.new }
    {
        self.len = Self::three_from(self.out, self.len, a, b, c);
    }
}

// What has not room for all of it, a call each, so that the code of the calls below stays short.
impl Text<'_> {
    ghost use Rattle.fields.specs.Texts.{SameList, PutsFirst};

    #[inline(never)]
    fn cut_bytes(&mut self, bytes: &[u8])
        ensures lent { SameList self.old self.new }
        ensures puts { PutsFirst self.old bytes.now self.new }
    {
        let count = bytes.len().min(self.out.len() - self.len);
        self.write(&bytes[..count]);
    }

    #[inline(never)]
    fn cut_number(&mut self, n: u32)
        ensures lent { SameList self.old self.new }
        ensures puts { PutsFirst self.old (decimal_of n) self.new }
    {
        let count = digits(n);
        let mut places = [0u8; 10];
        spell(&mut places[..count], n);
        self.cut_bytes(&places[..count]);
    }

    #[inline(never)]
    fn cut_one(&mut self, word: &[u8], n: u32)
        ensures lent { SameList self.old self.new }
        ensures puts { PutsFirst self.old (word.now ++ tabbed n ++ line_end) self.new }
    {
        self.push_bytes(word);
        self.push_tabbed(n);
        self.push(b'\n');
    }

    #[inline(never)]
    fn cut_three(&mut self, a: u32, b: u32, c: u32)
        ensures lent { SameList self.old self.new }
        ensures puts { PutsFirst self.old (decimal_of a ++ tabbed b ++ tabbed c ++ line_end) self.new }
    {
        self.push_number(a);
        self.push_tabbed(b);
        self.push_tabbed(c);
        self.push(b'\n');
    }
}

// As far as there is room.
impl Text<'_> {
    ghost use Rattle.fields.specs.Texts.{SameList, PutsFirst};

    // ---- bytes

    pub fn push(&mut self, byte: u8)
        ensures lent { SameList self.old self.new }
        ensures puts { PutsFirst self.old (byte ∷ []) self.new }
    {
        if self.len < self.out.len() {
            self.write_byte(byte);
        }
    }

    #[inline(always)]
    pub fn push_bytes(&mut self, bytes: &[u8])
        ensures lent { SameList self.old self.new }
        ensures puts { PutsFirst self.old bytes.now self.new }
    {
        if bytes.len() > self.out.len() - self.len {
            self.cut_bytes(bytes);
            return;
        }
        self.write(bytes);
    }

    // ---- numbers and keys

    // A number in decimal, without leading zeros.
    pub fn push_number(&mut self, n: u32)
        ensures lent { SameList self.old self.new }
        ensures puts { PutsFirst self.old (decimal_of n) self.new }
    {
        if self.out.len() - self.len < 10 {
            self.cut_number(n);
            return;
        }
        self.write_number(n);
    }

    pub fn push_tabbed(&mut self, n: u32)
        ensures lent { SameList self.old self.new }
        ensures puts { PutsFirst self.old (tabbed n) self.new }
    {
        self.push(b'\t');
        self.push_number(n);
    }

    // A key of 16 capital digits.
    pub fn push_key(&mut self, key: u64)
        ensures lent { SameList self.old self.new }
        ensures puts { PutsFirst self.old (key_text key) self.new }
    {
        let mut places = [0u8; 16];
        spell_key(&mut places, key);
        self.push_bytes(&places);
    }

    // ---- lines: where there is room for the longest, no more is tested

    // A word, a number and the line's end.
    #[inline(always)]
    pub fn push_one(&mut self, word: &[u8], n: u32)
        ensures lent { SameList self.old self.new }
        ensures puts { PutsFirst self.old (word.now ++ tabbed n ++ line_end) self.new }
    {
        let room = self.out.len() - self.len;
        if room < 12 || word.len() > room - 12 {
            self.cut_one(word, n);
            return;
        }
        self.write_one(word, n);
    }

    // Three numbers and the line's end.
    pub fn push_three(&mut self, a: u32, b: u32, c: u32)
        ensures lent { SameList self.old self.new }
        ensures puts { PutsFirst self.old (decimal_of a ++ tabbed b ++ tabbed c ++ line_end) self.new }
    {
        if self.out.len() - self.len < 33 {
            self.cut_three(a, b, c);
            return;
        }
        self.write_three(a, b, c);
    }
}
