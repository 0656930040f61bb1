// The numbers of a line, read one after the other.
ghost use Rattle.std.specs.Prelude.{◌≤◌};

// What memory holds: bytes, words of 32 bits, or words of 64.
pub trait Word: Copy + Into<u64> {
    // The low bits of a number.
    fn of(number: u64) -> Self;
}

impl Word for u8 {
    fn of(number: u64) -> u8 {
        (number % 0x100) as u8
    }
}

impl Word for u32 {
    fn of(number: u64) -> u32 {
        (number % 0x1_0000_0000) as u32
    }
}

impl Word for u64 {
    fn of(number: u64) -> u64 {
        number
    }
}

// The numbers of a call, no call having more than three, and the low 32 bits of each.
#[derive(Clone, Copy)]
pub struct Given {
    pub a: u64,
    pub b: u64,
    pub c: u64,
    pub low_a: u32,
    pub low_b: u32,
    pub low_c: u32,
}

// What is left of a line: numbers in hexadecimal, parted by single spaces, and what its first number is raised by.
#[derive(Clone, Copy)]
pub struct Numbers<'a> {
    rest: &'a str,
    step: u64,
}

impl<'a> Numbers<'a> {
    pub(crate) fn new(rest: &'a str, step: u64) -> Self {
        Numbers { rest, step }
    }

    // The next number; all ones where none is left.
    pub(crate) fn next(&mut self) -> u64 {
        let (number, rest) = self.rest.split_once(' ').unwrap_or((self.rest, ""));
        let step = self.step;
        self.rest = rest;
        self.step = 0;
        match u64::from_str_radix(number, 16) {
            Ok(number) => number.saturating_add(step),
            Err(_) => u64::MAX,
        }
    }

    // The numbers of a call.
    pub(crate) fn given(&mut self) -> Given {
        let a = self.next();
        let b = self.next();
        let c = self.next();
        Given {
            a,
            b,
            c,
            low_a: u32::of(a),
            low_b: u32::of(b),
            low_c: u32::of(c),
        }
    }

    // How many places a line lends, or how many times a call is made.
    pub(crate) fn length(&mut self) -> u64
        ensures { result ≤ 4096 }
    {
        self.next().min(4096)
    }

    // `places n1 n2 ..`: so many places with these numbers, and with all ones where the line has no more. Whether memory sufficed.
    pub(crate) fn fill<T: Word>(&mut self, part: &mut Vec<T>) -> bool {
        part.clear();
        for _ in 0..self.length() {
            if part.push(T::of(self.next())).is_err() {
                return false;
            }
        }
        true
    }

    // `places bits1 bits2 ..`: so many places with the bits of these numbers, of each the lowest first. Whether memory sufficed.
    pub(crate) fn fill_bits(&mut self, part: &mut Vec<u8>) -> bool {
        part.clear();
        let mut bits = 0;
        for i in 0..self.length() {
            if i % 64 == 0 {
                bits = self.next();
            }
            if part.push((bits % 2) as u8).is_err() {
                return false;
            }
            bits /= 2;
        }
        true
    }
}
