// Many numbers as one: a state fed with all of them.
use crate::numbers::Word;

#[derive(Drop)]
pub struct Digest {
    state: u64,
}

impl Digest {
    pub(crate) fn new() -> Digest {
        Digest { state: 0 }
    }

    pub(crate) fn feed(&mut self, number: u64) {
        self.state = exports::perillajamb_seq_builder(self.state, number);
    }

    pub(crate) fn feed_all<T: Word>(&mut self, memory: &[T]) {
        for word in memory {
            self.feed((*word).into());
        }
    }

    pub(crate) fn value(&self) -> u64 {
        self.state % 0x8000_0000_0000_0000
    }
}
