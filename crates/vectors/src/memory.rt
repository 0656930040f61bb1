// What the calls of a file are lent.
use crate::digests::Digest;
use crate::numbers::Numbers;
use std::alloc::Global;

// A record's words and its list, those of a chooser, a table of slots, a replay's answers, where a sample and a plan go, and scratch. The
// calls of a replay are the wide list.
#[derive(Drop)]
pub struct Memory {
    pub words: Vec<u32>,
    pub list: Vec<u32>,
    pub wide_words: Vec<u64>,
    pub wide_list: Vec<u64>,
    pub table: Vec<u8>,
    pub answers: Vec<u32>,
    pub locations: Vec<u32>,
    pub terminals: Vec<u32>,
    pub scratch: Vec<u64>,
}

impl Memory {
    // Nothing lent.
    pub(crate) fn new(alloc: Global) -> Memory {
        Memory {
            words: Vec::new(alloc),
            list: Vec::new(alloc),
            wide_words: Vec::new(alloc),
            wide_list: Vec::new(alloc),
            table: Vec::new(alloc),
            answers: Vec::new(alloc),
            locations: Vec::new(alloc),
            terminals: Vec::new(alloc),
            scratch: Vec::new(alloc),
        }
    }

    // Lends the part of that name anew, and answers whether memory sufficed; none where no part has the name.
    pub(crate) fn lend(&mut self, name: &str, line: &mut Numbers<'_>) -> Option<bool> {
        Some(match name {
            "words" => line.fill(&mut self.words),
            "list" => line.fill(&mut self.list),
            "wide_words" => line.fill(&mut self.wide_words),
            "wide_list" => line.fill(&mut self.wide_list),
            "table" => line.fill(&mut self.table),
            "table_bits" => line.fill_bits(&mut self.table),
            "answers" => line.fill(&mut self.answers),
            "locations" => line.fill(&mut self.locations),
            "terminals" => line.fill(&mut self.terminals),
            "scratch" => line.fill(&mut self.scratch),
            _ => return None,
        })
    }

    // All of it but the scratch, whose contents are free after a call.
    pub(crate) fn feed(&self, digest: &mut Digest) {
        digest.feed_all(&self.words);
        digest.feed_all(&self.list);
        digest.feed_all(&self.wide_words);
        digest.feed_all(&self.wide_list);
        digest.feed_all(&self.table);
        digest.feed_all(&self.answers);
        digest.feed_all(&self.locations);
        digest.feed_all(&self.terminals);
    }
}
