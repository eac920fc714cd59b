ghost use Rattle.std.specs.Prelude.{◌≡◌, ℕ, ◌<◌, ◌≤◌, List, Some, length, take, drop, min, vec_len, IfOk, IsOk};

use crate::{Failed, Source};
use std::marker::Model;

/// A source over bytes in memory that never fails.
#[derive(Debug, Drop)]
pub struct Plain {
    content: Vec<u8>,
    at: usize,
}

// A caller sees the bytes that are left.
impl Model for Plain {
    ghost Value = { List ℕ };

    ghost view = { λ p. drop p.at p.content.items };

    ghost invariant = { λ p. p.at ≤ vec_len p.content };
}

impl Plain {
    /// A source of these bytes.
    pub fn new(content: Vec<u8>) -> Plain
        ensures { result ≡ content.items }
    {
        Plain { content, at: 0 }
    }

    /// Gives the next bytes, at most `most`, into the front of `buf` and returns how many.
    pub(crate) fn give(&mut self, buf: &mut [u8], most: usize) -> usize
        ensures count { result ≡ min (min most (length buf.old)) (length self.old) }
        ensures bytes { take result buf.new ≡ take result self.old }
        ensures rest { self.new ≡ drop result self.old }
    {
        let count = most.min(buf.len()).min(self.content.len() - self.at);
        buf[..count].copy_from_slice(&self.content[self.at..self.at + count]);
        self.at += count;
        count
    }
}

impl Source for Plain {
    ghost left = { λ p. Some p };

    ghost faults = { λ _. 0 };

    fn read(&mut self, buf: &mut [u8]) -> Result<usize, Failed>
        requires { 0 < length buf.old }

        ensures never_fails { IsOk result }
        ensures count { IfOk result (λ count. count ≡ min (length buf.old) (length self.old)) }
        ensures bytes { IfOk result (λ count. take count buf.new ≡ take count self.old) }
        ensures rest { IfOk result (λ count. self.new ≡ drop count self.old) }
    {
        let most = buf.len();
        Ok(self.give(buf, most))
    }
}
