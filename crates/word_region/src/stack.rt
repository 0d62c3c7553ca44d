//! A stack of words above words that are kept, in one region.

ghost use Rattle.std.specs.Prelude.{◌≡◌, ◌+◌, ◌-◌, ◌≤◌, [], ◌++◌, IfOk, length, replicate, slice_range, take};
ghost use Rattle.std.specs.Borrow.{sem};
ghost use Rattle.word_region.specs.Lending.{LendsTop};
ghost use Rattle.word_region.specs.Words.{written_at};

use crate::{Frame, Mark, NoMemory, Region};
use std::alloc::Global;
use std::marker::Model;

/// A region whose first words are kept, and whose other used words are a stack of words. Contracts see how many words may
/// stand above the kept ones, the kept words, and the words of the stack from its bottom to its top.
#[derive(Drop)]
pub struct Stack {
    region: Region,
    floor: usize,
}

impl Model for Stack {
    ghost use Rattle.std.specs.Prelude.{◌-◌, ◌≤◌, drop, length, take};
    ghost use Rattle.word_region.specs.Board.{Board};

    ghost Value = { Board };

    ghost view = { λ s. record { size = s.region.size - s.floor; kept = take s.floor s.region.used; words = drop s.floor s.region.used } };

    ghost invariant = { λ s. s.floor ≤ length s.region.used };
}

impl Stack {
    /// An empty stack in a region of `words` words, of which the first `floor` are kept, and are zeros. Fails only for want
    /// of memory.
    pub fn new(alloc: Global, words: usize, floor: usize) -> Result<Stack, NoMemory>
        requires { floor ≤ words }
        ensures { IfOk result (λ s. s ≡ record { size = words - floor; kept = replicate floor 0; words = [] }) }
    {
        let mut region = Region::new(alloc, words)?;
        region.take(floor).unwrap();
        Ok(Stack { region, floor })
    }

    /// The number of words of the stack.
    pub fn len(&self) -> usize
        ensures { result ≡ length self.now.words }
    {
        self.region.mark().used - self.floor
    }

    /// The number of free words.
    pub fn free(&self) -> usize
        ensures { result ≡ self.now.size - length self.now.words }
    {
        self.region.free()
    }

    /// The words of the stack.
    pub fn words(&self) -> &[u64]
        ensures { result.now ≡ self.now.words }
    {
        let at = self.floor;
        self.region.get(Frame {
            at,
            len: self.len(),
        })
    }

    /// The kept words.
    pub fn kept(&self) -> &[u64]
        ensures { result.now ≡ self.now.kept }
    {
        self.region.get(Frame {
            at: 0,
            len: self.floor,
        })
    }

    /// Gives back all words of the stack but the first `count`.
    pub fn cut(&mut self, count: usize)
        requires { count ≤ length self.old.words }
        ensures { self.new ≡ record self.old { words = take count self.old.words } }
    {
        let _used = self.region.mark().used;
        self.region.release(Mark {
            used: self.floor + count,
        });
    }

    /// Appends `n` zeros, and lends all words below them, to be read, and these, to be written.
    pub fn grow(&mut self, n: usize) -> (&[u64], &mut [u64])
        requires { length self.old.words + n ≤ self.old.size }
        ensures* writes_back { sem 𝓛 (LendsTop self.entry n result.1) }
        ensures below { result.0.now ≡ self.old.words }
        ensures top { result.1.now ≡ replicate n 0 }
    {
        let below = Frame {
            at: self.floor,
            len: self.len(),
        };
        let top = self.region.take(n).unwrap();
        self.region.pair(below, top)
    }

    /// Appends a list.
    pub fn push(&mut self, list: &[u64])
        requires { length self.old.words + length list.now ≤ self.old.size }
        ensures { self.new ≡ record self.old { words = self.old.words ++ list.now } }
    {
        let (_below, top) = self.grow(list.len());
        top.copy_from_slice(list);
    }

    /// Moves the words from the place `from` up to `to` down to `below`, and gives back all words behind them.
    pub fn collapse(&mut self, below: usize, from: usize, to: usize)
        requires down { below ≤ from }
        requires order { from ≤ to }
        requires there { to ≤ length self.old.words }
        ensures { self.new ≡ record self.old { words = take below self.old.words ++ slice_range self.old.words from to } }
    {
        let frame = Frame {
            at: self.floor,
            len: self.len(),
        };
        self.region.get_mut(frame).copy_within(from..to, below);
        self.cut(below + (to - from));
    }

    /// Appends the kept words from the place `from` up to `to`.
    pub fn recall(&mut self, from: usize, to: usize)
        requires order { from ≤ to }
        requires there { to ≤ length self.old.kept }
        requires room { length self.old.words + (to - from) ≤ self.old.size }
        ensures { self.new ≡ record self.old { words = self.old.words ++ slice_range self.old.kept from to } }
    {
        let list = Frame {
            at: from,
            len: to - from,
        };
        let top = self.region.take(list.len).unwrap();
        let (list, top) = self.region.pair(list, top);
        top.copy_from_slice(list);
    }

    /// Writes the words from the place `from` up to `to` over the kept words from the place `at` on.
    pub fn store(&mut self, from: usize, to: usize, at: usize)
        requires order { from ≤ to }
        requires there { to ≤ length self.old.words }
        requires room { at + (to - from) ≤ length self.old.kept }
        ensures { self.new ≡ record self.old { kept = written_at at (slice_range self.old.words from to) self.old.kept } }
    {
        let _used = self.region.mark().used;
        let len = to - from;
        let read = Frame {
            at: self.floor + from,
            len,
        };
        let (list, place) = self.region.pair(read, Frame { at, len });
        place.copy_from_slice(list);
    }
}
