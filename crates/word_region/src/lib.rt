//! One block of words, given out and back as a stack of frames.
//!
//! The block is taken once, by [`Region::new`]; no other call asks for memory. The used words are the first of the block.
//! A frame is live while it ends within the used words, and two frames are apart where one ends at or before the place
//! where the other begins.
//!
//! A [`Stack`] is a region whose first words are kept, and whose other used words are a stack of words.
#![tactic(auto)]

ghost use Rattle.std.specs.Prelude.{◌≡◌, ◌+◌, ◌-◌, ◌<◌, ◌≤◌, ◌↔◌, List, [], ◌++◌, length, take, replicate, IfOk, OnOk, OnErr, IsErr};
ghost use Rattle.std.specs.Borrow.{sem};
ghost use Rattle.word_region.specs.Frame.{IsLive, AreApart, words_at};
ghost use Rattle.word_region.specs.Lent.{LendsFrame, LendsUsed};

mod parts;
mod stack;

pub use stack::Stack;
use std::alloc::{AllocError, Global};
use std::marker::Model;
use thiserror::Error;

/// Want of memory.
pub type NoMemory = AllocError;

/// A run of places of a region.
#[derive(Clone, Copy, PartialEq, Eq, Debug)]
pub struct Frame {
    /// The place of the first word.
    pub at: usize,
    /// The number of words.
    pub len: usize,
}

/// How many words of a region were used at some time: what was taken since can be given back.
#[derive(Clone, Copy, PartialEq, Eq, Debug)]
pub struct Mark {
    /// The number of used words.
    pub used: usize,
}

/// A region has too few free words for the frame.
#[derive(Clone, Copy, PartialEq, Eq, Debug, Error)]
#[error("the region is full")]
pub struct Full;

/// A block of words, of which the first are used, as a stack of frames.
#[derive(Drop)]
pub struct Region {
    words: Vec<u64>,
    size: usize,
}

impl Model for Region {
    ghost use Rattle.std.specs.Prelude.{◌≤◌, vec_len, vec_capacity};
    ghost use Rattle.word_region.specs.Words.{Words};

    ghost Value = { Words };

    ghost view = { λ r. record { size = r.size; used = r.words.items } };

    ghost invariant = { λ r. (vec_len r.words ≤ r.size) × (r.size ≤ vec_capacity r.words) };
}

impl Region {
    /// A region of `words` words, none of which is used. Fails only for want of memory.
    pub fn new(alloc: Global, words: usize) -> Result<Region, NoMemory>
        ensures { IfOk result (λ r. r ≡ record { size = words; used = [] }) }
    {
        let block = Vec::with_capacity(alloc, words)?;
        Ok(Region {
            words: block,
            size: words,
        })
    }

    /// The present number of used words.
    pub fn mark(&self) -> Mark
        ensures { result.used ≡ length self.now.used }
    {
        Mark {
            used: self.words.len(),
        }
    }

    /// The number of free words.
    pub fn free(&self) -> usize
        ensures { result ≡ self.now.size - length self.now.used }
    {
        self.size - self.words.len()
    }

    /// Appends `n` zeros to the used words: the frame is their places, after those of every live frame.
    ///
    /// `Full` where `n` is more than the free words; the region then stays as it was.
    pub fn take(&mut self, n: usize) -> Result<Frame, Full>
        ensures full { IsErr result ↔ (self.old.size - length self.old.used < n) }
        ensures frame { IfOk result (λ f. f ≡ record { at = length self.old.used; len = n }) }
        ensures apart { IfOk result (λ new. (f : Frame) → IsLive self.old f → AreApart f new) }
        ensures zeros { OnOk result (self.new ≡ record self.old { used = self.old.used ++ replicate n 0 }) }
        ensures unchanged { OnErr result (self.new ≡ self.old) }
    {
        if self.free() < n {
            return Err(Full);
        }
        let at = self.words.len();
        self.words.resize(at + n, 0).unwrap();
        Ok(Frame { at, len: n })
    }

    /// Gives back all words that were taken after the mark. Those before it stay as they are.
    pub fn release(&mut self, mark: Mark)
        requires { mark.used ≤ length self.old.used }
        ensures { self.new ≡ record self.old { used = take mark.used self.old.used } }
    {
        self.words.truncate(mark.used);
    }

    /// The words of a live frame.
    pub fn get(&self, frame: Frame) -> &[u64]
        requires { IsLive self.now frame }
        ensures { result.now ≡ words_at self.now frame }
    {
        &self.words[frame.at..frame.at + frame.len]
    }

    /// The words of a live frame, to be written. Every word outside it stays as it is.
    pub fn get_mut(&mut self, frame: Frame) -> &mut [u64]
        requires { IsLive self.old frame }
        ensures* writes_back { sem 𝓛 (LendsFrame self.entry frame result) }
        ensures words { result.now ≡ words_at self.old frame }
    {
        let used = self.words.len();
        let end = frame.at + frame.len;
        prove!(end <= used);
        self.words.slice_mut(frame.at..end)
    }

    // All used words, to be written.
    fn used_words(&mut self) -> &mut [u64]
        ensures* writes_back { sem 𝓛 (LendsUsed self.entry result) }
        ensures words { result.now ≡ self.old.used }
    {
        self.words.as_mut_slice()
    }

    /// The words of two live frames that are apart, one to be read and one to be written.
    /// Every word outside the latter stays as it is.
    pub fn pair(&mut self, read: Frame, write: Frame) -> (&[u64], &mut [u64])
        requires read_live { IsLive self.old read }
        requires write_live { IsLive self.old write }
        requires apart { AreApart read write }
        ensures* writes_back { sem 𝓛 (LendsFrame self.entry write result.1) }
        ensures read { result.0.now ≡ words_at self.old read }
        ensures write { result.1.now ≡ words_at self.old write }
    {
        parts::read_and_write(self, read, write)
    }
}

#[cfg(test)]
mod tests;
