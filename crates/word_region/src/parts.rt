//! Frames that are apart, lent at once.
//!
//! No safe call lends several places of one block so that it is known what the block ends as. So the two functions here
//! make the references of pointers, do nothing else, and are proved by hand.
ghost use Rattle.std.specs.Prelude.{◌≡◌};
ghost use Rattle.std.specs.Borrow.{sem};
ghost use Rattle.word_region.specs.Frame.{IsLive, AreApart, words_at};
ghost use Rattle.word_region.specs.Lent.{LendsFrame, LendsFrames};

use crate::{Frame, Region};
use std::slice;

pub(crate) fn read_and_write(region: &mut Region, read: Frame, write: Frame) -> (&[u64], &mut [u64])
    requires read_live { IsLive region.old read }
    requires write_live { IsLive region.old write }
    requires apart { AreApart read write }
    ensures* writes_back { sem 𝓛 (LendsFrame region.entry write result.1) }
    ensures read { result.0.now ≡ words_at region.old read }
    ensures write { result.1.now ≡ words_at region.old write }
{
    let start = region.used_words().as_mut_ptr();
    unsafe {
        (
            slice::from_raw_parts(start.add(read.at), read.len),
            slice::from_raw_parts_mut(start.add(write.at), write.len),
        )
    }
}

impl Region {
    /// The words of three live frames that are apart, one to be read and two to be written.
    /// Every word outside these two stays as it is.
    ///
    /// A caller whose proof is not by hand learns from [`Region::pair`] what the region ends as, and not from this call.
    /// There one frame that has both parts to be written, lent by `pair` and cut by `split_at_mut`, tells it.
    pub fn three(
        &mut self,
        read: Frame,
        work: Frame,
        write: Frame,
    ) -> (&[u64], &mut [u64], &mut [u64])
        requires read_live { IsLive self.old read }
        requires work_live { IsLive self.old work }
        requires write_live { IsLive self.old write }
        requires read_work { AreApart read work }
        requires read_write { AreApart read write }
        requires work_write { AreApart work write }
        ensures* writes_back { sem 𝓛 (LendsFrames self.entry work write result.1 result.2) }
        ensures read { result.0.now ≡ words_at self.old read }
        ensures work { result.1.now ≡ words_at self.old work }
        ensures write { result.2.now ≡ words_at self.old write }
    {
        let start = self.used_words().as_mut_ptr();
        unsafe {
            (
                slice::from_raw_parts(start.add(read.at), read.len),
                slice::from_raw_parts_mut(start.add(work.at), work.len),
                slice::from_raw_parts_mut(start.add(write.at), write.len),
            )
        }
    }
}
