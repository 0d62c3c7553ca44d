use crate::{Frame, Full, Mark, NoMemory, Region, Stack};
use std::marker::Send;
use std::test::Fail;

fn sent<T: Send>(value: T) -> T {
    value
}

#[test]
fn a_region_of_eight_words(rt: HostRuntime) -> Result<(), Fail> {
    let mut region = Region::new(rt.alloc(), 8)?;
    assert_eq!(rt; region.take(3), Ok(Frame { at: 0, len: 3 }));
    let mark = region.mark();
    assert_eq!(rt; mark, Mark { used: 3 });
    assert_eq!(rt; region.take(5), Ok(Frame { at: 3, len: 5 }));
    assert_eq!(rt; region.take(1), Err(Full));
    region.release(mark);
    assert_eq!(rt; region.take(5), Ok(Frame { at: 3, len: 5 }));
    Ok(())
}

#[test]
fn a_region_without_words(rt: HostRuntime) -> Result<(), Fail> {
    let mut region = Region::new(rt.alloc(), 0)?;
    assert_eq!(rt; region.take(0), Ok(Frame { at: 0, len: 0 }));
    assert_eq!(rt; region.take(1), Err(Full));
    Ok(())
}

#[test]
fn a_frame_that_is_too_long_takes_nothing(rt: HostRuntime) -> Result<(), Fail> {
    let mut region = Region::new(rt.alloc(), 33)?;
    assert!(rt; region.take(10).is_ok());
    assert_eq!(rt; region.take(24), Err(Full));
    assert!(rt; region.take(23).is_ok());
    assert_eq!(rt; region.free(), 0);
    Ok(())
}

#[test]
fn what_is_given_back_is_free(rt: HostRuntime) -> Result<(), Fail> {
    let mut region = Region::new(rt.alloc(), 5)?;
    assert!(rt; region.take(2).is_ok());
    let mark = region.mark();
    assert!(rt; region.take(3).is_ok());
    region.release(mark);
    assert_eq!(rt; region.free(), 3);
    Ok(())
}

// One frame is filled, and what it holds is copied to others, once from below and once from above.
#[test]
fn frames_are_lent_side_by_side(rt: HostRuntime) -> Result<(), Fail> {
    let mut region = Region::new(rt.alloc(), 6)?;
    let low = region.take(2)?;
    let mid = region.take(2)?;
    let high = region.take(2)?;
    region.get_mut(mid).fill(7);
    assert_eq!(rt; region.mark().used, 6);
    let (read, write) = region.pair(mid, high);
    write.copy_from_slice(read);
    assert_eq!(rt; region.mark().used, 6);
    assert_eq!(rt;
        region.get(Frame { at: 0, len: 6 }),
        [0, 0, 7, 7, 7, 7].as_slice()
    );
    let (read, work, write) = region.three(high, mid, low);
    work.fill(9);
    write.copy_from_slice(read);
    assert_eq!(rt; region.mark().used, 6);
    assert_eq!(rt;
        region.get(Frame { at: 0, len: 6 }),
        [7, 7, 9, 9, 7, 7].as_slice()
    );
    Ok(())
}

#[test]
fn a_region_may_go_to_another_thread(rt: HostRuntime) -> Result<(), NoMemory> {
    let region = sent(Region::new(rt.alloc(), 4)?);
    assert_eq!(rt; region.free(), 4);
    Ok(())
}

// A list and a copy of it stand on a stack over two kept words; the copy moves down, is kept, and comes back.
#[test]
fn a_stack_over_two_kept_words(rt: HostRuntime) -> Result<(), Fail> {
    let mut stack = Stack::new(rt.alloc(), 8, 2)?;
    stack.push(&[3, 5]);
    let (below, top) = stack.grow(2);
    top.copy_from_slice(below);
    assert_eq!(rt; (stack.len(), stack.free()), (4, 2));
    assert_eq!(rt; stack.words(), [3, 5, 3, 5].as_slice());
    stack.collapse(1, 3, 4);
    assert_eq!(rt; stack.words(), [3, 5].as_slice());
    stack.store(1, 2, 1);
    assert_eq!(rt; stack.kept(), [0, 5].as_slice());
    stack.recall(1, 2);
    stack.cut(3);
    assert_eq!(rt; stack.words(), [3, 5, 5].as_slice());
    assert_eq!(rt; stack.free(), 3);
    Ok(())
}
