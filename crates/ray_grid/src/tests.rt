use super::*;
use poly_maps::{Bound, Bounds, Point};
use std::test::Fail;

fn may_be_shared<T: Send + Sync>(_value: &T) {}

#[test]
fn one_variable_asks_for_one_ray(rt: HostRuntime) {
    let grid = Grid {
        variables: 1,
        total: 1,
        each: [1, 0, 0, 0, 0, 0, 0, 0],
    };
    may_be_shared(&grid);
    assert_eq!(rt; size(&grid), Some(4));
}

#[test]
fn the_first_variable_does_not_count(rt: HostRuntime) {
    let grid = Grid {
        variables: 2,
        total: 5,
        each: [3, 3, 0, 0, 0, 0, 0, 0],
    };
    assert_eq!(rt; size(&grid), Some(32));
}

#[test]
fn at_most_65536_points(rt: HostRuntime) {
    // 16 * 8^4 points, and then 17 times that many.
    let mut grid = Grid {
        variables: 5,
        total: 13,
        each: [7, 7, 7, 7, 7, 0, 0, 0],
    };
    assert_eq!(rt; size(&grid), Some(65536));
    grid.total = 14;
    assert_eq!(rt; size(&grid), None);
}

#[test]
fn the_points_of_one_ray(rt: HostRuntime) -> Result<(), Fail> {
    let grid = Grid {
        variables: 1,
        total: 1,
        each: [1, 0, 0, 0, 0, 0, 0, 0],
    };
    let points = attempt(rt.alloc(), &grid, 0)?;
    assert_eq!(rt; points.len(), 4);
    let shift = 760193186456479707;
    for (i, point) in points.iter().enumerate() {
        assert_eq!(rt; point.entries(), [shift + i as u64 + 1].as_slice());
    }
    Ok(())
}

#[test]
fn directions_of_three_variables_in_order(rt: HostRuntime) -> Result<(), Fail> {
    let grid = Grid {
        variables: 3,
        total: 2,
        each: [2, 1, 2, 0, 0, 0, 0, 0],
    };
    let points = attempt(rt.alloc(), &grid, 0)?;
    assert_eq!(rt; points.len(), 30);
    // Along the first ray, then the first points of the others; the last point of all.
    let wanted = [
        (
            0,
            [760193186456479708, 102435541015492429, 612906913573109667],
        ),
        (
            1,
            [760193186456479709, 102435545226260645, 612906916953149618],
        ),
        (
            4,
            [760193186456479712, 102435557858565293, 612906927093269471],
        ),
        (
            5,
            [760193186456479708, 102435541015492429, 612906913573109668],
        ),
        (
            10,
            [760193186456479708, 102435541015492429, 612906913573109669],
        ),
        (
            15,
            [760193186456479708, 102435541015492430, 612906913573109667],
        ),
        (
            29,
            [760193186456479712, 102435557858565298, 612906927093269481],
        ),
    ];
    for (i, entries) in &wanted {
        assert_eq!(rt; points[*i].entries(), entries.as_slice());
    }
    Ok(())
}

#[test]
fn the_last_attempt_over_two_variables(rt: HostRuntime) -> Result<(), Fail> {
    let grid = Grid {
        variables: 2,
        total: 5,
        each: [5, 5, 0, 0, 0, 0, 0, 0],
    };
    let points = attempt(rt.alloc(), &grid, 7)?;
    assert_eq!(rt; points.len(), 48);
    assert_eq!(rt;
        points[0].entries(),
        [917580904535333551, 533974769135395377].as_slice()
    );
    assert_eq!(rt;
        points[47].entries(),
        [917580904535333558, 533974783283321692].as_slice()
    );
    Ok(())
}

#[test]
fn points_of_eight_variables_go_to_other_threads(rt: HostRuntime) -> Result<(), Fail> {
    let grid = Grid {
        variables: 8,
        total: 1,
        each: [1; 8],
    };
    let points = attempt(rt.alloc(), &grid, 7)?;
    let last: &Point = &points[511];
    may_be_shared(last);
    let wanted = [
        917580904535333554,
        533974775198792356,
        760278629001516851,
        516283527099699215,
        27716988331942594,
        259911954482756038,
        554159306823630365,
        583442774255181071,
    ];
    assert_eq!(rt; last.entries(), wanted.as_slice());
    Ok(())
}

#[test]
fn as_many_monomials_as_may_be(rt: HostRuntime) -> Result<(), Fail> {
    let one = Bound {
        total: 0,
        each: [0; 8],
    };
    // up to degree 5 in 7 variables there are 792 monomials, in 8 variables 1287
    let wide = Bound {
        total: 5,
        each: [256; 8],
    };
    assert!(rt;
        has_few(
            &Bounds {
                num: wide,
                den: one
            },
            7
        )
    );
    assert!(rt;
        !has_few(
            &Bounds {
                num: wide,
                den: one
            },
            8
        )
    );
    // 1023 and 1 are few, 1024 and 1 too many
    let row = |total: u32| Bound {
        total,
        each: [1023, 0, 0, 0, 0, 0, 0, 0],
    };
    assert!(rt;
        has_few(
            &Bounds {
                num: row(1022),
                den: one
            },
            1
        )
    );
    assert!(rt;
        !has_few(
            &Bounds {
                num: one,
                den: row(1023)
            },
            1
        )
    );
    let all = Bound {
        total: 256,
        each: [256; 8],
    };
    assert!(rt; !has_few(&Bounds { num: all, den: all }, 8));
    Ok(())
}
