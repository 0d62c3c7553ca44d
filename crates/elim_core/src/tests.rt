//! Systems whose solutions are known.

ghost use Rattle.std.specs.Prelude.{◌≡◌, ◌<◌, ◌≤◌, length};
ghost use Rattle.elim_core.specs.Kept.{unknowns_of, modulus_of, kept_rows, Belongs, HasSolution};

use super::*;
use std::process::Abort;
use std::test::Fail;

#[test]
fn without_rows_all_are_independent(rt: HostRuntime) {
    let mut words = [7; 24];
    let mut elim = Elim::start(Modulus::first(), 2, &mut words);
    assert_eq!(rt; Elim::words(2), 24);
    let mut out = [0; 2];
    assert_eq!(rt; elim.independents(&words, &mut out), 2);
    assert_eq!(rt; (out[0], out[1]), (1, 2));
    assert_eq!(rt; elim.absorb(&mut words, &[0, 0, 0]), Rank::Same);
    let mut list = [7; 3];
    assert!(rt; elim.solve_over(&mut words, &[1, 2], &[2], &mut list));
    assert_eq!(rt; list, [0, 1, 0]);
}

#[test]
fn a_sum_and_a_difference_tell_two_unknowns(rt: HostRuntime) {
    let mut words = [7; 24];
    let mut elim = Elim::start(Modulus::first(), 2, &mut words);
    assert_eq!(rt; elim.absorb(&mut words, &[1, 1, 3]), Rank::New);
    assert_eq!(rt;
        elim.absorb(&mut words, &[1, 2305843009213693950, 5]),
        Rank::New
    );
    let mut out = [7; 2];
    assert!(rt; elim.solve_over(&mut words, &[], &[1, 2], &mut out));
    assert_eq!(rt; out, [4, 2305843009213693950]);
    assert_eq!(rt; elim.absorb(&mut words, &[2, 0, 8]), Rank::Same);
    assert!(rt; elim.solve_over(&mut words, &[], &[2, 1], &mut out));
    assert_eq!(rt; out, [2305843009213693950, 4]);
}

#[test]
fn a_row_may_decide_what_another_leaves_open(rt: HostRuntime) {
    let mut words = [7; 15];
    let mut elim = Elim::start(Modulus::second(), 1, &mut words);
    assert_eq!(rt; elim.absorb(&mut words, &[5, 5]), Rank::New);
    assert_eq!(rt; elim.absorb(&mut words, &[1, 1]), Rank::Same);
    let mut out = [7; 1];
    assert!(rt; elim.solve_over(&mut words, &[], &[1], &mut out));
    assert_eq!(rt; out, [1]);
    elim.reset(&mut words);
    assert_eq!(rt; elim.absorb(&mut words, &[0, 0]), Rank::Same);
    assert_eq!(rt; elim.absorb(&mut words, &[1, 1]), Rank::New);
    assert!(rt; elim.solve_over(&mut words, &[], &[1], &mut out));
    assert_eq!(rt; out, [1]);
}

#[test]
fn a_contradiction_stays_until_reset(rt: HostRuntime) {
    let mut words = [7; 15];
    let mut elim = Elim::start(Modulus::second(), 1, &mut words);
    assert_eq!(rt; elim.absorb(&mut words, &[0, 1]), Rank::Contradiction);
    assert_eq!(rt; elim.absorb(&mut words, &[0, 0]), Rank::Contradiction);
    assert_eq!(rt;
        elim.absorb_entries(&mut words, &[1], &[1]),
        Rank::Contradiction
    );
    let mut out = [7; 1];
    assert!(rt; !elim.solve_over(&mut words, &[], &[1], &mut out));
    elim.reset(&mut words);
    assert_eq!(rt; elim.absorb(&mut words, &[2, 1]), Rank::New);
    assert_eq!(rt; elim.absorb(&mut words, &[4, 2]), Rank::Same);
    assert!(rt; elim.solve_over(&mut words, &[], &[1], &mut out));
    assert_eq!(rt; out, [4611686018427387892]);
}

/// Of one row x + 2 y = 7 the second unknown is independent, and tells the first.
fn check_one_row(rt: &impl Abort, modulus: Modulus) {
    let mut words = [7; 24];
    let mut elim = Elim::start(modulus, 2, &mut words);
    let minus_two = modulus.neg(2);
    assert_eq!(rt; elim.absorb(&mut words, &[1, 2, 7]), Rank::New);
    let mut own = [0; 2];
    assert_eq!(rt; elim.independents(&words, &mut own), 1);
    assert_eq!(rt; own[0], 2);
    assert_eq!(rt; elim.coefficient(&words, 1, 0), 7);
    let mut out = [0; 4];
    assert!(rt; elim.solve_over(&mut words, &[2], &[1, 2], &mut out));
    assert_eq!(rt; out, [minus_two, 7, 1, 0]);
}

#[test]
fn the_first_unknown_of_a_row_is_told(rt: HostRuntime) {
    check_one_row(&rt, Modulus::first());
    check_one_row(&rt, Modulus::second());
}

#[test]
fn other_unknowns_may_tell_but_not_too_few(rt: HostRuntime) {
    let mut words = [7; 35];
    let mut elim = Elim::start(Modulus::first(), 3, &mut words);
    let _rank = elim.absorb(&mut words, &[1, 2, 3, 4]);
    let mut few = [7; 2];
    assert!(rt; !elim.solve_over(&mut words, &[1], &[3], &mut few));
    let mut out = [7; 3];
    assert!(rt; elim.solve_over(&mut words, &[1, 2], &[3], &mut out));
    assert_eq!(rt;
        out,
        [768614336404564650, 1537228672809129300, 1537228672809129302]
    );
}

/// Four equations over seven unknowns, of which the first four are told by the others; here unknowns 1, 3 and 6 tell.
fn check_three_of_seven(rt: &impl Abort, modulus: Modulus, told: [u64; 12], fourth: [u64; 4]) {
    let mut words = [7; 99];
    let mut elim = Elim::start(modulus, 7, &mut words);
    assert_eq!(rt;
        elim.absorb(&mut words, &[1, 2, 0, 3, 1, 4, 2, 5]),
        Rank::New
    );
    assert_eq!(rt;
        elim.absorb(&mut words, &[0, 1, 3, 1, 0, 2, 7, 1]),
        Rank::New
    );
    assert_eq!(rt;
        elim.absorb(&mut words, &[2, 0, 1, 1, 5, 0, 3, 8]),
        Rank::New
    );
    assert_eq!(rt;
        elim.absorb(&mut words, &[1, 1, 1, 0, 2, 1, 1, 6]),
        Rank::New
    );
    let mut out = [7; 12];
    assert!(rt; elim.solve_over(&mut words, &[1, 3, 6], &[2, 6, 5], &mut out));
    assert_eq!(rt; out, told);
    let mut one = [7; 4];
    assert!(rt; elim.solve_over(&mut words, &[1, 3, 6], &[4], &mut one));
    assert_eq!(rt; one, fourth);
}

#[test]
fn three_other_unknowns_of_seven_tell(rt: HostRuntime) {
    check_three_of_seven(
        &rt,
        Modulus::first(),
        [
            512409557603043100,
            1024819115206086200,
            512409557603043099,
            1024819115206086203,
            0,
            0,
            1,
            0,
            945986875574848800,
            118248359446856100,
            2010222110596553701,
            472993437787424402,
        ],
        [
            177372539170284150,
            886862695851420751,
            1241607774191989050,
            1241607774191989050,
        ],
    );
    check_three_of_seven(
        &rt,
        Modulus::second(),
        [
            2049638230412172396,
            4099276460824344792,
            2049638230412172395,
            4099276460824344795,
            0,
            0,
            1,
            0,
            5202927815661668390,
            7567895004598790386,
            8750378599067351384,
            2601463907830834197,
        ],
        [
            2128470470043409796,
            1418980313362273198,
            5675921253449092789,
            5675921253449092789,
        ],
    );
}

#[test]
fn unknowns_that_follow_from_each_other_do_not_tell(rt: HostRuntime) {
    let mut words = [7; 99];
    let mut elim = Elim::start(Modulus::first(), 7, &mut words);
    let _second = elim.absorb_entries(&mut words, &[0, 2, 4], &[1, 1, 2305843009213693948]);
    let _first = elim.absorb(&mut words, &[1, 2, 0, 3, 1, 4, 2, 5]);
    let _third = elim.absorb(&mut words, &[0, 1, 3, 1, 0, 2, 7, 1]);
    let _fourth = elim.absorb(&mut words, &[2, 0, 1, 1, 5, 0, 3, 8]);
    let mut list = [7; 8];
    assert!(rt; !elim.solve_over(&mut words, &[2, 4, 6], &[1, 4], &mut list));
    let mut long = [7; 5];
    assert!(rt; !elim.solve_over(&mut words, &[1, 2, 3, 6], &[5], &mut long));
    let mut short = [7; 3];
    assert!(rt; !elim.solve_over(&mut words, &[1, 6], &[5], &mut short));
    assert!(rt; elim.solve_over(&mut words, &[2, 3, 6], &[1, 4], &mut list));
    assert_eq!(rt;
        list,
        [
            1024819115206086196,
            1537228672809129302,
            2305843009213693945,
            512409557603043107,
            1537228672809129301,
            0,
            0,
            768614336404564650
        ]
    );
}

#[test]
fn rows_by_their_entries(rt: HostRuntime) {
    let mut words = [7; 24];
    let mut elim = Elim::start(Modulus::second(), 2, &mut words);
    assert_eq!(rt;
        elim.absorb_entries(&mut words, &[0, 2], &[6, 3]),
        Rank::New
    );
    assert_eq!(rt; elim.absorb_entries(&mut words, &[], &[]), Rank::Same);
    let mut out = [0; 2];
    assert!(rt; elim.solve_over(&mut words, &[1], &[2], &mut out));
    assert_eq!(rt; out, [0, 2]);
    assert_eq!(rt;
        elim.absorb_entries(&mut words, &[0], &[1]),
        Rank::Contradiction
    );
}

#[test]
fn rows_that_follow_each_other_are_taken_at_once(rt: HostRuntime) {
    let mut words = [7; 48];
    let mut elim = Elim::start(Modulus::second(), 4, &mut words);
    assert_eq!(rt; elim.absorb(&mut words, &[1, 1, 1, 1, 10]), Rank::New);
    assert_eq!(rt; elim.absorb(&mut words, &[0, 1, 2, 3, 20]), Rank::New);
    assert_eq!(rt; elim.absorb(&mut words, &[3, 1, 4, 1, 21]), Rank::New);
    assert_eq!(rt; elim.absorb(&mut words, &[2, 7, 1, 8, 51]), Rank::New);
    let mut out = [7; 4];
    assert!(rt; elim.solve_over(&mut words, &[], &[1, 2, 3, 4], &mut out));
    assert_eq!(rt; out, [1, 2, 3, 4]);
}

/// Nine equations in nine unknowns, none of whose entries is 0: row by row, up to eight kept rows are taken, in groups of four
/// and of what is left over.
fn check_dense(rt: &impl Abort, modulus: Modulus, expected: [u64; 9]) {
    let mut words = [7; 143];
    let mut elim = Elim::start(modulus, 9, &mut words);
    assert_eq!(rt;
        elim.absorb(&mut words, &[3, 1, 4, 1, 5, 9, 2, 6, 5, 3]),
        Rank::New
    );
    assert_eq!(rt;
        elim.absorb(&mut words, &[5, 8, 9, 7, 9, 3, 2, 3, 8, 4]),
        Rank::New
    );
    assert_eq!(rt;
        elim.absorb(&mut words, &[6, 2, 6, 4, 3, 3, 8, 3, 2, 7]),
        Rank::New
    );
    assert_eq!(rt;
        elim.absorb(&mut words, &[9, 5, 2, 8, 8, 4, 1, 9, 7, 1]),
        Rank::New
    );
    assert_eq!(rt;
        elim.absorb(&mut words, &[6, 9, 3, 9, 9, 3, 7, 5, 1, 5]),
        Rank::New
    );
    assert_eq!(rt;
        elim.absorb(&mut words, &[8, 2, 9, 7, 4, 9, 4, 4, 5, 9]),
        Rank::New
    );
    assert_eq!(rt;
        elim.absorb(&mut words, &[2, 3, 7, 8, 1, 6, 4, 6, 2, 8]),
        Rank::New
    );
    assert_eq!(rt;
        elim.absorb(&mut words, &[6, 2, 8, 9, 9, 8, 6, 2, 8, 3]),
        Rank::New
    );
    assert_eq!(rt;
        elim.absorb(&mut words, &[4, 8, 2, 5, 3, 4, 2, 1, 1, 7]),
        Rank::New
    );
    let mut out = [7; 9];
    assert!(rt; elim.solve_over(&mut words, &[], &[1, 2, 3, 4, 5, 6, 7, 8, 9], &mut out));
    assert_eq!(rt; out, expected);
}

#[test]
fn a_dense_system_is_taken_in_groups(rt: HostRuntime) {
    check_dense(
        &rt,
        Modulus::first(),
        [
            279781973645653226,
            371890987967058120,
            78323041720789670,
            950454348674300906,
            116646197941809731,
            1126885234449143417,
            609188206518447114,
            1024671672149540337,
            37199822555258504,
        ],
    );
    check_dense(
        &rt,
        Modulus::second(),
        [
            6547309092190594833,
            8147577883760034186,
            991138372715980488,
            7599556745364476844,
            4419108691378611306,
            1874359722431806438,
            6920744602967231380,
            8924593931671320628,
            373300687674898810,
        ],
    );
}

/// The first independent unknown of three, with its number in what tells the unknown `j`.
fn by_the_first(equations: &Elim, words: &[u64], j: u32) -> Option<(u32, u64)>
    requires belongs { Belongs equations.now words.now }
    requires three { unknowns_of equations.now ≡ 3 }
    requires solvable { HasSolution (modulus_of equations.now) (unknowns_of equations.now) (kept_rows equations.now words.now) }
    requires unknown { (0 < j) × (j ≤ 3) }
{
    let mut own = [0; 3];
    if equations.independents(words, &mut own) == 0 {
        return None;
    }
    Some((own[0], equations.coefficient(words, j, own[0])))
}

#[test]
fn a_later_unknown_tells_the_first_by_its_multiple(rt: HostRuntime) {
    let mut words = [7; 35];
    let mut elim = Elim::start(Modulus::first(), 3, &mut words);
    assert_eq!(rt; elim.absorb(&mut words, &[1, 2, 3, 4]), Rank::New);
    assert_eq!(rt;
        by_the_first(&elim, &words, 1),
        Some((2, 2305843009213693949))
    );
}

/// The solution at which the second of three unknowns is 1, and the other independent ones are 0.
fn with_the_second(equations: &Elim, words: &[u64], out: &mut [u64])
    requires belongs { Belongs equations.now words.now }
    requires solvable { HasSolution (modulus_of equations.now) (unknowns_of equations.now) (kept_rows equations.now words.now) }
    requires room { length out.old ≡ unknowns_of equations.now }
{
    equations.solution(words, 2, out);
}

#[test]
fn a_solution_for_a_choice(rt: HostRuntime) {
    let mut words = [7; 35];
    let mut elim = Elim::start(Modulus::first(), 3, &mut words);
    let mut out = [7; 3];
    assert_eq!(rt; elim.absorb(&mut words, &[1, 2, 3, 4]), Rank::New);
    with_the_second(&elim, &words, &mut out);
    assert_eq!(rt; out, [2, 1, 0]);
    assert_eq!(rt;
        elim.absorb_entries(&mut words, &[0, 3], &[5, 1]),
        Rank::New
    );
    with_the_second(&elim, &words, &mut out);
    assert_eq!(rt; out, [2305843009213693938, 1, 5]);
}

fn may_be_shared<T: Send + Sync>(_value: &T) {}

#[test]
fn sparse_rows_and_eliminations_go_to_other_threads(rt: HostRuntime) -> Result<(), Fail> {
    let row = SparseRow {
        columns: Items::from_slice(rt.alloc(), &[0, 2])?,
    };
    assert!(rt; row.columns.as_slice() == [0, 2].as_slice());
    may_be_shared(&row);
    let mut words = [7; 24];
    may_be_shared(&Elim::start(Modulus::second(), 2, &mut words));
    Ok(())
}
