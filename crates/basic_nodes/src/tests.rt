use super::*;
use prime_field::Modulus;
use sqlite_items::Items;
use std::test::Fail;

const ENTRIES: [u64; 4] = [3, 5, 15, 2];

#[test]
fn entries_are_picked_and_joined(rt: HostRuntime) {
    let mut one = [0];
    take(&ENTRIES, &mut one, 2);
    assert_eq!(rt; one, [15]);

    let mut two = [0; 2];
    slice(&ENTRIES, 1, &mut two);
    assert_eq!(rt; two, [5, 15]);

    let mut joined = [9; 4];
    chain_into(&two, &mut joined, 1);
    assert_eq!(rt; joined, [9, 5, 15, 9]);
}

#[test]
fn entries_are_added_and_multiplied(rt: HostRuntime) {
    let m = Modulus::first();
    let mut sums = ENTRIES;
    sum_into(m, &ENTRIES, &mut sums);
    assert_eq!(rt; sums, [6, 10, 30, 4]);

    let mut products = ENTRIES;
    product_into(m, &ENTRIES, &mut products);
    assert_eq!(rt; products, [9, 25, 225, 4]);
}

#[test]
fn matrices_are_multiplied(rt: HostRuntime) {
    let mut square = [0; 4];
    matmul(Modulus::first(), &ENTRIES, &ENTRIES, 2, 2, 2, &mut square);
    assert_eq!(rt; square, [84, 25, 75, 79]);
}

#[test]
fn long_sums_are_folded_on_the_way(rt: HostRuntime) {
    let minus_one = [9223372036854775782; 11];
    let mut sum = [0];
    matmul(
        Modulus::second(),
        &minus_one,
        &minus_one,
        1,
        11,
        1,
        &mut sum,
    );
    assert_eq!(rt; sum, [11]);
}

#[test]
fn lengths_follow_the_rules(rt: HostRuntime) -> Result<(), Fail> {
    let positions = Items::from_slice(rt.alloc(), &[2, 5])?;
    let kind = NodeShape::Take { positions };
    assert_eq!(rt; length_of(&kind, &[2, 7]), Ok(2));
    assert_eq!(rt; length_of(&kind, &[2, 4]), Err(LengthError));

    let kind = NodeShape::Slice { first: 2, last: 4 };
    assert_eq!(rt; length_of(&kind, &[4]), Ok(3));
    assert_eq!(rt; length_of(&kind, &[3]), Err(LengthError));

    assert_eq!(rt; length_of(&NodeShape::Chain, &[262143, 1]), Ok(262144));
    assert_eq!(rt;
        length_of(&NodeShape::Chain, &[262144, 1]),
        Err(LengthError)
    );
    assert_eq!(rt; length_of(&NodeShape::Sum, &[3, 3, 3]), Ok(3));
    assert_eq!(rt;
        length_of(&NodeShape::Product, &[3, 3, 4]),
        Err(LengthError)
    );

    let kind = NodeShape::Eval {
        count: 3,
        greatest: 4,
    };
    assert_eq!(rt; length_of(&kind, &[4]), Ok(3));
    assert_eq!(rt; length_of(&kind, &[3]), Err(LengthError));

    let kind = NodeShape::Matmul {
        rows: 2,
        mid: 3,
        cols: 5,
    };
    assert_eq!(rt; length_of(&kind, &[6, 15]), Ok(10));
    assert_eq!(rt; length_of(&kind, &[15, 6]), Err(LengthError));

    let kind = NodeShape::Solver {
        entries: 12,
        wanted: 2,
        independent: 3,
    };
    assert_eq!(rt; length_of(&kind, &[12]), Ok(8));
    assert_eq!(rt; length_of(&kind, &[11]), Err(LengthError));

    let kind = NodeShape::Call {
        inputs: 3,
        outputs: 7,
    };
    assert_eq!(rt; length_of(&kind, &[1, 2]), Ok(7));
    assert_eq!(rt; length_of(&kind, &[3, 3]), Err(LengthError));

    let kind = NodeShape::Map {
        inputs: 3,
        outputs: 7,
    };
    assert_eq!(rt; length_of(&kind, &[3, 3]), Ok(14));
    assert_eq!(rt; length_of(&kind, &[1, 2]), Err(LengthError));
    Ok(())
}

#[test]
fn expansions_have_one_input_beside_the_lists(rt: HostRuntime) {
    let kind = NodeShape::Laurent {
        inputs: 4,
        outputs: 7,
        orders: 3,
    };
    assert_eq!(rt; length_of(&kind, &[1, 2]), Ok(21));
    assert_eq!(rt; length_of(&kind, &[2, 2]), Err(LengthError));

    let kind = NodeShape::Laurent {
        inputs: 1,
        outputs: 2048,
        orders: 128,
    };
    assert_eq!(rt; length_of(&kind, &[]), Ok(262144));
    assert_eq!(rt; length_of(&kind, &[1]), Err(LengthError));

    let kind = NodeShape::Laurent {
        inputs: 1,
        outputs: 2048,
        orders: 129,
    };
    assert_eq!(rt; length_of(&kind, &[]), Err(LengthError));
}
