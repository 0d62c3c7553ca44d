//! What one line says.
use ratfun_text::Name;
use sqlite_items::Items;

/// What one line says. Numbers that are past their type's greatest are kept as that: all of them are out of range.
#[derive(Drop)]
pub enum Line {
    /// `flow NUM`
    Flow(u64),
    /// `graph NAME`
    Graph(Name),
    /// `input NAME ..`
    Input(Items<Name>),
    /// `node NAME KIND ..`
    Node(Name, Statement),
    /// `row NUM ..`: the columns of a row of the sparse node before it, ascending, where none is past the greatest of its type
    Row(Items<u32>),
    /// `output LIST`
    Output(Name),
    /// `point NUM ..`
    Point(Items<u64>),
    /// `bounds WHICH num NUM .. den NUM ..`
    Bounds(Which, Degrees, Degrees),
    /// `coeff NUM NUM`: the greatest numerator and denominator of a coefficient
    Coeff(u128, u128),
}

/// The outputs for which a `bounds` line gives bounds.
#[derive(Clone, Copy, PartialEq, Eq, Debug)]
pub enum Which {
    /// `all`: each output that has no line of its own.
    All,
    /// The output with this number, counted from 1.
    Output(u32),
}

/// What a `bounds` line says of one polynomial: its total degree, and then nothing or its degree in each variable.
#[derive(Drop)]
pub struct Degrees {
    pub total: u32,
    pub each: Items<u32>,
}

/// What a `node` line says of its node. Lists and graphs are given by their names.
#[derive(Drop)]
pub enum Statement {
    /// `eval LIST = EXPR ; ..`
    Eval {
        from: Name,
        texts: Items<Name>,
    },
    /// `take LIST NUM ..`
    Take {
        parts: Items<(Name, u32)>,
    },
    /// `slice LIST NUM NUM`
    Slice {
        from: Name,
        first: u32,
        last: u32,
    },
    /// `chain LIST ..`
    Chain {
        parts: Items<Name>,
    },
    /// `sum LIST ..`
    Sum {
        parts: Items<Name>,
    },
    /// `product LIST ..`
    Product {
        parts: Items<Name>,
    },
    /// `matmul LIST LIST NUM NUM NUM`
    Matmul {
        left: Name,
        right: Name,
        rows: u32,
        mid: u32,
        cols: u32,
    },
    /// `dense LIST NUM NUM`, and then nothing or `want NUM ..`
    Dense {
        from: Name,
        rows: u32,
        unknowns: u32,
        want: Want,
    },
    /// `sparse LIST NUM`, and then nothing or `want NUM ..`. The rows stand in the lines behind it.
    Sparse {
        from: Name,
        unknowns: u32,
        want: Want,
    },
    /// `call GRAPH LIST ..`
    Call {
        graph: Name,
        parts: Items<Name>,
    },
    /// `memo GRAPH LIST ..`
    Memo {
        graph: Name,
        parts: Items<Name>,
    },
    /// `map GRAPH LIST ..`
    Map {
        graph: Name,
        parts: Items<Name>,
    },
    /// `laurent GRAPH INT INT NUM NUM`, and then nothing or `LIST ..`
    Laurent {
        graph: Name,
        expansion: Expansion,
        parts: Items<Name>,
    },
}

/// The numbers of a `laurent` node: its lowest and highest order, and the degrees of numerator and denominator.
#[derive(Clone, Copy, PartialEq, Eq, Debug)]
pub struct Expansion {
    pub lo: i32,
    pub hi: i32,
    pub num: u32,
    pub den: u32,
}

/// The unknowns of a system whose values are wanted.
#[derive(Drop)]
pub enum Want {
    /// Every unknown, in their order.
    Every,
    /// Those with these numbers, counted from 1, in this order.
    Numbers(Items<u32>),
}

/// Which kind of line stood last among those that weren't passed over.
#[derive(Clone, Copy, PartialEq, Eq, Debug)]
pub enum Last {
    /// None has stood yet.
    Start,
    Flow,
    Graph,
    Input,
    /// A `node` line of another kind than sparse.
    Node,
    /// A `node` line of kind sparse.
    Sparse,
    Row,
    Output,
    /// A line of the job: `point`, `bounds` or `coeff`.
    Job,
}
