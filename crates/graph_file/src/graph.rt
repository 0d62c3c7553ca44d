//! What a file says of its graphs.
use elim_core::SparseRow;
use ratfun_text::{Expr, Name};
use sqlite_items::Items;

/// A list of residues that a node reads: the graph's input, or the list of the node at this place, counted from 0.
#[derive(Clone, Copy, PartialEq, Eq, Debug)]
pub enum Source {
    Input,
    Node(u32),
}

/// What a node computes. Positions in lists are counted from 1.
#[derive(Drop)]
pub enum NodeKind {
    /// The values of expressions in the entries of one list.
    Eval {
        from: Source,
        exprs: Items<Expr>,
    },
    /// Entries of lists, each given by a list and a position.
    Take {
        parts: Items<(Source, u32)>,
    },
    /// The entries of a list from a first to a last position.
    Slice {
        from: Source,
        first: u32,
        last: u32,
    },
    /// Lists one after the other.
    Chain {
        parts: Items<Source>,
    },
    /// The sums of the entries at each position.
    Sum {
        parts: Items<Source>,
    },
    /// The products of the entries at each position.
    Product {
        parts: Items<Source>,
    },
    /// The product of a matrix of `rows` by `mid` entries and one of `mid` by `cols`, row by row.
    Matmul {
        left: Source,
        right: Source,
        rows: u32,
        mid: u32,
        cols: u32,
    },
    /// The solution of a system of `rows` linear equations in `unknowns` unknowns. The list has equation after equation:
    /// the coefficients of the unknowns, and then the right side. `want` has the numbers of the unknowns whose values are
    /// wanted, counted from 1.
    Dense {
        from: Source,
        rows: u32,
        unknowns: u32,
        want: Items<u32>,
    },
    /// The solution of a system of linear equations in `unknowns` unknowns, most of whose coefficients are 0. The list has
    /// the values of row after row, those of a row in its columns: column 0 is that of the right side, and column k that of
    /// the unknown with the number k. There is at least one row, each row has at least one column, its columns ascend, and
    /// all rows together have at most 65536. `want` has the numbers of the unknowns whose values are wanted, counted from 1.
    Sparse {
        from: Source,
        unknowns: u32,
        want: Items<u32>,
        rows: Items<SparseRow>,
    },
    /// What the output of an earlier graph of the file is on lists, one after the other. Graphs are counted from 0.
    Call {
        graph: u32,
        parts: Items<Source>,
    },
    /// The same; the last list that was given, and what came of it, may be kept.
    Memo {
        graph: u32,
        parts: Items<Source>,
    },
    /// What the output of an earlier graph of the file is on each list, one after the other.
    Map {
        graph: u32,
        parts: Items<Source>,
    },
    /// For each entry of the output of an earlier graph of the file the coefficients of its expansion in powers of the
    /// graph's first variable, from the order `lo` to the order `hi`. As a quotient in that variable the entry has a
    /// numerator of degree at most `num` and a denominator of degree at most `den`. The graph's other variables are the
    /// entries of the lists, one after the other; there may be no list.
    Laurent {
        graph: u32,
        lo: i32,
        hi: i32,
        num: u32,
        den: u32,
        parts: Items<Source>,
    },
}

/// A node of a graph.
#[derive(Drop)]
pub struct Node {
    pub name: Name,
    pub kind: NodeKind,
    /// Whether the output's value rests on the node.
    pub needed: bool,
}

/// A graph: its variables, its nodes in the order of the file, and the list that is its output.
#[derive(Drop)]
pub struct Graph {
    pub name: Name,
    pub inputs: Items<Name>,
    pub nodes: Items<Node>,
    pub output: Source,
}
