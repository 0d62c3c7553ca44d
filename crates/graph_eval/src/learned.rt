//! What was learned of the graphs of a file.

ghost use Rattle.std.specs.Prelude.{◌≡◌, ◌-◌, ◌<◌, [], ◌∷◌, ◌++◌, length, OnOk, OnErr, Some, slice_get};
ghost use Rattle.graph_eval.specs.Learned.{outputs_of};

use ratfun_text::NoMemory;
use sparse_solver::SparsePlan;
use sqlite_items::Items;
use std::alloc::Global;
use std::marker::Model;

/// What was learned of one graph.
#[derive(Debug, Drop)]
pub struct GraphLearned {
    /// The number of the point at which the graph was learned; none where it needs no point, or isn't known yet.
    pub point: Option<u32>,
    /// The length of the graph's output.
    pub output: u32,
    /// The length of each node's list, 0 for a node that isn't needed.
    pub lengths: Items<u32>,
    /// The unknowns by which each node's system tells the others, ascending, counted from 1; none for a node that isn't
    /// needed or solves no system.
    pub sets: Items<Items<u32>>,
    /// The plan of each needed node that solves a sparse system, learned with the node's set; none for another node.
    pub plans: Items<Option<SparsePlan>>,
}

/// What was learned of a file's graphs, which contracts see as the list of its entries, one a graph in the order of
/// the file.
#[derive(Debug, Drop)]
pub struct Learned {
    graphs: Items<GraphLearned>,
}

impl Model for Learned {
    ghost use Rattle.std.specs.Prelude.{List};
    ghost use Rattle.graph_eval.specs.declared.learned.GraphLearned.{GraphLearned};

    ghost Value = { List GraphLearned };

    ghost view = { λ learned. learned.graphs };
}

impl Learned {
    /// Nothing is learned yet.
    pub fn new(alloc: Global) -> Learned
        ensures { result ≡ [] }
    {
        Learned {
            graphs: Items::new(alloc),
        }
    }

    /// Adds what was learned of the next graph.
    ///
    /// # Errors
    ///
    /// [`NoMemory`]; then what was learned before is unchanged.
    pub fn add(&mut self, graph: GraphLearned) -> Result<(), NoMemory>
        ensures ok { OnOk result (self.new ≡ self.old ++ graph ∷ []) }
        ensures err { OnErr result (self.new ≡ self.old) }
    {
        self.graphs.push(graph)
    }

    /// What was learned of the graph with this number, counted from 0.
    pub fn graph(&self, graph: u32) -> &GraphLearned
        requires { graph < length self.now }
        ensures { slice_get self.now graph ≡ Some result.now }
    {
        &self.graphs.as_slice()[graph as usize]
    }

    /// What was learned of each graph, in the order of the file.
    pub(crate) fn all(&self) -> &[GraphLearned]
        ensures { result.now ≡ self.now }
    {
        self.graphs.as_slice()
    }

    /// What was learned of the graph that was added last.
    pub(crate) fn last(&self) -> &GraphLearned
        requires { 0 < length self.now }
        ensures { slice_get self.now (length self.now - 1) ≡ Some result.now }
    {
        let graphs = self.graphs.as_slice();
        &graphs[graphs.len() - 1]
    }

    /// The length of the output of the graph that was added last, which is the main graph once all are added.
    pub fn outputs(&self) -> usize
        requires { 0 < length self.now }
        ensures { result ≡ outputs_of self.now }
    {
        self.last().output as usize
    }
}
