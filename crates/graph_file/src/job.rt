ghost use Rattle.graph_file.specs.Bounded.{HasBounds};
ghost use Rattle.graph_file.specs.Props.{props};
ghost use Rattle.graph_file.specs.Sound.{IsJob};

use crate::graph::Graph;
use poly_maps::{Bounds, Point};
use rational_lift::Coeff;
use sqlite_items::Items;

/// What the file is read for.
#[derive(Clone, Copy, PartialEq, Eq, Debug)]
pub enum Need {
    /// The values of the main graph at the file's points.
    Points,
    /// What learning its graphs gives.
    Learning,
    /// The functions that the outputs of the main graph are. The file gives bounds for every output.
    Functions,
}

/// The bounds of one output of the main graph, which is given by its number, counted from 1.
#[derive(Clone, Copy, PartialEq, Eq, Debug)]
pub struct Special {
    pub output: u32,
    pub bounds: Bounds,
}

/// What a file asks for. The last graph is the main graph.
#[derive(Drop)]
pub struct Job {
    pub graphs: Items<Graph>,
    pub points: Items<Point>,
    /// The bounds of each output that has none of its own, if the file gives them.
    pub all: Option<Bounds>,
    /// The bounds of single outputs, in the order of the file.
    pub special: Items<Special>,
    /// Bounds on coefficients.
    pub coeff: Coeff,
    pub need: Need,
    pub ghost sound: { IsJob graphs points } by { Prim.hlevel props },
    pub ghost bounded: { HasBounds graphs all special coeff need } by { Prim.hlevel props },
}
