//! Learning a graph at a point: which unknowns tell the others in each system, and how long each list is.

ghost use Rattle.std.specs.Prelude.{◌≡◌, ℕ, ◌<◌, ◌≤◌, All, IfOk, Some, length, slice_get, slice_index};
ghost use Rattle.prime_field.specs.Modulus.{value_of};
ghost use Rattle.prime_field.specs.Residue.{IsPrime};
ghost use Rattle.graph_eval.specs.Evaluated.{HasInputs};
ghost use Rattle.graph_eval.specs.Fresh.{FitsFresh, FitsFreshAt, IsFresh, IsFreshAt};
ghost use Rattle.graph_eval.specs.GraphValue.{meanings};
ghost use Rattle.graph_eval.specs.Learned.{AreGraphs, CallEarlier, FitsFirst, sets_of, sizes_of};
ghost use Rattle.graph_eval.specs.Needs.{AreTables, words_below};
ghost use Rattle.graph_eval.specs.Systems.{AreEnoughFor};

use crate::learned::{GraphLearned, Learned};
use crate::lengths::{learned_of, node_length};
use crate::needs::{tables_of, words_of_each};
use crate::outcome::Singular;
use crate::own::{learn_node, push_own};
use crate::shapes::{GraphSize, sizes_of};
use crate::systems::work_for;
use graph_file::{Graph, Job};
use poly_maps::Point;
use prime_field::Modulus;
use ratfun_text::NoMemory;
use sqlite_items::Items;
use std::alloc::Global;

/// What learning a graph gives.
#[derive(Debug, Drop)]
pub enum Fresh {
    /// What was learned.
    Learned(GraphLearned),
    /// The first node that fails, which has a length and no value at the point.
    Singular(Singular),
    /// The first node that fails, by its place counted from 0, whose length breaks a rule.
    Length { node: u32 },
}

/// What is learned of the next graph at these inputs. What was learned of the graphs before it is known, and where their
/// lists stand and how many words they need.
fn learn_graph(
    alloc: Global,
    m: Modulus,
    graphs: &[Graph],
    learned: &[GraphLearned],
    tables: &[Items<usize>],
    wanted: &[usize],
    graph: &Graph,
    sizes: &[GraphSize],
    inputs: &[u64],
    work: &mut [u64],
) -> Result<Fresh, NoMemory>
    requires sound { AreGraphs graphs.now }
    requires earlier { CallEarlier graphs.now }
    requires fits { FitsFirst graphs.now learned.now (length learned.now) }
    requires tables { AreTables graphs.now learned.now tables.now }
    requires wanted { (k : ℕ) → slice_index wanted.now k ≡ words_below graphs.now learned.now (length learned.now) k }
    requires bound { (k : ℕ) → slice_index wanted.now k ≤ 1152921504606846976 }
    requires many { length learned.now ≤ length wanted.now }
    requires is { slice_get graphs.now (length learned.now) ≡ Some graph.now }
    requires sizes_are { sizes.now ≡ sizes_of graphs.now learned.now }
    requires enough { AreEnoughFor graphs.now (length work.old) }
    requires residues { All (λ x. x < value_of m) inputs.now }
    requires entries { length inputs.now ≡ length graph.now.inputs }
    ensures fresh { IfOk result (λ fresh. IsPrime (value_of m) → IsFresh (value_of m) (meanings (value_of m) graphs.now (sets_of learned.now) (length learned.now)) sizes.now graph.now inputs.now fresh) }
    ensures fits { IfOk result (FitsFresh sizes.now graph.now) }
{
    let mut sets = Vec::new(alloc);
    let mut plans = Vec::new(alloc);
    let mut lengths = Vec::new(alloc);
    let mut words = Vec::from_slice(alloc, inputs)?;
    let mut places = Vec::new(alloc);
    places.push(inputs.len())?;
    let mut total = 0;
    for (place, node) in graph.nodes.as_slice().iter().enumerate() {
        let before = places.as_slice();
        let own = learn_node(alloc, m, node, words.as_slice(), before, work)?;
        let set = own.set.as_slice();
        let earlier = lengths.as_slice();
        let Some(count) = node_length(alloc, node, set, sizes, inputs.len(), earlier, total)? else {
            return Ok(Fresh::Length { node: place as u32 });
        };
        if let Err(cause) = push_own(
            alloc,
            m,
            graphs,
            learned,
            tables,
            wanted,
            node,
            &own,
            count as usize,
            &mut words,
            before,
            work,
        )? {
            return Ok(Fresh::Singular(Singular {
                node: place as u32,
                cause,
            }));
        }
        total += count as usize;
        places.push(inputs.len() + total)?;
        sets.push(own.set)?;
        plans.push(own.plan)?;
        lengths.push(count)?;
    }
    let sets = Items::from_vec(sets);
    let plans = Items::from_vec(plans);
    Ok(Fresh::Learned(learned_of(inputs.len(), graph.output, lengths, sets, plans)))
}

/// What is learned of the graph with this number, counted from 0, at a point: its first node that fails decides, and where
/// none fails each solver has the independent unknowns of its own system there. What was learned of the graphs before it
/// is known.
pub fn fresh_point(
    alloc: Global,
    job: &Job,
    learned: &Learned,
    graph: u32,
    m: Modulus,
    point: &Point,
) -> Result<Fresh, NoMemory>
    requires there { graph < length job.now.graphs }
    requires before { FitsFirst job.now.graphs learned.now graph }
    requires entries { HasInputs (slice_get job.now.graphs graph) point.now }
    ensures fresh { IfOk result (λ fresh. IsPrime (value_of m) → IsFreshAt (value_of m) job.now.graphs learned.now graph point.now fresh) }
    ensures fits { IfOk result (FitsFreshAt job.now.graphs learned.now graph) }
{
    let graphs = job.graphs.as_slice();
    let known = learned.all();
    let sizes = sizes_of(alloc, graphs, known)?;
    let tables = tables_of(alloc, graphs, known)?;
    let wanted = words_of_each(graphs, known);
    let mut work = work_for(alloc, graphs)?;
    let inputs = point.entries();
    Ok(learn_graph(
        alloc,
        m,
        graphs,
        known,
        tables.as_slice(),
        &wanted,
        &graphs[graph as usize],
        sizes.as_slice(),
        inputs,
        work.as_mut_slice(),
    )?)
}
