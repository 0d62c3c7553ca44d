//! A graph whose output has stood.
ghost use Rattle.std.specs.Prelude.{◌≡◌, ◌<◌, ℕ, length, IfOk};
ghost use Rattle.ratfun_text.specs.declared.names.Names.TheVariants.{Listed};
ghost use Rattle.ratfun_text.specs.Names.{names_of as variables_of};
ghost use Rattle.graph_file.specs.Marks.{ReadEarlier};
ghost use Rattle.graph_file.specs.Needed.{kinds_of};
ghost use Rattle.graph_file.specs.Whole.{IsWholeOf};
ghost use Rattle.graph_file.specs.declared.graph.Source.TheVariants as source;

use crate::graph::{Graph, Node, Source};
use crate::needed::{marked_nodes, marks};
use ratfun_text::{Name, Names};
use sqlite_items::Items;
use std::alloc::{AllocError, Global};

fn listed(variables: Names) -> Items<Name>
    requires { variables ≡ Listed (variables_of variables) }
    ensures { result ≡ variables_of variables }
{
    let Names::Listed(names) = variables else {
        unreachable!()
    };
    names
}

/// The graph with this output, in which each node is marked where the output rests on it.
pub fn whole_graph(
    alloc: Global,
    name: Name,
    variables: Names,
    nodes: Vec<Node>,
    output: Source,
) -> Result<Graph, AllocError>
    requires listed { variables ≡ Listed (variables_of variables) }
    requires earlier { ReadEarlier (kinds_of nodes.items) }
    requires within { (k : ℕ) → output ≡ source.Node k → k < length nodes.items }
    ensures { IfOk result (IsWholeOf name (variables_of variables) nodes.items output) }
{
    let flags = marks(alloc, nodes.as_slice(), output)?;
    let nodes = marked_nodes(nodes, flags.as_slice());
    Ok(Graph {
        name,
        inputs: listed(variables),
        nodes: Items::from_vec(nodes),
        output,
    })
}
