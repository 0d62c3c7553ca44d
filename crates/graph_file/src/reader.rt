//! The lines of a file, read one after the other.
ghost use Rattle.std.specs.Prelude.{◌≡◌, ◌≤◌, ℕ, true, List, [], ◌∷◌, All, OnOk, length};
ghost use Rattle.ratfun_text.specs.Names.{last_argument};
ghost use Rattle.ratfun_text.specs.Value.{greatest};
ghost use Rattle.graph_file.specs.declared.line.Line.{Line as LineOf};
ghost use Rattle.graph_file.specs.declared.line.Line.TheVariants as line;
ghost use Rattle.graph_file.specs.Faults.{names_for, names_in};
ghost use Rattle.graph_file.specs.Formed.{IsFormed};
ghost use Rattle.graph_file.specs.Line as spec_line;
ghost use Rattle.graph_file.specs.Line.{texts_in};
ghost use Rattle.graph_file.specs.Read.{AreAll, FitsTogether, IsNextTo, IsRead, IsReadOn, KeepsGood};
ghost use Rattle.graph_file.specs.Reader.{IsOpen, has_name, is_ended, kind_stood, kind_unknowns};
ghost use Rattle.graph_file.specs.Says.{AreTrees, with_row as kind_with_row};

use crate::asked::{Asked, bounds_said, nothing};
use crate::depth::{depth_over, raise_last};
use crate::error::FileKind;
use crate::exprs::line_expressions;
use crate::faults::{count, fault};
use crate::graph::{Graph, Node, NodeKind, Source};
use crate::kind::{kind_of, source_named};
use crate::line::{Degrees, Last, Line, Statement, Which};
use crate::patterns::line_of;
use crate::table::Table;
use crate::whole::whole_graph;
use elim_core::SparseRow;
use poly_maps::Point;
use ratfun_text::{Expr, Name, Names};
use rational_lift::Coeff;
use sqlite_items::Items;
use std::alloc::{AllocError, Global};
use std::mem::replace;

/// The kind of a node's line.
fn stood_after(kind: &NodeKind) -> Last
    ensures { result ≡ kind_stood kind.now }
{
    match kind {
        NodeKind::Sparse { .. } => Last::Sparse,
        _ => Last::Node,
    }
}

/// The unknowns of a sparse node.
fn unknowns_of(kind: &NodeKind) -> u32
    ensures { result ≡ kind_unknowns kind.now }
{
    match kind {
        NodeKind::Sparse { unknowns, .. } => *unknowns,
        _ => 0,
    }
}

/// Gives a sparse node one more row.
fn add_row(kind: &mut NodeKind, columns: Items<u32>) -> Result<(), AllocError>
    requires { (unknowns entries : ℕ) × IsOpen unknowns entries kind.old }
    ensures { OnOk result (kind.new ≡ kind_with_row (record { columns = columns }) kind.old) }
{
    let NodeKind::Sparse { rows, .. } = kind else {
        unreachable!()
    };
    rows.push(SparseRow { columns })
}

/// What the lines so far have said.
#[derive(Drop)]
pub struct Reader {
    pub alloc: Global,
    /// Which kind of line stood last.
    pub stood: Last,
    /// The graphs before the last one.
    pub graphs: Items<Graph>,
    /// The names of all graphs.
    pub graph_names: Table,
    /// How deep calls go from each graph, the last one included.
    pub depths: Vec<u32>,
    /// The last graph's name.
    pub name: Option<Name>,
    /// Its variables.
    pub variables: Names,
    /// The names of its nodes.
    pub table: Table,
    pub nodes: Vec<Node>,
    /// The unknowns of its last node, where that is sparse.
    pub unknowns: u32,
    /// How many entries its rows have so far.
    pub entries: usize,
    pub output: Option<Source>,
    /// What belongs to the file and not to one graph.
    pub asked: Asked,
}

impl Reader {
    /// A reader of no lines.
    pub fn new(alloc: Global) -> Reader
        ensures { IsRead [] result }
    {
        Reader {
            alloc,
            stood: Last::Start,
            graphs: Items::new(alloc),
            graph_names: Table::new(alloc),
            depths: Vec::new(alloc),
            name: None,
            variables: Names::Listed(Items::new(alloc)),
            table: Table::new(alloc),
            nodes: Vec::new(alloc),
            unknowns: 0,
            entries: 0,
            output: None,
            asked: nothing(alloc),
        }
    }

    /// Takes in `flow NUM`.
    fn flow(&mut self)
        requires passes { (version : ℕ) × IsNextTo self.old (line.Flow version) }
        ensures { (earlier : List LineOf) (version : ℕ) → IsRead earlier self.old → IsRead (line.Flow version ∷ earlier) self.new }
    {
        self.stood = Last::Flow;
    }

    /// Puts the last graph, where there is one, behind the others.
    pub fn finish_graph(&mut self) -> Result<(), AllocError>
        requires fits { FitsTogether self.old }
        requires whole { has_name self.old.stood ≡ true → is_ended self.old.stood ≡ true }
        ensures graphs { OnOk result ((earlier : List LineOf) → IsRead earlier self.old → AreAll earlier self.new.graphs) }
        ensures names { OnOk result (self.new.graph_names ≡ self.old.graph_names) }
        ensures depths { OnOk result (self.new.depths ≡ self.old.depths) }
        ensures asked { OnOk result (self.new.asked ≡ self.old.asked) }
    {
        let name = self.name.take();
        let Some(name) = name else {
            return Ok(());
        };
        let Some(output) = self.output else {
            unreachable!()
        };
        let variables = replace(&mut self.variables, Names::Listed(Items::new(self.alloc)));
        let nodes = replace(&mut self.nodes, Vec::new(self.alloc));
        let graph = whole_graph(self.alloc, name, variables, nodes, output)?;
        self.graphs.push(graph)?;
        Ok(())
    }

    /// Takes in `graph NAME`.
    fn graph(&mut self, name: Name) -> Result<(), AllocError>
        requires formed { (most : ℕ) × IsFormed most (line.Graph name) }
        requires passes { IsNextTo self.old (line.Graph name) }
        ensures { OnOk result ((earlier : List LineOf) → IsRead earlier self.old → IsRead (line.Graph name ∷ earlier) self.new) }
    {
        self.finish_graph()?;
        self.graph_names.add(self.alloc, &name)?;
        self.depths.push(1)?;
        self.stood = Last::Graph;
        self.name = Some(name);
        self.variables = Names::Listed(Items::new(self.alloc));
        self.table = Table::new(self.alloc);
        self.nodes = Vec::new(self.alloc);
        self.unknowns = 0;
        self.entries = 0;
        self.output = None;
        Ok(())
    }

    /// Takes in `input NAME ..`.
    fn input(&mut self, names: Items<Name>)
        requires formed { (most : ℕ) × IsFormed most (line.Input names) }
        requires passes { IsNextTo self.old (line.Input names) }
        ensures { (earlier : List LineOf) → IsRead earlier self.old → IsRead (line.Input names ∷ earlier) self.new }
    {
        self.stood = Last::Input;
        self.variables = Names::Listed(names);
    }

    /// Takes in `node NAME KIND ..`, whose expressions have these trees.
    fn node(
        &mut self,
        name: Name,
        statement: &Statement,
        exprs: Items<Expr>,
    ) -> Result<(), AllocError>
        requires formed { (most : ℕ) × IsFormed most (line.Node name statement.now) }
        requires passes { IsNextTo self.old (line.Node name statement.now) }
        requires trees { AreTrees (names_for self.old.variables statement.now) (spec_line.texts_of statement.now) exprs }
        requires arguments { All (λ expr. greatest expr ≤ last_argument (names_for self.old.variables statement.now)) exprs }
        ensures { OnOk result ((earlier : List LineOf) → IsRead earlier self.old → IsRead (line.Node name statement.now ∷ earlier) self.new) }
    {
        let count = self.graphs.len();
        let kind = kind_of(
            self.alloc,
            &self.graph_names,
            count,
            &self.table,
            exprs,
            statement,
        )?;
        let Some(kind) = kind else { unreachable!() };
        let depth = depth_over(&self.graph_names, count, self.depths.as_slice(), statement);
        raise_last(&mut self.depths, depth)?;
        self.stood = stood_after(&kind);
        self.unknowns = unknowns_of(&kind);
        self.entries = 0;
        self.table.add(self.alloc, &name)?;
        self.nodes.push(Node {
            name,
            kind,
            needed: false,
        })?;
        Ok(())
    }

    /// Takes in `row NUM ..`.
    fn row(&mut self, columns: Items<u32>) -> Result<(), AllocError>
        requires formed { (most : ℕ) × IsFormed most (line.Row columns) }
        requires passes { IsNextTo self.old (line.Row columns) }
        ensures { OnOk result ((earlier : List LineOf) → IsRead earlier self.old → IsRead (line.Row columns ∷ earlier) self.new) }
    {
        self.stood = Last::Row;
        self.entries += columns.len();
        let last = self.nodes.pop();
        let Some(mut node) = last else { unreachable!() };
        add_row(&mut node.kind, columns)?;
        self.nodes.push(node)?;
        Ok(())
    }

    /// Takes in `output LIST`.
    fn output(&mut self, list: &Name)
        requires passes { IsNextTo self.old (line.Output list.now) }
        ensures { (earlier : List LineOf) → IsRead earlier self.old → IsRead (line.Output list.now ∷ earlier) self.new }
    {
        let output = source_named(&self.table, list);
        let Some(output) = output else { unreachable!() };
        self.stood = Last::Output;
        self.output = Some(output);
    }

    /// Takes in `point NUM ..`.
    fn point(&mut self, entries: &[u64]) -> Result<(), AllocError>
        requires passes { IsNextTo self.old (line.Point entries.now) }
        ensures { OnOk result ((earlier : List LineOf) → IsRead earlier self.old → IsRead (line.Point entries.now ∷ earlier) self.new) }
    {
        self.stood = Last::Job;
        self.asked.points.push(Point::of(entries))?;
        Ok(())
    }

    /// Takes in `bounds WHICH num NUM .. den NUM ..`.
    fn bounds(&mut self, outputs: Which, num: &Degrees, den: &Degrees) -> Result<(), AllocError>
        requires passes { IsNextTo self.old (line.Bounds outputs num.now den.now) }
        ensures { OnOk result ((earlier : List LineOf) → IsRead earlier self.old → IsRead (line.Bounds outputs num.now den.now ∷ earlier) self.new) }
    {
        self.stood = Last::Job;
        let bounds = bounds_said(count(&self.variables), num, den);
        self.asked.add_bounds(outputs, bounds)?;
        Ok(())
    }

    /// Takes in `coeff NUM NUM`.
    fn coeff(&mut self, coeff: Coeff)
        requires passes { IsNextTo self.old (line.Coeff coeff.num coeff.den) }
        ensures { (earlier : List LineOf) → IsRead earlier self.old → IsRead (line.Coeff coeff.num coeff.den ∷ earlier) self.new }
    {
        self.stood = Last::Job;
        self.asked.coeff = Some(coeff);
    }

    /// Takes in a line with which nothing is wrong, and whose expressions have these trees.
    fn take_in(&mut self, line: Line, exprs: Items<Expr>) -> Result<(), AllocError>
        requires formed { (most : ℕ) × IsFormed most line }
        requires passes { IsNextTo self.old line }
        requires trees { AreTrees (names_in self.old.variables line) (texts_in line) exprs }
        requires arguments { All (λ expr. greatest expr ≤ last_argument (names_in self.old.variables line)) exprs }
        ensures { OnOk result ((earlier : List LineOf) → IsRead earlier self.old → IsRead (line ∷ earlier) self.new) }
    {
        match line {
            Line::Flow(_version) => {
                self.flow();
                Ok(())
            }
            Line::Graph(name) => self.graph(name),
            Line::Input(names) => {
                self.input(names);
                Ok(())
            }
            Line::Node(name, statement) => self.node(name, &statement, exprs),
            Line::Row(columns) => self.row(columns),
            Line::Output(list) => {
                self.output(&list);
                Ok(())
            }
            Line::Point(entries) => self.point(entries.as_slice()),
            Line::Bounds(outputs, num, den) => self.bounds(outputs, &num, &den),
            Line::Coeff(num, den) => {
                self.coeff(Coeff { num, den });
                Ok(())
            }
        }
    }

    /// Reads one more line, or tells what is wrong with it. After a refusal nothing is said of the reader.
    pub fn read_line(&mut self, line: &[u8]) -> Result<(), FileKind>
        requires short { length line.now ≤ 16777216 }
        requires read { KeepsGood self.old }
        ensures { (earlier : List LineOf) → IsRead earlier self.old → IsReadOn earlier (spec_line.line_of line.now) self.new result }
    {
        let said = line_of(self.alloc, line)?;
        let Some(said) = said else {
            return Err(FileKind::Syntax);
        };
        let fault = fault(self, &said)?;
        if let Some(kind) = fault {
            return Err(kind);
        }
        let exprs = match line_expressions(self.alloc, &self.variables, &said) {
            Ok(exprs) => exprs,
            Err(kind) => return Err(kind),
        };
        self.take_in(said, exprs)?;
        Ok(())
    }
}
