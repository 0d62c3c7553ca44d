//! What may be wrong with a line beside its expressions.
ghost use Rattle.std.specs.Prelude.{◌≡◌, ◌+◌, ◌≤◌, List, [], map, length, nat_le, take, true, false, IfOk};
ghost use Rattle.std.specs.List.{list_all};
ghost use Rattle.ratfun_text.specs.Names.{names_of as variables_of};
ghost use Rattle.graph_file.specs.Facts as facts;
ghost use Rattle.graph_file.specs.Faults as spec;
ghost use Rattle.graph_file.specs.Read.{IsRead, KeepsGood};
ghost use Rattle.graph_file.specs.Reader.{is_ended, stands_behind};
ghost use Rattle.graph_file.specs.declared.line.Line.{Line as LineOf};
ghost use Rattle.ray_grid.specs.Grid.{IsGrid};

use crate::asked::{bounds_said, is_given, widened};
use crate::depth::{depth_over, graph_named};
use crate::error::FileKind;
use crate::line::{Degrees, Expansion, Last, Line, Statement, Want, Which};
use crate::reader::Reader;
use crate::table::Table;
use poly_maps::Bounds;
use ratfun_text::{Name, Names};
use ray_grid::{Grid, has_few, size};
use std::alloc::{AllocError, Global};

/// The most bytes of a name that a line gives.
const NAME_BYTES: usize = 32;

/// The most graphs of a file.
const GRAPHS: usize = 64;

/// The greatest depth of calls.
const DEPTH: u32 = 8;

/// The most variables of a graph.
const VARIABLES: usize = 8;

/// The most nodes of a graph.
const NODES: usize = 4096;

/// The most points of a file.
const POINTS: usize = 65536;

/// The greatest position in a list, number of rows or columns, and number of entries of a matrix.
const POSITIONS: u32 = 262144;

/// The most equations of a system.
const EQUATIONS: u32 = 512;

/// The most unknowns of a system.
const UNKNOWNS: u32 = 511;

/// The most unknowns of a system of sparse rows.
const SPARSE_UNKNOWNS: u32 = 4096;

/// The most entries of all rows of a sparse node.
const ENTRIES: usize = 65536;

/// How far the orders of an expansion may be from 0.
const ORDERS: i32 = 64;

/// The greatest degree of the numerator and of the denominator of a quotient that is expanded.
const EXPANSION_DEGREE: u32 = 64;

/// What each entry of a point is below: 2^61 - 1.
const ENTRY_LIMIT: u64 = 2305843009213693951;

/// The greatest total degree of a bound.
const TOTAL_DEGREE: u32 = 64;

/// The greatest product of the bounds for numerators and denominators: twice as much is less than the product of the moduli.
const COEFF_PRODUCT: u128 = 10633823966279326949795732848644194316;

/// How many variables the graph has.
pub fn count(variables: &Names) -> usize
    ensures { result ≡ length (variables_of variables.now) }
{
    match variables {
        Names::Listed(names) => names.len(),
        Names::Numbered => 0,
    }
}

fn may_stand(stood: Last, line: &Line) -> bool
    ensures { result ≡ stands_behind stood line.now }
{
    match (stood, line) {
        (Last::Start, Line::Flow(_))
        | (Last::Flow | Last::Output, Line::Graph(_))
        | (Last::Graph, Line::Input(_))
        | (Last::Input | Last::Node | Last::Row, Line::Node(_, _) | Line::Output(_))
        | (Last::Sparse | Last::Row, Line::Row(_))
        | (Last::Output | Last::Job, Line::Point(_) | Line::Bounds(_, _, _) | Line::Coeff(_, _)) =>
            true,
        _ => false,
    }
}

fn are_degrees(variables: usize, degrees: &Degrees) -> bool
    ensures { result ≡ spec.are_degrees variables degrees.now }
{
    degrees.each.len() == 0 || degrees.each.len() == variables
}

fn fits(reader: &Reader, line: &Line) -> bool
    ensures { (earlier : List LineOf) → IsRead earlier reader.now → result ≡ spec.fits earlier line.now }
{
    match line {
        Line::Point(entries) => entries.len() == count(&reader.variables),
        Line::Bounds(_, num, den) => {
            are_degrees(count(&reader.variables), num) && are_degrees(count(&reader.variables), den)
        }
        _ => true,
    }
}

fn is_syntax(reader: &Reader, line: &Line) -> bool
    ensures { (earlier : List LineOf) → IsRead earlier reader.now → result ≡ spec.is_syntax earlier line.now }
{
    !may_stand(reader.stood, line) || !fits(reader, line)
}

fn is_version(line: &Line) -> bool
    ensures { result ≡ spec.is_version line.now }
{
    match line {
        Line::Flow(version) => *version != 1,
        _ => false,
    }
}

/// Whether this is `input` or the name of a node.
pub fn is_known(nodes: &Table, name: &Name) -> bool
    ensures { result ≡ spec.is_known nodes.now name.now }
{
    name.bytes() == b"input".as_slice() || nodes.has(name)
}

fn are_new(alloc: Global, names: &[Name]) -> Result<bool, AllocError>
    ensures { IfOk result (λ are_new. are_new ≡ spec.are_new [] names.now) }
{
    let mut before = Table::new(alloc);
    for name in names {
        if before.has(name) {
            return Ok(false);
        }
        before.add(alloc, name)?;
    }
    Ok(true)
}

fn is_repeated(reader: &Reader, line: &Line) -> Result<bool, AllocError>
    ensures { IfOk result (λ is_repeated. (earlier : List LineOf) → IsRead earlier reader.now → is_repeated ≡ spec.is_repeated earlier line.now) }
{
    match line {
        Line::Graph(name) => Ok(reader.graph_names.has(name)),
        Line::Input(names) => {
            let are_new = are_new(reader.alloc, names.as_slice())?;
            Ok(!are_new)
        }
        Line::Node(name, _) => Ok(is_known(&reader.table, name)),
        Line::Bounds(outputs, _, _) => Ok(is_given(&reader.asked, *outputs)),
        Line::Coeff(_, _) => Ok(reader.asked.coeff.is_some()),
        _ => Ok(false),
    }
}

fn are_known(nodes: &Table, lists: &[Name]) -> bool
    ensures { result ≡ list_all (spec.is_known nodes.now) lists.now }
{
    lists.iter().all(|list| is_known(nodes, list))
}

fn are_parts_known(nodes: &Table, parts: &[(Name, u32)]) -> bool
    ensures { result ≡ list_all (spec.is_known nodes.now) (map (λ part. part.0) parts.now) }
{
    parts.iter().all(|(list, _)| is_known(nodes, list))
}

fn are_lists_known(nodes: &Table, statement: &Statement) -> bool
    ensures { result ≡ list_all (spec.is_known nodes.now) (spec.lists_in statement.now) }
{
    match statement {
        Statement::Eval { from, texts: _ } => is_known(nodes, from),
        Statement::Take { parts } => are_parts_known(nodes, parts.as_slice()),
        Statement::Slice {
            from,
            first: _,
            last: _,
        } => is_known(nodes, from),
        Statement::Chain { parts } => are_known(nodes, parts.as_slice()),
        Statement::Sum { parts } => are_known(nodes, parts.as_slice()),
        Statement::Product { parts } => are_known(nodes, parts.as_slice()),
        Statement::Matmul {
            left,
            right,
            rows: _,
            mid: _,
            cols: _,
        } => is_known(nodes, left) && is_known(nodes, right),
        Statement::Dense { from, .. } => is_known(nodes, from),
        Statement::Sparse { from, .. } => is_known(nodes, from),
        Statement::Call { graph: _, parts } => are_known(nodes, parts.as_slice()),
        Statement::Memo { graph: _, parts } => are_known(nodes, parts.as_slice()),
        Statement::Map { graph: _, parts } => are_known(nodes, parts.as_slice()),
        Statement::Laurent {
            graph: _,
            expansion: _,
            parts,
        } => are_known(nodes, parts.as_slice()),
    }
}

/// Whether a node calls another graph than one of the first of these, as many as `count`.
fn is_not_among(graphs: &Table, count: usize, statement: &Statement) -> bool
    requires { length graphs.now ≤ 64 }
    ensures { result ≡ spec.is_not_among (take count graphs.now) (facts.called_by statement.now) }
{
    match statement {
        Statement::Call { graph, parts: _ } => graph_named(graphs, count, graph).is_none(),
        Statement::Memo { graph, parts: _ } => graph_named(graphs, count, graph).is_none(),
        Statement::Map { graph, parts: _ } => graph_named(graphs, count, graph).is_none(),
        Statement::Laurent {
            graph,
            expansion: _,
            parts: _,
        } => graph_named(graphs, count, graph).is_none(),
        _ => false,
    }
}

fn is_unknown_graph(reader: &Reader, line: &Line) -> bool
    requires { KeepsGood reader.now }
    ensures { (earlier : List LineOf) → IsRead earlier reader.now → result ≡ spec.is_unknown_graph earlier line.now }
{
    match line {
        Line::Node(_, statement) => {
            is_not_among(&reader.graph_names, reader.graphs.len(), statement)
        }
        _ => false,
    }
}

fn is_unknown_node(reader: &Reader, line: &Line) -> bool
    ensures { (earlier : List LineOf) → IsRead earlier reader.now → result ≡ spec.is_unknown_node earlier line.now }
{
    match line {
        Line::Node(_, statement) => !are_lists_known(&reader.table, statement),
        Line::Output(list) => !is_known(&reader.table, list),
        _ => false,
    }
}

fn are_residues(entries: &[u64]) -> bool
    ensures { result ≡ list_all spec.is_entry entries.now }
{
    entries.iter().all(|entry| *entry < ENTRY_LIMIT)
}

fn is_residue(line: &Line) -> bool
    ensures { result ≡ spec.is_residue line.now }
{
    match line {
        Line::Point(entries) => !are_residues(entries.as_slice()),
        _ => false,
    }
}

fn is_position(number: u32) -> bool
    ensures { result ≡ spec.is_position number }
{
    1 <= number && number <= POSITIONS
}

fn are_sides(rows: u32, cols: u32) -> bool
    ensures { result ≡ spec.are_sides rows cols }
{
    u64::from(rows) * u64::from(cols) <= u64::from(POSITIONS)
}

fn are_positions(parts: &[(Name, u32)]) -> bool
    ensures { result ≡ list_all (λ part. spec.is_position part.1) parts.now }
{
    parts.iter().all(|(_, position)| is_position(*position))
}

fn is_range(first: u32, last: u32) -> bool
    ensures { result ≡ spec.is_range first last }
{
    is_position(first) && is_position(last) && first <= last
}

fn is_product(rows: u32, mid: u32, cols: u32) -> bool
    ensures { result ≡ spec.is_product rows mid cols }
{
    is_position(rows)
        && is_position(mid)
        && is_position(cols)
        && are_sides(rows, cols)
        && are_sides(rows, mid)
        && are_sides(mid, cols)
}

fn is_counted(number: u32, most: u32) -> bool
    ensures { result ≡ spec.is_counted number most }
{
    1 <= number && number <= most
}

fn are_unknowns(numbers: &[u32], unknowns: u32) -> bool
    ensures { result ≡ list_all (λ number. spec.is_counted number unknowns) numbers.now }
{
    numbers.iter().all(|number| is_counted(*number, unknowns))
}

fn is_want(unknowns: u32, want: &Want) -> bool
    ensures { result ≡ spec.is_want unknowns want.now }
{
    match want {
        Want::Every => true,
        Want::Numbers(numbers) => are_unknowns(numbers.as_slice(), unknowns),
    }
}

fn is_system(rows: u32, unknowns: u32, want: &Want) -> bool
    ensures { result ≡ spec.is_system rows unknowns want.now }
{
    is_counted(rows, EQUATIONS) && is_counted(unknowns, UNKNOWNS) && is_want(unknowns, want)
}

fn is_sparse(unknowns: u32, want: &Want) -> bool
    ensures { result ≡ spec.is_sparse unknowns want.now }
{
    is_counted(unknowns, SPARSE_UNKNOWNS) && is_want(unknowns, want)
}

fn is_expansion(expansion: Expansion) -> bool
    ensures { result ≡ spec.is_expansion expansion }
{
    -ORDERS <= expansion.lo
        && expansion.lo <= expansion.hi
        && expansion.hi <= ORDERS
        && expansion.num <= EXPANSION_DEGREE
        && expansion.den <= EXPANSION_DEGREE
}

fn is_in_range(statement: &Statement) -> bool
    ensures { result ≡ spec.is_in_range statement.now }
{
    match statement {
        Statement::Take { parts } => are_positions(parts.as_slice()),
        Statement::Slice {
            from: _,
            first,
            last,
        } => is_range(*first, *last),
        Statement::Matmul {
            left: _,
            right: _,
            rows,
            mid,
            cols,
        } => is_product(*rows, *mid, *cols),
        Statement::Dense {
            from: _,
            rows,
            unknowns,
            want,
        } => is_system(*rows, *unknowns, want),
        Statement::Sparse {
            from: _,
            unknowns,
            want,
        } => is_sparse(*unknowns, want),
        Statement::Laurent {
            graph: _,
            expansion,
            parts: _,
        } => is_expansion(*expansion),
        _ => true,
    }
}

/// Whether calls of graphs go at most 8 deep with this node.
fn is_shallow(reader: &Reader, statement: &Statement) -> bool
    requires { KeepsGood reader.now }
    ensures { (earlier : List LineOf) → IsRead earlier reader.now → result ≡ spec.is_shallow earlier statement.now }
{
    let depths = reader.depths.as_slice();
    depth_over(&reader.graph_names, reader.graphs.len(), depths, statement) <= DEPTH
}

fn is_short(name: &[u8]) -> bool
    ensures { result ≡ spec.is_short name.now }
{
    name.len() <= NAME_BYTES
}

fn are_short(names: &[Name]) -> bool
    ensures { result ≡ list_all spec.is_short names.now }
{
    names.iter().all(|name| is_short(name.bytes()))
}

fn are_columns(columns: &[u32], unknowns: u32) -> bool
    ensures { result ≡ spec.are_columns unknowns columns.now }
{
    columns.iter().all(|column| *column <= unknowns)
}

/// Whether there is room for more entries of a sparse node.
fn is_room(entries: usize, more: usize) -> bool
    ensures { result ≡ nat_le (entries + more) 65536 }
{
    more <= ENTRIES && entries <= ENTRIES - more
}

fn is_which(outputs: Which) -> bool
    ensures { result ≡ spec.is_which outputs }
{
    match outputs {
        Which::All => true,
        Which::Output(output) => is_position(output),
    }
}

fn is_low(degrees: &Degrees) -> bool
    ensures { result ≡ spec.is_low degrees.now }
{
    degrees.total <= TOTAL_DEGREE
}

fn are_numbers(outputs: Which, num: &Degrees, den: &Degrees) -> bool
    ensures { result ≡ spec.are_numbers outputs num.now den.now }
{
    is_which(outputs) && is_low(num) && is_low(den)
}

/// Whether numerator and denominator have few monomials together.
fn are_few(bounds: &Bounds, variables: u32) -> bool
    requires { variables ≤ 8 }
    ensures { result ≡ spec.has_few variables bounds.now }
{
    has_few(bounds, variables)
}

/// Whether attempts over the grid have few points.
fn is_small(grid: &Grid) -> bool
    requires { IsGrid grid.now }
    ensures { result ≡ spec.is_small grid.now }
{
    size(grid).is_some()
}

/// Whether the numbers of a `bounds` line, its monomials and the grid of the lines so far are in their ranges.
fn are_bounds(reader: &Reader, outputs: Which, num: &Degrees, den: &Degrees) -> bool
    requires read { KeepsGood reader.now }
    requires stands { is_ended reader.now.stood ≡ true }
    requires fresh { spec.is_given reader.now.asked.all reader.now.asked.special outputs ≡ false }
    ensures { (earlier : List LineOf) → IsRead earlier reader.now → result ≡ spec.are_bounds earlier outputs num.now den.now }
{
    if !are_numbers(outputs, num, den) {
        return false;
    }
    let variables = count(&reader.variables);
    let bounds = bounds_said(variables, num, den);
    if !are_few(&bounds, variables as u32) {
        return false;
    }
    let widest = widened(&reader.asked.widest, &bounds);
    let each = widest.each;
    is_small(&Grid {
        variables: variables as u32,
        total: widest.total,
        each,
    })
}

fn is_coeff(num: u128, den: u128) -> bool
    ensures { result ≡ spec.is_coeff num den }
{
    let Some(product) = num.checked_mul(den) else {
        return false;
    };
    1 <= num && 1 <= den && product <= COEFF_PRODUCT
}

fn is_limit(reader: &Reader, line: &Line) -> bool
    requires read { KeepsGood reader.now }
    requires stands { stands_behind reader.now.stood line.now ≡ true }
    requires fresh { (earlier : List LineOf) → IsRead earlier reader.now → spec.is_repeated earlier line.now ≡ false }
    ensures { (earlier : List LineOf) → IsRead earlier reader.now → result ≡ spec.is_limit earlier line.now }
{
    match line {
        Line::Graph(name) => !(is_short(name.bytes()) && reader.graph_names.len() < GRAPHS),
        Line::Input(names) => !(are_short(names.as_slice()) && names.len() <= VARIABLES),
        Line::Node(name, statement) => !(is_short(name.bytes())
            && reader.table.len() < NODES
            && is_in_range(statement)
            && is_shallow(reader, statement)),
        Line::Row(columns) => !(are_columns(columns.as_slice(), reader.unknowns)
            && is_room(reader.entries, columns.len())),
        Line::Point(_) => reader.asked.points.len() >= POINTS,
        Line::Bounds(outputs, num, den) => !are_bounds(reader, *outputs, num, den),
        Line::Coeff(num, den) => !is_coeff(*num, *den),
        Line::Flow(_) | Line::Output(_) => false,
    }
}

/// The first thing that is wrong with the line, its expressions apart, behind the lines that the reader keeps.
pub fn fault(reader: &Reader, line: &Line) -> Result<Option<FileKind>, AllocError>
    requires { KeepsGood reader.now }
    ensures { IfOk result (λ fault. (earlier : List LineOf) → IsRead earlier reader.now → fault ≡ spec.fault_after earlier line.now) }
{
    if is_syntax(reader, line) {
        return Ok(Some(FileKind::Syntax));
    }
    if is_version(line) {
        return Ok(Some(FileKind::Version));
    }
    let is_repeated = is_repeated(reader, line)?;
    if is_repeated {
        return Ok(Some(FileKind::Repeated));
    }
    if is_unknown_graph(reader, line) {
        return Ok(Some(FileKind::UnknownGraph));
    }
    if is_unknown_node(reader, line) {
        return Ok(Some(FileKind::UnknownNode));
    }
    if is_residue(line) {
        return Ok(Some(FileKind::Residue));
    }
    if is_limit(reader, line) {
        return Ok(Some(FileKind::Limit));
    }
    Ok(None)
}
