//! The patterns that a line may fit, each by the words behind its first one.
ghost use Rattle.std.specs.Prelude.{◌≡◌, ◌+◌, ◌≤◌, ◌==◌, length, drop, map, IfOk, IfSome, option_map};
ghost use Rattle.std.specs.List.{list_all, slice_split};
ghost use Rattle.ratfun_text.specs.Bytes as spec_bytes;
ghost use Rattle.graph_file.specs.Formed.{IsFormed};
ghost use Rattle.graph_file.specs.Line as spec;

use crate::line::{Degrees, Expansion, Line, Statement, Want, Which};
use crate::lines::{after_words, cut, is_plain, words};
use crate::numbers::{are_ascending, entries, entry, order, size, sizes, wide};
use ratfun_text::Name;
use ratfun_text::bytes::is_name;
use sqlite_items::Items;
use std::alloc::{AllocError, Global};

fn are_names(words: &[&[u8]]) -> bool
    ensures { result ≡ list_all spec_bytes.is_name (map (λ word. word.now) words.now) }
{
    words.iter().all(|word| is_name(word))
}

fn copies(alloc: Global, words: &[&[u8]]) -> Result<Items<Name>, AllocError>
    ensures { IfOk result (λ copies. copies ≡ map (λ word. word.now) words.now) }
{
    let mut copies = Items::new(alloc);
    for word in words {
        copies.push(Name::of(alloc, word)?)?;
    }
    Ok(copies)
}

fn flow_line(words: &[&[u8]]) -> Option<Line>
    ensures { result ≡ spec.flow_line (map (λ word. word.now) words.now) }
{
    let [version] = words else {
        return None;
    };
    let version = entry(version)?;
    Some(Line::Flow(version))
}

fn graph_line(alloc: Global, words: &[&[u8]]) -> Result<Option<Line>, AllocError>
    ensures { IfOk result (λ line. line ≡ spec.graph_line (map (λ word. word.now) words.now)) }
{
    let [name] = words else {
        return Ok(None);
    };
    if !is_name(name) {
        return Ok(None);
    }
    let name = Name::of(alloc, name)?;
    Ok(Some(Line::Graph(name)))
}

fn input_line(alloc: Global, words: &[&[u8]]) -> Result<Option<Line>, AllocError>
    ensures { IfOk result (λ line. line ≡ spec.input_line (map (λ word. word.now) words.now)) }
{
    let [_, ..] = words else {
        return Ok(None);
    };
    if !are_names(words) {
        return Ok(None);
    }
    let names = copies(alloc, words)?;
    Ok(Some(Line::Input(names)))
}

fn output_line(alloc: Global, words: &[&[u8]]) -> Result<Option<Line>, AllocError>
    ensures { IfOk result (λ line. line ≡ spec.output_line (map (λ word. word.now) words.now)) }
{
    let [list] = words else {
        return Ok(None);
    };
    let list = Name::of(alloc, list)?;
    Ok(Some(Line::Output(list)))
}

fn point_line(alloc: Global, words: &[&[u8]]) -> Result<Option<Line>, AllocError>
    ensures { IfOk result (λ line. line ≡ spec.point_line (map (λ word. word.now) words.now)) }
{
    let [_, ..] = words else {
        return Ok(None);
    };
    let Some(entries) = entries(alloc, words)? else {
        return Ok(None);
    };
    Ok(Some(Line::Point(entries)))
}

fn row_line(alloc: Global, words: &[&[u8]]) -> Result<Option<Line>, AllocError>
    ensures { IfOk result (λ line. line ≡ spec.row_line (map (λ word. word.now) words.now)) }
{
    let [_, ..] = words else {
        return Ok(None);
    };
    if !are_ascending(words) {
        return Ok(None);
    }
    let Some(columns) = sizes(alloc, words)? else {
        return Ok(None);
    };
    Ok(Some(Line::Row(columns)))
}

/// A total degree, and then degrees in single variables.
fn degrees(alloc: Global, words: &[&[u8]]) -> Result<Option<Degrees>, AllocError>
    ensures { IfOk result (λ degrees. degrees ≡ spec.degrees_of (map (λ word. word.now) words.now)) }
{
    let [total, each @ ..] = words else {
        return Ok(None);
    };
    let Some(total) = size(total) else {
        return Ok(None);
    };
    let Some(each) = sizes(alloc, each)? else {
        return Ok(None);
    };
    Ok(Some(Degrees { total, each }))
}

fn which(word: &[u8]) -> Option<Which>
    ensures { result ≡ spec.which_of word.now }
{
    if word == b"all".as_slice() {
        return Some(Which::All);
    }
    let output = size(word)?;
    Some(Which::Output(output))
}

/// Where the word `den` stands first; behind the last word where there is none.
fn den_place(words: &[&[u8]]) -> usize
    ensures within { result ≤ length words.now }
    ensures value { result ≡ spec.den_place (map (λ word. word.now) words.now) }
{
    words
        .iter()
        .position(|word| *word == b"den".as_slice())
        .unwrap_or(words.len())
}

/// The words behind the first one; none where there is none.
fn behind_first<'a>(words: &'a [&'a [u8]]) -> &'a [&'a [u8]]
    ensures { map (λ word. word.now) result.now ≡ drop 1 (map (λ word. word.now) words.now) }
{
    match words {
        [] => words,
        [_, later @ ..] => later,
    }
}

/// The degrees of a numerator, and behind the word `den` those of a denominator.
fn both_degrees(alloc: Global, words: &[&[u8]]) -> Result<Option<(Degrees, Degrees)>, AllocError>
    ensures { IfOk result (λ degrees. degrees ≡ spec.both_degrees (map (λ word. word.now) words.now)) }
{
    let (num, rest) = words.split_at(den_place(words));
    let Some(num) = degrees(alloc, num)? else {
        return Ok(None);
    };
    let Some(den) = degrees(alloc, behind_first(rest))? else {
        return Ok(None);
    };
    Ok(Some((num, den)))
}

fn bounds_line(alloc: Global, words: &[&[u8]]) -> Result<Option<Line>, AllocError>
    ensures { IfOk result (λ line. line ≡ spec.bounds_line (map (λ word. word.now) words.now)) }
{
    let [outputs, first, later @ ..] = words else {
        return Ok(None);
    };
    if *first != b"num".as_slice() {
        return Ok(None);
    }
    let Some(outputs) = which(outputs) else {
        return Ok(None);
    };
    let Some((num, den)) = both_degrees(alloc, later)? else {
        return Ok(None);
    };
    Ok(Some(Line::Bounds(outputs, num, den)))
}

fn coeff_line(words: &[&[u8]]) -> Option<Line>
    ensures { result ≡ spec.coeff_line (map (λ word. word.now) words.now) }
{
    let [num, den] = words else {
        return None;
    };
    let num = wide(num)?;
    let den = wide(den)?;
    Some(Line::Coeff(num, den))
}

/// The pieces of the text between semicolons.
fn texts(alloc: Global, text: &[u8]) -> Result<Items<Name>, AllocError>
    ensures { IfOk result (λ texts. texts ≡ slice_split (λ byte. byte == 59) text.now) }
{
    let mut texts = Items::new(alloc);
    let mut rest = Some(text);
    while let Some(later) = rest {
        let (piece, behind) = cut(later, b';');
        texts.push(Name::of(alloc, piece)?)?;
        rest = behind;
    }
    Ok(texts)
}

fn eval_node(alloc: Global, line: &[u8], words: &[&[u8]]) -> Result<Option<Statement>, AllocError>
    ensures { IfOk result (λ node. node ≡ spec.eval_node line.now (map (λ word. word.now) words.now)) }
{
    let [from, equals, ..] = words else {
        return Ok(None);
    };
    if *equals != b"=".as_slice() {
        return Ok(None);
    }
    let from = Name::of(alloc, from)?;
    let texts = texts(alloc, after_words(line, 5))?;
    Ok(Some(Statement::Eval { from, texts }))
}

/// The lists and positions that the words write.
fn parts(alloc: Global, words: &[&[u8]]) -> Result<Option<Items<(Name, u32)>>, AllocError>
    ensures { IfOk result (λ parts. parts ≡ spec.parts_of (map (λ word. word.now) words.now)) }
{
    let mut parts = Items::new(alloc);
    let mut rest = words;
    while let [list, position, later @ ..] = rest {
        let Some(position) = size(position) else {
            return Ok(None);
        };
        let list = Name::of(alloc, list)?;
        parts.push((list, position))?;
        rest = later;
    }
    if !rest.is_empty() {
        return Ok(None);
    }
    Ok(Some(parts))
}

fn take_node(alloc: Global, words: &[&[u8]]) -> Result<Option<Statement>, AllocError>
    ensures { IfOk result (λ node. node ≡ spec.take_node (map (λ word. word.now) words.now)) }
{
    let [_, ..] = words else {
        return Ok(None);
    };
    let Some(parts) = parts(alloc, words)? else {
        return Ok(None);
    };
    Ok(Some(Statement::Take { parts }))
}

fn slice_node(alloc: Global, words: &[&[u8]]) -> Result<Option<Statement>, AllocError>
    ensures { IfOk result (λ node. node ≡ spec.slice_node (map (λ word. word.now) words.now)) }
{
    let [from, first, last] = words else {
        return Ok(None);
    };
    let Some(first) = size(first) else {
        return Ok(None);
    };
    let Some(last) = size(last) else {
        return Ok(None);
    };
    let from = Name::of(alloc, from)?;
    Ok(Some(Statement::Slice { from, first, last }))
}

fn chain_node(alloc: Global, words: &[&[u8]]) -> Result<Option<Statement>, AllocError>
    ensures { IfOk result (λ node. node ≡ spec.chain_node (map (λ word. word.now) words.now)) }
{
    let [_, ..] = words else {
        return Ok(None);
    };
    let parts = copies(alloc, words)?;
    Ok(Some(Statement::Chain { parts }))
}

fn sum_node(alloc: Global, words: &[&[u8]]) -> Result<Option<Statement>, AllocError>
    ensures { IfOk result (λ node. node ≡ spec.sum_node (map (λ word. word.now) words.now)) }
{
    let [_, ..] = words else {
        return Ok(None);
    };
    let parts = copies(alloc, words)?;
    Ok(Some(Statement::Sum { parts }))
}

fn product_node(alloc: Global, words: &[&[u8]]) -> Result<Option<Statement>, AllocError>
    ensures { IfOk result (λ node. node ≡ spec.product_node (map (λ word. word.now) words.now)) }
{
    let [_, ..] = words else {
        return Ok(None);
    };
    let parts = copies(alloc, words)?;
    Ok(Some(Statement::Product { parts }))
}

fn sides(words: &[&[u8]]) -> Option<(u32, u32, u32)>
    ensures { result ≡ spec.sides_of (map (λ word. word.now) words.now) }
{
    let [rows, mid, cols] = words else {
        return None;
    };
    let rows = size(rows)?;
    let mid = size(mid)?;
    let cols = size(cols)?;
    Some((rows, mid, cols))
}

fn matmul_node(alloc: Global, words: &[&[u8]]) -> Result<Option<Statement>, AllocError>
    ensures { IfOk result (λ node. node ≡ spec.matmul_node (map (λ word. word.now) words.now)) }
{
    let [left, right, numbers @ ..] = words else {
        return Ok(None);
    };
    let Some((rows, mid, cols)) = sides(numbers) else {
        return Ok(None);
    };
    let left = Name::of(alloc, left)?;
    let right = Name::of(alloc, right)?;
    Ok(Some(Statement::Matmul {
        left,
        right,
        rows,
        mid,
        cols,
    }))
}

fn numbers_wanted(alloc: Global, words: &[&[u8]]) -> Result<Option<Want>, AllocError>
    ensures { IfOk result (λ want. want ≡ spec.numbers_wanted (map (λ word. word.now) words.now)) }
{
    let [_, ..] = words else {
        return Ok(None);
    };
    let Some(numbers) = sizes(alloc, words)? else {
        return Ok(None);
    };
    Ok(Some(Want::Numbers(numbers)))
}

/// The unknowns that are wanted, by the words behind a system's size.
fn want_of(alloc: Global, words: &[&[u8]]) -> Result<Option<Want>, AllocError>
    ensures { IfOk result (λ want. want ≡ spec.want_of (map (λ word. word.now) words.now)) }
{
    let [first, later @ ..] = words else {
        return Ok(Some(Want::Every));
    };
    if *first == b"want".as_slice() {
        return numbers_wanted(alloc, later);
    }
    Ok(None)
}

fn dense_node(alloc: Global, words: &[&[u8]]) -> Result<Option<Statement>, AllocError>
    ensures { IfOk result (λ node. node ≡ spec.dense_node (map (λ word. word.now) words.now)) }
{
    let [from, rows, unknowns, later @ ..] = words else {
        return Ok(None);
    };
    let Some(rows) = size(rows) else {
        return Ok(None);
    };
    let Some(unknowns) = size(unknowns) else {
        return Ok(None);
    };
    let Some(want) = want_of(alloc, later)? else {
        return Ok(None);
    };
    let from = Name::of(alloc, from)?;
    Ok(Some(Statement::Dense {
        from,
        rows,
        unknowns,
        want,
    }))
}

fn sparse_node(alloc: Global, words: &[&[u8]]) -> Result<Option<Statement>, AllocError>
    ensures { IfOk result (λ node. node ≡ spec.sparse_node (map (λ word. word.now) words.now)) }
{
    let [from, unknowns, later @ ..] = words else {
        return Ok(None);
    };
    let Some(unknowns) = size(unknowns) else {
        return Ok(None);
    };
    let Some(want) = want_of(alloc, later)? else {
        return Ok(None);
    };
    let from = Name::of(alloc, from)?;
    Ok(Some(Statement::Sparse {
        from,
        unknowns,
        want,
    }))
}

fn call_node(alloc: Global, words: &[&[u8]]) -> Result<Option<Statement>, AllocError>
    ensures { IfOk result (λ node. node ≡ spec.call_node (map (λ word. word.now) words.now)) }
{
    let [graph, lists @ ..] = words else {
        return Ok(None);
    };
    let [_, ..] = lists else {
        return Ok(None);
    };
    let graph = Name::of(alloc, graph)?;
    let parts = copies(alloc, lists)?;
    Ok(Some(Statement::Call { graph, parts }))
}

fn memo_node(alloc: Global, words: &[&[u8]]) -> Result<Option<Statement>, AllocError>
    ensures { IfOk result (λ node. node ≡ spec.memo_node (map (λ word. word.now) words.now)) }
{
    let [graph, lists @ ..] = words else {
        return Ok(None);
    };
    let [_, ..] = lists else {
        return Ok(None);
    };
    let graph = Name::of(alloc, graph)?;
    let parts = copies(alloc, lists)?;
    Ok(Some(Statement::Memo { graph, parts }))
}

fn map_node(alloc: Global, words: &[&[u8]]) -> Result<Option<Statement>, AllocError>
    ensures { IfOk result (λ node. node ≡ spec.map_node (map (λ word. word.now) words.now)) }
{
    let [graph, lists @ ..] = words else {
        return Ok(None);
    };
    let [_, ..] = lists else {
        return Ok(None);
    };
    let graph = Name::of(alloc, graph)?;
    let parts = copies(alloc, lists)?;
    Ok(Some(Statement::Map { graph, parts }))
}

/// The numbers of an expansion, each from its word.
fn expansion(lo: &[u8], hi: &[u8], num: &[u8], den: &[u8]) -> Option<Expansion>
    ensures { result ≡ spec.expansion_from (spec.order_of lo.now) (spec.order_of hi.now) (spec.size_of num.now) (spec.size_of den.now) }
{
    let lo = order(lo)?;
    let hi = order(hi)?;
    let num = size(num)?;
    let den = size(den)?;
    Some(Expansion { lo, hi, num, den })
}

fn laurent_node(alloc: Global, words: &[&[u8]]) -> Result<Option<Statement>, AllocError>
    ensures { IfOk result (λ node. node ≡ spec.laurent_node (map (λ word. word.now) words.now)) }
{
    let [graph, lo, hi, num, den, lists @ ..] = words else {
        return Ok(None);
    };
    let Some(expansion) = expansion(lo, hi, num, den) else {
        return Ok(None);
    };
    let graph = Name::of(alloc, graph)?;
    let parts = copies(alloc, lists)?;
    Ok(Some(Statement::Laurent {
        graph,
        expansion,
        parts,
    }))
}

fn statement_of(
    alloc: Global,
    line: &[u8],
    kind: &[u8],
    words: &[&[u8]],
) -> Result<Option<Statement>, AllocError>
    ensures { IfOk result (λ node. node ≡ spec.statement_of line.now kind.now (map (λ word. word.now) words.now)) }
{
    if kind == b"eval".as_slice() {
        return eval_node(alloc, line, words);
    }
    if kind == b"take".as_slice() {
        return take_node(alloc, words);
    }
    if kind == b"slice".as_slice() {
        return slice_node(alloc, words);
    }
    if kind == b"chain".as_slice() {
        return chain_node(alloc, words);
    }
    if kind == b"sum".as_slice() {
        return sum_node(alloc, words);
    }
    if kind == b"product".as_slice() {
        return product_node(alloc, words);
    }
    if kind == b"matmul".as_slice() {
        return matmul_node(alloc, words);
    }
    if kind == b"dense".as_slice() {
        return dense_node(alloc, words);
    }
    if kind == b"sparse".as_slice() {
        return sparse_node(alloc, words);
    }
    if kind == b"call".as_slice() {
        return call_node(alloc, words);
    }
    if kind == b"memo".as_slice() {
        return memo_node(alloc, words);
    }
    if kind == b"map".as_slice() {
        return map_node(alloc, words);
    }
    if kind == b"laurent".as_slice() {
        return laurent_node(alloc, words);
    }
    Ok(None)
}

fn node_line(alloc: Global, line: &[u8], words: &[&[u8]]) -> Result<Option<Line>, AllocError>
    ensures { IfOk result (λ said. said ≡ spec.node_line line.now (map (λ word. word.now) words.now)) }
{
    let [name, kind, arguments @ ..] = words else {
        return Ok(None);
    };
    if !is_name(name) {
        return Ok(None);
    }
    let Some(statement) = statement_of(alloc, line, kind, arguments)? else {
        return Ok(None);
    };
    let name = Name::of(alloc, name)?;
    Ok(Some(Line::Node(name, statement)))
}

fn line_of_words(alloc: Global, line: &[u8], words: &[&[u8]]) -> Result<Option<Line>, AllocError>
    ensures { IfOk result (λ said. said ≡ spec.line_of_words line.now (map (λ word. word.now) words.now)) }
{
    let [first, later @ ..] = words else {
        return Ok(None);
    };
    if *first == b"flow".as_slice() {
        return Ok(flow_line(later));
    }
    if *first == b"graph".as_slice() {
        return graph_line(alloc, later);
    }
    if *first == b"input".as_slice() {
        return input_line(alloc, later);
    }
    if *first == b"node".as_slice() {
        return node_line(alloc, line, later);
    }
    if *first == b"row".as_slice() {
        return row_line(alloc, later);
    }
    if *first == b"output".as_slice() {
        return output_line(alloc, later);
    }
    if *first == b"point".as_slice() {
        return point_line(alloc, later);
    }
    if *first == b"bounds".as_slice() {
        return bounds_line(alloc, later);
    }
    if *first == b"coeff".as_slice() {
        return Ok(coeff_line(later));
    }
    Ok(None)
}

fn said_by(alloc: Global, line: &[u8]) -> Result<Option<Line>, AllocError>
    ensures { IfOk result (λ said. said ≡ spec.line_of line.now) }
{
    if !is_plain(line) {
        return Ok(None);
    }
    let words = words(alloc, line)?;
    line_of_words(alloc, line, words.as_slice())
}

/// What the line says, if its bytes are allowed and it fits a pattern.
pub fn line_of(alloc: Global, line: &[u8]) -> Result<Option<Line>, AllocError>
    ensures said { IfOk result (λ said. said ≡ spec.line_of line.now) }
    ensures formed { IfOk result (λ said. IfSome said (IsFormed (length line.now + 1))) }
{
    let said = said_by(alloc, line)?;
    Ok(said)
}
