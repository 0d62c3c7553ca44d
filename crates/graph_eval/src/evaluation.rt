//! Evaluating a graph in one run of words: its inputs stand on top of a stack, and its output takes their place. A node that
//! calls an earlier graph has that graph evaluated above the lists so far.

ghost use Rattle.std.specs.Prelude.{◌≡◌, ◌≢◌, ℕ, ◌+◌, ◌*◌, ◌<◌, ◌≤◌, ◌++◌, [], ◌∷◌, All, List, None, Some, IfErr, IfSome, OnErr, OnOk, IsTrue, drop, length, map, slice_get, slice_index, slice_index_or, take};
ghost use Rattle.std.specs.Bool.{OnFalse, OnTrue};
ghost use Rattle.prime_field.specs.Modulus.{value_of};
ghost use Rattle.prime_field.specs.Residue.{IsPrime};
ghost use Rattle.basic_nodes.specs.Plain.{chained};
ghost use Rattle.graph_file.specs.Needed.{sources_of};
ghost use Rattle.graph_file.specs.Sound.{IsKind, called_graph};
ghost use Rattle.graph_file.specs.declared.graph.Graph.{Graph as GraphOf};
ghost use Rattle.graph_eval.specs.declared.learned.GraphLearned.{GraphLearned as LearnedOf};
ghost use Rattle.graph_eval.specs.Evaluated.{IsNeededAt};
ghost use Rattle.graph_eval.specs.Expanded.{IsWindow, orders_of};
ghost use Rattle.graph_eval.specs.GraphValue.{GraphValue, IsNotExpanded, IsStopped, NodeFails, SingularAt, meanings};
ghost use Rattle.graph_eval.specs.Learned.{AreGraphs, CallEarlier, FitsFirst, FitsNode, listed_length, sets_of, sizes_of};
ghost use Rattle.graph_eval.specs.Memos.{AreKept, FitFrames, FitsFrame};
ghost use Rattle.graph_eval.specs.Needs.{AreTables, node_extra, words_for};
ghost use Rattle.graph_eval.specs.Reading.{AreListed, HasLength, IsThere, placed, places_of};
ghost use Rattle.graph_eval.specs.Stacked.{AreCalled, HasCallRoom, IsAdded, IsCalled, IsExpandedCall, IsReady, IsReplaced};
ghost use Rattle.graph_eval.specs.Systems.{AreEnoughFor, words_of};

use crate::expansion::{Window, point_at, push_expansions, window_of};
use crate::learned::GraphLearned;
use crate::memos::{MemoFrame, recall, remember};
use crate::outcome::{Cause, Singular, cause_told};
use crate::plain::{push_chain, push_plain, run_of};
use graph_file::{Graph, Node, NodeKind, Source};
use prime_field::Modulus;
use sqlite_items::Items;
use word_region::Stack;

/// Whether a node of this kind calls an earlier graph.
pub(crate) fn calls(kind: &NodeKind) -> bool
    ensures yes { OnTrue result (called_graph kind.now ≢ None) }
    ensures no { OnFalse result (called_graph kind.now ≡ None) }
{
    match kind {
        NodeKind::Call { .. } | NodeKind::Memo { .. } => true,
        NodeKind::Map { .. } | NodeKind::Laurent { .. } => true,
        NodeKind::Eval { .. } | NodeKind::Take { .. } | NodeKind::Slice { .. } => false,
        NodeKind::Chain { .. } | NodeKind::Sum { .. } | NodeKind::Product { .. } => false,
        NodeKind::Matmul { .. } | NodeKind::Dense { .. } | NodeKind::Sparse { .. } => false,
    }
}

/// Counts one evaluation more of the graph with this number, where evaluations are counted.
fn count_one(counts: &mut [u64], number: usize) {
    if number < counts.len() {
        counts[number] = counts[number].saturating_add(1);
    }
}

/// The memo at this place of a graph, if it has one, with its place among the memos.
#[tactic(auto, using(crate::proofs::Places::read_at))]
fn memo_at(
    slots: &[Items<usize>],
    frames: &[MemoFrame],
    number: usize,
    place: usize,
    called: usize,
) -> Option<(usize, MemoFrame)>
    ensures there { IfSome result (λ found. slice_get frames.now found.0 ≡ Some found.1) }
    ensures called { IfSome result (λ found. found.1.graph ≡ called) }
{
    if number >= slots.len() {
        return None;
    }
    let slots = slots[number].as_slice();
    if place >= slots.len() {
        return None;
    }
    let slot = slots[place];
    if slot >= frames.len() {
        return None;
    }
    let frame = &frames[slot];
    if frame.graph != called {
        return None;
    }
    Some((slot, *frame))
}

/// Appends what an earlier graph gives on the lists that sources name, taken as one list.
///
/// # Errors
///
/// The first node of that graph that has no value. Then nothing is known of the words.
#[cycle(evaluation)]
pub(crate) fn write_call(
    m: Modulus,
    graphs: &[Graph],
    learned: &[GraphLearned],
    tables: &[Items<usize>],
    slots: &[Items<usize>],
    frames: &[MemoFrame],
    called: usize,
    parts: &[Source],
    places: &[usize],
    base: usize,
    moduli: &mut [Option<Modulus>],
    counts: &mut [u64],
    stack: &mut Stack,
    work: &mut [u64],
) -> Result<(), Singular>
    requires sound { AreGraphs graphs.now }
    requires earlier { CallEarlier graphs.now }
    requires fits { FitsFirst graphs.now learned.now (length learned.now) }
    requires tables { AreTables graphs.now learned.now tables.now }
    requires work { AreEnoughFor graphs.now (length work.old) }
    requires frames { FitFrames graphs.now learned.now frames.now }
    requires memos { AreKept graphs.now (sets_of learned.now) frames.now moduli.old stack.old.kept }
    requires called { called < length graphs.now }
    requires known { called < length learned.now }
    requires base { base ≤ length stack.old.words }
    requires there { All (IsThere (drop base stack.old.words) places.now) parts.now }
    requires inputs { (graph : GraphOf) → slice_get graphs.now called ≡ Some graph → length (chained (map (placed (drop base stack.old.words) places.now) parts.now)) ≡ length graph.inputs }
    requires room { length stack.old.words + words_for graphs.now learned.now called ≤ stack.old.size }
    requires residues { All (λ x. x < value_of m) (drop base stack.old.words) }
    ensures size { stack.new.size ≡ stack.old.size }
    ensures kept { length stack.new.kept ≡ length stack.old.kept }
    ensures memos { AreKept graphs.now (sets_of learned.now) frames.now moduli.new stack.new.kept }
    ensures ok { OnOk result (IsCalled (value_of m) graphs.now learned.now called (chained (map (placed (drop base stack.old.words) places.now) parts.now)) stack.old.words stack.new.words) }
    ensures err { IfErr result (λ singular. IsPrime (value_of m)
        → GraphValue (value_of m) graphs.now (sets_of learned.now) called (chained (map (placed (drop base stack.old.words) places.now) parts.now)) (SingularAt singular.node singular.cause)) }
{
    let top = stack.len();
    push_chain(parts, places, base, graphs[called].inputs.len(), stack);
    count_one(counts, called);
    evaluate(
        m, graphs, learned, tables, slots, frames, called, top, moduli, counts, stack, work,
    )
}

/// Appends what an earlier graph gives on each of the lists that sources name.
///
/// # Errors
///
/// The first node of that graph that has no value on the first list on which one has none. Then nothing is known of the words.
#[cycle(evaluation)]
pub(crate) fn write_map(
    m: Modulus,
    graphs: &[Graph],
    learned: &[GraphLearned],
    tables: &[Items<usize>],
    slots: &[Items<usize>],
    frames: &[MemoFrame],
    called: usize,
    parts: &[Source],
    places: &[usize],
    base: usize,
    moduli: &mut [Option<Modulus>],
    counts: &mut [u64],
    stack: &mut Stack,
    work: &mut [u64],
) -> Result<(), Singular>
    requires sound { AreGraphs graphs.now }
    requires earlier { CallEarlier graphs.now }
    requires fits { FitsFirst graphs.now learned.now (length learned.now) }
    requires tables { AreTables graphs.now learned.now tables.now }
    requires work { AreEnoughFor graphs.now (length work.old) }
    requires frames { FitFrames graphs.now learned.now frames.now }
    requires memos { AreKept graphs.now (sets_of learned.now) frames.now moduli.old stack.old.kept }
    requires called { called < length graphs.now }
    requires known { called < length learned.now }
    requires base { base ≤ length stack.old.words }
    requires there { All (IsThere (drop base stack.old.words) places.now) parts.now }
    requires inputs { (graph : GraphOf) → slice_get graphs.now called ≡ Some graph → All (HasLength (drop base stack.old.words) places.now (length graph.inputs)) parts.now }
    requires room { (entry : LearnedOf) → slice_get learned.now called ≡ Some entry → length stack.old.words + (length parts.now * entry.output + words_for graphs.now learned.now called) ≤ stack.old.size }
    requires residues { All (λ x. x < value_of m) (drop base stack.old.words) }
    ensures size { stack.new.size ≡ stack.old.size }
    ensures kept { length stack.new.kept ≡ length stack.old.kept }
    ensures memos { AreKept graphs.now (sets_of learned.now) frames.now moduli.new stack.new.kept }
    ensures ok { OnOk result (AreCalled (value_of m) graphs.now learned.now called (map (placed (drop base stack.old.words) places.now) parts.now) (length parts.now) stack.old.words stack.new.words) }
    ensures err { IfErr result (λ singular. IsPrime (value_of m)
        → IsStopped (GraphValue (value_of m) graphs.now (sets_of learned.now) called) (map (placed (drop base stack.old.words) places.now) parts.now) singular.cause) }
{
    for k in 0..parts.len() {
        let part = &parts[k..k + 1];
        match write_call(
            m, graphs, learned, tables, slots, frames, called, part, places, base, moduli, counts,
            stack, work,
        ) {
            Ok(()) => {}
            Err(singular) => return Err(singular),
        }
    }
    Ok(())
}

/// Appends what an earlier graph gives where its first variable stands at a point, and the others on the lists that sources
/// name, taken as one list.
///
/// # Errors
///
/// The first node of that graph that has no value. Then nothing is known of the words.
#[cycle(evaluation)]
pub(crate) fn write_at(
    m: Modulus,
    graphs: &[Graph],
    learned: &[GraphLearned],
    tables: &[Items<usize>],
    slots: &[Items<usize>],
    frames: &[MemoFrame],
    called: usize,
    point: u64,
    parts: &[Source],
    places: &[usize],
    base: usize,
    moduli: &mut [Option<Modulus>],
    counts: &mut [u64],
    stack: &mut Stack,
    work: &mut [u64],
) -> Result<(), Singular>
    requires sound { AreGraphs graphs.now }
    requires earlier { CallEarlier graphs.now }
    requires fits { FitsFirst graphs.now learned.now (length learned.now) }
    requires tables { AreTables graphs.now learned.now tables.now }
    requires work { AreEnoughFor graphs.now (length work.old) }
    requires frames { FitFrames graphs.now learned.now frames.now }
    requires memos { AreKept graphs.now (sets_of learned.now) frames.now moduli.old stack.old.kept }
    requires called { called < length graphs.now }
    requires known { called < length learned.now }
    requires point { point < value_of m }
    requires base { base ≤ length stack.old.words }
    requires there { All (IsThere (drop base stack.old.words) places.now) parts.now }
    requires inputs { (graph : GraphOf) → slice_get graphs.now called ≡ Some graph → length (chained (map (placed (drop base stack.old.words) places.now) parts.now)) + 1 ≡ length graph.inputs }
    requires room { length stack.old.words + words_for graphs.now learned.now called ≤ stack.old.size }
    requires residues { All (λ x. x < value_of m) (drop base stack.old.words) }
    ensures size { stack.new.size ≡ stack.old.size }
    ensures kept { length stack.new.kept ≡ length stack.old.kept }
    ensures memos { AreKept graphs.now (sets_of learned.now) frames.now moduli.new stack.new.kept }
    ensures ok { OnOk result (IsCalled (value_of m) graphs.now learned.now called (point ∷ chained (map (placed (drop base stack.old.words) places.now) parts.now)) stack.old.words stack.new.words) }
    ensures err { IfErr result (λ singular. IsPrime (value_of m)
        → GraphValue (value_of m) graphs.now (sets_of learned.now) called (point ∷ chained (map (placed (drop base stack.old.words) places.now) parts.now)) (SingularAt singular.node singular.cause)) }
{
    let top = stack.len();
    stack.push(&[point]);
    push_chain(parts, places, base, graphs[called].inputs.len() - 1, stack);
    count_one(counts, called);
    evaluate(
        m, graphs, learned, tables, slots, frames, called, top, moduli, counts, stack, work,
    )
}

/// Appends the coefficients of the expansions of an earlier graph's outputs in powers of its first variable, where the
/// others stand on the lists that sources name, taken as one list.
///
/// # Errors
///
/// The cause where the graph is singular at the first point at which it is, or else where the first output that has no
/// expansion has none. Then nothing is known of the words.
#[cycle(evaluation)]
pub(crate) fn write_expanded(
    m: Modulus,
    graphs: &[Graph],
    learned: &[GraphLearned],
    tables: &[Items<usize>],
    slots: &[Items<usize>],
    frames: &[MemoFrame],
    called: usize,
    window: Window,
    parts: &[Source],
    places: &[usize],
    base: usize,
    moduli: &mut [Option<Modulus>],
    counts: &mut [u64],
    stack: &mut Stack,
    work: &mut [u64],
) -> Result<(), Cause>
    requires sound { AreGraphs graphs.now }
    requires earlier { CallEarlier graphs.now }
    requires fits { FitsFirst graphs.now learned.now (length learned.now) }
    requires tables { AreTables graphs.now learned.now tables.now }
    requires work { AreEnoughFor graphs.now (length work.old) }
    requires frames { FitFrames graphs.now learned.now frames.now }
    requires memos { AreKept graphs.now (sets_of learned.now) frames.now moduli.old stack.old.kept }
    requires called { called < length graphs.now }
    requires known { called < length learned.now }
    requires window { IsWindow window }
    requires base { base ≤ length stack.old.words }
    requires there { All (IsThere (drop base stack.old.words) places.now) parts.now }
    requires inputs { (graph : GraphOf) → slice_get graphs.now called ≡ Some graph → length (chained (map (placed (drop base stack.old.words) places.now) parts.now)) + 1 ≡ length graph.inputs }
    requires room { (entry : LearnedOf) → slice_get learned.now called ≡ Some entry
        → length stack.old.words + entry.output * orders_of window + (words_for graphs.now learned.now called + (window.num + window.den + 3) * entry.output) ≤ stack.old.size }
    requires residues { All (λ x. x < value_of m) (drop base stack.old.words) }
    ensures size { stack.new.size ≡ stack.old.size }
    ensures kept { length stack.new.kept ≡ length stack.old.kept }
    ensures memos { AreKept graphs.now (sets_of learned.now) frames.now moduli.new stack.new.kept }
    ensures ok { OnOk result (IsExpandedCall (value_of m) graphs.now learned.now called window (chained (map (placed (drop base stack.old.words) places.now) parts.now)) stack.old.words stack.new.words) }
    ensures err { IfErr result (λ cause. IsPrime (value_of m)
        → IsNotExpanded (value_of m) window (GraphValue (value_of m) graphs.now (sets_of learned.now) called) (chained (map (placed (drop base stack.old.words) places.now) parts.now)) cause) }
{
    let top = stack.len();
    let points = window.points();
    for number in 0..points {
        match write_at(
            m,
            graphs,
            learned,
            tables,
            slots,
            frames,
            called,
            point_at(number),
            parts,
            places,
            base,
            moduli,
            counts,
            stack,
            work,
        ) {
            Ok(()) => {}
            Err(singular) => return Err(singular.cause),
        }
    }
    push_expansions(m, window, learned[called].output as usize, top, stack)
}

/// Appends what an earlier graph gives on the lists that sources name, taken as one list, as [`write_call`] does, but from
/// what a memo keeps where it was asked the same last. What the graph gives is kept, once it has a value.
///
/// # Errors
///
/// The first node of that graph that has no value. Then nothing is known of the words.
#[cycle(evaluation)]
fn write_memo(
    m: Modulus,
    graphs: &[Graph],
    learned: &[GraphLearned],
    tables: &[Items<usize>],
    slots: &[Items<usize>],
    frames: &[MemoFrame],
    slot: usize,
    frame: MemoFrame,
    parts: &[Source],
    places: &[usize],
    base: usize,
    moduli: &mut [Option<Modulus>],
    counts: &mut [u64],
    stack: &mut Stack,
    work: &mut [u64],
) -> Result<(), Singular>
    requires sound { AreGraphs graphs.now }
    requires earlier { CallEarlier graphs.now }
    requires fits { FitsFirst graphs.now learned.now (length learned.now) }
    requires tables { AreTables graphs.now learned.now tables.now }
    requires work { AreEnoughFor graphs.now (length work.old) }
    requires frames { FitFrames graphs.now learned.now frames.now }
    requires memos { AreKept graphs.now (sets_of learned.now) frames.now moduli.old stack.old.kept }
    requires frame { slice_get frames.now slot ≡ Some frame }
    requires memo { FitsFrame graphs.now learned.now frame }
    requires base { base ≤ length stack.old.words }
    requires there { All (IsThere (drop base stack.old.words) places.now) parts.now }
    requires inputs { length (chained (map (placed (drop base stack.old.words) places.now) parts.now)) ≡ frame.inputs }
    requires room { length stack.old.words + frame.outputs + words_for graphs.now learned.now frame.graph ≤ stack.old.size }
    requires residues { All (λ x. x < value_of m) (drop base stack.old.words) }
    ensures size { stack.new.size ≡ stack.old.size }
    ensures kept { length stack.new.kept ≡ length stack.old.kept }
    ensures memos { AreKept graphs.now (sets_of learned.now) frames.now moduli.new stack.new.kept }
    ensures ok { OnOk result (IsCalled (value_of m) graphs.now learned.now frame.graph (chained (map (placed (drop base stack.old.words) places.now) parts.now)) stack.old.words stack.new.words) }
    ensures err { IfErr result (λ singular. IsPrime (value_of m)
        → GraphValue (value_of m) graphs.now (sets_of learned.now) frame.graph (chained (map (placed (drop base stack.old.words) places.now) parts.now)) (SingularAt singular.node singular.cause)) }
{
    let top = stack.len();
    push_chain(parts, places, base, frame.inputs, stack);
    if recall(m, frame, moduli[slot], top, stack) {
        return Ok(());
    }
    count_one(counts, frame.graph);
    match evaluate(
        m,
        graphs,
        learned,
        tables,
        slots,
        frames,
        frame.graph,
        top,
        moduli,
        counts,
        stack,
        work,
    ) {
        Ok(()) => {}
        Err(singular) => return Err(singular),
    }
    push_chain(parts, places, base, frame.inputs, stack);
    remember(m, slot, frame, moduli, top, stack);
    Ok(())
}

/// Appends what an earlier graph gives on the lists that sources name, taken as one list, from the memo at this place of a
/// graph where it has one.
///
/// # Errors
///
/// The first node of the earlier graph that has no value. Then nothing is known of the words.
#[cycle(evaluation)]
fn write_again(
    m: Modulus,
    graphs: &[Graph],
    learned: &[GraphLearned],
    tables: &[Items<usize>],
    slots: &[Items<usize>],
    frames: &[MemoFrame],
    number: usize,
    place: usize,
    called: usize,
    parts: &[Source],
    places: &[usize],
    base: usize,
    moduli: &mut [Option<Modulus>],
    counts: &mut [u64],
    stack: &mut Stack,
    work: &mut [u64],
) -> Result<(), Singular>
    requires sound { AreGraphs graphs.now }
    requires earlier { CallEarlier graphs.now }
    requires fits { FitsFirst graphs.now learned.now (length learned.now) }
    requires tables { AreTables graphs.now learned.now tables.now }
    requires work { AreEnoughFor graphs.now (length work.old) }
    requires frames { FitFrames graphs.now learned.now frames.now }
    requires memos { AreKept graphs.now (sets_of learned.now) frames.now moduli.old stack.old.kept }
    requires called { called < length graphs.now }
    requires known { called < length learned.now }
    requires base { base ≤ length stack.old.words }
    requires there { All (IsThere (drop base stack.old.words) places.now) parts.now }
    requires inputs { (graph : GraphOf) → slice_get graphs.now called ≡ Some graph → length (chained (map (placed (drop base stack.old.words) places.now) parts.now)) ≡ length graph.inputs }
    requires room { (entry : LearnedOf) → slice_get learned.now called ≡ Some entry → length stack.old.words + entry.output + words_for graphs.now learned.now called ≤ stack.old.size }
    requires residues { All (λ x. x < value_of m) (drop base stack.old.words) }
    ensures size { stack.new.size ≡ stack.old.size }
    ensures kept { length stack.new.kept ≡ length stack.old.kept }
    ensures memos { AreKept graphs.now (sets_of learned.now) frames.now moduli.new stack.new.kept }
    ensures ok { OnOk result (IsCalled (value_of m) graphs.now learned.now called (chained (map (placed (drop base stack.old.words) places.now) parts.now)) stack.old.words stack.new.words) }
    ensures err { IfErr result (λ singular. IsPrime (value_of m)
        → GraphValue (value_of m) graphs.now (sets_of learned.now) called (chained (map (placed (drop base stack.old.words) places.now) parts.now)) (SingularAt singular.node singular.cause)) }
{
    match memo_at(slots, frames, number, place, called) {
        Some((slot, frame)) => {
            write_memo(
                m, graphs, learned, tables, slots, frames, slot, frame, parts, places, base,
                moduli, counts, stack, work,
            )
        }
        None => write_call(
            m, graphs, learned, tables, slots, frames, called, parts, places, base, moduli, counts,
            stack, work,
        ),
    }
}

/// Appends the list of a needed node of a graph that calls an earlier one. The lists that it names stand above the first
/// `base` words, and end at these places.
///
/// # Errors
///
/// The cause where the node has no value. Then nothing is known of the words.
#[cycle(evaluation)]
pub(crate) fn push_call(
    m: Modulus,
    graphs: &[Graph],
    learned: &[GraphLearned],
    tables: &[Items<usize>],
    slots: &[Items<usize>],
    frames: &[MemoFrame],
    number: usize,
    node: &Node,
    place: usize,
    places: &[usize],
    base: usize,
    moduli: &mut [Option<Modulus>],
    counts: &mut [u64],
    stack: &mut Stack,
    work: &mut [u64],
) -> Result<(), Cause>
    requires sound { AreGraphs graphs.now }
    requires earlier { CallEarlier graphs.now }
    requires fits { FitsFirst graphs.now learned.now (length learned.now) }
    requires tables { AreTables graphs.now learned.now tables.now }
    requires work { AreEnoughFor graphs.now (length work.old) }
    requires frames { FitFrames graphs.now learned.now frames.now }
    requires memos { AreKept graphs.now (sets_of learned.now) frames.now moduli.old stack.old.kept }
    requires there { number < length graphs.now }
    requires known { number ≤ length learned.now }
    requires kind { (variables : ℕ) × (number : ℕ) × IsKind variables number node.now.kind }
    requires needed { IsTrue node.now.needed }
    requires called { called_graph node.now.kind ≢ None }
    requires calls { (called : ℕ) → called_graph node.now.kind ≡ Some called → called < number }
    requires base { base ≤ length stack.old.words }
    requires lists { All (IsThere (drop base stack.old.words) places.now) (sources_of node.now.kind) }
    requires residues { All (λ x. x < value_of m) (drop base stack.old.words) }
    requires room { HasCallRoom graphs.now learned.now number (placed (drop base stack.old.words) places.now) node.now.kind (length stack.old.words) stack.old.size }
    ensures size { stack.new.size ≡ stack.old.size }
    ensures kept { length stack.new.kept ≡ length stack.old.kept }
    ensures memos { AreKept graphs.now (sets_of learned.now) frames.now moduli.new stack.new.kept }
    ensures ok { OnOk result ((set : List ℕ) (own : ℕ) → listed_length (sizes_of graphs.now (take number learned.now)) (placed (drop base stack.old.words) places.now) set node.now.kind ≡ Some own
        → IsAdded (value_of m) (meanings (value_of m) graphs.now (sets_of learned.now) number) set (placed (drop base stack.old.words) places.now) node.now own stack.old.words stack.new.words) }
    ensures err { IfErr result (λ cause. IsPrime (value_of m) → (set : List ℕ)
        → NodeFails (value_of m) (meanings (value_of m) graphs.now (sets_of learned.now) number) set (placed (drop base stack.old.words) places.now) node.now cause) }
{
    match &node.kind {
        NodeKind::Call { graph, parts } => cause_told(write_call(
            m,
            graphs,
            learned,
            tables,
            slots,
            frames,
            *graph as usize,
            parts.as_slice(),
            places,
            base,
            moduli,
            counts,
            stack,
            work,
        )),
        NodeKind::Memo { graph, parts } => cause_told(write_again(
            m,
            graphs,
            learned,
            tables,
            slots,
            frames,
            number,
            place,
            *graph as usize,
            parts.as_slice(),
            places,
            base,
            moduli,
            counts,
            stack,
            work,
        )),
        NodeKind::Map { graph, parts } => cause_told(write_map(
            m,
            graphs,
            learned,
            tables,
            slots,
            frames,
            *graph as usize,
            parts.as_slice(),
            places,
            base,
            moduli,
            counts,
            stack,
            work,
        )),
        NodeKind::Laurent {
            graph,
            lo,
            hi,
            num,
            den,
            parts,
        } => write_expanded(
            m,
            graphs,
            learned,
            tables,
            slots,
            frames,
            *graph as usize,
            window_of(*lo, *hi, *num, *den),
            parts.as_slice(),
            places,
            base,
            moduli,
            counts,
            stack,
            work,
        ),
        _ => unreachable!(),
    }
}

/// Appends the list of the node at this place of a graph, which is empty where the node isn't needed. The graph's inputs
/// and its lists so far stand on top of the first `base` words. An earlier graph is evaluated above them, and a system is
/// solved in `work`.
///
/// # Errors
///
/// The cause where the node is needed and has no value. Then nothing is known of the words.
#[cycle(evaluation)]
fn push_node(
    m: Modulus,
    graphs: &[Graph],
    learned: &[GraphLearned],
    tables: &[Items<usize>],
    slots: &[Items<usize>],
    frames: &[MemoFrame],
    number: usize,
    node: &Node,
    entry: &GraphLearned,
    places: &[usize],
    place: usize,
    base: usize,
    moduli: &mut [Option<Modulus>],
    counts: &mut [u64],
    stack: &mut Stack,
    work: &mut [u64],
) -> Result<(), Cause>
    requires sound { AreGraphs graphs.now }
    requires earlier { CallEarlier graphs.now }
    requires fits { FitsFirst graphs.now learned.now (length learned.now) }
    requires tables { AreTables graphs.now learned.now tables.now }
    requires work { AreEnoughFor graphs.now (length work.old) }
    requires frames { FitFrames graphs.now learned.now frames.now }
    requires memos { AreKept graphs.now (sets_of learned.now) frames.now moduli.old stack.old.kept }
    requires there { number < length graphs.now }
    requires known { number < length learned.now }
    requires calls { (called : ℕ) → called_graph node.now.kind ≡ Some called → called < number }
    requires node { FitsNode (sizes_of graphs.now (take number learned.now)) (slice_index places.now 0) entry.now place node.now }
    requires places { places.now ≡ places_of (slice_index places.now 0) entry.now.lengths }
    requires base { base ≤ length stack.old.words }
    requires listed { AreListed (slice_index places.now 0) (take place entry.now.lengths) (drop base stack.old.words) }
    requires enough { IsTrue node.now.needed → words_of node.now.kind ≤ length work.old }
    requires residues { All (λ x. x < value_of m) (drop base stack.old.words) }
    requires room { length stack.old.words + slice_index entry.now.lengths place + node_extra (words_for graphs.now learned.now) learned.now node.now ≤ stack.old.size }
    ensures size { stack.new.size ≡ stack.old.size }
    ensures kept { length stack.new.kept ≡ length stack.old.kept }
    ensures memos { AreKept graphs.now (sets_of learned.now) frames.now moduli.new stack.new.kept }
    ensures ok { OnOk result (IsAdded (value_of m) (meanings (value_of m) graphs.now (sets_of learned.now) number) (slice_index_or entry.now.sets place [])
        (placed (drop base stack.old.words) (take (place + 1) places.now)) node.now (slice_index entry.now.lengths place) stack.old.words stack.new.words) }
    ensures err { IfErr result (λ cause. IsPrime (value_of m) → NodeFails (value_of m) (meanings (value_of m) graphs.now (sets_of learned.now) number)
        (slice_index_or entry.now.sets place []) (placed (drop base stack.old.words) (take (place + 1) places.now)) node.now cause) }
    ensures needed { OnErr result (IsTrue node.now.needed) }
{
    if !node.needed {
        return Ok(());
    }
    if !calls(&node.kind) {
        return push_plain(m, node, entry, places, place, base, stack, work);
    }
    let _end = entry.lengths.len();
    let before = &places[..place + 1];
    push_call(
        m, graphs, learned, tables, slots, frames, number, node, place, before, base, moduli,
        counts, stack, work,
    )
}

/// Evaluates the graph with this number, whose inputs stand on top of the first `base` words: its output takes their place.
/// Systems are solved in `work`.
///
/// # Errors
///
/// The first node that has no value. Then nothing is known of the words.
#[cycle(evaluation)]
pub(crate) fn evaluate(
    m: Modulus,
    graphs: &[Graph],
    learned: &[GraphLearned],
    tables: &[Items<usize>],
    slots: &[Items<usize>],
    frames: &[MemoFrame],
    number: usize,
    base: usize,
    moduli: &mut [Option<Modulus>],
    counts: &mut [u64],
    stack: &mut Stack,
    work: &mut [u64],
) -> Result<(), Singular>
    requires sound { AreGraphs graphs.now }
    requires earlier { CallEarlier graphs.now }
    requires fits { FitsFirst graphs.now learned.now (length learned.now) }
    requires tables { AreTables graphs.now learned.now tables.now }
    requires work { AreEnoughFor graphs.now (length work.old) }
    requires frames { FitFrames graphs.now learned.now frames.now }
    requires memos { AreKept graphs.now (sets_of learned.now) frames.now moduli.old stack.old.kept }
    requires there { number < length graphs.now }
    requires known { number < length learned.now }
    requires ready { IsReady (value_of m) graphs.now learned.now number base stack.old }
    ensures size { stack.new.size ≡ stack.old.size }
    ensures kept { length stack.new.kept ≡ length stack.old.kept }
    ensures memos { AreKept graphs.now (sets_of learned.now) frames.now moduli.new stack.new.kept }
    ensures ok { OnOk result (IsReplaced (value_of m) graphs.now learned.now number base stack.old stack.new) }
    ensures needed { IfErr result (λ singular. IsNeededAt (slice_get graphs.now number) singular.node) }
    ensures err { IfErr result (λ singular. IsPrime (value_of m)
        → GraphValue (value_of m) graphs.now (sets_of learned.now) number (drop base stack.old.words) (SingularAt singular.node singular.cause)) }
{
    let graph = &graphs[number];
    let entry = &learned[number];
    let places = tables[number].as_slice();
    for (place, node) in graph.nodes.as_slice().iter().enumerate() {
        if let Err(cause) = push_node(
            m, graphs, learned, tables, slots, frames, number, node, entry, places, place, base,
            moduli, counts, stack, work,
        ) {
            return Err(Singular {
                node: place as u32,
                cause,
            });
        }
    }
    let (start, stop) = run_of(places, graph.output);
    let _top = stack.len();
    stack.collapse(base, base + start, base + stop);
    Ok(())
}
