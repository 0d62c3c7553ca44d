//! What memos keep from one point to the next.

ghost use Rattle.std.specs.Prelude.{◌≡◌, ◌+◌, ◌<◌, ◌≤◌, ◌++◌, Some, drop, false, length, set, slice_range, take, true};
ghost use Rattle.word_region.specs.Words.{written_at};
ghost use Rattle.graph_eval.specs.Memos.{frame_end, kept_input, kept_output};

use prime_field::Modulus;
use word_region::Stack;

/// Where a memo keeps the inputs of a graph, and behind them its output there.
#[derive(Clone, Copy, Debug)]
pub(crate) struct MemoFrame {
    /// The number of the graph.
    pub(crate) graph: usize,
    /// The place of its first input among the kept words.
    pub(crate) at: usize,
    /// The number of its inputs.
    pub(crate) inputs: usize,
    /// The number of entries of its output.
    pub(crate) outputs: usize,
}

/// Puts the output that a memo keeps in place of the inputs that stand on top of the first `base` words, where these are the
/// inputs that it keeps, and it keeps them by this modulus. Answers whether they are.
pub(crate) fn recall(
    m: Modulus,
    frame: MemoFrame,
    asked: Option<Modulus>,
    base: usize,
    stack: &mut Stack,
) -> bool
    requires inputs { length stack.old.words ≡ base + frame.inputs }
    requires there { frame_end frame ≤ length stack.old.kept }
    requires room { base + frame.outputs ≤ stack.old.size }
    ensures size { stack.new.size ≡ stack.old.size }
    ensures kept { stack.new.kept ≡ stack.old.kept }
    ensures by { result ≡ true → asked ≡ Some m }
    ensures same { result ≡ true → kept_input stack.old.kept frame ≡ drop base stack.old.words }
    ensures hit { result ≡ true → stack.new.words ≡ take base stack.old.words ++ kept_output stack.old.kept frame }
    ensures miss { result ≡ false → stack.new.words ≡ stack.old.words }
{
    if asked != Some(m) {
        return false;
    }
    let kept = stack.kept();
    let output = frame.at + frame.inputs;
    if kept[frame.at..output] != stack.words()[base..] {
        return false;
    }
    stack.cut(base);
    stack.recall(output, output + frame.outputs);
    true
}

/// Keeps what a graph gave: its output stands on top of the first `base` words, and behind it its inputs, which are given back.
pub(crate) fn remember(
    m: Modulus,
    slot: usize,
    frame: MemoFrame,
    moduli: &mut [Option<Modulus>],
    base: usize,
    stack: &mut Stack,
)
    requires slot { slot < length moduli.old }
    requires words { length stack.old.words ≡ base + frame.outputs + frame.inputs }
    requires there { frame_end frame ≤ length stack.old.kept }
    ensures size { stack.new.size ≡ stack.old.size }
    ensures words { stack.new.words ≡ take (base + frame.outputs) stack.old.words }
    ensures moduli { moduli.new ≡ set moduli.old slot (Some m) }
    ensures kept { stack.new.kept ≡ written_at (frame.at + frame.inputs) (slice_range stack.old.words base (base + frame.outputs)) (written_at frame.at (drop (base + frame.outputs) stack.old.words) stack.old.kept) }
{
    let end = stack.len();
    let output = end - frame.inputs;
    let _kept = stack.kept().len();
    stack.store(output, end, frame.at);
    stack.store(base, output, frame.at + frame.inputs);
    stack.cut(output);
    moduli[slot] = Some(m);
}
