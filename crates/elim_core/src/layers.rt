//! The layers in which slots are filled, and the slots without the later layers.

ghost use Rattle.std.specs.Prelude.{◌≡◌, ◌≢◌, ℕ, ◌<◌, length, slice_index};
ghost use Rattle.elim_core.specs.Layout.{IsCutBack};

/// Notes the layer for each slot that is empty.
pub fn mark_empty(ends: &[u64], layers: &mut [u64], layer: u64)
    requires room { length layers.old ≡ length ends.now }
    ensures room { length layers.new ≡ length layers.old }
    ensures empty { (k : ℕ) → k < length ends.now → slice_index ends.now k ≡ 0 → slice_index layers.new k ≡ layer }
    ensures used { (k : ℕ) → k < length ends.now → slice_index ends.now k ≢ 0 →
        slice_index layers.new k ≡ slice_index layers.old k }
{
    for (k, end) in ends.iter().enumerate() {
        if *end == 0 {
            layers[k] = layer;
        }
    }
}

/// Empties each slot that was filled in a later layer.
pub fn cut_back(ends: &mut [u64], layers: &[u64], layer: u64)
    requires room { length layers.now ≡ length ends.old }
    ensures { IsCutBack (length ends.old) ends.old layers.now layer ends.new }
{
    for (k, end) in ends.iter_mut().enumerate() {
        if layers[k] > layer {
            *end = 0;
        }
    }
}
