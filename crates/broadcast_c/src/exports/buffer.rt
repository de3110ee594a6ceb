//! Buffers of a caller.
ghost use Rattle.std.specs.Prelude.{◌≡◌};
ghost use Rattle.entries.specs.Overlaid.{overlaid};
ghost use Rattle.broadcast_c.specs.Calls.{IsFilled};

use crate::codes::{OK, SHORT};

/// Copies `from` to the front of `out`, as far as there is room, and sets `needed` to its length.
/// Returns `SHORT` if `out` is too short.
pub fn fill<T: Copy>(from: &[T], out: &mut [T], needed: &mut usize) -> u32
    ensures { IsFilled from.now out.old out.new needed.new result }
{
    *needed = from.len();
    let status = if from.len() <= out.len() { OK } else { SHORT };
    copy_front(from, out);
    status
}

/// Copies the elements to the front of `out`, as far as there is room.
pub fn copy_front<T: Copy>(from: &[T], out: &mut [T])
    ensures { out.new ≡ overlaid from.now out.old }
{
    if from.len() <= out.len() {
        out[..from.len()].copy_from_slice(from);
    } else {
        let places = out.len();
        out.copy_from_slice(&from[..places]);
    }
}
