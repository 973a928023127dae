// Bytes of the array copied to other places of it, and places zeroed.
ghost use Rattle.std.specs.Prelude.{◌≡◌, ◌+◌, ◌≤◌, drop, replicate};
ghost use Rattle.std.proofs.Math.Seq.{paste};
ghost use Rattle.image.specs.Layout.{image_size};

use crate::layout::Image;

// n bytes copied; the places may overlap.
pub fn copied(m: &mut Image, from: usize, to: usize, n: usize)
    requires n_bound { from + n ≤ image_size }
    requires n_bound_2 { to + n ≤ image_size }
    ensures { m.new ≡ paste m.old to (drop from m.old) n }
{
    m.copy_within(from..from + n, to);
}

// n bytes set to 0; one place is the frequent case, for which `fill` makes no call.
pub fn zeroed(m: &mut Image, at: usize, n: usize)
    requires n_bound { at + n ≤ image_size }
    ensures { m.new ≡ paste m.old at (replicate n 0) n }
{
    m[at..at + n].fill(0);
}
