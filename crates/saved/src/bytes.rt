// What the type of an image tells of its elements.
ghost use Rattle.std.specs.Prelude.{◌≡◌, length};
ghost use Rattle.rules.specs.Ranges.{Bytes};
ghost use Rattle.image.specs.Layout.{image_size};

// Each is below 256: a read brings it out, and the compiler drops the read.
pub fn known(m: &[u8])
    requires { length m.now ≡ image_size }
    ensures { (length m.now ≡ image_size) × Bytes m.now }
{
    let _first = m[0];
}
