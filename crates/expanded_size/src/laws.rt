ghost use Rattle.expanded_size.specs.Sizes.{EachHasSize, OneSize, SizesAgree};

/// A node has one expanded size at most, and each node of a program without faults of types has one.
/// It is that of the expanded text over which the stream meaning goes.
pub fn size_laws()
    ensures one { OneSize }
    ensures each { EachHasSize }
    ensures agree { SizesAgree }
{}
