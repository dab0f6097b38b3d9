//! Tags of branches.
ghost use Rattle.std.specs.Prelude.{◌≡◌};
ghost use Rattle.hept_ast.specs.Types.{same_tag};
ghost use Rattle.hept_ast.specs.declared.tree.Tag.TheVariants as tag_;

use crate::names::is_same;
use hept_ast::{Name, Tag};

/// Whether a tag is a truth value, and this one.
pub fn is_truth(tag: &Tag, value: bool) -> bool
    ensures { result ≡ same_tag (tag_.Truth value) tag.now }
{
    match tag {
        Tag::Truth(other) => *other == value,
        Tag::Constructor(_) => false,
    }
}

/// Whether a tag is a constructor of this name.
pub fn is_constructor(tag: &Tag, name: &Name) -> bool
    ensures { result ≡ same_tag (tag_.Constructor name.now) tag.now }
{
    match tag {
        Tag::Truth(_) => false,
        Tag::Constructor(other) => is_same(name, other),
    }
}

/// Whether two tags are one: the same truth value, or constructors of one name.
pub fn is_same_tag(tag: &Tag, other: &Tag) -> bool
    ensures { result ≡ same_tag tag.now other.now }
{
    match tag {
        Tag::Truth(value) => is_truth(other, *value),
        Tag::Constructor(name) => is_constructor(other, name),
    }
}
