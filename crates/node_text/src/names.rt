//! Names in lists.
ghost use Rattle.std.specs.Prelude.{◌≡◌, ◌++◌, ◌∷◌, [], OnOk, map};
ghost use Rattle.std.specs.List.{list_any};
ghost use Rattle.hept_ast.specs.Texts.{is_in, same};

use hept_ast::{Memory, Name};

pub fn is_same(x: &Name, y: &Name) -> bool
    ensures { result ≡ same x.now y.now }
{
    x.bytes() == y.bytes()
}

pub fn is_among(x: &Name, names: &[Name]) -> bool
    ensures { result ≡ is_in x.now names.now }
{
    names.iter().any(|y| is_same(x, y))
}

fn is_any(name: &Name, names: &[&Name]) -> bool
    ensures { result ≡ list_any (λ r. same name.now r.now) names.now }
{
    names.iter().any(|other| is_same(name, other))
}

pub fn is_listed(name: &Name, names: &[&Name]) -> bool
    ensures { result ≡ is_in name.now (map (λ r. r.now) names.now) }
{
    is_any(name, names)
}

pub fn push_name<'a>(names: &mut Vec<&'a Name>, name: &'a Name) -> Result<(), Memory>
    ensures { OnOk result (map (λ r. r.now) names.new.items ≡ map (λ r. r.now) names.old.items ++ name.now ∷ []) }
{
    match names.push(name) {
        Ok(()) => Ok(()),
        Err(_) => Err(Memory),
    }
}

pub fn push_names<'a>(names: &mut Vec<&'a Name>, more: &'a [Name]) -> Result<(), Memory>
    ensures { OnOk result (map (λ r. r.now) names.new.items ≡ map (λ r. r.now) names.old.items ++ more.now) }
{
    for name in more {
        push_name(names, name)?;
    }
    Ok(())
}

pub fn push_listed<'a>(names: &mut Vec<&'a Name>, more: &[&'a Name]) -> Result<(), Memory>
    ensures { OnOk result (map (λ r. r.now) names.new.items ≡ map (λ r. r.now) names.old.items ++ map (λ r. r.now) more.now) }
{
    for name in more {
        push_name(names, name)?;
    }
    Ok(())
}
