//! Names that were met so far.
ghost use Rattle.std.specs.Prelude.{◌≡◌, ◌||◌, [], IfOk, OnOk, map, not};
ghost use Rattle.hept_ast.specs.Texts.{Name, is_in, same};

use hept_ast::{Memory, Name};
use indexmap::IndexSet;
use std::alloc::Global;

/// The bytes of the names, each once.
pub type NameSet<'a> = IndexSet<&'a [u8]>;

pub fn no_names<'a>(alloc: Global) -> NameSet<'a>
    ensures { map (λ r. r.now) result.keys ≡ [] }
{
    IndexSet::new(alloc)
}

/// Inserts a name, and says whether it is a new one.
pub fn insert_name<'a>(names: &mut NameSet<'a>, name: &'a Name) -> Result<bool, Memory>
    ensures added { IfOk result (λ new. new ≡ not (is_in name.now (map (λ r. r.now) names.old.keys))) }
    ensures names { OnOk result ((x : Name) → is_in x (map (λ r. r.now) names.new.keys) ≡ (is_in x (map (λ r. r.now) names.old.keys) || same x name.now)) }
{
    match names.insert(name.bytes()) {
        Ok(new) => Ok(new),
        Err(_) => Err(Memory),
    }
}

pub fn has_name(names: &NameSet<'_>, name: &Name) -> bool
    ensures { result ≡ is_in name.now (map (λ r. r.now) names.now.keys) }
{
    names.contains(name.bytes())
}

pub fn insert_names<'a>(names: &mut NameSet<'a>, more: &[&'a Name]) -> Result<(), Memory>
    ensures { OnOk result ((x : Name) → is_in x (map (λ r. r.now) names.new.keys) ≡ (is_in x (map (λ r. r.now) names.old.keys) || is_in x (map (λ r. r.now) more.now))) }
{
    for name in more {
        insert_name(names, name)?;
    }
    Ok(())
}
