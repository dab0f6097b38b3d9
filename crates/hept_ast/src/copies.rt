//! Copies of names, constants, tags, types and clocks.
ghost use Rattle.std.specs.Prelude.{◌≡◌, IfOk};

use crate::name::{Memory, Name};
use crate::tree::{ClockPath, ClockStep, Const, Plain, Tag, Ty, TypeDec};
use sqlite_items::Items;
use std::alloc::{AllocError, Global};

impl From<AllocError> for Memory {
    fn from(_fault: AllocError) -> Memory {
        Memory
    }
}

pub fn copy_name(alloc: Global, name: &Name) -> Result<Name, Memory>
    ensures { IfOk result (λ n. n ≡ name.now) }
{
    Name::of(alloc, name.bytes())
}

pub fn copy_names(alloc: Global, from: &[Name]) -> Result<Items<Name>, Memory>
    ensures { IfOk result (λ r. r ≡ from.now) }
{
    let mut all: Items<Name> = Items::new(alloc);
    for x in from {
        let x = copy_name(alloc, x)?;
        all.push(x)?;
    }
    Ok(all)
}

pub fn copy_const(alloc: Global, value: &Const) -> Result<Const, Memory>
    ensures { IfOk result (λ v. v ≡ value.now) }
{
    match value {
        Const::Number(n) => Ok(Const::Number(*n)),
        Const::Truth(b) => Ok(Const::Truth(*b)),
        Const::Constructor(c) => Ok(Const::Constructor(copy_name(alloc, c)?)),
    }
}

pub fn copy_tag(alloc: Global, tag: &Tag) -> Result<Tag, Memory>
    ensures { IfOk result (λ t. t ≡ tag.now) }
{
    match tag {
        Tag::Truth(b) => Ok(Tag::Truth(*b)),
        Tag::Constructor(c) => Ok(Tag::Constructor(copy_name(alloc, c)?)),
    }
}

pub fn copy_plain(alloc: Global, plain: &Plain) -> Result<Plain, Memory>
    ensures { IfOk result (λ r. r ≡ plain.now) }
{
    match plain {
        Plain::Int => Ok(Plain::Int),
        Plain::Bool => Ok(Plain::Bool),
        Plain::Named(x) => Ok(Plain::Named(copy_name(alloc, x)?)),
    }
}

pub fn copy_type(alloc: Global, ty: &Ty) -> Result<Ty, Memory>
    ensures { IfOk result (λ r. r ≡ ty.now) }
{
    match ty {
        Ty::Plain(plain) => Ok(Ty::Plain(copy_plain(alloc, plain)?)),
        Ty::Future(plain) => Ok(Ty::Future(copy_plain(alloc, plain)?)),
    }
}

fn copy_declared(alloc: Global, dec: &TypeDec) -> Result<TypeDec, Memory>
    ensures { IfOk result (λ r. r ≡ dec.now) }
{
    let name = copy_name(alloc, &dec.name)?;
    let constructors = copy_names(alloc, dec.constructors.as_slice())?;
    Ok(TypeDec {
        place: dec.place,
        name,
        constructors,
    })
}

pub fn copy_types(alloc: Global, from: &[TypeDec]) -> Result<Items<TypeDec>, Memory>
    ensures { IfOk result (λ r. r ≡ from.now) }
{
    let mut all: Items<TypeDec> = Items::new(alloc);
    for x in from {
        let x = copy_declared(alloc, x)?;
        all.push(x)?;
    }
    Ok(all)
}

fn copy_step(alloc: Global, step: &ClockStep) -> Result<ClockStep, Memory>
    ensures { IfOk result (λ s. s ≡ step.now) }
{
    let tag = copy_tag(alloc, &step.tag)?;
    let name = copy_name(alloc, &step.name)?;
    Ok(ClockStep { tag, name })
}

pub fn copy_clock(alloc: Global, clock: &ClockPath) -> Result<ClockPath, Memory>
    ensures { IfOk result (λ c. c ≡ clock.now) }
{
    let mut steps = Items::new(alloc);
    for step in clock.steps.as_slice() {
        let step = copy_step(alloc, step)?;
        steps.push(step)?;
    }
    Ok(ClockPath { steps })
}
