ghost use Rattle.std.specs.Prelude.{◌≡◌, true, All, IfOk};
ghost use Rattle.std.specs.List.{list_all};
ghost use Rattle.hept_ast.specs.Types.{constructors_of};
ghost use Rattle.step_objects.specs.Shapes.{HasFewConstructors, IsCountable, is_declared_plain, values_of, values_of_plain, shape_of};

use hept_ast::{Decl, Memory, Name, Plain, Program, Ty, TypeDec};
use sqlite_items::Items;
use std::alloc::Global;
use std::marker::Model;

/// The values of a plain type.
#[derive(Drop)]
pub enum Values {
    /// The 32-bit numbers, as the bits of their two's complement.
    Numbers,
    /// 0 is false and 1 is true.
    Truths,
    /// The constructors of a declared type, each as its position among these names.
    Constructors(Items<Name>),
}

/// Which values stand in a row, one type for each cell.
#[derive(Drop)]
pub struct Shape {
    cells: Items<Values>,
}

impl Model for Shape {
    ghost use Rattle.std.specs.Prelude.{All, List};
    ghost use Rattle.step_objects.specs.Shapes.{IsCountable};
    ghost use Rattle.step_objects.specs.declared.shape.Values.{Values};

    ghost Value = { List Values };

    ghost view = { λ s. s.cells };

    ghost invariant = { λ s. All IsCountable s.cells };
}

impl Shape {
    /// The shape of a row with a cell for each declaration. A constructor is given as its position in
    /// the first type of that name.
    pub fn of(alloc: Global, program: &Program, declared: &[Decl]) -> Result<Shape, Memory>
        requires plain { list_all (is_declared_plain program.now.types) declared.now ≡ true }
        requires few { All HasFewConstructors program.now.types }
        ensures { IfOk result (λ shape. shape ≡ shape_of program.now.types declared.now) }
    {
        let mut cells = Items::new(alloc);
        for decl in declared {
            cells.push(values_of(alloc, program.types.as_slice(), &decl.ty)?)?;
        }
        Ok(Shape { cells })
    }

    pub fn cells(&self) -> &[Values]
        ensures cells { result.now ≡ self.now }
        ensures countable { All IsCountable result.now }
    {
        self.cells.as_slice()
    }
}

/// The values of a type, or of what a future is of.
fn values_of(alloc: Global, types: &[TypeDec], ty: &Ty) -> Result<Values, Memory>
    ensures { IfOk result (λ values. values ≡ values_of types.now ty.now) }
{
    match ty {
        Ty::Plain(plain) => values_of_plain(alloc, types, plain),
        Ty::Future(plain) => values_of_plain(alloc, types, plain),
    }
}

fn values_of_plain(alloc: Global, types: &[TypeDec], plain: &Plain) -> Result<Values, Memory>
    ensures { IfOk result (λ values. values ≡ values_of_plain types.now plain.now) }
{
    match plain {
        Plain::Int => Ok(Values::Numbers),
        Plain::Bool => Ok(Values::Truths),
        Plain::Named(name) => {
            let constructors = copy_names(alloc, constructors_of(types, name))?;
            Ok(Values::Constructors(constructors))
        }
    }
}

/// The constructors of the first type of a name.
fn constructors_of<'a>(types: &'a [TypeDec], name: &Name) -> &'a [Name]
    ensures { result.now ≡ constructors_of types.now name.now }
{
    for ty in types {
        if name.bytes() == ty.name.bytes() {
            return ty.constructors.as_slice();
        }
    }
    &[]
}

fn copy_names(alloc: Global, names: &[Name]) -> Result<Items<Name>, Memory>
    ensures { IfOk result (λ copy. copy ≡ names.now) }
{
    let mut copy = Items::new(alloc);
    for name in names {
        copy.push(Name::of(alloc, name.bytes())?)?;
    }
    Ok(copy)
}
