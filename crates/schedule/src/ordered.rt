//! Cores whose equations are in order.
ghost use Rattle.std.specs.Prelude.{◌≡◌};
ghost use Rattle.core_facts.specs.Static.{StaticCore};
ghost use Rattle.schedule.specs.Order.{IsOrdered};

use hept_ast::Core;
use std::marker::Model;

/// A core that is well formed and in normal form, in which each equation stands after every equation
/// whose left side it reads; and it has the static facts, so that what a step needs is never undefined.
#[derive(Drop)]
pub struct Ordered {
    core: Core,
}

impl Model for Ordered {
    ghost use Rattle.hept_ast.specs.declared.tree.Core.{Core};
    ghost use Rattle.hept_ast.specs.contracts.tree.Form as form;
    ghost use Rattle.std.specs.Coded.{codes};
    ghost use Rattle.core_facts.specs.Static.{StaticCore};
    ghost use Rattle.schedule.specs.Order.{IsOrdered};

    ghost Value = { Core };

    ghost coded = { Prim.hlevel (codes, form.the_row.coded) };

    ghost view = { λ o. o.core };

    ghost invariant = { λ o. IsOrdered o.core × StaticCore o.core };
}

impl Ordered {
    pub fn of(core: Core) -> Ordered
        requires ordered { IsOrdered core }
        requires facts { StaticCore core }
        ensures { result ≡ core }
    {
        Ordered { core }
    }

    pub fn core(&self) -> &Core
        ensures same { result.now ≡ self.now }
        ensures ordered { IsOrdered self.now }
        ensures facts { StaticCore self.now }
    {
        &self.core
    }
}
