ghost use Rattle.std.specs.Prelude.{◌≡◌, ◌↔◌, IsSome, IsTrue};
ghost use Rattle.std.specs.Option.{option_copied};
ghost use Rattle.hept_ast.specs.Faults.{IsTyped};

use crate::clocks::Clocks;
use crate::name::{Name, NodeId};
use crate::tree::{ClockPath, Program};
use std::marker::Model;

/// A program whose names and types are right.
#[derive(Drop)]
pub struct Typed {
    program: Program,
}

impl Model for Typed {
    ghost use Rattle.hept_ast.specs.declared.tree.Program.{Program};
    ghost use Rattle.hept_ast.specs.contracts.tree.Equation as equation;
    ghost use Rattle.hept_ast.specs.contracts.tree.Form as form;
    ghost use Rattle.std.specs.Coded.{codes};

    ghost Value = { Program };

    ghost coded = { Prim.hlevel (codes, equation.the_row.coded, form.the_row.coded) };

    ghost use Rattle.hept_ast.specs.Faults.{IsTyped};

    ghost view = { λ t. t.program };

    ghost invariant = { λ t. IsTyped t.program };
}

impl Typed {
    pub fn of(program: Program) -> Typed
        requires { IsTyped program }
        ensures { result ≡ program }
    {
        Typed { program }
    }

    pub fn program(&self) -> &Program
        ensures same { result.now ≡ self.now }
        ensures typed { IsTyped self.now }
    {
        &self.program
    }
}

/// A program that is well clocked, with the clocks of its variables.
#[derive(Drop)]
pub struct Clocked {
    program: Program,
    clocks: Clocks,
}

impl Model for Clocked {
    ghost use Rattle.hept_ast.specs.Stages.{ClockedProgram, IsClockedProgram};
    ghost use Rattle.hept_ast.specs.contracts.tree.Equation as equation;
    ghost use Rattle.hept_ast.specs.contracts.tree.Form as form;
    ghost use Rattle.std.specs.Coded.{codes};

    ghost Value = { ClockedProgram };

    ghost coded = { Prim.hlevel (codes, equation.the_row.coded, form.the_row.coded) };

    ghost view = { λ c. record { program = c.program; clocks = c.clocks } };

    ghost invariant = { λ c. IsClockedProgram (record { program = c.program; clocks = c.clocks }) };
}

impl Clocked {
    ghost use Rattle.hept_ast.specs.ClockMaps.{path_in};
    ghost use Rattle.hept_ast.specs.Stages.{HasLeastClocks, declares_at};

    pub fn of(typed: Typed, clocks: Clocks) -> Clocked
        requires { HasLeastClocks typed clocks }
        ensures { result ≡ record { program = typed; clocks = clocks } }
    {
        let Typed { program } = typed;
        Clocked { program, clocks }
    }

    pub fn program(&self) -> &Program
        ensures same { result.now ≡ self.now.program }
        ensures typed { IsTyped self.now.program }
        ensures clocked { HasLeastClocks self.now.program self.now.clocks }
    {
        &self.program
    }

    /// The clock of a variable of a node; None exactly where the node declares no such variable.
    pub fn clock_of(&self, node: NodeId, name: &Name) -> Option<&ClockPath>
        ensures path { option_copied result ≡ path_in self.now.clocks node.0 name.now }
        ensures declared { IsSome result ↔ IsTrue (declares_at self.now.program.nodes node.0 name.now) }
    {
        self.clocks.get(node, name)
    }
}

/// A program that is well clocked, initialised and causal, with the clocks of its variables.
#[derive(Drop)]
pub struct Accepted {
    program: Program,
    clocks: Clocks,
}

impl Model for Accepted {
    ghost use Rattle.hept_ast.specs.Stages.{ClockedProgram, IsAcceptedProgram};
    ghost use Rattle.hept_ast.specs.contracts.tree.Equation as equation;
    ghost use Rattle.hept_ast.specs.contracts.tree.Form as form;
    ghost use Rattle.std.specs.Coded.{codes};

    ghost Value = { ClockedProgram };

    ghost coded = { Prim.hlevel (codes, equation.the_row.coded, form.the_row.coded) };

    ghost view = { λ c. record { program = c.program; clocks = c.clocks } };

    ghost invariant = { λ c. IsAcceptedProgram (record { program = c.program; clocks = c.clocks }) };
}

impl Accepted {
    ghost use Rattle.hept_ast.specs.Causal.{IsCausal};
    ghost use Rattle.hept_ast.specs.ClockMaps.{clock_in, path_in};
    ghost use Rattle.hept_ast.specs.Initial.{IsInitialised};
    ghost use Rattle.hept_ast.specs.Stages.{HasLeastClocks, declares_at};

    pub fn of(clocked: Clocked) -> Accepted
        requires initialised { IsInitialised clocked.program }
        requires causal { IsCausal clocked.program (clock_in clocked.clocks) }
        ensures { result ≡ clocked }
    {
        let Clocked { program, clocks } = clocked;
        Accepted { program, clocks }
    }

    pub fn program(&self) -> &Program
        ensures same { result.now ≡ self.now.program }
        ensures typed { IsTyped self.now.program }
        ensures clocked { HasLeastClocks self.now.program self.now.clocks }
        ensures initialised { IsInitialised self.now.program }
        ensures causal { IsCausal self.now.program (clock_in self.now.clocks) }
    {
        &self.program
    }

    /// The clock of a variable of a node; None exactly where the node declares no such variable.
    pub fn clock_of(&self, node: NodeId, name: &Name) -> Option<&ClockPath>
        ensures path { option_copied result ≡ path_in self.now.clocks node.0 name.now }
        ensures declared { IsSome result ↔ IsTrue (declares_at self.now.program.nodes node.0 name.now) }
    {
        self.clocks.get(node, name)
    }
}
