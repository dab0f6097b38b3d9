//! Names that a core does not have.
ghost use Rattle.std.specs.Prelude.{IfOk, length, ◌≤◌, string_bytes};
ghost use Rattle.std.specs.List.{All};
ghost use Rattle.core_naming.specs.Names.{equation_names, node_names};
ghost use Rattle.normal_form.specs.NewNames.{AreNewFor, AreWithin, IsMark, IsNextName, type_names};

use hept_ast::{ClockStep, Core, CoreEquation, CoreNode, Decl, Memory, Name, TypeDec};
use std::alloc::Global;

/// Each new name is `#` many times, more often than the longest name of the core has bytes, and a number.
#[derive(Drop)]
pub(crate) struct NewNames {
    mark: String,
    used: u64,
}

impl NewNames {
    pub(crate) fn of(alloc: Global, core: &Core) -> Result<NewNames, Memory>
        ensures { IfOk result (λ names. AreNewFor names core.now) }
    {
        let longest = longest_in_types(0, core.types.as_slice());
        let longest = longest_in_nodes(longest, core.nodes.as_slice());
        let mark = longer_mark(alloc, longest)?;
        Ok(NewNames { mark, used: 0 })
    }

    /// The next name. The names after it are new for each core that has no further name besides.
    pub(crate) fn next(&mut self, alloc: Global) -> Result<Name, Memory>
        ensures { IfOk result (IsNextName self.old self.new) }
    {
        let number = self.used;
        if number == u64::MAX {
            return Err(Memory);
        }
        let mark = self.mark.as_str();
        let text = format!(in alloc; "{mark}{number}")?;
        let name = Name::of(alloc, text.as_bytes())?;
        self.used = number + 1;
        Ok(name)
    }
}

/// At least two `#`, and more than a number.
fn longer_mark(alloc: Global, longest: usize) -> Result<String, Memory>
    ensures { IfOk result (λ mark. IsMark longest (string_bytes mark)) }
{
    let mut mark = format!(in alloc; "##")?;
    for _ in 1..longest {
        mark.push('#')?;
    }
    Ok(mark)
}

fn longest_of(mut longest: usize, names: &[Name]) -> usize
    ensures kept { longest ≤ result }
    ensures within { AreWithin result names.now }
{
    for name in names {
        longest = longest.max(name.bytes().len());
    }
    longest
}

fn longest_declared(mut longest: usize, decls: &[Decl]) -> usize
    ensures kept { longest ≤ result }
    ensures within { All (λ d. length d.name ≤ result) decls.now }
{
    for decl in decls {
        longest = longest.max(decl.name.bytes().len());
    }
    longest
}

fn longest_in_clock(mut longest: usize, steps: &[ClockStep]) -> usize
    ensures kept { longest ≤ result }
    ensures within { All (λ s. length s.name ≤ result) steps.now }
{
    for step in steps {
        longest = longest.max(step.name.bytes().len());
    }
    longest
}

fn longest_in_equation(longest: usize, e: &CoreEquation) -> usize
    ensures kept { longest ≤ result }
    ensures within { AreWithin result (equation_names e.now) }
{
    let left = longest_of(longest, e.left.as_slice());
    let clock = longest_in_clock(left, e.clock.steps.as_slice());
    longest_of(clock, e.resets.as_slice())
}

fn longest_in_equations(mut longest: usize, equations: &[CoreEquation]) -> usize
    ensures kept { longest ≤ result }
    ensures within { All (λ e. AreWithin result (equation_names e)) equations.now }
{
    for e in equations {
        longest = longest_in_equation(longest, e);
    }
    longest
}

fn longest_in_node(longest: usize, node: &CoreNode) -> usize
    ensures kept { longest ≤ result }
    ensures within { AreWithin result (node_names node.now) }
{
    let name = longest.max(node.name.bytes().len());
    let inputs = longest_declared(name, node.inputs.as_slice());
    let outputs = longest_declared(inputs, node.outputs.as_slice());
    let locals = longest_declared(outputs, node.locals.as_slice());
    longest_in_equations(locals, node.equations.as_slice())
}

fn longest_in_nodes(mut longest: usize, nodes: &[CoreNode]) -> usize
    ensures kept { longest ≤ result }
    ensures within { All (λ node. AreWithin result (node_names node)) nodes.now }
{
    for node in nodes {
        longest = longest_in_node(longest, node);
    }
    longest
}

fn longest_in_types(mut longest: usize, types: &[TypeDec]) -> usize
    ensures kept { longest ≤ result }
    ensures within { All (λ d. AreWithin result (type_names d)) types.now }
{
    for declared in types {
        let name = longest.max(declared.name.bytes().len());
        longest = longest_of(name, declared.constructors.as_slice());
    }
    longest
}
