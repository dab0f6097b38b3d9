ghost use Rattle.std.specs.Prelude.{◌≡◌, ◌<◌, [], OnErr, OnOk, length, position};
ghost use Rattle.std.specs.Option.{option_copied};
ghost use Rattle.hept_ast.specs.ClockMaps.{IsPut, IsSameMap, IsSetIn, path_among, path_in};
ghost use Rattle.hept_ast.specs.Texts.{same};

use crate::name::{Memory, Name, NodeId};
use crate::tree::ClockPath;
use sqlite_items::{Items, at};
use std::alloc::Global;
use std::marker::Model;

/// The clock of a variable.
#[derive(Drop)]
pub struct NamedClock {
    pub name: Name,
    pub path: ClockPath,
}

/// A clock for each of some variables, by the node's position in the file and the variable's name.
#[derive(Drop)]
pub struct Clocks {
    /// For each node, by its position, the clocks that were set.
    nodes: Vec<Items<NamedClock>>,
}

impl Model for Clocks {
    ghost use Rattle.std.specs.Prelude.{List};
    ghost use Rattle.hept_ast.specs.declared.clocks.NamedClock.{NamedClock};

    ghost Value = { List (List NamedClock) };

    ghost view = { λ c. c.nodes.items };
}

impl Clocks {
    pub fn new(alloc: Global) -> Clocks
        ensures { result ≡ [] }
    {
        Clocks {
            nodes: Vec::new(alloc),
        }
    }

    /// Sets the clock of a variable of a node. After want of memory the map is as it was.
    pub fn set(
        &mut self,
        alloc: Global,
        node: NodeId,
        name: Name,
        path: ClockPath,
    ) -> Result<(), Memory>
        ensures set { OnOk result (IsSetIn self.old self.new node.0 name path) }
        ensures kept { OnErr result (IsSameMap self.old self.new) }
    {
        set_in(alloc, &mut self.nodes, node.0 as usize, name, path)
    }

    /// The clock of a variable of a node, if it was set.
    pub fn get(&self, node: NodeId, name: &Name) -> Option<&ClockPath>
        ensures { option_copied result ≡ path_in self.now node.0 name.now }
    {
        path_of(self.nodes.as_slice(), node.0 as usize, name)
    }
}

fn is_named(clock: &NamedClock, name: &Name) -> bool
    ensures { result ≡ same name.now clock.now.name }
{
    name.bytes() == clock.name.bytes()
}

fn position_of(clocks: &[NamedClock], name: &Name) -> Option<usize>
    ensures { result ≡ position (λ c. same name.now c.name) clocks.now }
{
    clocks.iter().position(|clock| is_named(clock, name))
}

fn path_among<'a>(clocks: &'a [NamedClock], name: &Name) -> Option<&'a ClockPath>
    ensures { option_copied result ≡ path_among clocks.now name.now }
{
    match clocks.iter().find(|clock| is_named(clock, name)) {
        Some(clock) => Some(&clock.path),
        None => None,
    }
}

fn path_of<'a>(nodes: &'a [Items<NamedClock>], node: usize, name: &Name) -> Option<&'a ClockPath>
    ensures { option_copied result ≡ path_in nodes.now node name.now }
{
    match at(nodes, node) {
        Some(clocks) => path_among(clocks.as_slice(), name),
        None => None,
    }
}

/// Sets the clock of a name.
fn put(clocks: &mut Items<NamedClock>, name: Name, path: ClockPath) -> Result<(), Memory>
    ensures put { OnOk result (IsPut clocks.old clocks.new name path) }
    ensures kept { OnErr result (clocks.new ≡ clocks.old) }
{
    match position_of(clocks.as_slice(), &name) {
        Some(index) => {
            clocks.set(index, NamedClock { name, path });
            Ok(())
        }
        None => {
            clocks.push(NamedClock { name, path })?;
            Ok(())
        }
    }
}

/// Makes room for the clocks of a node.
fn grow(alloc: Global, nodes: &mut Vec<Items<NamedClock>>, node: usize) -> Result<(), Memory>
    ensures grown { OnOk result (node < length nodes.new.items) }
    ensures same { IsSameMap nodes.old.items nodes.new.items }
{
    while nodes.len() <= node {
        if nodes.push(Items::new(alloc)).is_err() {
            return Err(Memory);
        }
    }
    Ok(())
}

fn set_in(
    alloc: Global,
    nodes: &mut Vec<Items<NamedClock>>,
    node: usize,
    name: Name,
    path: ClockPath,
) -> Result<(), Memory>
    ensures set { OnOk result (IsSetIn nodes.old.items nodes.new.items node name path) }
    ensures kept { OnErr result (IsSameMap nodes.old.items nodes.new.items) }
{
    grow(alloc, nodes, node)?;
    put(&mut nodes[node], name, path)
}
