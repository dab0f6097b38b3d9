//! Calls of nodes, by async or not.
ghost use Rattle.std.specs.Prelude.{◌≡◌, ◌&&◌, ◌++◌, ◌==◌, [], IfSome, Some, if◌then◌else◌, length};
ghost use Rattle.std.specs.List.{flat_map, list_all};
ghost use Rattle.std.specs.Option.{option_map};
ghost use Rattle.hept_ast.specs.Faults.{NestedAsync, calls_lead, fault, nested, node_named};
ghost use Rattle.hept_ast.specs.Limits.{earlier_of, earliest};
ghost use Rattle.hept_ast.specs.Types.{is_plain};
ghost use Rattle.expression_types.specs.Fits.{fit_of, stands};
ghost use Rattle.expression_types.specs.Judgings.{also_taken, call_faults, call_if, inputs_of, is_input, nested_fault, own_faults};
ghost use Rattle.expression_types.specs.Scene.{judging_of};
ghost use Rattle.declared_types.specs.Types.{types_in};

use crate::fits::{Fit, is_one};
use crate::scenes::Scene;
use declared_types::{Types, declared_type, is_plain};
use earliest_fault::{Found, Kind};
use hept_ast::{Decl, Expr, Name, Node, Place};
use node_text::is_same;

/// A node that is called, and whether calls lead from it to the node with the call.
#[derive(Clone, Copy)]
pub(crate) struct Callee<'a> {
    pub node: &'a Node,
    pub leads_back: bool,
}

/// The node of a name.
pub(crate) fn named_node<'a>(scene: &Scene<'a>, name: &Name) -> Option<Callee<'a>>
    ensures named { option_map (λ c. c.node.now) result ≡ node_named scene.now.around.nodes.now name.now }
    ensures leads { IfSome result (λ c. c.leads_back ≡ calls_lead scene.now.around.nodes.now c.node.now.name scene.now.around.node.now.name) }
{
    for (index, node) in scene.around.nodes.iter().enumerate() {
        if is_same(name, &node.name) {
            let leads_back = scene.around.leads[index];
            return Some(Callee { node, leads_back });
        }
    }
    None
}

/// Notes a call of an undeclared node, or of one from which calls lead back, and says whether it is one.
#[tactic(auto, using(hept_ast::proofs::Earliest::earliest_of))]
fn note_callee(
    found: &mut Found,
    scene: &Scene<'_>,
    place: Place,
    callee: Option<Callee<'_>>,
) -> bool
    requires { IfSome callee (λ c. c.leads_back ≡ calls_lead scene.now.around.nodes.now c.node.now.name scene.now.around.node.now.name) }
    ensures noted { found.new ≡ earlier_of found.old (earliest (call_faults (judging_of scene.now) place.0 (option_map (λ c. c.node.now) callee.entry) [])) }
    ensures stands { result ≡ stands (call_faults (judging_of scene.now) place.0 (option_map (λ c. c.node.now) callee.entry) []) }
{
    match callee {
        Some(callee) => {
            found.note_if(place, Kind::Recursive, callee.leads_back);
            callee.leads_back
        }
        None => {
            found.note(place, Kind::UnknownName);
            true
        }
    }
}

/// Notes a call by async in a node that must have none, and says whether it is one.
#[tactic(auto, using(hept_ast::proofs::Earliest::earliest_of))]
fn note_nested(found: &mut Found, scene: &Scene<'_>, place: Place, is_async: bool) -> bool
    ensures noted { found.new ≡ earlier_of found.old (earliest (nested_fault (judging_of scene.now) place.0 is_async)) }
    ensures stands { result ≡ stands (nested_fault (judging_of scene.now) place.0 is_async) }
{
    if !is_async {
        return false;
    }
    found.note_if(place, Kind::NestedAsync, scene.around.is_nested);
    scene.around.is_nested
}

/// Notes what is wrong with a call itself, and says whether something is.
pub(crate) fn note_call(
    found: &mut Found,
    scene: &Scene<'_>,
    place: Place,
    is_async: bool,
    callee: Option<Callee<'_>>,
) -> bool
    requires { IfSome callee (λ c. c.leads_back ≡ calls_lead scene.now.around.nodes.now c.node.now.name scene.now.around.node.now.name) }
    ensures noted { found.new ≡ earlier_of found.old (earliest (own_faults (judging_of scene.now) place.0 is_async (option_map (λ c. c.node.now) callee.entry))) }
    ensures stands { result ≡ stands (own_faults (judging_of scene.now) place.0 is_async (option_map (λ c. c.node.now) callee.entry)) }
{
    let wrong = note_callee(found, scene, place, callee);
    let nested = note_nested(found, scene, place, is_async);
    wrong || nested
}

/// The inputs of the node that is called, none of an undeclared one.
pub(crate) fn inputs_of<'a>(callee: Option<Callee<'a>>) -> &'a [Decl]
    ensures { result.now ≡ inputs_of (option_map (λ c. c.node.now) callee.entry) }
{
    match callee {
        Some(callee) => callee.node.inputs.as_slice(),
        None => &[],
    }
}

fn is_input(inputs: &[Decl], index: usize, types: Types<'_>) -> bool
    ensures { result ≡ is_input inputs.now index (types_in types.entry) }
{
    match inputs.get(index) {
        Some(decl) => is_one(declared_type(&decl.ty), types),
        None => false,
    }
}

/// One more argument of those that are to be of the types of inputs.
pub(crate) fn also_taken(
    taken: Option<bool>,
    inputs: &[Decl],
    index: usize,
    argument: Option<Types<'_>>,
) -> Option<bool>
    ensures { result ≡ also_taken taken (option_map (is_input inputs.now index) (option_map types_in argument.entry)) }
{
    let taken = taken?;
    let fits = is_input(inputs, index, argument?);
    Some(taken && fits)
}

/// Whether arguments are taken, by whether they are of the types of the first inputs.
pub(crate) fn takes_all(taken: Option<bool>, inputs: &[Decl], args: &[Expr]) -> Option<bool>
    ensures { result ≡ option_map (λ b. b && (length args.now == length inputs.now)) taken }
{
    let taken = taken?;
    Some(taken && args.len() == inputs.len())
}

fn are_plain(outputs: &[Decl]) -> bool
    ensures { result ≡ list_all (λ d. is_plain d.ty) outputs.now }
{
    outputs
        .iter()
        .all(|output| is_plain(declared_type(&output.ty)))
}

#[tactic(auto, using(crate::proofs::Arguments::all_of_mapped))]
fn node_fit<'a>(node: &'a Node, is_async: bool, taken: bool) -> Fit<'a>
    ensures { fit_of result ≡ call_if is_async (Some node.now) taken }
{
    let outputs = node.outputs.as_slice();
    if !taken {
        return Fit::Misfit;
    }
    if !is_async {
        return Fit::Fits(Types::Outputs(outputs));
    }
    if are_plain(outputs) {
        Fit::Fits(Types::Futures(outputs))
    } else {
        Fit::Untyped
    }
}

/// What a call gives, by whether its arguments are taken.
pub(crate) fn call_fit<'a>(
    callee: Option<Callee<'a>>,
    is_async: bool,
    taken: Option<bool>,
) -> Option<Fit<'a>>
    ensures { option_map fit_of result ≡ option_map (call_if is_async (option_map (λ c. c.node.now) callee.entry)) taken }
{
    let taken = taken?;
    match callee {
        Some(callee) => Some(node_fit(callee.node, is_async, taken)),
        None => Some(Fit::Untyped),
    }
}
