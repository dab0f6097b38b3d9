//! Whether operands fit, and what an expression then gives.
ghost use Rattle.std.specs.Prelude.{◌≡◌, ◌∷◌, [], if◌then◌else◌};
ghost use Rattle.std.specs.Option.{option_map};
ghost use Rattle.hept_ast.specs.Limits.{earlier_of, earliest};
ghost use Rattle.hept_ast.specs.Types.{Fits, alike, binary_fit, fits_if, get_fit, if_fit, plain_pair, unary_fit};
ghost use Rattle.expression_types.specs.Fits.{all_fit, also_alike, alike_with, fit_of, given, is_one, mismatch, settled};
ghost use Rattle.declared_types.specs.Types.{type_in, types_in};

use declared_types::{PlainType, Type, Types, is_plain, is_same_type};
use earliest_fault::{Found, Kind};
use hept_ast::{BinaryOp, Place, UnaryOp};

const INT: Type<'static> = Type::Plain(PlainType::Int);

const BOOL: Type<'static> = Type::Plain(PlainType::Bool);

/// Whether operands fit, and what an expression then gives.
#[derive(Clone, Copy)]
pub(crate) enum Fit<'a> {
    Fits(Types<'a>),
    Misfit,
    /// It has no type, which is no mismatch.
    Untyped,
}

fn fits_if(test: bool, types: Types<'_>) -> Fit<'_>
    ensures { fit_of result ≡ fits_if test (types_in types.entry) }
{
    if test { Fit::Fits(types) } else { Fit::Misfit }
}

/// Whether an expression gives just this type.
pub fn is_one(held: Type<'_>, types: Types<'_>) -> bool
    ensures { result ≡ is_one (type_in held.entry) (types_in types.entry) }
{
    match types.only() {
        Some(only) => is_same_type(held, only),
        None => false,
    }
}

fn alike_with<'a>(fit: Fit<'a>, operand: Types<'a>) -> Fit<'a>
    ensures { fit_of result ≡ alike_with (fit_of fit.entry) (types_in operand.entry) }
{
    match fit {
        Fit::Untyped => fits_if(operand.only().is_some(), operand),
        Fit::Fits(types) => match types.only() {
            Some(only) => fits_if(is_one(only, operand), types),
            None => Fit::Misfit,
        },
        Fit::Misfit => Fit::Misfit,
    }
}

/// One more operand of those that are to be of one type.
pub(crate) fn also_alike<'a>(fit: Option<Fit<'a>>, operand: Option<Types<'a>>) -> Option<Fit<'a>>
    ensures { option_map fit_of result ≡ also_alike (option_map fit_of fit.entry) (option_map types_in operand.entry) }
{
    match fit {
        Some(fit) => match operand {
            Some(operand) => Some(alike_with(fit, operand)),
            None => None,
        },
        None => None,
    }
}

/// Of operands of a known type, what the expression gives.
fn all_of<'a>(
    wanted: Type<'_>,
    left: Option<Types<'a>>,
    right: Option<Types<'a>>,
    gives: Type<'a>,
) -> Option<Fit<'a>>
    ensures { option_map fit_of result ≡ option_map (all_fit (type_in wanted.entry) (type_in gives.entry)) (given (option_map types_in left.entry ∷ option_map types_in right.entry ∷ [])) }
{
    let left = left?;
    let right = right?;
    let fits = is_one(wanted, left) && is_one(wanted, right);
    Some(fits_if(fits, Types::One(gives)))
}

/// Of operands of one plain type.
fn plain_pair<'a>(left: Option<Types<'a>>, right: Option<Types<'a>>) -> Option<Fit<'a>>
    ensures { option_map fit_of result ≡ option_map plain_pair (given (option_map types_in left.entry ∷ option_map types_in right.entry ∷ [])) }
{
    let left = left?;
    let right = right?;
    match left.only() {
        Some(only) => {
            let fits = is_plain(only) && is_one(only, right);
            Some(fits_if(fits, Types::One(BOOL)))
        }
        None => Some(Fit::Misfit),
    }
}

pub(crate) fn unary_fit<'a>(op: UnaryOp, operand: Option<Types<'a>>) -> Option<Fit<'a>>
    ensures { option_map fit_of result ≡ option_map (unary_fit op) (given (option_map types_in operand.entry ∷ [])) }
{
    let wanted = match op {
        UnaryOp::Minus => INT,
        UnaryOp::Not => BOOL,
    };
    let operand = operand?;
    let fits = is_one(wanted, operand);
    Some(fits_if(fits, Types::One(wanted)))
}

pub(crate) fn binary_fit<'a>(
    op: BinaryOp,
    left: Option<Types<'a>>,
    right: Option<Types<'a>>,
) -> Option<Fit<'a>>
    ensures { option_map fit_of result ≡ option_map (binary_fit op) (given (option_map types_in left.entry ∷ option_map types_in right.entry ∷ [])) }
{
    match op {
        BinaryOp::Add => all_of(INT, left, right, INT),
        BinaryOp::Sub => all_of(INT, left, right, INT),
        BinaryOp::Mul => all_of(INT, left, right, INT),
        BinaryOp::Div => all_of(INT, left, right, INT),
        BinaryOp::Rem => all_of(INT, left, right, INT),
        BinaryOp::Or => all_of(BOOL, left, right, BOOL),
        BinaryOp::And => all_of(BOOL, left, right, BOOL),
        BinaryOp::Eq => plain_pair(left, right),
        BinaryOp::Ne => plain_pair(left, right),
        BinaryOp::Lt => all_of(INT, left, right, BOOL),
        BinaryOp::Le => all_of(INT, left, right, BOOL),
        BinaryOp::Gt => all_of(INT, left, right, BOOL),
        BinaryOp::Ge => all_of(INT, left, right, BOOL),
    }
}

/// Of an operand of any one type.
#[tactic(auto, using(crate::proofs::Alike::alike_operands))]
pub(crate) fn alike_one(operand: Option<Types<'_>>) -> Option<Fit<'_>>
    ensures { option_map fit_of result ≡ option_map alike (given (option_map types_in operand.entry ∷ [])) }
{
    also_alike(Some(Fit::Untyped), operand)
}

/// Of two operands of any one type.
#[tactic(auto, using(crate::proofs::Alike::alike_operands))]
pub(crate) fn alike_two<'a>(left: Option<Types<'a>>, right: Option<Types<'a>>) -> Option<Fit<'a>>
    ensures { option_map fit_of result ≡ option_map alike (given (option_map types_in left.entry ∷ option_map types_in right.entry ∷ [])) }
{
    let left = also_alike(Some(Fit::Untyped), left);
    also_alike(left, right)
}

pub(crate) fn if_fit<'a>(
    condition: Option<Types<'a>>,
    left: Option<Types<'a>>,
    right: Option<Types<'a>>,
) -> Option<Fit<'a>>
    ensures { option_map fit_of result ≡ option_map if_fit (given (option_map types_in condition.entry ∷ option_map types_in left.entry ∷ option_map types_in right.entry ∷ [])) }
{
    let alike = alike_two(left, right)?;
    let condition = condition?;
    if is_one(BOOL, condition) {
        Some(alike)
    } else {
        Some(Fit::Misfit)
    }
}

pub(crate) fn get_fit(operand: Option<Types<'_>>) -> Option<Fit<'_>>
    ensures { option_map fit_of result ≡ option_map get_fit (given (option_map types_in operand.entry ∷ [])) }
{
    match operand?.only() {
        Some(Type::Future(held)) => Some(Fit::Fits(Types::One(Type::Plain(held)))),
        _ => Some(Fit::Misfit),
    }
}

/// Of what fits as it is.
pub(crate) fn fits(types: Option<Types<'_>>) -> Option<Fit<'_>>
    ensures { option_map fit_of result ≡ option_map Fits (option_map types_in types.entry) }
{
    match types {
        Some(types) => Some(Fit::Fits(types)),
        None => None,
    }
}

/// Notes a mismatch of an expression whose operands have types that don't fit. The expression has types where they
/// fit and no fault of its own stands.
#[tactic(auto, using(hept_ast::proofs::Earliest::earliest_of))]
pub(crate) fn settle<'a>(
    found: &mut Found,
    place: Place,
    own: bool,
    fit: Option<Fit<'a>>,
) -> Option<Types<'a>>
    ensures noted { found.new ≡ earlier_of found.old (earliest (mismatch place.0 (option_map fit_of fit.entry))) }
    ensures types { option_map types_in result ≡ settled (option_map fit_of fit.entry) own }
{
    match fit {
        Some(Fit::Fits(types)) => { if own { None } else { Some(types) } }
        Some(Fit::Misfit) => {
            found.note(place, Kind::Mismatch);
            None
        }
        Some(Fit::Untyped) => None,
        None => None,
    }
}
