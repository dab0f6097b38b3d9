ghost use Rattle.flat_cores.specs.FlatLaws.{
  LoweringIsFlat,
  NamingKeepsFlat,
  OrderKeepsFlat,
  ServedIsPlain,
};

/// The laws of served programs and of flat cores. A served program has plain equations alone. The core
/// that comes of one is flat, and stays so while subexpressions are named and equations are put in
/// another order.
pub fn flat_laws()
    ensures plain { ServedIsPlain }
    ensures lowered { LoweringIsFlat }
    ensures named { NamingKeepsFlat }
    ensures ordered { OrderKeepsFlat }
{}
