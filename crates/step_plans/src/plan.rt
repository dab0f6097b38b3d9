use crate::action::{Action, Offering};
use crate::instruction::Store;

/// How a node does an instant. Value 0 is 1, then come the inputs. Among the futures come first the
/// cells of future type, and then each input once more.
#[derive(Drop)]
pub struct NodePlan {
    pub inputs: u32,
    pub actions: Vec<Action>,
    /// One for each cell of plain type, and one for each of future type.
    pub stores: Vec<Store>,
    pub future_stores: Vec<Store>,
    /// The cells of a new memory, those of future type by their values.
    pub initial: Vec<u32>,
    pub future_initial: Vec<u32>,
    /// One for each async call.
    pub offerings: Vec<Offering>,
    /// The values that are the outputs.
    pub outputs: Vec<u32>,
    /// How many values and futures there are.
    pub values: u32,
    pub futures: u32,
}
