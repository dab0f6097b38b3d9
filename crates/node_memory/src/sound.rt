ghost use Rattle.std.specs.Prelude.{◌↔◌, ◌<◌, ◌≤◌, ◌+◌, IsTrue, All, length};
ghost use Rattle.step_engine.specs.Running.{IsFutureWithin, IsSourceWithin, IsStoreWithin, IsWithin};
ghost use Rattle.step_engine.specs.Actions.{IsActionWithin, IsFutureStoreWithin};
ghost use Rattle.node_memory.specs.Standing.{IsCallWithin, IsSound};

use step_plans::{Action, FutureInstruction, Instruction, NodePlan, Offering, Source, Store};

fn is_within(instruction: &Instruction, values: u32, cells: usize) -> bool
    ensures { IsTrue result ↔ IsWithin values cells instruction.now }
{
    match instruction {
        Instruction::Constant(_) => true,
        Instruction::Minus(a) | Instruction::Not(a) => *a < values,
        Instruction::Add(a, b)
        | Instruction::Subtract(a, b)
        | Instruction::Multiply(a, b)
        | Instruction::Or(a, b)
        | Instruction::And(a, b)
        | Instruction::Equal(a, b)
        | Instruction::Different(a, b)
        | Instruction::Less(a, b)
        | Instruction::AtMost(a, b)
        | Instruction::Greater(a, b)
        | Instruction::AtLeast(a, b) => *a < values && *b < values,
        Instruction::Quotient(a, k) | Instruction::Remainder(a, k) => *a < values && *k != 0,
        Instruction::Select(c, _, a, b) => *c < values && *a < values && *b < values,
        Instruction::Flag(h, x, _) => *h < values && *x < values,
        Instruction::Again(g, h, x) => *g < values && *h < values && *x < values,
        Instruction::Read(m) => (*m as usize) < cells,
        Instruction::ReadUnless(g, m, _) => *g < values && (*m as usize) < cells,
    }
}

fn is_future_within(instruction: &FutureInstruction, values: u32, futures: u32) -> bool
    ensures { IsTrue result ↔ IsFutureWithin values futures instruction.now }
{
    match instruction {
        FutureInstruction::Ready(_) => true,
        FutureInstruction::Select(c, _, a, b) => *c < values && *a < futures && *b < futures,
        FutureInstruction::Read(m) => *m < futures,
        FutureInstruction::ReadUnless(g, m, _) => *g < values && *m < futures,
    }
}

fn is_action_within(
    action: &Action,
    values: u32,
    cells: usize,
    futures: u32,
    offerings: usize,
) -> bool
    ensures { IsTrue result ↔ IsActionWithin values cells futures offerings action.now }
{
    match action {
        Action::Compute(to, instruction) => *to < values && is_within(instruction, values, cells),
        Action::Move(to, instruction) => {
            *to < futures && is_future_within(instruction, values, futures)
        }
        Action::Offer(k) => (*k as usize) < offerings,
        Action::Get(to, here, future) => *to < values && *here < values && *future < futures,
    }
}

fn are_actions_within(
    actions: &[Action],
    values: u32,
    cells: usize,
    futures: u32,
    offerings: usize,
) -> bool
    ensures { IsTrue result ↔ All (IsActionWithin values cells futures offerings) actions.now }
{
    actions.iter().all(|action| is_action_within(action, values, cells, futures, offerings))
}

fn is_source_within(source: &Source, values: u32, futures: u32) -> bool
    ensures { IsTrue result ↔ IsSourceWithin values futures source.now }
{
    match source {
        Source::Value(r) => *r < values,
        Source::Future(f) => *f < futures,
    }
}

fn are_sources_within(sources: &[Source], values: u32, futures: u32) -> bool
    ensures { IsTrue result ↔ All (IsSourceWithin values futures) sources.now }
{
    sources
        .iter()
        .all(|source| is_source_within(source, values, futures))
}

fn is_call_within(offering: &Offering, values: u32, futures: u32) -> bool
    ensures { IsTrue result ↔ IsCallWithin values futures offering.now }
{
    offering.here < values
        && offering.again < values
        && are_sources_within(offering.sources.as_slice(), values, futures)
        && u64::from(offering.first) + u64::from(offering.outputs) <= u64::from(futures)
}

fn are_calls_within(offerings: &[Offering], values: u32, futures: u32) -> bool
    ensures { IsTrue result ↔ All (IsCallWithin values futures) offerings.now }
{
    offerings
        .iter()
        .all(|offering| is_call_within(offering, values, futures))
}

fn is_store_within(store: &Store, values: u32) -> bool
    ensures { IsTrue result ↔ IsStoreWithin values store.now }
{
    match store {
        Store::Always(a) => *a < values,
        Store::Where(h, a) => *h < values && *a < values,
        Store::Unless(h, a, g, _) => *h < values && *a < values && *g < values,
    }
}

fn are_stores_within(stores: &[Store], values: u32) -> bool
    ensures { IsTrue result ↔ All (IsStoreWithin values) stores.now }
{
    stores.iter().all(|store| is_store_within(store, values))
}

fn is_future_store_within(store: &Store, values: u32, cells: usize, futures: u32) -> bool
    ensures { IsTrue result ↔ IsFutureStoreWithin values cells futures store.now }
{
    match store {
        Store::Always(a) => cells <= *a as usize && *a < futures,
        Store::Where(h, a) => *h < values && cells <= *a as usize && *a < futures,
        Store::Unless(h, a, g, _) => {
            *h < values && cells <= *a as usize && *a < futures && *g < values
        }
    }
}

fn are_future_stores_within(stores: &[Store], values: u32, futures: u32) -> bool
    ensures { IsTrue result ↔ All (IsFutureStoreWithin values (length stores.now) futures) stores.now }
{
    let cells = stores.len();
    stores.iter().all(|store| is_future_store_within(store, values, cells, futures))
}

fn are_outputs_within(outputs: &[u32], values: u32) -> bool
    ensures { IsTrue result ↔ All (λ r. r < values) outputs.now }
{
    outputs.iter().all(|output| *output < values)
}

/// Whether each number in the plan is that of a value, a future, a cell or a call that is there, no
/// divisor is 0, and each cell has a first content.
pub fn is_sound(plan: &NodePlan) -> bool
    ensures { IsTrue result ↔ IsSound plan.now }
{
    let cells = plan.stores.len();
    let future_cells = plan.future_stores.len();
    plan.inputs < plan.values
        && future_cells as u64 + u64::from(plan.inputs) <= u64::from(plan.futures)
        && plan.initial.len() == cells
        && plan.future_initial.len() == future_cells
        && are_actions_within(
            plan.actions.as_slice(),
            plan.values,
            cells,
            plan.futures,
            plan.offerings.len(),
        )
        && are_calls_within(plan.offerings.as_slice(), plan.values, plan.futures)
        && are_stores_within(plan.stores.as_slice(), plan.values)
        && are_future_stores_within(plan.future_stores.as_slice(), plan.values, plan.futures)
        && are_outputs_within(plan.outputs.as_slice(), plan.values)
}
