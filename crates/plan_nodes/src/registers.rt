//! The numbers of the values that inputs are.
ghost use Rattle.std.specs.Prelude.{◌≡◌, ◌<◌, ◌+◌, ◌^◌, ℕ, suc, IfOk, length, slice_index};

use hept_ast::Memory;
use std::alloc::{AllocError, Global};

/// The values of the inputs come after value 0.
pub(crate) fn input_registers(alloc: Global, inputs: u32) -> Result<Vec<u32>, Memory>
    requires { inputs + 1 < 2 ^ 32 }
    ensures as_many { IfOk result (λ r. length r.items ≡ inputs) }
    ensures numbers { IfOk result (λ r. (k : ℕ) → k < inputs → slice_index r.items k ≡ suc k) }
{
    let mut registers = Vec::new(alloc);
    for k in 0..inputs {
        registers.push(k + 1).map_err(AllocError::from)?;
    }
    Ok(registers)
}
