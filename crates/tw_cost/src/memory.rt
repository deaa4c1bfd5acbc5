//! The costs of exchanges and of allocations.
ghost use Rattle.std.specs.Prelude.{◌≡◌, ℕ};
ghost use Rattle.tw_code.specs.Rows.{alloc_rows, mem_swap_rows, swap_rows, zero_bits};
ghost use Rattle.tw_resolve.specs.Setting.{reported};
ghost use Rattle.tw_cost.specs.Costs.{cost_of};

use crate::costs::{Cost, cost_of};
use crate::rows::Row;
use tw_gate::Level;
use tw_types::Widths;

/// The cost of an exchange of two regions of this number of bits under this number of controls.
pub fn cost_of_swap(level: Level, bits: u64, under: u32) -> Cost
    ensures { (n : ℕ) → bits ≡ reported n → result ≡ cost_of level (swap_rows n under) }
{
    let twice = bits.saturating_mul(2);
    cost_of(
        level,
        &[Row::new(twice, 1), Row::new(bits, 1 + u64::from(under))],
    )
}

/// The bits that are 0 in the addresses of all blocks.
fn zero_bits(widths: Widths) -> u64
    ensures { result ≡ reported (zero_bits widths.addr) }
{
    let others = (1 << (widths.addr - 1)) - 1;
    u64::from(widths.addr).saturating_mul(others)
}

/// The cost of an exchange of this number of bits with a block of memory under this number of controls.
pub fn cost_of_mem_swap(level: Level, widths: Widths, bits: u64, under: u32) -> Cost
    ensures { (n : ℕ) → bits ≡ reported n → result ≡ cost_of level (mem_swap_rows widths.addr n under) }
{
    if bits == 0 {
        return Cost::nothing();
    }
    let blocks = u64::from(widths.block_count());
    let flips = zero_bits(widths).saturating_mul(2);
    let all = blocks.saturating_mul(bits);
    cost_of(
        level,
        &[
            Row::new(flips, 0),
            Row::new(2 * blocks, u64::from(widths.addr)),
            Row::new(all.saturating_mul(2), 1),
            Row::new(all, 2 + u64::from(under)),
        ],
    )
}

/// The cost of an allocation under this number of controls: the head is exchanged with the target, and then with the block.
pub fn cost_of_alloc(level: Level, widths: Widths, under: u32) -> Cost
    ensures { result ≡ cost_of level (alloc_rows widths.addr under) }
{
    let addr = u64::from(widths.addr);
    cost_of_swap(level, addr, under).then(cost_of_mem_swap(level, widths, addr, under))
}
