ghost use Rattle.std.specs.Prelude.{◌≡◌, ◌<◌, ◌^◌, IfOk};
ghost use Rattle.dtp_gen.specs.Draws.{AreDraws, state_behind};

use std::alloc::{AllocError, Global};

fn state_behind(state: u32) -> u32
    requires { state < 2 ^ 31 }
    ensures next { result ≡ state_behind state }
    ensures small { result < 2 ^ 31 }
{
    let next = (u64::from(state) * 1_103_515_245 + 12_345) % 2_147_483_648;
    next as u32
}

/// The first so many draws.
pub fn draws(alloc: Global, count: u32, start: u32) -> Result<Vec<u32>, AllocError>
    ensures { IfOk result (λ draws. AreDraws start count draws.items) }
{
    let mut draws = Vec::new(alloc);
    let mut state = start % 2_147_483_648;
    'draws: for _i in 0..count {
        state = state_behind(state);
        draws.push(state / 65_536)?;
    }
    Ok(draws)
}
