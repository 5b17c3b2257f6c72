// Products and inverses by tables of logarithms.

ghost use Rattle.std.specs.Prelude.{◌≡◌, ◌≢◌, ℕ, ◌+◌, ◌<◌, ◌↔◌, IfOk, IfSome, IsNone, length, vec_len};
ghost use Rattle.gf16_field.specs.Gf16.{◌⊗◌, IsProduct, alpha_power};
ghost use Rattle.gf16_field.specs.Logs.{AreLogs, ArePowers};

use crate::{Gf, double};
use rip_basics::Oom;
use std::alloc::{AllocError, Global};

/// Tables by which a product or an inverse takes a few look-ups.
#[derive(Drop)]
pub struct Tables {
    log: Vec<u16>,
    exp: Vec<u16>,
    ghost log_len: { vec_len log ≡ 65536 },
    ghost exp_len: { vec_len exp ≡ 131070 },
    ghost powers: { ArePowers 131070 exp.items },
    ghost logs: { AreLogs log.items },
}

/// `n` zeros.
fn zeros(alloc: Global, n: usize) -> Result<Vec<u16>, AllocError>
    ensures { IfOk result (λ v. vec_len v ≡ n) }
{
    vec![in alloc; 0u16; n]
}

/// The first `n` powers of α, from `α^0` on.
fn powers(alloc: Global, n: usize) -> Result<Vec<u16>, AllocError>
    ensures len { IfOk result (λ v. vec_len v ≡ n) }
    ensures powers { IfOk result (λ v. ArePowers n v.items) }
{
    let mut exp = Vec::with_capacity(alloc, n)?;
    let mut power = Gf(1);
    for _ in 0..n {
        exp.push(power.0)?;
        power = double(power);
    }
    Ok(exp)
}

/// Writes the logarithm of each nonzero word into its entry of `log`.
fn set_logs(log: &mut [u16], exp: &[u16])
    requires log_len { length log.old ≡ 65536 }
    requires exp_len { length exp.now ≡ 131070 }
    requires powers { ArePowers 131070 exp.now }
    ensures { AreLogs log.new }
{
    for i in 0..65_535u16 {
        log[exp[i as usize] as usize] = i;
    }
}

impl Tables {
    /// Makes the tables: 65,536 logarithms and 131,070 powers. `Oom` where memory was refused.
    pub fn new(alloc: Global) -> Result<Tables, Oom> {
        let exp = powers(alloc, 131_070)?;
        let mut log = zeros(alloc, 65_536)?;
        set_logs(&mut log, &exp);
        Ok(Tables { log, exp })
    }

    /// The product of two words, as [`crate::mul`] answers it. It takes no memory.
    pub fn mul(&self, a: Gf, b: Gf) -> Gf
        ensures product { IsProduct a.0 b.0 result.0 }
        ensures value { result.0 ≡ a.0 ⊗ b.0 }
    {
        if a.0 == 0 || b.0 == 0 {
            return Gf(0);
        }
        let i = self.log[a.0 as usize] as usize;
        let j = self.log[b.0 as usize] as usize;
        Gf(self.exp[i + j])
    }

    /// α taken `n` times, as [`crate::pow_alpha`] answers it. It takes no memory.
    pub fn power(&self, n: u32) -> Gf
        requires { n < 131070 }
        ensures { result.0 ≡ alpha_power n }
    {
        Gf(self.exp[n as usize])
    }

    /// The word whose product with `a` is 1, and None exactly for 0. It takes no memory.
    pub fn inverse(&self, a: Gf) -> Option<Gf>
        ensures zero { IsNone result ↔ (a.0 ≡ 0) }
        ensures back { IfSome result (λ b. a.0 ⊗ b.0 ≡ 1) }
    {
        if a.0 == 0 {
            return None;
        }
        let i = self.log[a.0 as usize] as usize;
        Some(Gf(self.exp[65_535 - i]))
    }

    /// The word whose product with `a` is 1, for an `a` that isn't 0. It takes no memory.
    pub fn inverse_of(&self, a: Gf) -> Gf
        requires { a.0 ≢ 0 }
        ensures { a.0 ⊗ result.0 ≡ 1 }
    {
        match self.inverse(a) {
            Some(b) => b,
            None => unreachable!(),
        }
    }
}
