//! How many digits a decimal64 has after its point.

ghost use Rattle.std.specs.Prelude.{◌≡◌, ◌≤◌, IfOk};

use std::alloc::AllocError;
use std::marker::Model;

/// How many digits a decimal64 has after its point: 1 to 18 (RFC 7950, 9.3.4).
#[derive(Debug, Drop)]
pub struct FractionDigits {
    digits: u32,
}

impl Model for FractionDigits {
    ghost use Rattle.std.specs.Prelude.{ℕ, ◌≤◌};
    ghost use Rattle.std.specs.Coded.{coded_ℕ};

    ghost Value = { ℕ };

    ghost coded = { coded_ℕ };

    ghost view = { λ d. d.digits };

    ghost inverse = { λ n. record { digits = n } };

    ghost invariant = { λ d. d.digits ≤ 18 };
}

impl Clone for FractionDigits {
    ghost use Rattle.std.specs.Prelude.{◌≡◌};

    ghost is_clone = { λ digits copy. copy ≡ digits };

    fn clone(&self) -> Result<FractionDigits, AllocError>
        ensures { IfOk result (λ copy. copy ≡ self.now) }
    {
        Ok(*self)
    }
}

impl Copy for FractionDigits {}

impl FractionDigits {
    ghost use Rattle.ytype_numbers.specs.Digits.{IsDigits};

    /// None where it isn't 1 to 18.
    pub fn new(digits: u32) -> Option<FractionDigits>
        ensures { IsDigits result digits }
    {
        if 1 <= digits && digits <= 18 {
            Some(FractionDigits { digits })
        } else {
            None
        }
    }

    pub fn digits(self) -> u32
        ensures value { result ≡ self }
        ensures small { result ≤ 18 }
    {
        self.digits
    }
}
