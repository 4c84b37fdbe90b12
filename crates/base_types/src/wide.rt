ghost use Rattle.std.specs.Prelude.{◌≡◌, ◌↔◌, IsTrue};

use crate::same::Same;
use std::marker::Model;

/// A signed number of 128 bits, kept as the halves of its two's complement.
#[derive(Clone, Copy, Drop)]
pub struct Wide {
    high: u64,
    low: u64,
}

impl Model for Wide {
    ghost use Rattle.std.specs.Prelude.{ℤ};
    ghost use Rattle.std.specs.Coded.{coded_ℤ};

    ghost Value = { ℤ };

    ghost coded = { coded_ℤ };

    ghost use Rattle.base_types.specs.Halves.{number, halves, AreHalves, halves-number};

    ghost view = { number };

    ghost invariant = { AreHalves };

    ghost inverse = { halves };

    ghost inverse_ok = { halves-number };
}

impl Wide {
    /// A number in two halves.
    pub fn of(n: i128) -> Wide
        ensures { result ≡ n }
    {
        let bits = n.cast_unsigned();
        Wide {
            high: (bits / (1u128 << 64)) as u64,
            low: (bits % (1u128 << 64)) as u64,
        }
    }

    /// The number.
    pub fn get(self) -> i128
        ensures { result ≡ self }
    {
        (self.high as u128 * (1u128 << 64) + self.low as u128).cast_signed()
    }
}

impl Same for Wide {
    fn is_same(&self, other: &Wide) -> bool {
        self.get() == other.get()
    }
}
