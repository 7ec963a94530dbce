//! The scopes of an opening: their unit is `u32::MAX`, which is the number of no unit, and their serials count from 0.

ghost use Rattle.std.specs.Prelude.{◌≡◌, ◌-◌, ◌^◌};

use sg_base::Scope;

/// The scope of an opening with serial 0.
pub const FIRST: Scope = Scope {
    unit: u32::MAX,
    serial: 0,
};

/// The scope of an opening with serial 1.
pub const SECOND: Scope = Scope {
    unit: u32::MAX,
    serial: 1,
};

/// The scope of an opening with serial 2.
pub const THIRD: Scope = Scope {
    unit: u32::MAX,
    serial: 2,
};

/// The scope of an opening with this serial.
pub fn scope(serial: u32) -> Scope
    ensures { result ≡ record { unit = 2 ^ 32 - 1; serial = serial } }
{
    Scope {
        unit: u32::MAX,
        serial,
    }
}
