// The rig's number.
ghost use Rattle.std.specs.Prelude.{◌≡◌};
ghost use Rattle.sheet.specs.Values.{Fits};
ghost use Rattle.rig.specs.Result.{packed};

use sheet::Values;

// What one of class (2^40) and of place (2^16) counts in the number.
const CLASS: u64 = 1_099_511_627_776;

const PLACE: u64 = 65_536;

// Class, place, a and b, each in its own bits.
pub fn pack(v: Values) -> u64
    requires { Fits v }
    ensures { result ≡ packed v }
{
    let class = v.class as u64;
    let place = v.place as u64;
    let a = v.a as u64;
    let b = v.b as u64;
    class * CLASS + place * PLACE + a * 256 + b
}
