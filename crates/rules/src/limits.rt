// The limits that an end can be made with.
ghost use Rattle.std.specs.Prelude.{◌≡◌};
ghost use Rattle.rules.specs.Ends.{in_limits};

use login::Parameters;

// Of the baud, which has two bytes, only 0 is out of range.
pub fn limits_hold(limits: Parameters) -> bool
    ensures { result ≡ in_limits limits }
{
    limits.offset <= 8 && 270 <= limits.payload && limits.payload <= 512 && 1 <= limits.baud
}
