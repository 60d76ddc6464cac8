// The fixed part of a script: how many steps it has, and how long it is.
ghost use Rattle.std.specs.Prelude.{◌≡◌, ◌+◌, ◌<◌, length};
ghost use Rattle.script.specs.Format.{number_at, shaped};

// The number in two bytes, the high one first.
pub(crate) fn number_at(bytes: &[u8], place: usize) -> u16
    requires { place + 1 < length bytes.now }
    ensures { result ≡ number_at bytes.now place }
{
    u16::from_be_bytes([bytes[place], bytes[place + 1]])
}

pub(crate) fn is_shaped(script: &[u8]) -> bool
    ensures { result ≡ shaped script.now }
{
    if script.len() < 6 {
        return false;
    }
    let steps = usize::from(number_at(script, 0));
    steps <= 10_000 && script.len() == 6 + 5 * steps
}
