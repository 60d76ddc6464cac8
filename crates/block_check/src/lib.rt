// What a check over bytes is. The checks themselves stand in a crate of their own, so that code which is generic in
// the check knows none of them.
#![tactic(auto)]

ghost use Rattle.std.specs.Prelude.{◌≡◌};
ghost use Rattle.block_check.specs.Law.{Code, Bytes, Lawful};

// A check is a type: it has no state, and its calls need no value of it.
pub trait Check {
    // Its width, 1 or 2 bytes, and its value of every byte string.
    ghost code: { Code };

    fn width() -> usize
        ensures { result ≡ code.width };

    // Every byte is read, so a caller also learns that the list holds bytes.
    fn value(bytes: &[u8]) -> u16
        ensures answer { result ≡ code.value bytes.now }
        ensures bytes { Bytes bytes.now };

    ghost lawful: { Lawful code.width code.value };
}
