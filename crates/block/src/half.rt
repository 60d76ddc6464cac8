// Half-made and sealed blocks are plain numbers: their bytes lie in the buffer that is lent at each call. Neither can
// be copied, so a half-made block is sealed once, and nothing is added to a sealed one.
ghost use Rattle.std.specs.Prelude.{◌<◌, ◌≤◌};

#[derive(Drop)]
pub struct HalfMade {
    pub(crate) size: usize,
    ghost small: { size ≤ 512 },
}

#[derive(Drop)]
pub struct Sealed {
    pub(crate) len: usize,
    ghost some: { 0 < len },
    ghost small: { len ≤ 520 },
}
