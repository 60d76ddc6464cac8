ghost use Rattle.std.specs.Prelude.{◌≡◌, ◌≤◌, true};
ghost use Rattle.block.specs.Form.{in_range};
ghost use Rattle.rules.specs.Frames.{no_heading};

use block::heading::Heading;

// A frame without its payload, which stands in the store.
// A size beside a slot, since a rule of the project lends the store as fixed memory at each call.
#[derive(Clone, Copy)]
pub struct Entry {
    pub(crate) heading: Heading,
    pub(crate) size: usize,
    ghost fields: { in_range heading ≡ true },
    ghost short: { size ≤ 512 },
}

// What memory holds where no frame waits. By hand, since nothing is derived beside ghost fields.
impl Default for Entry {
    ghost is_default = { λ e. (e.heading ≡ no_heading) × (e.size ≡ 0) };

    fn default() -> Entry {
        Entry {
            heading: Heading::default(),
            size: 0,
        }
    }
}
