ghost use Rattle.std.specs.Prelude.{◌≤◌, vec_len};

// What waits lies at the front of the memory, oldest first.
// A count beside the `Vec`: the memory is the maker's, handed back as long as it came, and no call may allocate.
#[derive(Drop)]
pub struct Queue<T> {
    pub(crate) memory: Vec<T>,
    pub(crate) count: usize,
    ghost few: { count ≤ vec_len memory },
}

// There is no room for all that was to be added.
#[derive(Clone, Copy, PartialEq, Eq, Debug)]
pub struct Full;
