// What a queue does, said of its contents and its capacity. No call allocates.
// Each call says that it keeps the capacity: one equation of whole queues would be no shorter, and callers split it.
ghost use Rattle.std.specs.Prelude.{◌≡◌, ◌-◌, min, [], length, take, drop, vec_len, ◌==◌};
ghost use Rattle.std.specs.List.{slice_get};
ghost use Rattle.queue.specs.Contents.{contents, capacity, push_answer, push_after, extend_answer, extend_after, copied};

use crate::queue::{Full, Queue};

impl<T: Copy> Queue<T> {
    // The length of the memory is the room.
    pub fn new(memory: Vec<T>) -> Queue<T>
        ensures contents { contents result ≡ [] }
        ensures capacity { capacity result ≡ vec_len memory }
    {
        Queue { memory, count: 0 }
    }

    pub fn len(&self) -> usize
        ensures { result ≡ length (contents self.now) }
    {
        self.count
    }

    pub fn is_empty(&self) -> bool
        ensures { result ≡ (length (contents self.now) == 0) }
    {
        self.count == 0
    }

    pub fn capacity(&self) -> usize
        ensures { result ≡ capacity self.now }
    {
        self.memory.len()
    }

    // How many more fit.
    pub fn room(&self) -> usize
        ensures { result ≡ capacity self.now - length (contents self.now) }
    {
        self.capacity() - self.count
    }

    // Adds an item at the end, or gives it back.
    pub fn push(&mut self, item: T) -> Result<(), T>
        ensures answer { result ≡ push_answer (contents self.old) (capacity self.old) item }
        ensures after { contents self.new ≡ push_after (contents self.old) (capacity self.old) item }
        ensures capacity { capacity self.new ≡ capacity self.old }
    {
        if self.room() == 0 {
            return Err(item);
        }
        self.memory[self.count] = item;
        self.count += 1;
        Ok(())
    }

    // Adds all the items at the end, or none of them.
    pub fn extend(&mut self, items: &[T]) -> Result<(), Full>
        ensures answer { result ≡ extend_answer (contents self.old) (capacity self.old) items.now }
        ensures after { contents self.new ≡ extend_after (contents self.old) (capacity self.old) items.now }
        ensures capacity { capacity self.new ≡ capacity self.old }
    {
        if items.len() > self.room() {
            return Err(Full);
        }
        let end = self.count + items.len();
        self.memory[self.count..end].copy_from_slice(items);
        self.count = end;
        Ok(())
    }

    // Lets the `n` oldest go, or all where there are no more.
    #[tactic(auto, using(crate::proofs::Memory::dropped))]
    pub fn drop_oldest(&mut self, n: usize)
        ensures after { contents self.new ≡ drop n (contents self.old) }
        ensures capacity { capacity self.new ≡ capacity self.old }
    {
        let gone = n.min(self.count);
        self.memory.rotate_left(gone);
        self.count -= gone;
    }

    // What waits, oldest first.
    pub fn as_slice(&self) -> &[T]
        ensures { result.now ≡ contents self.now }
    {
        &self.memory[..self.count]
    }

    // The i-th oldest, from 0.
    pub fn get(&self, i: usize) -> Option<T>
        ensures { result ≡ slice_get (contents self.now) i }
    {
        self.as_slice().get(i).copied()
    }

    // Copies the oldest to the front of `out`, as many as there are and as fit, and answers how many.
    pub fn copy_oldest(&self, out: &mut [T]) -> usize
        ensures answer { result ≡ min (length (contents self.now)) (length out.old) }
        ensures out { out.new ≡ copied (contents self.now) out.old }
    {
        let n = self.count.min(out.len());
        out[..n].copy_from_slice(&self.as_slice()[..n]);
        n
    }

    // The memory, with what waits at its front.
    pub fn into_memory(self) -> Vec<T>
        ensures capacity { vec_len result ≡ capacity self }
        ensures front { take (length (contents self)) result.items ≡ contents self }
    {
        let Queue { memory, count: _ } = self;
        memory
    }
}
