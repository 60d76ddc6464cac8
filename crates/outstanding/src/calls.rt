// What is done with the outstanding frames, said of the frames as a store shows them.
ghost use Rattle.std.specs.Prelude.{◌≡◌, ℕ, ◌+◌, ◌*◌, ◌%◌, ◌<◌, ◌≤◌, List, [], ◌∷◌, ◌++◌, length, drop, IfOk, OnErr, if◌then◌else◌, None, ◌==◌, nat_le, position};
ghost use Rattle.std.specs.List.{slice_get};
ghost use Rattle.block.specs.Reading.{content};
ghost use Rattle.queue.specs.Contents.{contents};
ghost use Rattle.rules.specs.Records.{clears};
ghost use Rattle.outstanding.specs.Frames.{frames, shown, may_push, push_answer};

use crate::entry::Entry;
use crate::outstanding::Outstanding;
use block::frame::Frame;
use block::heading::Heading;
use queue::{Full, Queue};
use std::alloc::{AllocError, Global};

impl Outstanding {
    #[tactic(auto, unfolding(crate::specs::Frames::frames))]
    pub fn new(heap: Global) -> Result<Outstanding, AllocError>
        ensures { IfOk result (λ o. (store : List ℕ) → frames o store ≡ []) }
    {
        let memory = vec![in heap; Entry::default(); 8]?;
        Ok(Outstanding {
            entries: Queue::new(memory),
            first: 0,
        })
    }

    #[tactic(auto, using(crate::proofs::Slots::counts))]
    pub fn len(&self) -> usize
        ensures value { (store : List ℕ) → result ≡ length (frames self.now store) }
        ensures bound { result ≤ 8 }
    {
        self.entries.len()
    }

    // Where the payload of the k-th oldest begins in a store.
    fn start(&self, k: usize) -> usize
        requires { k ≤ 8 }
        ensures { result ≡ 512 * ((self.now.first + k) % 8) }
    {
        512 * ((self.first + k) % 8)
    }

    // Whether a frame can be added.
    fn may_push(&self, heading: Heading, payload: &[u8], store: &[u8]) -> bool
        ensures { result ≡ may_push heading (length payload.now) (length store.now) (length (frames self.now store.now)) }
    {
        heading.is_in_range() && payload.len() <= 512 && store.len() >= 4096 && self.len() < 8
    }

    // The payload goes into the slot behind the newest frame.
    #[tactic(auto, using(crate::proofs::Slots::counts), unfolding(crate::specs::Frames::frames))]
    fn add(&mut self, frame: Frame<'_>, store: &mut [u8])
        requires long { 4096 ≤ length store.old }
        requires room { length (frames self.old store.old) < 8 }
        ensures { frames self.new store.new ≡ frames self.old store.old ++ content frame.entry ∷ [] }
    {
        let Frame { heading, payload } = frame;
        let start = self.start(self.len());
        let size = payload.len();
        store[start..start + size].copy_from_slice(payload);
        self.entries.push(Entry { heading, size }).unwrap();
    }

    // Adds a frame at the end, if it can be added. Heading and payload come apart, since a `Frame` would ask of callers
    // the range and the size that are tested here.
    pub fn push(&mut self, heading: Heading, payload: &[u8], store: &mut [u8]) -> Result<(), Full>
        ensures answer { result ≡ push_answer heading (length payload.now) (length store.old) (length (frames self.old store.old)) }
        ensures after { frames self.new store.new ≡ (if may_push heading (length payload.now) (length store.old) (length (frames self.old store.old)) then (frames self.old store.old ++ record { heading = heading; payload = payload.now } ∷ []) else frames self.old store.old) }
        ensures kept { OnErr result ((self.new ≡ self.old) × (store.new ≡ store.old)) }
    {
        if !self.may_push(heading, payload, store) {
            return Err(Full);
        }
        self.add(Frame { heading, payload }, store);
        Ok(())
    }

    // The place of the oldest frame of the number.
    fn place(&self, number: u8) -> Option<usize>
        ensures { result ≡ position (λ e. e.heading.number == number) (contents self.now.entries) }
    {
        let mut entries = self.entries.as_slice().iter();
        entries.position(|entry| entry.heading.number == number)
    }

    // How many frames an acknowledgement of the number clears.
    #[tactic(auto, using(crate::proofs::Finding::clears_place), unfolding(crate::specs::Frames::frames))]
    pub fn find(&self, number: u8) -> usize
        ensures { (store : List ℕ) → result ≡ clears number (frames self.now store) }
    {
        self.place(number).map_or(0, |k| k + 1)
    }

    // Lets the `n` oldest go, or all where there are no more.
    #[tactic(auto, using(crate::proofs::Slots::counts, crate::proofs::Slots::frames_clear), unfolding(crate::specs::Frames::frames))]
    pub fn clear(&mut self, n: usize)
        ensures { (store : List ℕ) → frames self.new store ≡ drop n (frames self.old store) }
    {
        let gone = n.min(self.len());
        self.entries.drop_oldest(gone);
        self.first = (self.first + gone) % 8;
    }

    // The k-th oldest, from 0, as it is sent again: its payload is a part of the store. A store too short shows none.
    #[tactic(auto, using(crate::proofs::Slots::nth_frames), unfolding(crate::specs::Frames::frames))]
    pub fn get<'a>(&self, k: usize, store: &'a [u8]) -> Option<Frame<'a>>
        ensures value { shown result ≡ (if nat_le 4096 (length store.now) then slice_get (frames self.now store.now) k else None) }
    {
        if store.len() < 4096 {
            return None;
        }
        let entry = self.entries.get(k)?;
        let start = self.start(k);
        Some(Frame {
            heading: entry.heading,
            payload: &store[start..start + entry.size],
        })
    }
}

#[cfg(test)]
mod tests {
    use super::*;
    use std::test::Fail;

    // Sends a frame with its number as payload, if there is room.
    fn send(sent: &mut Outstanding, number: u8, store: &mut [u8]) -> bool {
        let heading = Heading {
            origin: 0,
            protocol: 1,
            kind: 0,
            number,
            exchange: 1,
        };
        sent.push(heading, &[number], store).is_ok()
    }

    #[test]
    fn round_the_slots(rt: HostRuntime) -> Result<(), Fail> {
        let mut sent = Outstanding::new(rt.alloc())?;
        let mut store = [0; 4096];
        let slots = &mut store[0..4096];
        for number in 1..7 {
            assert!(rt; send(&mut sent, number, slots));
        }
        sent.clear(sent.find(4));
        for number in 7..13 {
            assert!(rt; send(&mut sent, number, slots));
        }
        assert!(rt; !send(&mut sent, 13, slots));
        assert_eq!(rt; sent.len(), 8);
        assert_eq!(rt; sent.find(12), 8);
        assert_eq!(rt; sent.find(13), 0);
        let Some(frame) = sent.get(7, slots) else {
            return Err(Fail::new("one is missing"));
        };
        assert_eq!(rt; frame.heading.number, 12);
        assert!(rt; frame.payload == [12].as_slice());
        assert!(rt; sent.get(8, slots).is_none());
        assert!(rt; sent.get(7, &slots[1..4096]).is_none());
        Ok(())
    }
}
