// What is asked of codes and offsets, and how one is added.
ghost use Rattle.std.specs.Prelude.{◌≡◌, ◌+◌, ◌<◌, ◌≤◌, [], ◌∷◌, ◌++◌, length, Ok, slice_index_or};
ghost use Rattle.reading.specs.Heads.{head, used};
ghost use Rattle.reading.specs.Listings.{admit};

use super::{Head, Heads};
use faults::fault::ReadFault;

impl Heads {
    pub(crate) fn new() -> Heads
        ensures { result ≡ [] }
    {
        Heads {
            heads: [Head { code: 0, at: 0 }; 32],
            count: 0,
        }
    }

    // Those that are held.
    pub fn as_slice(&self) -> &[Head]
        ensures is { result.now ≡ self.now }
        ensures few { length result.now ≤ 32 }
    {
        &self.heads[..self.count]
    }

    pub fn len(&self) -> usize
        ensures is { result ≡ length self.now }
        ensures few { result ≤ 32 }
    {
        self.as_slice().len()
    }

    // The one at an index.
    pub fn get(&self, i: usize) -> Head
        requires { i < length self.now }
        ensures { result ≡ slice_index_or self.now i (head 0 0) }
    {
        self.as_slice()[i]
    }

    // Is a code among them?
    pub fn contains(&self, code: u8) -> bool
        ensures { result ≡ used code self.now }
    {
        listed(self.as_slice(), code)
    }

    // May one more be added? Its code is to be its own, and there is to be room; else the fault at its place.
    pub(crate) fn admit(&self, head: Head) -> Result<(), ReadFault>
        ensures { result ≡ admit head.code head.at self.now (Ok tt) }
    {
        if self.contains(head.code) {
            Err(ReadFault::CodeUsed(head.at))
        } else if self.count >= self.heads.len() {
            Err(ReadFault::TooMany(head.at))
        } else {
            Ok(())
        }
    }

    // One more at the end.
    pub(crate) fn add(&mut self, head: Head)
        requires { length self.old < 32 }
        ensures { self.new ≡ self.old ++ head ∷ [] }
    {
        self.heads[self.count] = head;
        self.count += 1;
    }
}

// Is a code among some?
pub fn listed(heads: &[Head], code: u8) -> bool
    ensures { result ≡ used code heads.now }
{
    heads.iter().any(|head| head.code == code)
}
