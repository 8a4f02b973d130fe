// A buffer that a script sets up. Of its elements the first `used` are lent; those past them stay as they were, since
// shortening a vector writes over what it drops, and a script may lengthen and shorten one with every step.
ghost use Rattle.std.specs.Prelude.{◌≤◌, length};

use crate::stop::Stop;
use arrayvec::ArrayVec;

#[derive(Drop)]
pub(crate) struct Buffer<T, const N: usize> {
    all: ArrayVec<T, N>,
    used: usize,
}

impl<T: Copy + Default + Drop, const N: usize> Buffer<T, N> {
    pub(crate) fn new() -> Self {
        Buffer {
            all: ArrayVec::new(),
            used: 0,
        }
    }

    // So many elements, each of this value. The limit is tested first: nothing of a step that breaks it is done. One by
    // one go those alone that were never used before.
    pub(crate) fn set(&mut self, count: usize, value: T) -> Result<(), Stop> {
        if N < count {
            return Err(Stop::BadScript);
        }
        for x in self.all.as_mut_slice().iter_mut().take(count) {
            *x = value;
        }
        for _ in self.all.len()..count {
            self.all.try_push(value).map_err(|_| Stop::BadScript)?;
        }
        self.used = count;
        Ok(())
    }

    pub(crate) fn as_slice(&self) -> &[T]
        ensures { length result.now ≤ N }
    {
        self.all.as_slice().get(..self.used).unwrap_or(&[])
    }

    pub(crate) fn as_mut_slice(&mut self) -> &mut [T]
        ensures { length result.now ≤ N }
    {
        let used = self.used;
        self.all.as_mut_slice().get_mut(..used).unwrap_or(&mut [])
    }
}

impl<const N: usize> Buffer<u8, N> {
    // These bytes.
    pub(crate) fn set_to(&mut self, from: &[u8]) -> Result<(), Stop> {
        self.set(from.len(), 0)?;
        for (x, byte) in self.as_mut_slice().iter_mut().zip(from) {
            *x = *byte;
        }
        Ok(())
    }
}
