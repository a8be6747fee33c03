// Scripts are read from front to back: each step takes what it reads off the front of the bytes that are left.
ghost use Rattle.std.specs.Prelude.{◌≤◌};

use growth::Policy;
use std::error::Error;
use std::fmt;

// The most that a scratch, a writer's room or a set's bytes may have, and the most records of a set, their marks, and
// ends.
pub(crate) const ROOM: usize = 65536;

pub(crate) const RECORDS: usize = 1024;

pub(crate) const MARKS: usize = 2048;

pub(crate) const ENDS: usize = 4096;

// A script that is cut off, has an unknown call, or is outside the limits.
#[derive(Clone, Copy, Debug, PartialEq, Eq)]
pub(crate) struct BadScript;

impl fmt::Display for BadScript {
    fn fmt<W: fmt::Write>(&self, f: &mut fmt::Formatter<W>) -> fmt::Result {
        write!(f, "bad script")
    }
}

impl Error for BadScript {}

// A length that is within a limit.
#[derive(Clone, Copy)]
pub(crate) struct Length<const MOST: usize> {
    pub(crate) n: usize,
    ghost within: { n ≤ MOST },
}

impl<const MOST: usize> Length<MOST> {
    pub(crate) const ZERO: Length<MOST> = Length { n: 0 };

    // The front of so much memory, of which there is as much as the limit.
    pub(crate) fn front<T>(self, memory: &[T; MOST]) -> &[T] {
        &memory[..self.n]
    }

    pub(crate) fn front_mut<T>(self, memory: &mut [T; MOST]) -> &mut [T] {
        &mut memory[..self.n]
    }
}

impl<const MOST: usize> TryFrom<usize> for Length<MOST> {
    type Error = BadScript;

    fn try_from(n: usize) -> Result<Length<MOST>, BadScript> {
        if MOST < n {
            return Err(BadScript);
        }
        Ok(Length { n })
    }
}

// What is left of the scripts.
#[derive(Drop)]
pub(crate) struct Script<'a> {
    pub(crate) rest: &'a [u8],
}

// What a script begins with: the reader's numbers, what it is lent, its input, and how many calls follow.
#[derive(Clone, Copy)]
pub(crate) struct Setup<'a> {
    pub(crate) capacity: usize,
    pub(crate) policy: Policy,
    pub(crate) window: Length<ROOM>,
    pub(crate) table: Length<ENDS>,
    pub(crate) input: &'a [u8],
    pub(crate) calls: u32,
}

impl<'a> Script<'a> {
    pub(crate) fn setup(&mut self) -> Result<Setup<'a>, BadScript> {
        if self.u32()? != 6 {
            return Err(BadScript);
        }
        let capacity = self.size()?;
        let policy = self.policy()?;
        let window = Length::try_from(self.size()?)?;
        let table = Length::try_from(self.size()?)?;
        let input = self.counted()?;
        let calls = self.u32()?;
        Ok(Setup {
            capacity,
            policy,
            window,
            table,
            input,
            calls,
        })
    }

    fn policy(&mut self) -> Result<Policy, BadScript> {
        let kind = self.u64()?;
        let n = self.size()?;
        let limit = self.size()?;
        Policy::of_kind(kind, n, limit).ok_or(BadScript)
    }

    // A count, and so many bytes.
    fn counted(&mut self) -> Result<&'a [u8], BadScript> {
        let count = self.count()?;
        self.bytes(count)
    }

    pub(crate) fn bytes(&mut self, n: usize) -> Result<&'a [u8], BadScript> {
        self.rest.split_off(..n).ok_or(BadScript)
    }

    // A count of four bytes within a limit.
    pub(crate) fn length<const MOST: usize>(&mut self) -> Result<Length<MOST>, BadScript> {
        Length::try_from(self.count()?)
    }

    pub(crate) fn count(&mut self) -> Result<usize, BadScript> {
        Ok(self.u32()? as usize)
    }

    pub(crate) fn size(&mut self) -> Result<usize, BadScript> {
        Ok(self.u64()? as usize)
    }

    pub(crate) fn u8(&mut self) -> Result<u8, BadScript> {
        Ok(u8::from_le_bytes(self.array()?))
    }

    fn u32(&mut self) -> Result<u32, BadScript> {
        Ok(u32::from_le_bytes(self.array()?))
    }

    pub(crate) fn u64(&mut self) -> Result<u64, BadScript> {
        Ok(u64::from_le_bytes(self.array()?))
    }

    fn array<const N: usize>(&mut self) -> Result<[u8; N], BadScript> {
        let (first, rest) = self.rest.split_first_chunk().ok_or(BadScript)?;
        self.rest = rest;
        Ok(*first)
    }
}
