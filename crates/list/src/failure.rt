// Why a listing ends early: a read or a write failed, the input is too long, a write took nothing, or a row is longer
// than the buffer.
use rows::Room;
use std::error::Error;
use std::{fmt, io};

#[derive(Debug, Drop)]
pub(crate) enum Failure {
    Read(io::Error),
    Bytes,
    Write(io::Error),
    Nothing,
    Row,
}

impl fmt::Display for Failure {
    fn fmt<W: fmt::Write>(&self, f: &mut fmt::Formatter<W>) -> fmt::Result {
        match self {
            Failure::Read(e) => write!(f, "read: {e}"),
            Failure::Bytes => write!(f, "more than 2^62 bytes"),
            Failure::Write(e) => write!(f, "write: {e}"),
            Failure::Nothing => write!(f, "write: nothing was taken"),
            Failure::Row => write!(f, "a row is longer than the buffer"),
        }
    }
}

impl Error for Failure {}

impl From<Room> for Failure {
    fn from(_: Room) -> Failure {
        Failure::Row
    }
}
