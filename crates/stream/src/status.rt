// What a program tells of its end: one byte on a descriptor, where it was started with an argument that asks for it. Its exit status stays 0.
ghost use Rattle.std.specs.Prelude.{◌≡◌, pos};
ghost use Rattle.stream.specs.Status.{byte_of, status_descriptor, status_of};

use crate::output::Unwritten;
use std::env::{Env, FillError};

// All went, the input was refused, it could not be read, the output could not be written.
#[derive(Clone, Copy, PartialEq, Eq, Debug)]
pub enum Status {
    Done,
    Refused,
    Unread,
    Unwritten,
}

impl From<Status> for u8 {
    ghost from_gives = { λ status byte. byte ≡ byte_of status };

    fn from(status: Status) -> u8 {
        match status {
            Status::Done => b'0',
            Status::Refused => b'1',
            Status::Unread => b'2',
            Status::Unwritten => b'3',
        }
    }
}

// Where the status is told.
const STATUS_FILENO: i32 = 3;

// The status of an input that was read: whether all of the output went, and the input's refusal, 0 for none. It is a number, since this library
// knows nothing of sheets and takes whatever number a program has.
pub fn status_of(sent: Result<(), Unwritten>, refusal: i64) -> Status
    ensures { result ≡ status_of sent refusal }
{
    match sent {
        Ok(()) if refusal == 0 => Status::Done,
        Ok(()) => Status::Refused,
        Err(_) => Status::Unwritten,
    }
}

// Tells a status, or any byte, where the program was started with an argument at this place, counted from 1. The clause holds the descriptor to its
// definition; that the byte arrives no contract says.
pub fn tell(rt: &impl Env, argument: usize, status: impl Into<u8> + Drop)
    ensures { STATUS_FILENO ≡ pos status_descriptor }
{
    if let Err(FillError::NotPresent) = rt.arg(argument, &mut []) {
        return;
    }
    io::write_all(STATUS_FILENO, &[status.into()]);
}
