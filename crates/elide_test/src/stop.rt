//! Why a file is not tried: [`Stop`], behind which no file is tried either.
//!
//! It comes from reading, from tests that are none, and from want of memory; which fault that is, with its number, is
//! said by `bailing`. A test that fails is no stop.

use elide_expect::TestFault;
use elide_program::ReadFault;
use std::alloc::AllocError;

/// Why a file is not tried.
#[derive(Clone, Copy, PartialEq, Eq, Debug)]
pub enum Stop {
    /// It cannot be read.
    Unread(ReadFault),
    /// This line, counted from 1, is the first that cannot be read as a test.
    BadTest(usize),
    /// There is no memory.
    NoMemory,
}

impl From<ReadFault> for Stop {
    fn from(fault: ReadFault) -> Stop {
        Stop::Unread(fault)
    }
}

impl From<TestFault> for Stop {
    fn from(fault: TestFault) -> Stop {
        match fault {
            TestFault::BadTest(line) => Stop::BadTest(line),
            TestFault::NoMemory => Stop::NoMemory,
        }
    }
}

impl From<AllocError> for Stop {
    fn from(_refused: AllocError) -> Stop {
        Stop::NoMemory
    }
}
