// The end of a reading that can't go on.
use base64::DecodeAllocError;
use serde_json::Error;
use std::alloc::AllocError;
use std::io;

/// A line is no row, memory was wanted, or reading or writing failed.
#[derive(Clone, Copy, Drop)]
pub struct Failed;

impl From<io::Error> for Failed {
    fn from(_: io::Error) -> Failed {
        Failed
    }
}

impl From<AllocError> for Failed {
    fn from(_: AllocError) -> Failed {
        Failed
    }
}

impl From<Error> for Failed {
    fn from(_: Error) -> Failed {
        Failed
    }
}

impl From<DecodeAllocError> for Failed {
    fn from(_: DecodeAllocError) -> Failed {
        Failed
    }
}
