// The end of a measurement that can't go on.
use matchit::InsertError;
use smithy_http::HttpError;
use smithy_recovery::RecoverError;
use smithy_router::RouteError;
use smithy_schema::SchemaError;
use smithy_serde::SerdeError;
use smithy_types::OutOfMemory;
use std::alloc::AllocFailed;
use std::io;

/// The words name no sample, memory was wanted, or a sample was refused or not read whole.
#[derive(Clone, Copy, Drop)]
pub struct Failed;

impl From<io::Error> for Failed {
    fn from(_: io::Error) -> Failed {
        Failed
    }
}

impl<T: Drop> From<AllocFailed<T>> for Failed {
    fn from(_: AllocFailed<T>) -> Failed {
        Failed
    }
}

impl From<OutOfMemory> for Failed {
    fn from(_: OutOfMemory) -> Failed {
        Failed
    }
}

impl From<HttpError> for Failed {
    fn from(_: HttpError) -> Failed {
        Failed
    }
}

impl From<SchemaError> for Failed {
    fn from(_: SchemaError) -> Failed {
        Failed
    }
}

impl From<SerdeError> for Failed {
    fn from(_: SerdeError) -> Failed {
        Failed
    }
}

impl From<RecoverError> for Failed {
    fn from(_: RecoverError) -> Failed {
        Failed
    }
}

impl From<RouteError> for Failed {
    fn from(_: RouteError) -> Failed {
        Failed
    }
}

impl From<InsertError> for Failed {
    fn from(_: InsertError) -> Failed {
        Failed
    }
}
