//! The answers of endpoints that aren't success.

use thiserror::Error;

/// Why an endpoint isn't added.
#[derive(Clone, Copy, Debug, PartialEq, Eq, Error)]
pub enum EndsFault {
    /// An endpoint stands under the name.
    #[error("an endpoint stands under the name")]
    SameName,
    /// 64 endpoints were added, retired ones counted.
    #[error("64 endpoints were added")]
    TooMany,
    /// There was no memory.
    #[error("out of memory")]
    NoMemory,
}

/// Why a piece isn't delivered.
#[derive(Clone, Copy, Debug, PartialEq, Eq, Error)]
pub enum DeliverFault {
    /// No endpoint stands under the name.
    #[error("no endpoint stands under the name")]
    Unknown,
    /// The endpoint failed, and its count of faults rose.
    #[error("the endpoint failed")]
    Failed,
}

/// No endpoint stands under the name.
#[derive(Clone, Copy, Debug, PartialEq, Eq, Error)]
#[error("no endpoint stands under the name")]
pub struct Unknown;
