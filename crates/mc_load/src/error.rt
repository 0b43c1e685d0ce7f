//! Why a load gives no report.
use mc_cache::OpenError;
use thiserror::Error;

/// Why there is no report. The first that applies is returned: `Writers`, `Keys`, `Shards`, `Open`, `NoMemory`. No worker was started then.
#[derive(Clone, Copy, Debug, PartialEq, Eq, Error)]
pub enum LoadError {
    #[error(transparent)]
    Open(#[from] OpenError),
    #[error("no memory")]
    NoMemory,
    #[error("keys must be from 1 to 4294967296")]
    Keys,
    /// The gate refused a call of this worker. Of several workers it is the writer, or else the first reader.
    #[error("gate")]
    Gate { who: u32, call: u64 },
    /// Only a load in turns returns this or `Shards`.
    #[error("writers must be from 1 to 8")]
    Writers,
    #[error("shards must be a power of two from 1 to 256")]
    Shards,
}
