// Why a zone is not put into the zones of a server.
use thiserror::Error;

/// Why a zone is not put into the zones of a server. The zone is handed back.
#[derive(Drop, Error)]
#[derive_where(Debug)]
pub enum InsertZoneError<Z> {
    /// There is a zone of that apex and class.
    #[error("Zone already exists")]
    ZoneExists(#[derive_where(skip)] Z),
    /// Memory is wanting.
    #[error("out of memory")]
    Memory(#[derive_where(skip)] Z),
}
