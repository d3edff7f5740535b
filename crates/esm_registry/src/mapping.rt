// An event source mapping as the registry keeps it: its UUID, configuration and moments.
use esm_model::Config;
use uuid::Uuid;

/// An event source mapping.
#[derive(Drop, Debug)]
pub struct Mapping {
    /// A UUID of version 3, from the source, the function and the creation number; it never changes.
    pub id: Uuid,
    pub config: Config,
    /// When it was created, in milliseconds since 1970; it never changes.
    pub created: u64,
    /// When it was created or last changed, in milliseconds since 1970.
    pub modified: u64,
}
