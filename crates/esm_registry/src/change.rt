// What one payload of the registry's journal says: a mapping created, changed or deleted.
use esm_model::Config;
use uuid::Uuid;

/// What one payload of a registry's journal says. Moments are in milliseconds since 1970.
#[derive(Drop, Debug)]
pub enum Change {
    /// A mapping was created.
    Created {
        id: Uuid,
        moment: u64,
        config: Config,
    },
    /// A mapping got another configuration.
    Updated {
        id: Uuid,
        moment: u64,
        config: Config,
    },
    /// A mapping was deleted.
    Deleted {
        id: Uuid,
        moment: u64,
    },
}
