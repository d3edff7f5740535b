// The stream whose changes a mapping's events have.
ghost use Rattle.std.specs.Prelude.{◌≡◌, IfOk};

use esm_model::{Config, OutOfMemory, Text};
use std::alloc::Global;

/// The stream of a DynamoDB table, by its region and its ARN.
#[derive(Drop, Debug)]
pub struct Source {
    pub region: Text,
    pub arn: Text,
}

impl Source {
    /// Returns the source of the mapping.
    pub fn of(alloc: Global, config: &Config) -> Result<Source, OutOfMemory>
        ensures { IfOk result (λ s. s ≡ record { region = config.now.region; arn = config.now.source_arn }) }
    {
        Ok(Source {
            region: config.region.copy(alloc)?,
            arn: config.source_arn.copy(alloc)?,
        })
    }

    /// Returns a copy of the source.
    pub fn copy(&self, alloc: Global) -> Result<Source, OutOfMemory>
        ensures { IfOk result (λ copy. copy ≡ self.now) }
    {
        Ok(Source {
            region: self.region.copy(alloc)?,
            arn: self.arn.copy(alloc)?,
        })
    }
}
