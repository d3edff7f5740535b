// The UUID of a mapping, and its source and function.
ghost use Rattle.std.specs.Prelude.{◌≡◌, IfOk};
ghost use Rattle.esm_registry.specs.Index.{arns_of};
ghost use Rattle.esm_registry.specs.Lists.{uuid_of};
ghost use Rattle.esm_registry.specs.Pairs.{arns};

use crate::counts::Pair;
use esm_model::{Config, OutOfMemory};
use std::alloc::Global;
use uuid::Uuid;

/// The UUID of the mapping whose creation has this number, counted from 1.
#[tactic(auto, unfolding(crate::specs::Lists::uuid_of))]
pub(crate) fn uuid_of(alloc: Global, config: &Config, number: u64) -> Result<Uuid, OutOfMemory>
    ensures { IfOk result (λ id. id ≡ uuid_of config.now number) }
{
    let source = config.source_arn.as_str();
    let function = config.function_arn.as_str();
    let name = format!(in alloc; "{source}\n{function}\n{number}")?;
    Ok(Uuid::new_v3(&Uuid::NAMESPACE_URL, name.as_bytes()))
}

/// The source and the function of a configuration.
pub(crate) fn pair_of(alloc: Global, config: &Config) -> Result<Pair, OutOfMemory>
    ensures { IfOk result (λ pair. arns pair ≡ arns_of config.now) }
{
    let source = String::from_str(alloc, config.source_arn.as_str())?;
    let function = String::from_str(alloc, config.function_arn.as_str())?;
    Ok((source, function))
}
