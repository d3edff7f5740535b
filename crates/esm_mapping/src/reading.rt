// Reading the mapping of a run, from its text or from the registry by its id.
ghost use Rattle.std.specs.Prelude.{◌≡◌, ℕ, List, IfOk, IfErr};
ghost use Rattle.esm_cli.specs.declared.command.Which.TheVariants.{Config};
ghost use Rattle.esm_io.specs.Meanings.{disk as meaning};
ghost use Rattle.esm_journal.specs.Reads.{IsOnlyRead};
ghost use Rattle.esm_mapping.specs.Named.{IsNamed, WhyNot};

use crate::expected::Expected;
use crate::given_text::read_expected;
use crate::named::MappingRead;
use crate::registered::read_registered;
use esm_cli::Which;
use esm_io::Disk;
use std::alloc::Global;

/// Reads the mapping that the words name, of a stream or of a queue, and where in its input it starts. For a text, the error
/// names the first field that is refused, in the order of the table, with a `LATEST` after all of them; then the mapping has
/// to be enabled. For an id, the registry's file is opened and judged first; then the mapping has to be there and to be
/// enabled. If its position is `LATEST`, it starts at the moment of its creation. Nothing is written, and if a text gives
/// the mapping, the registry's disk is not touched. `DiskFault` is returned only where the disk's count of faults rose.
pub fn read_mapping<D: Disk>(alloc: Global, which: &Which, registry: D) -> MappingRead<D>
    ensures named { IfOk result.named (IsNamed (meaning D.Disk) which.now registry) }
    ensures why { IfErr result.named (WhyNot (meaning D.Disk) which.now registry result.registry) }
    // What is left of the registry's disk.
    ensures only_read { IsOnlyRead (meaning D.Disk) registry result.registry }
    ensures untouched { (text : List ℕ) → which.now ≡ Config text → result.registry ≡ registry }
{
    match which {
        Which::Config(text) => MappingRead {
            named: read_expected(alloc, Expected::StreamOrQueue, text),
            registry,
        },
        Which::Mapping(id) => read_registered(alloc, id, registry),
    }
}
