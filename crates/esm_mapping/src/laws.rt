//! Laws that exactly one answer has its cause, as the contracts of functions that do nothing.
ghost use Rattle.std.specs.Prelude.{◌≡◌, ◌≢◌, ℕ, List, true};
ghost use Rattle.esm_cli.specs.declared.command.Which.{Which};
ghost use Rattle.esm_io.specs.Faults.{Rose};
ghost use Rattle.esm_io.specs.Meanings.{disk as meaning};
ghost use Rattle.esm_mapping.specs.Named.{IsExpected, IsNamed, WhyNot, WhyNotExpected};
ghost use Rattle.esm_mapping.specs.declared.expected.Expected.{Expected};
ghost use Rattle.esm_mapping.specs.declared.named.MappingError.{MappingError};
ghost use Rattle.esm_mapping.specs.declared.named.MappingError.TheVariants as error;
ghost use Rattle.esm_mapping.specs.declared.named.NamedMapping.{NamedMapping};

use esm_io::Disk;

/// If the registry's disk is honest and did not fail, the words name one mapping that may run, or there is one reason why
/// they name none. So, unless memory runs out, each answer is returned if and only if its cause holds.
pub fn one_answer<D: Disk>()
    ensures one_mapping { (w : Which) (old : D) (one other : NamedMapping) → D.honest old ≡ true
        → IsNamed (meaning D.Disk) w old one
        → IsNamed (meaning D.Disk) w old other → one ≡ other }
    ensures no_reason { (w : Which) (old new : D) (named : NamedMapping) (why : MappingError) → D.honest old ≡ true → ¬ Rose (D.faults old) (D.faults new)
        → IsNamed (meaning D.Disk) w old named
        → WhyNot (meaning D.Disk) w old new why → why ≡ error.OutOfMemory }
    ensures one_reason { (w : Which) (old new : D) (one other : MappingError) → D.honest old ≡ true → ¬ Rose (D.faults old) (D.faults new)
        → WhyNot (meaning D.Disk) w old new one → one ≢ error.OutOfMemory
        → WhyNot (meaning D.Disk) w old new other → other ≢ error.OutOfMemory → one ≡ other }
{}

/// A text is one mapping of the expected kind that may run, or there is one reason why it is not.
pub fn one_expected()
    ensures one_mapping { (e : Expected) (text : List ℕ) (one other : NamedMapping) → IsExpected e text one → IsExpected e text other → one ≡ other }
    ensures no_reason { (e : Expected) (text : List ℕ) (named : NamedMapping) (why : MappingError) → IsExpected e text named
        → WhyNotExpected e text why → why ≡ error.OutOfMemory }
    ensures one_reason { (e : Expected) (text : List ℕ) (one other : MappingError)
        → WhyNotExpected e text one → one ≢ error.OutOfMemory
        → WhyNotExpected e text other → other ≢ error.OutOfMemory → one ≡ other }
{}
