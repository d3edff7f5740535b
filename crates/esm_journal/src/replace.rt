// Writes a new list over the file of a pair that is not in use, in three steps, each of which ends with a sync.
ghost use Rattle.std.specs.Prelude.{◌≡◌, ◌⊎◌, ◌+◌, ◌<◌, ◌≤◌, ◌==◌, ℕ, List, [], ◌∷◌, ◌++◌, true, length, drop, slice_index, OnOk, OnErr};
ghost use Rattle.std.specs.Int.{w64, to_be_bytes};
ghost use Rattle.esm_io.specs.Faults.{IsCount, Rose, MAX_FAULTS};
ghost use Rattle.esm_io.specs.Images.{overwritten, Only, LeavesOnly};
ghost use Rattle.esm_journal.specs.File.{entries, AreShort, IsFile};
ghost use Rattle.esm_journal.specs.Bytes.{rewritten};
ghost use Rattle.esm_journal.specs.Pair.{IsSpare};
ghost use Rattle.esm_journal.specs.Replace.{IsClosed, IsUnsealed, IsSpareOrNew};

use crate::format::{FIRST_GATE, SEAL};
use crate::head::head_bytes;
use crate::through::write_through;
use esm_io::{Disk, Failed};

/// Closes the seal if it is open. A seal that is not open is not written, since a crash could then leave it open.
fn close_seal<D: Disk>(disk: &mut D, sealed: bool) -> Result<(), Failed>
    requires seal { D.honest disk.old ≡ true → sealed ≡ (slice_index (D.content disk.old) 16 == 1) }
    requires long { D.honest disk.old ≡ true → 18 ≤ length (D.content disk.old) }
    requires synced { D.honest disk.old ≡ true → Only (D.content disk.old) (D.image disk.old) }
    requires faults { D.faults disk.old ≤ MAX_FAULTS }
    ensures closed { D.honest disk.old ≡ true → OnOk result (IsClosed (D.content disk.new)) }
    ensures behind { D.honest disk.old ≡ true → OnOk result (drop 17 (D.content disk.new) ≡ drop 17 (D.content disk.old)) }
    ensures durable { D.honest disk.old ≡ true → OnOk result (Only (D.content disk.new) (D.image disk.new)) }
    ensures any_moment { D.honest disk.old ≡ true → (kept : List ℕ) (lower : ℕ) → IsSpare kept lower (D.content disk.old) →
        LeavesOnly D.moment D.image_since disk.old disk.new (IsSpare kept lower) }
    ensures honesty { D.honest disk.new ≡ D.honest disk.old }
    ensures count { IsCount (D.faults disk.old) (D.faults disk.new) }
    ensures cause { OnErr result (Rose (D.faults disk.old) (D.faults disk.new)) }
{
    if !sealed {
        return Ok(());
    }
    write_through(disk, SEAL, &[0])
}

/// Writes on one side of the seal, which is closed in every image before and after.
fn write_apart<D: Disk>(disk: &mut D, at: u64, from: &[u8]) -> Result<(), Failed>
    requires apart { (at + length from.now ≤ 16) ⊎ (17 ≤ at) }
    requires within { D.honest disk.old ≡ true → at ≤ length (D.content disk.old) }
    requires closed { D.honest disk.old ≡ true → (image : List ℕ) → D.image disk.old image → IsClosed image }
    ensures written { D.honest disk.old ≡ true → OnOk result (D.content disk.new ≡ overwritten (D.content disk.old) at from.now) }
    ensures closed { D.honest disk.old ≡ true → (image : List ℕ) → D.image disk.new image → IsClosed image }
    ensures any_moment { D.honest disk.old ≡ true → LeavesOnly D.moment D.image_since disk.old disk.new IsClosed }
    ensures honesty { D.honest disk.new ≡ D.honest disk.old }
    ensures count { IsCount (D.faults disk.old) (D.faults disk.new) }
    ensures cause { OnErr result (Rose (D.faults disk.old) (D.faults disk.new)) }
{
    disk.write_at(at, from)
}

/// Writes the header, the epoch and a list, and syncs. The seal is not touched and stays closed.
fn write_list<D: Disk>(disk: &mut D, header: [u8; 8], epoch: u64, list: &[u8]) -> Result<(), Failed>
    requires eight { length header ≡ 8 }
    requires closed { D.honest disk.old ≡ true → IsClosed (D.content disk.old) }
    requires synced { D.honest disk.old ≡ true → Only (D.content disk.old) (D.image disk.old) }
    ensures written { D.honest disk.old ≡ true → (payloads : List (List ℕ)) → list.now ≡ entries payloads ++ 0 ∷ [] →
        OnOk result (IsUnsealed header epoch payloads (D.content disk.new)) }
    ensures bytes { D.honest disk.old ≡ true → OnOk result (D.content disk.new
        ≡ (header ++ to_be_bytes w64 epoch) ++ slice_index (D.content disk.old) 16 ∷ (list.now ++ drop (length list.now) (drop 17 (D.content disk.old)))) }
    ensures closed { D.honest disk.old ≡ true → OnOk result (IsClosed (D.content disk.new)) }
    ensures durable { D.honest disk.old ≡ true → OnOk result (Only (D.content disk.new) (D.image disk.new)) }
    ensures any_moment { D.honest disk.old ≡ true → LeavesOnly D.moment D.image_since disk.old disk.new IsClosed }
    ensures honesty { D.honest disk.new ≡ D.honest disk.old }
    ensures count { IsCount (D.faults disk.old) (D.faults disk.new) }
    ensures cause { OnErr result (Rose (D.faults disk.old) (D.faults disk.new)) }
{
    write_apart(disk, 0, &head_bytes(header, epoch))?;
    write_apart(disk, FIRST_GATE, list)?;
    disk.sync()?;
    Ok(())
}

/// Replaces a file that is not in use by one with `list`, which is the entries and a closed gate. A crash during the call
/// leaves a file that is not taken, or the new one; after Ok every crash leaves the new one.
pub(crate) fn replace_file<D: Disk>(
    disk: &mut D,
    sealed: bool,
    header: [u8; 8],
    epoch: u64,
    list: &[u8],
) -> Result<(), Failed>
    requires eight { length header ≡ 8 }
    requires seal { D.honest disk.old ≡ true → sealed ≡ (slice_index (D.content disk.old) 16 == 1) }
    requires long { D.honest disk.old ≡ true → 18 ≤ length (D.content disk.old) }
    requires synced { D.honest disk.old ≡ true → Only (D.content disk.old) (D.image disk.old) }
    requires faults { D.faults disk.old ≤ MAX_FAULTS }
    ensures file { D.honest disk.old ≡ true → (payloads : List (List ℕ)) → AreShort payloads → list.now ≡ entries payloads ++ 0 ∷ [] →
        OnOk result (IsFile header epoch payloads (D.content disk.new)) }
    ensures bytes { D.honest disk.old ≡ true → (payloads : List (List ℕ)) → list.now ≡ entries payloads ++ 0 ∷ [] →
        OnOk result (D.content disk.new ≡ rewritten header epoch payloads (D.content disk.old)) }
    ensures durable { D.honest disk.old ≡ true → OnOk result (Only (D.content disk.new) (D.image disk.new)) }
    ensures any_moment { D.honest disk.old ≡ true → (payloads : List (List ℕ)) → AreShort payloads → list.now ≡ entries payloads ++ 0 ∷ [] →
        (kept : List ℕ) (lower : ℕ) → IsSpare kept lower (D.content disk.old) →
        LeavesOnly D.moment D.image_since disk.old disk.new (IsSpareOrNew kept lower header epoch payloads) }
    ensures honesty { D.honest disk.new ≡ D.honest disk.old }
    ensures count { IsCount (D.faults disk.old) (D.faults disk.new) }
    ensures cause { OnErr result (Rose (D.faults disk.old) (D.faults disk.new)) }
{
    close_seal(disk, sealed)?;
    write_list(disk, header, epoch, list)?;
    write_through(disk, SEAL, &[1])?;
    Ok(())
}
