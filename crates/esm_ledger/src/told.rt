// Whether the journal said anything of a shard at opening, so that nothing is looked up that cannot be there.
ghost use Rattle.std.specs.Prelude.{◌≡◌, ℕ, true, false, None};
ghost use Rattle.esm_journal_state.specs.SaidLists.{fate_told, tries_told, has_shard};

use esm_journal_state::Says;

/// Whether the journal said anything of the shard; if not, no record of it has a found fate or found tries. Logarithmic in
/// the number of shards that it named.
pub fn is_told(found: &Says, shard: u64) -> bool
    ensures told { result ≡ has_shard found.now shard }
    ensures fates { result ≡ false → (i : ℕ) → fate_told found.now shard i ≡ None }
    ensures tries { result ≡ false → (i : ℕ) → tries_told found.now shard i ≡ None }
{
    match found.shards().binary_search(&shard) {
        Ok(_) => true,
        Err(_) => false,
    }
}

/// Whether the journal said anything of any shard; if not, no record has a found fate or found tries.
pub fn is_any_told(found: &Says) -> bool
    ensures some { result ≡ true → (n : ℕ) × (has_shard found.now n ≡ true) }
    ensures none { result ≡ false → (n : ℕ) → has_shard found.now n ≡ false }
    ensures fates { result ≡ false → (n i : ℕ) → fate_told found.now n i ≡ None }
    ensures tries { result ≡ false → (n i : ℕ) → tries_told found.now n i ≡ None }
{
    match found.shards() {
        [] => false,
        _ => true,
    }
}
