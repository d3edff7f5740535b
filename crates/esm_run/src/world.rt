// All that a command touches, such as disks, clock and callers, before the command and after it.
use esm_model::Entry;

/// All that a command touches: the input and the output, the disks, the clock, one caller for each batcher, the door through
/// which connections arrive, and the history that a run leaves, oldest entry first.
#[derive(Drop)]
pub struct World<S, K, D, C, F, L> {
    pub input: S,
    pub out: K,
    pub journal: D,
    pub spare: D,
    pub failures: D,
    pub registry: D,
    pub clock: C,
    pub callers: Vec<F>,
    pub door: L,
    pub trace: Vec<Entry>,
}

/// A command's exit status, and the world as it left it.
#[derive(Drop)]
pub struct Ended<S, K, D, C, F, L> {
    pub status: u8,
    pub world: World<S, K, D, C, F, L>,
}
