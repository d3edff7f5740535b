// A tree of moments by place, for finding the next place with a moment that is not after a given one.
ghost use Rattle.std.specs.Prelude.{◌≡◌, ℕ, ◌+◌, ◌*◌, ◌^◌, ◌<◌, ◌≤◌, length, drop, slice_set, slice_index, ◌++◌, ◌∷◌, [], IfOk, OnOk, IsOk, IsNone, IfSome};
ghost use Rattle.esm_queue.specs.declared.moment_tree.TheConstants.{NEVER};
ghost use Rattle.esm_queue.specs.Moments.{Moments, IsFirstAt, NoneAt};
ghost use Rattle.esm_queue.specs.Nodes.{HasLeast, IsFirstLeaf, NoLeaf};

use esm_model::OutOfMemory;
use std::alloc::Global;
use std::marker::Model;

/// After every moment.
pub const NEVER: u64 = u64::MAX;

/// Moments by place. Above them is a binary tree in which each node has the lesser of the two below it, so that the next
/// place with a moment that is not after a given one is found without a look at the others.
#[derive(Drop, Debug)]
pub struct MomentTree {
    /// The number of moments.
    len: usize,
    /// The number of levels above the leaves.
    height: u32,
    /// The number of leaves; those without a moment have `NEVER`.
    width: usize,
    /// Node 1 is the root, the nodes below node k are 2k and 2k + 1, and the leaves are the last `width` ones.
    nodes: Vec<u64>,
}

impl Model for MomentTree {
    ghost use Rattle.std.specs.Prelude.{◌-◌, take, drop};
    ghost use Rattle.esm_queue.specs.declared.moment_tree.TheConstants.{NEVER};
    ghost use Rattle.esm_queue.specs.Moments.{Moments, IsFirstAt, NoneAt};
    ghost use Rattle.esm_queue.specs.Tree.{IsTree};

    ghost Value = { Moments };

    ghost view = { λ t. record { moments = take t.len (drop t.width t.nodes.items); spare = t.width - t.len } };

    ghost invariant = { λ t. IsTree t };
}

/// Sets the moment of the leaf, and gives each node above it the lesser of the two below it.
fn set_leaf(nodes: &mut [u64], width: usize, place: usize, moment: u64)
    requires whole { length nodes.old ≡ width + width }
    requires within { place < width }
    requires least { HasLeast 0 width nodes.old }
    ensures least { HasLeast 0 width nodes.new }
    ensures leaves { drop width nodes.new ≡ slice_set (drop width nodes.old) place moment }
    ensures leaf { slice_index nodes.new (width + place) ≡ moment }
    ensures others { (i : ℕ) → width ≤ i → (i ≡ width + place → ⊥) → slice_index nodes.new i ≡ slice_index nodes.old i }
    ensures whole { length nodes.new ≡ length nodes.old }
{
    let mut node = width + place;
    nodes[node] = moment;
    while 1 < node {
        node /= 2;
        nodes[node] = nodes[2 * node].min(nodes[2 * node + 1]);
    }
}

/// The first leaf below the node, from `from` on, whose moment is not after `at`.
fn find_leaf(
    nodes: &[u64],
    width: usize,
    node: usize,
    height: u32,
    from: usize,
    at: u64,
) -> Option<usize>
    requires low { height ≤ 33 }
    requires some { 1 ≤ node }
    requires whole { length nodes.now ≡ width + width }
    requires within { (node + 1) * 2 ^ height ≤ width + width }
    requires few { width ≤ 2 ^ 33 }
    requires least { HasLeast 0 width nodes.now }
    ensures none { IsNone result → NoLeaf nodes.now (node * 2 ^ height) ((node + 1) * 2 ^ height) from at }
    ensures some { IfSome result (IsFirstLeaf nodes.now (node * 2 ^ height) ((node + 1) * 2 ^ height) from at) }
{
    if node < from >> height || at < nodes[node] {
        return None;
    }
    if height == 0 {
        return Some(node);
    }
    match find_leaf(nodes, width, 2 * node, height - 1, from, at) {
        Some(leaf) => Some(leaf),
        None => find_leaf(nodes, width, 2 * node + 1, height - 1, from, at),
    }
}

/// The least number of levels above `leaves` leaves.
fn height_for(leaves: usize) -> u32
    requires { leaves ≤ 2 ^ 33 }
    ensures low { result ≤ 33 }
    ensures enough { leaves ≤ 2 ^ result }
{
    for height in 0..33 {
        if leaves <= 1 << height {
            return height;
        }
    }
    33
}

/// The number of leaves below `height` levels.
fn width_of(height: u32) -> usize
    requires { height ≤ 33 }
    ensures width { result ≡ 2 ^ height }
    ensures some { 1 ≤ result }
    ensures few { result ≤ 2 ^ 33 }
{
    1 << height
}

/// The nodes of a tree with `width` leaves, over the moments.
fn nodes_over(alloc: Global, moments: &[u64], width: usize) -> Result<Vec<u64>, OutOfMemory>
    requires some { 1 ≤ width }
    requires few { width ≤ 2 ^ 33 }
    requires within { length moments.now ≤ width }
    ensures whole { IfOk result (λ nodes. length nodes.items ≡ width + width) }
    ensures least { IfOk result (λ nodes. HasLeast 0 width nodes.items) }
    ensures leaves { IfOk result (λ nodes. (i : ℕ) → i < length moments.now → slice_index nodes.items (width + i) ≡ slice_index moments.now i) }
    ensures blank { IfOk result (λ nodes. (i : ℕ) → width + length moments.now ≤ i → i < width + width → slice_index nodes.items i ≡ NEVER) }
{
    let mut nodes = vec![in alloc; NEVER; 2 * width]?;
    for place in 0..moments.len() {
        set_leaf(nodes.as_mut_slice(), width, place, moments[place]);
    }
    Ok(nodes)
}

impl MomentTree {
    /// A tree without moments.
    pub fn new(alloc: Global) -> Result<MomentTree, OutOfMemory>
        ensures { IfOk result (λ t. t.moments ≡ []) }
    {
        let nodes = vec![in alloc; NEVER; 2]?;
        Ok(MomentTree {
            len: 0,
            height: 0,
            width: 1,
            nodes,
        })
    }

    /// Reserves room for `n` more moments.
    pub fn reserve(&mut self, alloc: Global, n: u32) -> Result<(), OutOfMemory>
        requires few { length self.old.moments ≤ u32.MAX }
        ensures moments { self.new.moments ≡ self.old.moments }
        ensures ok { OnOk result (n ≤ self.new.spare) }
        ensures kept { self.old.spare ≤ self.new.spare }
        ensures succeeds { n ≤ self.old.spare → IsOk result }
    {
        if n as usize <= self.width - self.len {
            return Ok(());
        }
        let height = height_for(self.len + n as usize);
        let width = width_of(height);
        let moments = &self.nodes[self.width..self.width + self.len];
        let nodes = nodes_over(alloc, moments, width)?;
        self.height = height;
        self.width = width;
        self.nodes = nodes;
        Ok(())
    }

    /// Appends a moment, for which there is room.
    pub fn push(&mut self, moment: u64)
        requires { 0 < self.old.spare }
        ensures moments { self.new.moments ≡ self.old.moments ++ moment ∷ [] }
        ensures spare { self.new.spare + 1 ≡ self.old.spare }
    {
        set_leaf(self.nodes.as_mut_slice(), self.width, self.len, moment);
        self.len += 1;
    }

    /// The moment at the place.
    pub fn get(&self, place: u32) -> u64
        requires { place < length self.now.moments }
        ensures { result ≡ slice_index self.now.moments place }
    {
        self.nodes[self.width + place as usize]
    }

    /// Sets the moment at the place.
    pub fn set(&mut self, place: u32, moment: u64)
        requires { place < length self.old.moments }
        ensures moments { self.new.moments ≡ slice_set self.old.moments place moment }
        ensures spare { self.new.spare ≡ self.old.spare }
    {
        set_leaf(
            self.nodes.as_mut_slice(),
            self.width,
            place as usize,
            moment,
        );
    }

    /// The first place from `from` on with a moment that is not after `at`.
    pub fn first_from(&self, from: u32, at: u64) -> Option<u32>
        requires few { length self.now.moments ≤ u32.MAX }
        requires early { at < NEVER }
        ensures none { IsNone result → NoneAt self.now.moments from at }
        ensures some { IfSome result (IsFirstAt self.now.moments from at) }
    {
        let nodes = self.nodes.as_slice();
        match find_leaf(
            nodes,
            self.width,
            1,
            self.height,
            self.width + from as usize,
            at,
        ) {
            Some(leaf) => Some((leaf - self.width) as u32),
            None => None,
        }
    }
}
