//! A scan of an answer for the last member of its outermost object whose key reads as `state`.
ghost use Rattle.std.specs.Prelude.{◌≡◌, ℕ, ◌<◌, ◌+◌, List, ◌∷◌, length, IfOk};
ghost use Rattle.std.specs.Option.{IfSome};
ghost use Rattle.esm_window.specs.Scan.{marks, last_state, outside};
ghost use Rattle.esm_window.specs.Marks.{finds, IsBefore};

use crate::key::is_state;
use crate::part::Part;
use esm_model::OutOfMemory;
use std::alloc::Global;

/// The marks of the member that the scan is in: the place of the brace or comma before its key, and that of its colon.
#[derive(Clone, Copy)]
pub enum Marks {
    Nothing,
    Opened { start: usize },
    Keyed { start: usize, colon: usize },
}

/// The state of a scan, and the colon and the end of the last member so far whose key reads as `state`.
#[derive(Clone, Copy)]
pub struct Scan {
    pub marks: Marks,
    pub found: Option<(usize, usize)>,
}

impl Scan {
    /// The scan after the mark at `place`.
    fn mark(self, alloc: Global, body: &[u8], place: usize) -> Result<Scan, OutOfMemory>
        requires before { IsBefore place self }
        requires within { place < length body.now }
        ensures found { IfOk result (λ scan. (more : List ℕ) → finds body.now self (place ∷ more) ≡ finds body.now scan more) }
        ensures before { IfOk result (λ scan. IsBefore (place + 1) scan) }
    {
        match self.marks {
            Marks::Nothing => Ok(Scan {
                marks: Marks::Opened { start: place },
                found: self.found,
            }),
            Marks::Opened { start } => Ok(Scan {
                marks: Marks::Keyed {
                    start,
                    colon: place,
                },
                found: self.found,
            }),
            Marks::Keyed { start, colon } => {
                let found = is_state(alloc, &body[start + 1..colon])?;
                Ok(Scan {
                    marks: Marks::Opened { start: place },
                    found: if found {
                        Some((colon, place))
                    } else {
                        self.found
                    },
                })
            }
        }
    }
}

/// The places of the colon and of the end of the last member of the outermost object whose key reads as `state`.
pub fn last_state(alloc: Global, body: &[u8]) -> Result<Option<(usize, usize)>, OutOfMemory>
    ensures found { IfOk result (λ found. found ≡ last_state body.now (marks outside 0 0 body.now)) }
    ensures within { IfOk result (λ found. IfSome found (λ p. (p.0 < p.1) × (p.1 < length body.now))) }
{
    let mut scan = Scan {
        marks: Marks::Nothing,
        found: None,
    };
    let mut part = Part::Outside;
    let mut depth = 0;
    for (place, byte) in body.iter().enumerate() {
        if part.is_mark(depth, *byte) {
            scan = scan.mark(alloc, body, place)?;
        }
        depth = part.depth_after(depth, *byte);
        part = part.after(*byte);
    }
    Ok(scan.found)
}
