//! Laws of requests, as contracts of functions that do nothing.
ghost use Rattle.std.specs.Prelude.{◌≡◌, ◌≢◌, ◌++◌, ℕ, List};
ghost use Rattle.esm_api.specs.Request.{Judgement, Unfinished, IsJudged};

/// Bytes have one judgement: they are unfinished, one row refuses them, or they ask for one command.
pub fn one_judgement()
    ensures { (bytes : List ℕ) (one other : Judgement) → IsJudged bytes one → IsJudged bytes other → one ≡ other }
{}

/// A whole request stays whole, with the same judgement, whatever bytes follow it.
pub fn whole_stays()
    ensures { (bytes more : List ℕ) (judgement : Judgement) → IsJudged bytes judgement → judgement ≢ Unfinished → IsJudged (bytes ++ more) judgement }
{}
