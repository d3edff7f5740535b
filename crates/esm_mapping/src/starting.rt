// Where a mapping starts to read; the latest position is turned into the moment of its creation.
ghost use Rattle.std.specs.Prelude.{◌≡◌};
ghost use Rattle.esm_mapping.specs.Starts.{is_latest, start_after};

use esm_model::Start;

/// Whether the start is behind all records that there are.
pub fn is_latest(start: Start) -> bool
    ensures { result ≡ is_latest start }
{
    match start {
        Start::Latest => true,
        Start::TrimHorizon => false,
        Start::At(_) => false,
    }
}

/// The start of a mapping that was created at this moment, in milliseconds since 1970.
pub fn start_after(created: u64, start: Start) -> Start
    ensures { result ≡ start_after created start }
{
    match start {
        Start::Latest => Start::At(created),
        Start::TrimHorizon => Start::TrimHorizon,
        Start::At(moment) => Start::At(moment),
    }
}
