//! Counts that saturate.

ghost use Rattle.std.specs.Prelude.{◌≡◌};
ghost use Rattle.mb_model_commands.specs.Outside.{count_after_call as raised_count};

/// One more than the count of a host; saturates at the last value of a `u64`.
#[tactic(auto, unfolding(mb_model_commands::specs::Outside::count_after_call))]
pub fn raised(count: u64) -> u64
    ensures { result ≡ raised_count count }
{
    count.saturating_add(1)
}
