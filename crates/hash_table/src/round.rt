//! Calls that repeat until they are done, one round after another.
ghost use Rattle.std.specs.Prelude.{◌≡◌, true, false, MatchResult};
ghost use Rattle.hash_table.specs.declared.round.Round.TheVariants.{Again};
ghost use Rattle.hash_table.specs.Refusals.{passes_by};

use crate::refusal::Refusal;

/// The result of one round.
#[derive(Drop)]
pub enum Round<V> {
    /// The call is finished with this answer.
    Finished(Option<V>),
    /// Another round may finish the call.
    Again,
}

/// Makes a round's result of a refused try: `Again` if another try may succeed.
pub(crate) fn after<V>(refusal: Refusal) -> Result<Round<V>, Refusal>
    ensures { MatchResult result (λ r. (r ≡ Again) × (passes_by refusal ≡ true)) (λ e. (e ≡ refusal) × (passes_by refusal ≡ false)) }
{
    if refusal.passes_by() {
        return Ok(Round::Again);
    }
    Err(refusal)
}
