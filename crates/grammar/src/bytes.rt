//! A byte as a displacement.
ghost use Rattle.std.specs.Prelude.{◌≡◌, [], ◌∷◌};
ghost use Rattle.grammar.specs.Answers.{displaced};

/// A byte extended by sign to 32 bits.
#[tactic(auto, unfolding(crate::specs::Answers::displaced, crate::specs::Choice::pick))]
pub fn extended(b: u8) -> u32
    ensures { result ≡ displaced (b ∷ []) }
{
    i32::from(b.cast_signed()).cast_unsigned()
}
