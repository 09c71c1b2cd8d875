//! A true statement, and false ones that pass with the challenge that lets each pass. Each function does nothing: its contract is proved.

ghost use Rattle.std.specs.Prelude.{◌≡◌, ◌≢◌, ◌⊎◌, take, [], ◌∷◌};
ghost use Rattle.field_ext.specs.Field.{K, k_ops};
ghost use Rattle.gkr_layers.specs.declared.verdict.Verdict.TheVariants.{Accepted};
ghost use Rattle.gkr_layers.specs.Acceptance.{true_table, verdict_of};
ghost use Rattle.gkr_layers.specs.Soundness.{IsExceptionalChallenge};
ghost use Rattle.gkr_layers.specs.Examples.{number, zero_for_five, false_round_messages, false_round_challenges, false_line_messages, false_line_challenges, thirteen_for_twelve, true_product_messages, zero_challenges, five_for_five, true_pair_messages, true_pair_challenges, zero_for_five_by_pair, false_pair_messages, false_pair_challenges};
ghost use Rattle.gkr_layers.specs.Places.{value_over};
ghost use Rattle.gkr_layers.specs.Places.Place.{AtBoth};

/// "5 copied is 0" passes with a false message in a round, since the round's challenge is 3; only 0 would let it pass too.
pub fn false_round_passes()
    ensures wrong { zero_for_five.claimed_table ≢ true_table zero_for_five }
    ensures accepted { verdict_of zero_for_five false_round_messages false_round_challenges
        ≡ Accepted }
    ensures exceptional { IsExceptionalChallenge zero_for_five (take 1 false_round_messages)
        (take 1 false_round_challenges) 1 (number 3) }
    ensures other { IsExceptionalChallenge zero_for_five (take 1 false_round_messages)
        (take 1 false_round_challenges) 1 (number 0) }
    ensures no_others { (v : K)
        → IsExceptionalChallenge zero_for_five (take 1 false_round_messages)
        (take 1 false_round_challenges) 1 v → (v ≡ number 0) ⊎ (v ≡ number 3) }
{}

/// "5 copied is 0" passes with a false message of the line, since the line's challenge is 1; no other would let it pass.
pub fn false_line_passes()
    ensures accepted { verdict_of zero_for_five false_line_messages false_line_challenges
        ≡ Accepted }
    ensures exceptional { IsExceptionalChallenge zero_for_five false_line_messages
        (take 3 false_line_challenges) 3 (number 1) }
    ensures no_others { (v : K)
        → IsExceptionalChallenge zero_for_five false_line_messages (take 3 false_line_challenges) 3
        v → v ≡ number 1 }
{}

/// "3 times 4 is 13" passes with the messages of the true product and challenges that are all 0, since the first of them, the
/// coordinate of the output point, is 0; no other would let it pass.
pub fn false_output_passes()
    ensures wrong { thirteen_for_twelve.claimed_table ≢ true_table thirteen_for_twelve }
    ensures accepted { verdict_of thirteen_for_twelve true_product_messages zero_challenges
        ≡ Accepted }
    ensures exceptional { IsExceptionalChallenge thirteen_for_twelve [] [] 0 (number 0) }
    ensures no_others { (v : K) → IsExceptionalChallenge thirteen_for_twelve [] [] 0 v
        → v ≡ number 0 }
{}

/// "5 copied is 5" passes; the last claim is 135.
pub fn true_pair_passes()
    ensures accepted { verdict_of five_for_five true_pair_messages true_pair_challenges ≡ Accepted }
    ensures claim { value_over k_ops five_for_five.input_table
        (AtBoth (number 3 ∷ []) (number 4 ∷ []) (number 6)) ≡ number 135 }
{}

/// "5 copied is 0" passes with a false pair, since the pair's challenge is 2; no other would let it pass.
pub fn false_pair_passes()
    ensures accepted { verdict_of zero_for_five_by_pair false_pair_messages false_pair_challenges
        ≡ Accepted }
    ensures exceptional { IsExceptionalChallenge zero_for_five_by_pair false_pair_messages
        (take 3 false_pair_challenges) 3 (number 2) }
    ensures no_others { (v : K)
        → IsExceptionalChallenge zero_for_five_by_pair false_pair_messages
        (take 3 false_pair_challenges) 3 v → v ≡ number 2 }
{}
