//! Laws of the grammar: functions without a body, whose contracts are proved.

ghost use Rattle.std.specs.Prelude.{◌≡◌, ℕ, List};
ghost use Rattle.chart_lines.specs.TokensWords.Number.{IsNumber};
ghost use Rattle.chart_lines.specs.TokensWords.Tokens.{HasTokens};

/// A line has one list of tokens at most, and a token is one number at most.
pub fn tokens_are_unambiguous()
    ensures one_division { (line : List ℕ) (one other : List (List ℕ)) → HasTokens line one → HasTokens line other → one ≡ other }
    ensures one_number { (token : List ℕ) (one other : ℕ) → IsNumber token one → IsNumber token other → one ≡ other }
{}
