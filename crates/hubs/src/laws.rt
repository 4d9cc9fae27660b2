//! Laws of the hubs' numbers.

ghost use Rattle.std.specs.Prelude.{◌≡◌, ◌≤◌, ◌↔◌, ℕ, true, Some};
ghost use Rattle.hubs.specs.Hubs.{number_of, is_exit_hub, is_entry_hub};
ghost use Rattle.hubs.specs.declared.hub.Hub.{Hub};

/// Two hubs with one number are one hub; each number 1 to 1936 is that of a hub, and no other number is; the exits have the
/// numbers to 1040, the entries those after.
pub fn hubs_and_numbers_are_one_to_one()
    ensures one { (one other : Hub) (number : ℕ) → number_of one ≡ Some number → number_of other ≡ Some number → one ≡ other }
    ensures each { (number : ℕ) → 1 ≤ number → number ≤ 1936 → (hub : Hub) × (number_of hub ≡ Some number) }
    ensures range { (hub : Hub) (number : ℕ) → number_of hub ≡ Some number → (1 ≤ number) × (number ≤ 1936) }
    ensures exits { (hub : Hub) (number : ℕ) → number_of hub ≡ Some number → is_exit_hub hub ≡ true ↔ (number ≤ 1040) }
    ensures entries { (hub : Hub) (number : ℕ) → number_of hub ≡ Some number → is_entry_hub hub ≡ true ↔ (1041 ≤ number) }
{}
