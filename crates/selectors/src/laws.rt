//! Laws of the selectors. Each is a function that does nothing: its contract is the law.

ghost use Rattle.std.specs.Prelude.{◌≡◌, ◌&&◌, not, ℕ, Bool, true, false, List, is_some};
ghost use Rattle.card_code.specs.declared.row.Row.TheVariants.{Eleven};
ghost use Rattle.hubs.specs.HubTable.Ranges.{is_within};
ghost use Rattle.hubs.specs.declared.hub.Group.{Group};
ghost use Rattle.hubs.specs.declared.hub.Hub.{Hub};
ghost use Rattle.hubs.specs.declared.hub.Hub.TheVariants.{BAN, BAT, PIN, PIT, PIX, CSD, CSZ};
ghost use Rattle.net.specs.Panel.{contact_of};
ghost use Rattle.net.specs.WholeCycles.{after_points};
ghost use Rattle.net.specs.declared.cycle.Cycle.{Cycle};
ghost use Rattle.net.specs.declared.cycle.Point.{Point};
ghost use Rattle.net.specs.declared.cycle.Point.TheVariants.{C, Row, K};
ghost use Rattle.selectors.specs.Contacts.{balance_closes, has_balance, closed_contacts};
ghost use Rattle.selectors.specs.Indicate.{Latches};
ghost use Rattle.selectors.specs.Pilots.{PilotStates, is_transferred, moves_pilots, no_pilots, pilots_closes, pilots_sensed};
ghost use Rattle.selectors.specs.Splits.{split_closes};
ghost use Rattle.selectors.specs.WholeCycles.{after_cycle};

/// After the run-in or a card cycle a pilot is transferred exactly where its pickup was impulsed at row 11 of this cycle,
/// whatever it was before, and the pickup is forgotten. After any other cycle it is as it was.
pub fn pilots_follow_their_pickups()
    ensures moved { (pilots : PilotStates) (cycle : Cycle) (pictures : Point → Hub → Bool) (pilot : ℕ)
        → moves_pilots cycle ≡ true
        → is_transferred (after_cycle cycle pictures pilots) pilot ≡ (is_within pilot 16 && pictures (Row Eleven) (PIX pilot)) }
    ensures forgotten { (pilots : PilotStates) (cycle : Cycle) (pictures : Point → Hub → Bool)
        → moves_pilots cycle ≡ true
        → (after_cycle cycle pictures pilots).picked_up ≡ no_pilots }
    ensures left { (pilots : PilotStates) (cycle : Cycle) (pictures : Point → Hub → Bool) (pilot : ℕ)
        → moves_pilots cycle ≡ false
        → is_transferred (after_cycle cycle pictures pilots) pilot ≡ is_transferred pilots pilot }
{}

/// Up to the end of a cycle no contact of a pilot moves, whichever points have passed.
pub fn pilots_stand_through_a_cycle()
    ensures { (pilots : PilotStates) (cycle : Cycle) (pictures : Point → Hub → Bool) (before : List Point) (point : Point) (hub : Hub)
        → pilots_closes (after_points pilots_sensed cycle pictures before pilots) cycle point hub ≡ pilots_closes pilots cycle point hub }
{}

/// Of the two contacts of a balance position, and of those of a position of a pilot, exactly one is closed. Of the two
/// contacts of a split at most one is, and none at the control point and at the closing point.
pub fn selectors_lead_to_one_side()
    ensures balance { (latches : List Bool) (group : Group) (position : ℕ)
        → has_balance group position ≡ true
        → balance_closes latches (BAT group position) ≡ not (balance_closes latches (BAN group position)) }
    ensures pilots { (pilots : PilotStates) (cycle : Cycle) (point : Point) (pilot position : ℕ)
        → is_within pilot 16 ≡ true
        → is_within position 3 ≡ true
        → pilots_closes pilots cycle point (PIT pilot position) ≡ not (pilots_closes pilots cycle point (PIN pilot position)) }
    ensures splits { (point : Point) (split : ℕ) → (split_closes point (CSD split) && split_closes point (CSZ split)) ≡ false }
    ensures none_at_control { (hub : Hub) → split_closes C hub ≡ false }
    ensures none_at_closing { (hub : Hub) → split_closes K hub ≡ false }
{}

/// What is closed is a contact: its exit is one that a common hub leads to, or the carry entry of its group.
pub fn closed_contacts_are_contacts()
    ensures { (cycle : Cycle) (point : Point) (pilots : PilotStates) (indicate : Latches) (latches nines : List Bool) (hub : Hub)
        → closed_contacts cycle point pilots indicate latches nines hub ≡ true
        → is_some (contact_of hub) ≡ true }
{}
