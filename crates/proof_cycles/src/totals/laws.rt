//! Laws of the totals of an amount. The functions do nothing: the contract of each is the law.

ghost use Rattle.proof_cycles.specs.TotalsWords.Laws.{ZerosStand, CardGoesIn, TotalIsShown, EmptyLevelPasses, EmptyLevelEnds, GroupsHaveRoom};
ghost use Rattle.proof_cycles.specs.TotalsWords.Examples.{InThreeWheels};

/// Before the first card each total stands for a sum of 0.
pub fn zeros_stand()
    ensures { ZerosStand }
{}

/// A card adds its value to the sum of each level's group.
pub fn a_card_goes_in()
    ensures { CardGoesIn }
{}

/// At the end of a group whose level has a total that the sum fits, the total shows the size of the group's sum, clears, and goes up.
pub fn a_total_is_shown()
    ensures { TotalIsShown }
{}

/// The program cycles of a level without a total leave what the totals hold.
pub fn an_empty_level_passes()
    ensures { EmptyLevelPasses }
{}

/// Where the ended level has no total and the groups below have ended, the totals stand for the cleared sums as they are.
pub fn an_empty_level_ends()
    ensures { EmptyLevelEnds }
{}

/// A counter group has room for each number that is entered into it.
pub fn groups_have_room()
    ensures { GroupsHaveRoom }
{}

/// 5, 5 below 0, and 0 as all nines, in three wheels.
pub fn in_three_wheels()
    ensures { InThreeWheels }
{}
