//! Laws of the drawing.

ghost use Rattle.std.specs.Prelude.{◌≡◌, ◌<◌, ◌≤◌, true};
ghost use Rattle.hubs.specs.Hubs.{is_entry_hub, is_exit_hub, is_hub_in_range};
ghost use Rattle.hubs.specs.declared.hub.Hub.{Hub};
ghost use Rattle.show_drawings.specs.DrawingsWords.PanelDrawing.Blocks.{are_blocks, blocks, height, place_of, width};

/// The blocks of the drawing have all hubs of the panel, each block hubs of its kind, and no two blocks meet.
pub fn blocks_have_all_hubs()
    ensures { are_blocks 0 blocks ≡ true }
{}

/// No two hubs of the panel stand at one place.
pub fn hubs_have_places_of_their_own()
    ensures { (one other : Hub) → is_hub_in_range one ≡ true → is_hub_in_range other ≡ true → place_of one ≡ place_of other → one ≡ other }
{}

/// Each hub of the panel stands on the drawing, with a margin of ten units at least.
pub fn places_are_on_the_drawing()
    ensures right { (hub : Hub) → is_hub_in_range hub ≡ true → (10 ≤ (place_of hub).x) × ((place_of hub).x < width) }
    ensures down { (hub : Hub) → is_hub_in_range hub ≡ true → (10 ≤ (place_of hub).y) × ((place_of hub).y < height) }
{}

/// Each exit stands above each entry.
pub fn exits_stand_above_entries()
    ensures { (exit entry : Hub) → is_exit_hub exit ≡ true → is_entry_hub entry ≡ true → (place_of exit).y < (place_of entry).y }
{}
