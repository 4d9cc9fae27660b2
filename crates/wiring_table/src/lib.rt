//! The wiring table: which wires, jacks and tape a chart asks for by a plan of it, as a definition.
//!
//! `specs/` says where the items of a chart stand on their wheels, which parts of the machine serve what of it, and has the table, a
//! constructor for each kind of wire and of jack; a setup is wired for a chart if it has these and no others. Nothing here is run:
//! `wire_gen` makes the setup, and the laws of what such a panel does need no more than the table.
#![tactic(auto)]
