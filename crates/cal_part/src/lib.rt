//! Laws of parts of runs, and of designs that are parts of others.
//!
//! What is known of a design is known of its runs from the top: that a lowered component carries its transactions, that a chain of
//! registers delays. These laws make it known of each instance in a greater design too, where its component may have got another
//! name and stands among others. For instance, of
//!
//!     component part(x: 8) -> (y: 8) { cells { m = std_reg(8); } wires { m.in = x; m.write_en = 1'd1; y = m.out; } }
//!     component main() -> (o: 8) { cells { a = part(); b = part(); } wires { a.x = 8'd5; b.x = a.y; o = b.y; } }
//!
//! the rows of a run of `main`, read with `b.` in front of each name, are a run of `part`: its input `x` is `b.x`, its cell `m` has
//! the states of `b.m`, and where `y` has a Conflict in it, `b.y` has one in the whole. A Conflict at `b.x` is none of the part's:
//! it is `main` that drives it.
//!
//! Parts of runs:
//!
//!     first_rows_are_runs        the first rows of a run are a run (`FirstRowsAreRuns`)
//!     sub_runs                   what is seen of a run below the path of an instance is a run of its component (`SubRuns`),
//!     sub_runs_stop              which stops as the whole does, as far as that can be told (`SubRunsStop`)
//!     conflicts_are_of_instances each Conflict is one of an instance (`ConflictsAreOfInstances`), and
//!     conflicts_below            one of an instance at the path or below it is one of the component there (`ConflictsBelow`)
//!     bare_is_bare               where continuous assignments alone act, so they do below the path (`BareIsBare`);
//!     scheduled_is_bare          so they do where control acts elsewhere alone (`ScheduledIsBare`);
//!     controlled_sub_runs        and where control is below the path, it acts there as the schedule says (`ControlledSubRuns`)
//!
//! Designs that are parts of others:
//!
//!     same_below                 hierarchies whose components differ in their names alone have the same runs (`SameBelow`)
//!     renamed_keeps_rules        other names for components keep C1 to C12 (`RenamedKeepsRules`); `renamed_is_wired`,
//!                                `renamed_is_plain` and `renamed_is_same` say what else they keep
//!     front_keeps_rules          components keep C1 to C12, whatever comes after them (`FrontKeepsRules`); `front_is_wired` and
//!                                `front_is_wired_below` say so of wires
//!     wires_keep_rules           what C1 to C11 ask of a component of wires alone (`WiresKeepRules`); `ranks_show_no_loop` C12
//!     looks_keep_rules           a component keeps C1 to C11 in another design in which it looks the same (`LooksKeepRules`), and
//!     looks_keep_no_loop         C12, where what its cells are made of passes no more on (`LooksKeepNoLoop`)
//!     held_runs                  all together: a design, renamed and with others after it, runs as it did (`HeldRuns`), and
//!     held_conflicts             has the Conflicts of its instances there (`HeldConflicts`)
//!
//! What the layers above use are these laws. There is no code.
#![tactic(auto)]

mod laws;

pub use laws::{
    bare_is_bare, conflicts_are_of_instances, conflicts_below, controlled_sub_runs,
    first_rows_are_runs, front_is_wired, front_is_wired_below, front_keeps_rules, held_conflicts,
    held_runs, looks_keep_no_loop, looks_keep_rules, ranks_show_no_loop, renamed_is_plain,
    renamed_is_same, renamed_is_wired, renamed_keeps_rules, same_below, scheduled_is_bare,
    sub_runs, sub_runs_stop, wires_keep_rules,
};
