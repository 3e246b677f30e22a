//! Laws of the sharing rules: they refuse nothing but designs whose legal transactions hold something twice.
ghost use Rattle.fil_check.specs.Needed.{GapIsReal, MeetingIsReal, RefusedGapIsReal, RefusedMeetingIsReal, SharingRulesAreExact};
ghost use Rattle.fil_check.specs.Units.{GapHasOneMeaning, MeetingHasOneMeaning, SharingGoesByEvents, SharingHasOneMeaning};

/// Where an invocation breaks F11, legal transactions hold an event of its instance twice in the row that the refusal
/// tells: one that starts at row 0, or two that trigger both uses in that row.
pub fn meeting_is_real()
    ensures { MeetingIsReal }
{}

/// Where an invocation keeps F11 and breaks F12, two transactions, so many rows apart as the refusal tells, are legal
/// and hold an event of its instance twice in the row that it tells.
pub fn gap_is_real()
    ensures { GapIsReal }
{}

/// A component that keeps F1 to F10, after components that keep them, keeps F11 and F12 exactly if no legal
/// transactions of it hold an event of an instance twice in a row.
pub fn sharing_rules_are_exact()
    ensures { SharingRulesAreExact }
{}

/// Where a design is refused by F11, such transactions of the component that is told hold an event of the refused
/// invocation's instance twice in the row that is told, by the statements up to the one that is told.
pub fn refused_meeting_is_real()
    ensures { RefusedMeetingIsReal }
{}

/// The same where it is refused by F12: two transactions that start so far apart as the refusal tells.
pub fn refused_gap_is_real()
    ensures { RefusedGapIsReal }
{}

/// At each event of an instance F11 and F12 say of a component's invocations what they say of the holds of one
/// transaction, as `fil_share` judges them.
pub fn sharing_has_one_meaning()
    ensures { SharingHasOneMeaning }
{}

/// A component keeps F11 and F12 exactly if all uses of an event of an instance are on one event of the component, and
/// both rules are kept at each such event.
pub fn sharing_goes_by_events()
    ensures { SharingGoesByEvents }
{}

/// Where F11 is broken there, what the refusal shows is what the first meet of those holds shows.
pub fn meeting_has_one_meaning()
    ensures { MeetingHasOneMeaning }
{}

/// So it is where F12 is broken there.
pub fn gap_has_one_meaning()
    ensures { GapHasOneMeaning }
{}
