//! Laws of sharing: the two rules hold exactly where no legal transactions make two holds meet.
ghost use Rattle.fil_share.specs.Laws.{FormsAgree, SharingKeepsApart, MeetIsReal, RulesAreExact};

/// Of uses that are apart, F12 says the same for each two of them and for the first start and the last end.
pub fn forms_agree()
    ensures { FormsAgree }
{}

/// Under F10 to F12 no two holds by legal transactions meet.
pub fn sharing_keeps_apart()
    ensures { SharingKeepsApart }
{}

/// The evidence that is told is of a meet by legal transactions, in the row that is told.
pub fn meet_is_real()
    ensures { MeetIsReal }
{}

/// Under F10 the two rules hold exactly where no two holds by legal transactions meet.
pub fn rules_are_exact()
    ensures { RulesAreExact }
{}
