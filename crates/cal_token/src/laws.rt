//! What tokens have to do with control that is walked forward.
ghost use Rattle.cal_token.specs.inside.Laws.{TokensWalkControl};

/// In each row tokens let act what control lets act, and end where it ends; in the next row they say what is left of it.
pub fn tokens_walk_control()
    ensures { TokensWalkControl }
{}
