ghost use Rattle.eden_model.specs.Histories.{ReplayAppends, LegalAppends, NumbersAppend};

/// The laws of histories: what holds of one history behind another.
pub fn history_laws()
    ensures replay_appends { ReplayAppends }
    ensures numbers_append { NumbersAppend }
    ensures legal_appends { LegalAppends }
{}
