// The law of whole runs, proved over the definitions that the code's contracts cite.
#![tactic(auto)]

ghost use Rattle.law.specs.Law.{RunsFaithful, CallsLeadOn};
ghost use Rattle.law.specs.ShutOut.{LogInsClearNothing, AheadGetsNoGood, LoggedInAcknowledged};

// For every lawful check, limits in range and list of calls on a fresh link: delivered in order, accounted for, agreed.
pub fn runs_are_faithful()
    ensures runs { RunsFaithful }
    ensures calls { CallsLeadOn }
{}

pub fn log_ins_clear_nothing()
    ensures { LogInsClearNothing }
{}

pub fn ahead_gets_no_good()
    ensures { AheadGetsNoGood }
{}

pub fn logged_in_acknowledged()
    ensures { LoggedInAcknowledged }
{}
