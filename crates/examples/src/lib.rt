// The worked examples, proved.
#![tactic(auto)]

ghost use Rattle.examples.specs.Examples.{Hold};
ghost use Rattle.examples.specs.Links.{LinksHold};

pub fn examples_hold()
    ensures blocks { Hold }
    ensures links { LinksHold }
{}
