// What holds of building and reading blocks together, under every lawful check. The proofs stand apart from the code
// of blocks, over the definitions that its contracts cite.
#![tactic(auto)]

ghost use Rattle.block_law.specs.Theorems.{ReadBuilt, BuiltRead, ChangeShows};

// Reading what was built gives heading and payload back, and building what was read gives the block back.
pub fn building_and_reading_agree()
    ensures read_built { ReadBuilt }
    ensures built_read { BuiltRead }
{}

// A sealed block with exactly one byte changed is never well-formed.
#[tactic(auto, using(crate::proofs::Laws::change_shows))]
pub fn one_change_shows()
    ensures { ChangeShows }
{}
